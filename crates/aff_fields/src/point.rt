//! A point of an index.
ghost use Rattle.std.specs.Prelude.{◌≡◌, ◌%◌, length, map, IfOk, IfErr, OnOk};
ghost use Rattle.std.specs.List.{flat_map};
ghost use Rattle.aff_fields.specs.Point.{FitsPoint, point_bytes, point_of, points_of};
ghost use Rattle.aff_fields.specs.Refused.{IsRaggedLength};

use crate::FieldsError;
use aff_model::Memory;
use byteorder::{ByteOrder, LittleEndian};
use std::alloc::{AllocError, Global};

/// Where a chunk lies in its bevvy: its first byte and its stored length, in bytes.
#[derive(Clone, Copy, Debug, PartialEq, Eq)]
pub struct Point {
    pub at: u64,
    pub len: u32,
}

/// Writes the 12 bytes of a point.
pub fn write_point(point: &Point, out: &mut [u8; 12])
    ensures bytes { out.new ≡ point_bytes point.now }
    ensures fits { FitsPoint point.now }
{
    let Point { at, len } = *point;
    LittleEndian::write_u64(out, at);
    LittleEndian::write_u32(&mut out[8..], len);
}

/// Reads the 12 bytes of a point. All bytes are some point's.
pub fn read_point(bytes: &[u8; 12]) -> Point
    ensures value { result ≡ point_of bytes.now }
    ensures bytes { point_bytes result ≡ bytes.now }
{
    Point {
        at: LittleEndian::read_u64(bytes),
        len: LittleEndian::read_u32(&bytes[8..]),
    }
}

/// Writes points one after another, as an index has them.
pub fn write_points(alloc: Global, points: &[Point]) -> Result<Vec<u8>, Memory>
    ensures bytes { IfOk result (λ v. v.items ≡ flat_map point_bytes points.now) }
    ensures reads_back { IfOk result (λ v. points_of v.items ≡ points.now) }
{
    joined(alloc, points).map_err(|_| Memory)
}

// The fields of all points, one after another.
fn joined(alloc: Global, points: &[Point]) -> Result<Vec<u8>, AllocError>
    ensures bytes { IfOk result (λ v. v.items ≡ flat_map point_bytes points.now) }
    ensures reads_back { IfOk result (λ v. points_of v.items ≡ points.now) }
{
    let mut bytes = Vec::new(alloc);
    let mut field = [0; 12];
    for point in points {
        write_point(point, &mut field);
        bytes.extend_from_slice(&field)?;
    }
    Ok(bytes)
}

/// Reads an index. It is refused as `Ragged` exactly where its length is no multiple of 12.
pub fn read_points(alloc: Global, bytes: &[u8]) -> Result<Vec<Point>, FieldsError>
    ensures whole { OnOk result (length bytes.now % 12 ≡ 0) }
    ensures points { IfOk result (λ v. v.items ≡ points_of bytes.now) }
    ensures bytes { IfOk result (λ v. flat_map point_bytes v.items ≡ bytes.now) }
    ensures refused { IfErr result (IsRaggedLength 12 bytes.now) }
{
    let (fields, rest) = bytes.as_chunks::<12>();
    if !rest.is_empty() {
        return Err(FieldsError::Ragged(bytes.len() as u64));
    }
    let points = read_each(alloc, fields)?;
    Ok(points)
}

// The point of each field.
fn read_each(alloc: Global, fields: &[[u8; 12]]) -> Result<Vec<Point>, AllocError>
    ensures { IfOk result (λ v. v.items ≡ map point_of fields.now) }
{
    fields.iter().map(read_point).collect(alloc)
}
