//! An entry of a map.
ghost use Rattle.std.specs.Prelude.{◌≡◌, ◌%◌, length, map, IfOk, IfErr, OnOk};
ghost use Rattle.std.specs.List.{flat_map};
ghost use Rattle.aff_fields.specs.Entry.{FitsEntry, entries_of, entry_bytes, entry_of};
ghost use Rattle.aff_fields.specs.Refused.{IsRaggedLength};

use crate::FieldsError;
use aff_model::Memory;
use byteorder::{ByteOrder, LittleEndian};
use std::alloc::{AllocError, Global};

/// A run of bytes of the image, from `at` on, which a target's bytes from `target_at` on give. `target`
/// is the number of a line of the list of targets, from 0.
#[derive(Clone, Copy, Debug, PartialEq, Eq)]
pub struct Entry {
    pub at: u64,
    pub len: u64,
    pub target_at: u64,
    pub target: u32,
}

/// Writes the 28 bytes of an entry.
pub fn write_entry(entry: &Entry, out: &mut [u8; 28])
    ensures bytes { out.new ≡ entry_bytes entry.now }
    ensures fits { FitsEntry entry.now }
{
    let Entry {
        at,
        len,
        target_at,
        target,
    } = *entry;
    LittleEndian::write_u64(out, at);
    LittleEndian::write_u64(&mut out[8..], len);
    LittleEndian::write_u64(&mut out[16..], target_at);
    LittleEndian::write_u32(&mut out[24..], target);
}

/// Reads the 28 bytes of an entry. All bytes are some entry's.
pub fn read_entry(bytes: &[u8; 28]) -> Entry
    ensures value { result ≡ entry_of bytes.now }
    ensures bytes { entry_bytes result ≡ bytes.now }
{
    Entry {
        at: LittleEndian::read_u64(bytes),
        len: LittleEndian::read_u64(&bytes[8..]),
        target_at: LittleEndian::read_u64(&bytes[16..]),
        target: LittleEndian::read_u32(&bytes[24..]),
    }
}

/// Writes entries one after another, as a map has them.
pub fn write_entries(alloc: Global, entries: &[Entry]) -> Result<Vec<u8>, Memory>
    ensures bytes { IfOk result (λ v. v.items ≡ flat_map entry_bytes entries.now) }
    ensures reads_back { IfOk result (λ v. entries_of v.items ≡ entries.now) }
{
    joined(alloc, entries).map_err(|_| Memory)
}

// The fields of all entries, one after another.
fn joined(alloc: Global, entries: &[Entry]) -> Result<Vec<u8>, AllocError>
    ensures bytes { IfOk result (λ v. v.items ≡ flat_map entry_bytes entries.now) }
    ensures reads_back { IfOk result (λ v. entries_of v.items ≡ entries.now) }
{
    let mut bytes = Vec::new(alloc);
    let mut field = [0; 28];
    for entry in entries {
        write_entry(entry, &mut field);
        bytes.extend_from_slice(&field)?;
    }
    Ok(bytes)
}

/// Reads a map. It is refused as `Ragged` exactly where its length is no multiple of 28.
pub fn read_entries(alloc: Global, bytes: &[u8]) -> Result<Vec<Entry>, FieldsError>
    ensures whole { OnOk result (length bytes.now % 28 ≡ 0) }
    ensures entries { IfOk result (λ v. v.items ≡ entries_of bytes.now) }
    ensures bytes { IfOk result (λ v. flat_map entry_bytes v.items ≡ bytes.now) }
    ensures refused { IfErr result (IsRaggedLength 28 bytes.now) }
{
    let (fields, rest) = bytes.as_chunks::<28>();
    if !rest.is_empty() {
        return Err(FieldsError::Ragged(bytes.len() as u64));
    }
    let entries = read_each(alloc, fields)?;
    Ok(entries)
}

// The entry of each field.
fn read_each(alloc: Global, fields: &[[u8; 28]]) -> Result<Vec<Entry>, AllocError>
    ensures { IfOk result (λ v. v.items ≡ map entry_of fields.now) }
{
    fields.iter().map(read_entry).collect(alloc)
}
