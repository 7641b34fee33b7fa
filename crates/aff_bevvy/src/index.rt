//! The index of a bevvy whose chunks stand one after another.
ghost use Rattle.std.specs.Prelude.{◌≡◌, ◌≤◌, ◌<◌, [], ◌∷◌, IfOk, OnOk, OnErr, IsErrOf, IsTrue};
ghost use Rattle.std.specs.List.{flat_map};
ghost use Rattle.aff_fields.specs.Point.{point_bytes};
ghost use Rattle.aff_model.specs.Causes.{HasCause};
ghost use Rattle.aff_outside.specs.declared.folder.FolderError.TheVariants.{Failed};
ghost use Rattle.aff_spec.specs.Appends.{applied, Reaches};
ghost use Rattle.aff_spec.specs.Bevvies.{index_append};
ghost use Rattle.aff_spec.specs.Streams.{full_points};

use crate::segment;
use aff_fields::{Point, write_points};
use aff_model::Memory;
use aff_names::Urn;
use aff_outside::{Folder, FolderError};
use std::alloc::{AllocError, Global};

/// The points of an index of full chunks.
fn points(alloc: Global, count: u32) -> Result<Vec<Point>, AllocError>
    requires { count ≤ 1024 }
    ensures { IfOk result (λ points. points.items ≡ full_points count) }
{
    (0..count)
        .map(|k| Point {
            at: 32_768 * k as u64,
            len: 32_768,
        })
        .collect(alloc)
}

/// The bytes of an index of full chunks.
fn bytes(alloc: Global, count: u32) -> Result<Vec<u8>, Memory>
    requires { count ≤ 1024 }
    ensures { IfOk result (λ bytes. bytes.items ≡ flat_map point_bytes (full_points count)) }
{
    match points(alloc, count) {
        Ok(points) => write_points(alloc, &points),
        Err(_) => Err(Memory),
    }
}

/// Appends the index of a bevvy of so many chunks.
pub fn append<F: Folder>(
    alloc: Global,
    folder: &mut F,
    stream: &Urn,
    bevvy: u32,
    count: u32,
) -> Result<(), FolderError>
    requires low { bevvy < 100000000 }
    requires few { count ≤ 1024 }
    ensures ok { OnOk result (IsTrue F.tells → F.held folder.new ≡ applied (F.held folder.old) (index_append stream.now bevvy count ∷ [])) }
    ensures part { OnErr result (IsTrue F.tells → Reaches (F.held folder.old) (index_append stream.now bevvy count ∷ []) (F.held folder.new)) }
    ensures cause { HasCause (F.folder_faults folder.old) (F.folder_faults folder.new) (IsErrOf result Failed) }
{
    let index = match bytes(alloc, count) {
        Ok(index) => index,
        Err(Memory) => return Err(FolderError::Memory),
    };
    match segment::append(alloc, folder, stream, bevvy, ".index", &index) {
        Ok(_) => Ok(()),
        Err(fault) => Err(fault),
    }
}
