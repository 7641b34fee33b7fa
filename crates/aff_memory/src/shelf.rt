//! Segments in memory, sorted by name.
ghost use Rattle.std.specs.Prelude.{◌≡◌, ◌+◌, ◌≤◌, length, map as list_map, take, drop, IfOk, IfErr, OnOk, OnErr, IsTrue};
ghost use Rattle.std.specs.Ordering.{nat_cmp};
ghost use Rattle.std.specs.Cmp.Lexicographic.{slice_cmp};
ghost use Rattle.std.specs.FinMap as map;
ghost use Rattle.aff_model.specs.Held.{appended, bytes_of, IsInside, lengths};
ghost use Rattle.aff_memory.specs.Shelf.{StandsAt, IsGap};

use crate::kept::Kept;
use crate::shared_bytes::SharedBytes;
use aff_outside::Segment;
use std::alloc::{AllocError, Global};
use std::cmp::Ordering;
use std::marker::Model;

/// The index of a name among sorted segments, or the index at which it is missing.
fn index_of(kept: &[Kept], name: &str) -> Result<usize, usize>
    requires { IsTrue (map.is_sorted (slice_cmp nat_cmp) kept.now) }
    ensures found { IfOk result (StandsAt kept.now name.now) }
    ensures missing { IfErr result (IsGap kept.now name.now) }
{
    for (i, one) in kept.iter().enumerate() {
        match one.compare(name) {
            Ordering::Less => return Err(i),
            Ordering::Equal => return Ok(i),
            Ordering::Greater => {}
        }
    }
    Err(kept.len())
}

/// Each segment's name and length, in order.
fn list_of(alloc: Global, kept: &[Kept]) -> Result<Vec<Segment>, AllocError>
    ensures { IfOk result (λ segments. segments.items ≡ list_map (λ e. (e.0, length e.1)) kept.now) }
{
    let mut segments = Vec::new(alloc);
    for one in kept {
        segments.push(one.segment(alloc)?)?;
    }
    Ok(segments)
}

/// Segments, seen as the map from their names to their bytes.
#[derive(Drop)]
pub struct Shelf {
    alloc: Global,
    kept: Vec<Kept>,
}

impl Model for Shelf {
    ghost use Rattle.std.specs.Prelude.{IsTrue};
    ghost use Rattle.std.specs.Ordering.{nat_cmp};
    ghost use Rattle.std.specs.Cmp.Lexicographic.{slice_cmp};
    ghost use Rattle.std.specs.FinMap as map;
    ghost use Rattle.aff_model.specs.Held.{Held};
    ghost use Rattle.aff_memory.specs.Shelf.{held_code, folder_of};

    ghost Value = { Held };

    ghost coded = { held_code };

    ghost view = { λ s. folder_of s.kept.items };

    ghost invariant = { λ s. IsTrue (map.is_sorted (slice_cmp nat_cmp) s.kept.items) };
}

impl Shelf {
    pub fn new(alloc: Global) -> Shelf
        ensures { result ≡ map.empty }
    {
        Shelf {
            alloc,
            kept: Vec::new(alloc),
        }
    }

    pub fn append(&mut self, name: &str, shared: SharedBytes) -> Result<(), AllocError>
        ensures ok { OnOk result (self.new ≡ appended self.old name.now shared) }
        ensures err { OnErr result (self.new ≡ self.old) }
    {
        match index_of(&self.kept, name) {
            Ok(i) => self.kept[i].grow(shared),
            Err(i) => {
                let one = Kept::new(self.alloc, name, shared)?;
                self.kept.insert(i, one).map_err(AllocError::from)
            }
        }
    }

    pub fn read_at(&self, name: &str, at: u64, out: &mut [u8])
        requires { IsInside self.now name.now at (length out.old) }
        ensures { out.new ≡ take (length out.old) (drop at (bytes_of self.now name.now)) }
    {
        match index_of(&self.kept, name) {
            Ok(i) => self.kept[i].copy(at, out),
            Err(_) => unreachable!(),
        }
    }

    pub fn list(&self) -> Result<Vec<Segment>, AllocError>
        ensures { IfOk result (λ segments. segments.items ≡ lengths self.now) }
    {
        list_of(self.alloc, &self.kept)
    }
}
