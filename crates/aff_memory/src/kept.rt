//! A segment in memory.
ghost use Rattle.std.specs.Prelude.{◌≡◌, ◌+◌, ◌≤◌, ◌++◌, [], length, take, drop, IfOk, OnOk, OnErr};
ghost use Rattle.std.specs.List.{concat};
ghost use Rattle.std.specs.Ordering.{nat_cmp};
ghost use Rattle.std.specs.Cmp.Lexicographic.{slice_cmp};

use crate::shared_bytes::SharedBytes;
use aff_outside::Segment;
use std::alloc::{AllocError, Global};
use std::cmp::Ordering;
use std::marker::Model;

/// A segment with its appends, which joined are its bytes.
#[derive(Drop)]
pub struct Kept {
    name: String,
    appends: Vec<SharedBytes>,
    len: u64,
}

impl Model for Kept {
    ghost use Rattle.std.specs.Prelude.{◌≡◌, List, ℕ, length};
    ghost use Rattle.std.specs.List.{concat};
    ghost use Rattle.std.specs.String.{string_bytes};

    ghost Value = { List ℕ × List ℕ };

    ghost view = { λ k. (string_bytes k.name, concat k.appends.items) };

    ghost invariant = { λ k. k.len ≡ length (concat k.appends.items) };
}

/// Copies a part of the appends' bytes.
fn copy_appends(appends: &[SharedBytes], at: usize, out: &mut [u8])
    requires { at + length out.old ≤ length (concat appends.now) }
    ensures { out.new ≡ take (length out.old) (drop at (concat appends.now)) }
{
    let mut skip = at;
    let mut filled = 0;
    for shared in appends {
        filled += shared.copy_part(skip, &mut out[filled..]);
        skip = skip.saturating_sub(shared.len());
    }
}

impl Kept {
    fn empty(alloc: Global, name: &str) -> Result<Kept, AllocError>
        ensures { IfOk result (λ kept. kept ≡ (name.now, [])) }
    {
        Ok(Kept {
            name: String::from_str(alloc, name)?,
            appends: Vec::new(alloc),
            len: 0,
        })
    }

    pub fn new(alloc: Global, name: &str, shared: SharedBytes) -> Result<Kept, AllocError>
        ensures { IfOk result (λ kept. kept ≡ (name.now, shared)) }
    {
        let mut kept = Kept::empty(alloc, name)?;
        kept.grow(shared)?;
        Ok(kept)
    }

    /// How a name stands to this segment's.
    pub fn compare(&self, name: &str) -> Ordering
        ensures { result ≡ slice_cmp nat_cmp name.now self.now.0 }
    {
        name.cmp(&self.name.as_str())
    }

    pub fn grow(&mut self, shared: SharedBytes) -> Result<(), AllocError>
        ensures ok { OnOk result (self.new ≡ (self.old.0, self.old.1 ++ shared)) }
        ensures err { OnErr result (self.new ≡ self.old) }
        ensures key { self.new.0 ≡ self.old.0 }
    {
        let Some(len) = self.len.checked_add(shared.len() as u64) else {
            return Err(AllocError);
        };
        self.appends.push(shared)?;
        self.len = len;
        Ok(())
    }

    /// Copies a part of the bytes.
    pub fn copy(&self, at: u64, out: &mut [u8])
        requires { at + length out.old ≤ length self.now.1 }
        ensures { out.new ≡ take (length out.old) (drop at self.now.1) }
    {
        copy_appends(&self.appends, at as usize, out);
    }

    pub fn segment(&self, alloc: Global) -> Result<Segment, AllocError>
        ensures { IfOk result (λ segment. segment ≡ (self.now.0, length self.now.1)) }
    {
        Ok(Segment {
            name: self.name.clone()?,
            len: self.len,
        })
    }
}
