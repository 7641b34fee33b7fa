//! Appended bytes, which a folder and its receipts share.
ghost use Rattle.std.specs.Prelude.{◌≡◌, ◌++◌, length, take, drop, IfOk};

use std::alloc::{AllocError, Global};
use std::marker::Model;
use std::sync::Arc;

/// Bytes in shared memory, seen as their list.
#[derive(Drop)]
pub struct SharedBytes {
    bytes: Arc<Vec<u8>>,
}

impl Model for SharedBytes {
    ghost use Rattle.std.specs.Prelude.{List, ℕ};
    ghost use Rattle.std.specs.Arc.{arc_value};

    ghost Value = { List ℕ };

    ghost view = { λ b. (arc_value b.bytes).items };
}

impl SharedBytes {
    pub fn new(alloc: Global, bytes: &[u8]) -> Result<SharedBytes, AllocError>
        ensures { IfOk result (λ shared. shared ≡ bytes.now) }
    {
        let bytes = Arc::new(alloc, bytes.to_vec(alloc)?)?;
        Ok(SharedBytes { bytes })
    }

    /// Another owner of the same bytes.
    pub fn share(&self) -> Result<SharedBytes, AllocError>
        ensures { IfOk result (λ shared. shared ≡ self.now) }
    {
        let bytes = Arc::try_clone(&self.bytes)?;
        Ok(SharedBytes { bytes })
    }

    pub fn bytes(&self) -> &[u8]
        ensures { result.now ≡ self.now }
    {
        self.bytes.as_slice()
    }

    pub fn len(&self) -> usize
        ensures { result ≡ length self.now }
    {
        self.bytes.len()
    }

    /// Copies the bytes behind the first `skip` to the front of `out`, as many as it has room for. Gives their
    /// number.
    pub fn copy_part(&self, skip: usize, out: &mut [u8]) -> usize
        ensures count { result ≡ length (take (length out.old) (drop skip self.now)) }
        ensures bytes { out.new ≡ take (length out.old) (drop skip self.now) ++ drop result out.old }
    {
        let whole = self.bytes();
        let rest = &whole[skip.min(whole.len())..];
        let count = rest.len().min(out.len());
        out[..count].copy_from_slice(&rest[..count]);
        count
    }
}
