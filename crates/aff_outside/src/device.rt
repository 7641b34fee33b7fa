//! A device that is read by whole blocks.
ghost use Rattle.std.specs.Prelude.{◌≡◌, ◌+◌, ◌≤◌, ◌%◌, ℕ, Option, length, IfSome, IsErr, OnOk, OnErr};
ghost use Rattle.aff_model.specs.Content.{Content, IsRead, Touches};
ghost use Rattle.aff_model.specs.Causes.{HasCause};

/// A reading failed.
#[derive(Clone, Copy, Debug, PartialEq, Eq)]
pub struct DeviceFailed;

pub trait Device: Send + Drop {
    /// What the device holds, where it tells that.
    ghost device_content: { Self → Option Content };

    /// How many bytes a block of it has.
    ghost device_block: { Self → ℕ };

    /// How many bytes it has.
    ghost device_size: { Self → ℕ };

    /// How often a reading has failed.
    ghost device_faults: { Self → ℕ };

    /// The number of bytes of a block, which no call changes. A content that is told has such blocks.
    fn block(&self) -> u32
        ensures block { result ≡ device_block self.now }
        ensures told { IfSome (device_content self.now) (λ c. c.block ≡ device_block self.now) };

    /// The number of bytes, which no call changes.
    fn size(&self) -> u64
        ensures { result ≡ device_size self.now };

    /// Reads the bytes from offset `at` on, as many as `out` has room for. Both are whole blocks. After a
    /// failure `out` may hold anything. A reading that touches a bad sector fails, and one that touches no weak
    /// sector does not.
    fn read_at(&mut self, at: u64, out: &mut [u8]) -> Result<(), DeviceFailed>
        requires whole { at % device_block self.old ≡ 0 }
        requires whole_len { length out.old % device_block self.old ≡ 0 }
        requires inside { at + length out.old ≤ device_size self.old }
        ensures bytes { OnOk result (IfSome (device_content self.old) (λ c. IsRead c at out.new)) }
        ensures good { OnOk result (IfSome (device_content self.old) (λ c. ¬ (Touches c.bad at (length out.old)))) }
        ensures weak { OnErr result (IfSome (device_content self.old) (λ c. Touches c.weak at (length out.old))) }
        ensures content { device_content self.new ≡ device_content self.old }
        ensures block { device_block self.new ≡ device_block self.old }
        ensures size { device_size self.new ≡ device_size self.old }
        ensures cause { HasCause (device_faults self.old) (device_faults self.new) (IsErr result) };
}
