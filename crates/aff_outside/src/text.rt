//! Where the text comes from and where the report goes.
ghost use Rattle.std.specs.Prelude.{◌≡◌, ◌<◌, ◌≤◌, ℕ, Option, List, length, take, OnOk, IsErr, IsErrOf};
ghost use Rattle.std.specs.Io.{ReadsAtMost};
ghost use Rattle.std.specs.Io.KnownBytes.{ReadConsumes, Appends, Keeps};
ghost use Rattle.aff_model.specs.Causes.{HasCause};

/// A reading of the text failed.
#[derive(Clone, Copy, Debug, PartialEq, Eq)]
pub struct SourceFailed;

/// Why a piece of the report was not written: the sink failed, or memory was refused.
#[derive(Clone, Copy, Debug, PartialEq, Eq)]
pub enum SinkError {
    Failed,
    Memory,
}

pub trait Source {
    /// The bytes that are left, where the source tells them.
    ghost left: { Self → Option (List ℕ) };

    /// How often the source has failed.
    ghost source_faults: { Self → ℕ };

    /// Takes bytes from the front of what is left and puts them at the front of `out`. Gives their number;
    /// 0 is the end of input. After a failure nothing was taken.
    fn read(&mut self, out: &mut [u8]) -> Result<usize, SourceFailed>
        requires { 0 < length out.old }
        ensures bound { ReadsAtMost result out.new }
        ensures bytes { ReadConsumes (left self.old) (left self.new) result out.new }
        ensures cause { HasCause (source_faults self.old) (source_faults self.new) (IsErr result) };
}

pub trait Sink {
    /// What was written, where the sink tells that.
    ghost written: { Self → Option (List ℕ) };

    /// How often the sink has failed.
    ghost sink_faults: { Self → ℕ };

    /// Writes all the bytes. After `Failed` a part of them may have been written, from their front; after
    /// `Memory` none was.
    fn write(&mut self, bytes: &[u8]) -> Result<(), SinkError>
        ensures ok { OnOk result (Appends (written self.old) (written self.new) bytes.now) }
        ensures failed { IsErrOf result SinkError.Failed →
            (n : ℕ) × (n ≤ length bytes.now) × Appends (written self.old) (written self.new) (take n bytes.now) }
        ensures memory { IsErrOf result SinkError.Memory → Keeps (written self.old) (written self.new) }
        ensures cause { HasCause (sink_faults self.old) (sink_faults self.new) (IsErrOf result SinkError.Failed) };
}
