//! Reading a file by whole blocks, each at a multiple of its length.
ghost use Rattle.std.specs.Prelude.{◌≡◌, ◌+◌, ◌%◌, ◌^◌, ◌<◌, ◌≤◌, ℕ, List, Option, None, length, take, drop, IfOk, IfSome, OnOk};
ghost use Rattle.std.specs.Io.{ReadsAtMost};
ghost use Rattle.aff_model.specs.Content.{IsBlock};

use std::fs::File;
use std::io;
use std::io::ErrorKind;
use std::os::unix::fs::FileExt;

/// What is read at an offset, by whole blocks.
pub(crate) trait ReadBlocks {
    /// Its bytes, where it tells them.
    ghost stored: { Self → Option (List ℕ) };

    /// Reads bytes from an offset on to the front of `out`, and gives their number; 0 is the end.
    fn read_some(&self, block: u32, offset: u64, out: &mut [u8]) -> io::Result<usize>
        requires whole { offset % block ≡ 0 }
        requires whole_len { length out.old % block ≡ 0 }
        ensures bound { ReadsAtMost result out.new }
        ensures bytes { IfOk result (λ n. IfSome (stored self.now) (λ xs. take n out.new ≡ take n (drop offset xs))) };
}

impl ReadBlocks for File {
    ghost stored = { λ _. None };

    fn read_some(&self, _block: u32, offset: u64, out: &mut [u8]) -> io::Result<usize> {
        self.read_at(out, offset)
    }
}

/// The bytes of the whole blocks among so many bytes.
fn whole_blocks(count: usize, block: u32) -> usize
    requires { IsBlock block }
    ensures most { result ≤ count }
    ensures whole { result % block ≡ 0 }
{
    count - count % block as usize
}

/// Reads from an offset on until `out` is full. A block that came in part is read again; less than one block is
/// the end.
pub(crate) fn read_blocks<F: ReadBlocks>(
    file: &F,
    block: u32,
    offset: u64,
    out: &mut [u8],
) -> io::Result<()>
    requires block { IsBlock block }
    requires whole { offset % block ≡ 0 }
    requires whole_len { length out.old % block ≡ 0 }
    requires fits { offset + length out.old < 2 ^ 64 }
    ensures { OnOk result (IfSome (F.stored file.now) (λ xs. out.new ≡ take (length out.old) (drop offset xs))) }
{
    let mut done = 0;
    for _ in 0..u64::MAX {
        if done >= out.len() {
            return Ok(());
        }
        match file.read_some(block, offset + done as u64, &mut out[done..]) {
            Ok(count) => {
                let whole = whole_blocks(count, block);
                if whole == 0 {
                    return Err(io::Error::from(ErrorKind::UnexpectedEof));
                }
                done += whole;
            }
            Err(error) if error.kind() == ErrorKind::Interrupted => {}
            Err(error) => return Err(error),
        }
    }
    Err(io::Error::from(ErrorKind::TimedOut))
}
