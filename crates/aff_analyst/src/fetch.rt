//! Fetching a stored chunk.
ghost use Rattle.std.specs.Prelude.{◌≡◌, ◌<◌, ◌↔◌, Some, length, IfSome, IfErr, IsErrOf, IsTrue, OnOk, slice_get};
ghost use Rattle.sha2.specs.Sha256.{sha256};
ghost use Rattle.aff_model.specs.Causes.{HasCause};
ghost use Rattle.aff_model.specs.declared.limits.TheConstants as limits;
ghost use Rattle.aff_analyst.specs.Bytes.{IsFetched, IsToldAs};
ghost use Rattle.aff_analyst.specs.Faults.{IsFetchFault};

use crate::ReadError;
use aff_lanes::Sha256Hasher;
use aff_model::Piece;
use aff_outside::{Peek, Telling};

/// Fetches the stored chunk of a number among those of a piece, and holds it against its digest. `chunk` is its number in
/// the stream.
pub fn fetch<R: Telling, P: Peek<R>>(
    peek: &mut P,
    buffer: &mut [u8],
    piece: &Piece<R>,
    stored: usize,
    chunk: u64,
) -> Result<(), ReadError>
    requires room { length buffer.old ≡ limits.CHUNK }
    requires digest { stored < length piece.now.digests }
    requires receipt { stored < length piece.now.receipts }
    requires told { IsTrue R.receipt_tells → IsToldAs R.told piece.now stored }
    ensures fetched { OnOk result (IsFetched R.receipt_tells R.told piece.now stored buffer.new) }
    ensures fault { IfErr result (IsFetchFault R.receipt_tells piece.now stored chunk) }
    ensures cause { HasCause (P.peek_faults peek.old) (P.peek_faults peek.new) (IsErrOf result ReadError.Failed) }
{
    if peek.fetch(&piece.receipts[stored], buffer).is_err() {
        return Err(ReadError::Failed);
    }
    let recorded = piece.digests[stored];
    let found = sum_of(buffer);
    if !is_sum(&found, &recorded) {
        return Err(ReadError::Damaged {
            chunk,
            recorded,
            found,
        });
    }
    Ok(())
}

fn is_sum(found: &[u8; 32], recorded: &[u8; 32]) -> bool
    ensures { IsTrue result ↔ (found.now ≡ recorded.now) }
{
    found == recorded
}

fn sum_of(bytes: &[u8]) -> [u8; 32]
    ensures { result ≡ sha256 bytes.now }
{
    let mut hasher = Sha256Hasher::new();
    hasher.update(bytes);
    hasher.finish()
}
