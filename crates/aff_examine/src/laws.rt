//! What holds of every examiner. These functions do nothing: each has a law as its contract.
ghost use Rattle.aff_examine.specs.Laws.{AreByTheHistory, FoldsGoOn};

use aff_outside::Telling;

/// A fold over pieces, and then over those behind them, is a fold over all.
pub fn folds_go_on<R: Telling>()
    ensures { FoldsGoOn R.receipt_tells R.told }
{}

/// A state by sound pieces is one by their publications: each sight has the extent's bytes, with 0 where a sector could not be
/// read, and over a folder that tells the other bytes are the device's, where these are told.
pub fn states_are_by_the_history<R: Telling>()
    ensures { AreByTheHistory R.receipt_tells R.told }
{}
