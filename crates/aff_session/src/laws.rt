//! What holds of every session. This function does nothing: it has a law as its contract.
ghost use Rattle.aff_session.specs.Laws.{AreByTheHistory};

use aff_outside::Telling;

/// Answers by sound pieces are answers by their publications: after as many of them each run is of its kind, and over a folder
/// that tells the digest of a known run is that of the device's bytes, where these are told.
pub fn answers_are_by_the_history<R: Telling>()
    ensures { AreByTheHistory R.receipt_tells R.told }
{}
