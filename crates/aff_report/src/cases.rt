//! The definitions, computed on a small report: this function is a law, and does nothing.
ghost use Rattle.std.specs.Prelude.{◌≡◌};
ghost use Rattle.aff_report.specs.Reported.{IsReported, reported_text};
ghost use Rattle.aff_report.specs.Small.{small, small_text};

/// A report with a publication of each kind of run, an answer with each kind of bytes, a session that asks nothing, and a
/// finding.
pub fn a_small_report()
    ensures text { reported_text small ≡ small_text }
    ensures told { IsReported small }
{}
