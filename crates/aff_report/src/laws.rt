//! What holds of reports. This function does nothing: it has a law as its contract.
ghost use Rattle.aff_report.specs.Laws.{TextsDetermineReports};

/// The text of a report determines it: the volume, the history, what sessions were answered, what examiners found, and the
/// hashes can be read from it.
pub fn a_text_determines_its_report()
    ensures { TextsDetermineReports }
{}
