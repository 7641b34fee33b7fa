//! What holds of metadata. This function does nothing: it has a law as its contract.
ghost use Rattle.aff_info.specs.Laws.{ReadsBack};

/// What is stated is read as it was, and no triple is left.
pub fn reads_back()
    ensures { ReadsBack }
{}
