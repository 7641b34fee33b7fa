//! What the pushes of a whole stream append. The function does nothing: its contract is the law.
ghost use Rattle.aff_blockhash.specs.Pending.{AppendsBevvyByBevvy};

/// Pushing the digests of a stream's chunks in order, and finishing, appends the block hashes of its bevvies
/// one after another, each with the digests of its own chunks in order.
pub fn bevvy_by_bevvy()
    ensures { AppendsBevvyByBevvy }
{}
