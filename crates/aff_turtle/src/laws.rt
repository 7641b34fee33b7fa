//! What holds of the format itself. These functions do nothing: each has a law as its contract.
ghost use Rattle.aff_turtle.specs.Laws.{ReadsBack, SaysOnce, TakesOrRefuses, RefusesOnce, Decides};

/// What is written is in the grammar, with the triples that were written.
pub fn reads_back()
    ensures { ReadsBack }
{}

/// A text says one list of triples at most.
pub fn says_once()
    ensures { SaysOnce }
{}

/// No text that is in the grammar is refused.
pub fn takes_or_refuses()
    ensures { TakesOrRefuses }
{}

/// A text is refused for one reason at most.
pub fn refuses_once()
    ensures { RefusesOnce }
{}

/// Each text is in the grammar, or is refused.
pub fn decides()
    ensures { Decides }
{}
