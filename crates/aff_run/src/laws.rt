//! What holds of every run. This function does nothing: it has a law as its contract.
ghost use Rattle.aff_run.specs.Laws.{EventsAreARun};

/// The events of a run, which its report tells, are a run of the core from its first state on: each publication has its claim
/// before it, each read comes where as much was published as it was answered by, and the end where every extent is published.
pub fn events_are_a_run_of_the_core()
    ensures { EventsAreARun }
{}
