//! What a run leaves, for any number of workers. These functions do nothing: each has a law as its contract.
ghost use Rattle.aff_finish.specs.Laws.{MayFinish, MayStop, MayStopBehind};

/// A run that stops in its stream leaves some first appends of an image.
pub fn may_stop()
    ensures { MayStop }
{}

/// A run that stops behind its stream leaves some first appends of a whole volume.
pub fn may_stop_behind()
    ensures { MayStopBehind }
{}

/// A run that comes to its end leaves a whole volume.
pub fn may_finish()
    ensures { MayFinish }
{}
