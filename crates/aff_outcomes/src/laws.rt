//! What commands say of a finished volume. The function does nothing: it has a law as its contract.
ghost use Rattle.aff_outcomes.specs.Laws.{AnswersAll};

use aff_finished::{a_finished_volume_is_as_it_was_acquired, a_finished_volume_is_whole};

/// Over the folder of a finished volume, where it tells what it holds and where neither it nor the sink fails, `verify` says
/// `sound`, `info` what the run said, and `read` of a range inside the image what was acquired there; a command ends otherwise
/// only for want of memory.
pub fn a_finished_volume_answers()
    ensures { AnswersAll }
{
    a_finished_volume_is_whole();
    a_finished_volume_is_as_it_was_acquired();
}
