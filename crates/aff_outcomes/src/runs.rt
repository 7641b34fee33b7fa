//! What a run leaves. The functions do nothing: each has laws as its contract.
ghost use Rattle.aff_outcomes.specs.RunLaws.{AnswersAfterwards, LeavesAll, LeavesAsItWas, OpensInFull, PassesNothingOff};

use crate::laws::a_finished_volume_answers;
use aff_finished::a_folder_that_was_cut_off_opens_in_full_alone;

/// By the outcome of `aff_top::run_words`, over a folder with its receipts, a source and devices of any kind: with statuses 2, 3, 4, 8 and 10 the
/// folder is as it was; with 0, 5 and 9, and with 6 where the folder itself did not fail, it is the finished volume of the text's
/// plan. And where it was empty it opens, whatever the status, only where every segment of such a volume is there in full, but
/// perhaps for the last line feed of its metadata.
pub fn what_a_run_leaves<F, S, D, R>()
    ensures refused { LeavesAsItWas F S D R }
    ensures whole { LeavesAll F S D R }
    ensures opens { OpensInFull F S D R }
{
    a_folder_that_was_cut_off_opens_in_full_alone();
}

/// What `aff_offline::run_offline` says of it afterwards, where neither the folder nor the sink fails: of a finished volume what
/// the run acquired; and after any run into an empty folder that, or that there is no volume, or that memory was wanting.
pub fn what_is_said_of_it<F, S, D, R>()
    ensures whole { AnswersAfterwards F S D R }
    ensures any { PassesNothingOff F S D R }
{
    what_a_run_leaves::<F, S, D, R>();
    a_finished_volume_answers();
}
