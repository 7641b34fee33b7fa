//! A command over a finished volume.
ghost use Rattle.std.specs.Prelude.{map};
ghost use Rattle.aff_offline.specs.Answered.{IsKept, shown_folder};
ghost use Rattle.aff_offline.specs.Outcomes.{IsOfflineOutcome, IsResult};
ghost use Rattle.aff_offline.specs.Written.{shown_sink};

use crate::answer::answer;
use crate::fault::Fault;
use crate::tell::tell;
use aff_command::offline;
use aff_outside::{Folder, Sink};
use std::alloc::Global;
use std::thread::Threads;

// Does what the words ask for.
fn perform<R: Threads + Sync, F: Folder>(
    rt: &R,
    alloc: Global,
    words: &[&str],
    folder: &mut F,
) -> Result<Vec<u8>, Fault>
    ensures result { IsResult (map (λ w. w.now) words.now) F.tells (shown_folder F.Folder folder.old) (shown_folder F.Folder folder.new) result }
    ensures kept { IsKept F.tells (shown_folder F.Folder folder.old) (shown_folder F.Folder folder.new) }
{
    match offline(words) {
        Some(asked) => answer(rt, alloc, asked, folder),
        None => Err(Fault::Usage),
    }
}

/// Does what the words ask of the volume in a folder, and answers the status: `read FOLDER AT LEN` writes bytes of the
/// image, `info FOLDER` what the volume says of itself, `verify FOLDER` whether it holds that. A fault's line is written in
/// the place of an answer. The words' folder is not looked at: the folder is the one that is handed in, and what it holds
/// stays.
pub fn run_offline<R: Threads + Sync, F: Folder, K: Sink>(
    rt: &R,
    alloc: Global,
    words: &[&str],
    folder: &mut F,
    sink: &mut K,
) -> u8
    ensures outcome { IsOfflineOutcome (map (λ w. w.now) words.now) F.tells (shown_folder F.Folder folder.old) (shown_folder F.Folder folder.new)
        (shown_sink K.Sink sink.old) (shown_sink K.Sink sink.new) result }
{
    let outcome = perform(rt, alloc, words, folder);
    tell(alloc, sink, outcome)
}
