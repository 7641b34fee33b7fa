//! What holds of what a run left, where nobody changed it. These functions do nothing: each has laws as its contract.
ghost use Rattle.aff_finished.specs.Laws.{
  IsNowhereDamaged,
  IsRefusedForNothing,
  IsSoundThroughout,
  IsThereWhole,
  NamesNothing,
  OpensInFull,
  ReadsAsAcquired,
  SaysTheSame,
};

use aff_bevvy::laws::written_is_read;

/// The folder of a finished volume, where it tells what it holds, has a whole volume, with the last line feed of its metadata or
/// without. So no named refusal holds of it: `aff_volume::Volume::open` and `aff_verify::verify` answer Ok, or with a failure of
/// the folder or want of memory.
pub fn a_finished_volume_is_whole()
    ensures whole { IsThereWhole }
    ensures unrefused { IsRefusedForNothing }
{
    written_is_read();
}

/// What is opened of it has the metadata of the run, agrees with all that it records, so that `aff_verify::verify` finds it
/// sound, and reads as what was acquired: `aff_volume::Volume::read` never meets a damaged chunk.
pub fn a_finished_volume_is_as_it_was_acquired()
    ensures info { SaysTheSame }
    ensures sound { IsSoundThroughout }
    ensures content { ReadsAsAcquired }
    ensures undamaged { IsNowhereDamaged }
{}

/// A run that was stopped leaves some first appends of a volume, perhaps with a part of the next one. Its folder, where it tells
/// what it holds, opens only where all appends were made, but perhaps for the last line feed of the metadata: so everything above
/// holds of it. Metadata that are cut off before that name no volume.
pub fn a_folder_that_was_cut_off_opens_in_full_alone()
    ensures metadata { NamesNothing }
    ensures opens { OpensInFull }
{}
