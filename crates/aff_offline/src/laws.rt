//! How commands over a whole volume end. These functions do nothing: each has a law as its contract.
ghost use Rattle.aff_offline.specs.Laws.{IsFoundSound, IsTaken};

/// Over a folder that tells, has a whole volume and does not fail, no command ends for the words or for the folder.
pub fn a_whole_volume_is_taken()
    ensures { IsTaken }
{}

/// And a volume that holds all that it records is never found unsound.
pub fn a_sound_volume_is_found_sound()
    ensures { IsFoundSound }
{}
