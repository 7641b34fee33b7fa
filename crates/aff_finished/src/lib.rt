//! A finished volume, read back: what joins a run's end with what `aff_volume` and `aff_verify` say of its folder. There is no
//! code here but laws.
#![tactic(auto)]

mod laws;

pub use laws::{
    a_finished_volume_is_as_it_was_acquired, a_finished_volume_is_whole,
    a_folder_that_was_cut_off_opens_in_full_alone,
};
