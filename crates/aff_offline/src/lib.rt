//! The commands over a finished volume, which need no device: `read`, `info` and `verify`. `specs/Outcomes` has the table of
//! how a command may end.
#![tactic(auto)]

mod answer;
mod described;
mod fault;
mod findings;
mod laws;
mod refusals;
mod run;
mod tell;

pub use laws::{a_sound_volume_is_found_sound, a_whole_volume_is_taken};
pub use run::run_offline;
