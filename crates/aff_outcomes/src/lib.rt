//! What commands say of a finished volume that nobody changed, and what a run leaves. There is no code here but laws, which join
//! how a run may end with how a command over its folder may end.
#![tactic(auto)]

mod laws;
mod runs;

pub use laws::a_finished_volume_answers;
pub use runs::{what_a_run_leaves, what_is_said_of_it};
