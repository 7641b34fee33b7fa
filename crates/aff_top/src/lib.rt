//! The top call: what the words of a command line ask for, over what is handed in. `specs/Outcomes` has the table of how
//! a run may end.
#![tactic(auto)]

mod acquire;
mod ended;
mod fault;
mod request;
mod run;
mod source;
mod tell;
mod text;
mod vacant;

pub use aff_command::{Outside, outside};
pub use aff_offline::run_offline;
pub use ended::End;
pub use run::run_words;
