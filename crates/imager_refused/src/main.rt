//! The program over a plan whose extents overlap: it ends with the status of a refused plan.
#![tactic(auto)]

use std::process::ExitCode;

fn main(rt: HostRuntime) -> ExitCode {
    ExitCode::from(aff_program::run(rt, &rt))
}
