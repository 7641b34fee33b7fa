//! The imager: a live AFF4 imager over real devices, folders and streams.
#![tactic(auto)]

use std::process::ExitCode;

fn main(rt: HostRuntime) -> ExitCode {
    ExitCode::from(aff_program::run(rt, &rt))
}
