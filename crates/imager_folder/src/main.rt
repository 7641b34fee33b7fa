//! The program, and behind its run what stands in the folder that its words name: each segment with its length in
//! bytes.
#![tactic(auto)]

use aff_outside::{FileFolder, Folder};
use std::process::ExitCode;

/// The folder that the program's words name here.
const FOLDER: &str = "evidence";

fn main(rt: HostRuntime) -> ExitCode {
    let status = aff_program::run(rt, &rt);
    let Ok(mut folder) = FileFolder::at(rt, FOLDER) else {
        return ExitCode::FAILURE;
    };
    let Ok(segments) = folder.list() else {
        return ExitCode::FAILURE;
    };
    for segment in &segments {
        if println!(rt; "{} {}", segment.name, segment.len).is_err() {
            return ExitCode::FAILURE;
        }
    }
    ExitCode::from(status)
}
