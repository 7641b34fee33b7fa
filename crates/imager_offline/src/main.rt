//! The program four times over one folder: a card is acquired, and then the volume is described, verified and read.
#![tactic(auto)]

use std::process::ExitCode;

const RUNS: [&[&str]; 4] = [
    &[
        "acquire",
        "volume",
        "11111111-2222-4333-8444-555555555555",
        "card.bin",
    ],
    &["info", "volume"],
    &["verify", "volume"],
    &["read", "volume", "508", "12"],
];

fn main(rt: HostRuntime) -> ExitCode {
    for words in RUNS {
        let status = aff_program::run_for(rt, &rt, words);
        if status != 0 {
            return ExitCode::from(status);
        }
    }
    ExitCode::SUCCESS
}
