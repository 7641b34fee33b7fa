//! What is shown where the words are none of the program's.
use clap::Command;
use std::alloc::{AllocError, Global};

/// A command: its name, what it does, and an example.
struct Told {
    name: &'static str,
    does: &'static str,
}

/// The program's commands.
const COMMANDS: [Told; 5] = [
    Told {
        name: "acquire",
        does: "Copy the planned extents of devices with blocks of 512 bytes into a new volume",
    },
    Told {
        name: "acquire4k",
        does: "The same, of devices with blocks of 4096 bytes",
    },
    Told {
        name: "read",
        does: "Write LEN bytes of a finished volume's image from offset AT on, at most 1048576",
    },
    Told {
        name: "info",
        does: "Say what a finished volume states of itself: its sizes, its gap and its digests",
    },
    Told {
        name: "verify",
        does: "Compare every digest that a finished volume records with what it holds",
    },
];

/// The words of each command with an example, and where more is said.
const WORDS: &str = "Words:
  imager acquire FOLDER UUID DEVICE..     the plan, and what sessions ask, come on standard input
  imager acquire4k FOLDER UUID DEVICE..
  imager read FOLDER AT LEN
  imager info FOLDER
  imager verify FOLDER

Examples:
  imager acquire volume 11111111-2222-4333-8444-555555555555 /dev/sdb < plan > report
  imager acquire4k volume 11111111-2222-4333-8444-555555555555 /dev/sdb < plan > report
  imager read volume 0 512 > first.bin
  imager info volume
  imager verify volume

The manual page imager(1) has plans, sessions, what each exit status means, and limits.";

/// The text of the program's usage: its commands, what each does, and an example of each.
pub fn usage(alloc: Global) -> Result<String, AllocError> {
    let mut program = Command::new(alloc, "imager")
        .about(
            "Copies a storage device into an AFF4 evidence volume, and reads and verifies such volumes",
        )
        .after_help(WORDS)
        .subcommand_required(true)
        .disable_help_subcommand(true);
    for told in &COMMANDS {
        program = program.subcommand(Command::new(alloc, told.name).about(told.does))?;
    }
    program.render_help()
}
