//! What the words of a command line ask for.

/// What main is to make for the words of a command line. `Acquire` names the word from which on each word is a device,
/// and the bytes of a block by which main is to open it; `Offline` needs no device.
#[derive(Clone, Copy, Debug, PartialEq, Eq)]
pub enum Outside {
    Acquire { first_device: usize, block: u32 },
    Rehearse { mib: u64, workers: u32 },
    Offline,
}

/// What is asked of a finished volume, whose folder is the second word.
#[derive(Clone, Copy, Debug, PartialEq, Eq)]
pub enum Offline {
    /// So many bytes of its image, from an offset on.
    Read { at: u64, len: u64 },
    /// What it says of itself.
    Info,
    /// Whether it holds what it says of itself.
    Verify,
}
