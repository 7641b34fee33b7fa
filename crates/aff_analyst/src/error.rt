//! Why a read gives nothing.

/// Why a read gives nothing. The range is looked at first, its length before its end.
#[derive(Clone, Copy, Debug, PartialEq, Eq)]
pub enum ReadError {
    /// The range is longer than 1,048,576 bytes.
    TooLong,
    /// The range ends behind the device's end.
    PastEnd,
    /// A fetch failed.
    Failed,
    /// The bytes that were fetched for a chunk have another SHA-256 than its piece records.
    Damaged {
        chunk: u64,
        recorded: [u8; 32],
        found: [u8; 32],
    },
}
