//! The limits of a run. Lengths are in bytes where nothing else is said.

/// Bytes of a sector, the unit in which unreadable parts of a device are named.
pub const SECTOR: u64 = 512;

/// Bytes of the larger of the two blocks in which devices read; the other is one sector.
pub const LARGE_BLOCK: u64 = 4_096;

/// Bytes of a chunk, the part in which a stream is stored.
pub const CHUNK: u64 = 32_768;

/// Sectors of a chunk.
pub const CHUNK_SECTORS: u64 = 64;

/// Chunks of a bevvy.
pub const BEVVY: u64 = 1_024;

/// The longest extent.
pub const MAX_EXTENT: u64 = 67_108_864;

/// The most chunks of an extent.
pub const MAX_EXTENT_CHUNKS: usize = 2_048;

/// The most extents of a plan.
pub const MAX_EXTENTS: usize = 65_536;

/// The most bytes that a plan's extents have together.
pub const MAX_TOTAL: u64 = 1_099_511_627_776;

/// The most chunks of a plan: those of the most bytes, and a short one more for each extent.
pub const MAX_CHUNKS: u64 = 33_619_968;

/// The most urgent priority.
pub const MAX_PRIORITY: u8 = 9;

/// The largest device.
pub const MAX_SIZE: u64 = 17_592_186_044_416;

/// The most devices, sessions and examiners of a run.
pub const MAX_DEVICES: usize = 16;

pub const MAX_SESSIONS: usize = 16;

pub const MAX_EXAMINERS: usize = 16;

/// The most requests of a session.
pub const MAX_REQUESTS: usize = 1_024;

/// The longest live read.
pub const MAX_READ: u64 = 1_048_576;

/// The most runs of one kind in the answer to a live read.
pub const MAX_RUNS: usize = 2_050;

/// The longest text of plan and script.
pub const MAX_TEXT: usize = 16_777_216;

/// How often a session or an examiner looks in vain before it goes on.
pub const TURNS: u64 = 100_000_000;
