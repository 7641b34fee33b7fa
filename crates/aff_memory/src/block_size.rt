//! The two sizes of a device's blocks.
ghost use Rattle.std.specs.Prelude.{◌≡◌};
ghost use Rattle.aff_memory.specs.BlockSizes.{block_bytes};

use aff_model::{LARGE_BLOCK, SECTOR};

/// Whether a device reads sector by sector, or in blocks of eight sectors.
#[derive(Clone, Copy, Debug, PartialEq, Eq)]
pub enum BlockSize {
    Sector,
    Large,
}

impl BlockSize {
    /// In bytes.
    pub fn bytes(self) -> u32
        ensures { result ≡ block_bytes self }
    {
        match self {
            BlockSize::Sector => SECTOR as u32,
            BlockSize::Large => LARGE_BLOCK as u32,
        }
    }
}
