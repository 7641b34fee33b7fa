//! A device of given bytes, some of whose blocks cannot be read.
ghost use Rattle.std.specs.Prelude.{◌≡◌, ◌&&◌, nat_lt, nat_le, length, Some};
ghost use Rattle.std.specs.List.{list_any};
ghost use Rattle.aff_memory.specs.declared.block_size.BlockSize.TheVariants.{Sector, Large};
ghost use Rattle.aff_memory.specs.BlockSizes.{block_bytes};
ghost use Rattle.aff_memory.specs.Fixed.{fixed_content};

use crate::block_size::BlockSize;
use aff_outside::{Device, DeviceFailed};
use std::marker::Model;

/// Holds given bytes. A reading fails exactly where it touches a bad block.
#[derive(Drop)]
pub struct FixedDevice {
    size: BlockSize,
    bytes: Vec<u8>,
    bad: Vec<u64>,
    faults: u64,
}

impl Model for FixedDevice {
    ghost use Rattle.aff_memory.specs.Fixed.{Fixed};

    ghost Value = { Fixed };

    ghost view = { λ d. record { size = d.size; bytes = d.bytes.items; bad = d.bad.items; faults = d.faults } };
}

impl FixedDevice {
    /// Has blocks of one sector. `bad` lists the sectors that cannot be read, in any order.
    pub fn new(bytes: Vec<u8>, bad: Vec<u64>) -> FixedDevice
        ensures { result ≡ record { size = Sector; bytes = bytes.items; bad = bad.items; faults = 0 } }
    {
        FixedDevice {
            size: BlockSize::Sector,
            bytes,
            bad,
            faults: 0,
        }
    }

    /// Has blocks of 4,096 bytes. `bad` lists the blocks that cannot be read, in any order.
    pub fn blocks(bytes: Vec<u8>, bad: Vec<u64>) -> FixedDevice
        ensures { result ≡ record { size = Large; bytes = bytes.items; bad = bad.items; faults = 0 } }
    {
        FixedDevice {
            size: BlockSize::Large,
            bytes,
            bad,
            faults: 0,
        }
    }
}

/// Whether a listed block lies in a range of blocks.
fn touches(blocks: &[u64], first: u64, end: u64) -> bool
    ensures { result ≡ list_any (λ b. nat_le first b && nat_lt b end) blocks.now }
{
    blocks.iter().any(|b| first <= *b && *b < end)
}

impl Device for FixedDevice {
    ghost device_content = { λ d. Some (fixed_content d) };

    ghost device_block = { λ d. block_bytes d.size };

    ghost device_size = { λ d. length d.bytes };

    ghost device_faults = { λ d. d.faults };

    fn block(&self) -> u32 {
        self.size.bytes()
    }

    fn size(&self) -> u64 {
        self.bytes.len() as u64
    }

    fn read_at(&mut self, at: u64, out: &mut [u8]) -> Result<(), DeviceFailed> {
        let whole = self.bytes.as_slice();
        let start = at as usize;
        let end = start + out.len();
        let block = self.size.bytes() as u64;
        if touches(&self.bad, at / block, end as u64 / block) {
            self.faults = self.faults.saturating_add(1);
            return Err(DeviceFailed);
        }
        out.copy_from_slice(&whole[start..end]);
        Ok(())
    }
}
