//! A device of given bytes, some of whose sectors fail at first.
ghost use Rattle.std.specs.Prelude.{◌≡◌, ◌↔◌, ◌+◌, ◌≤◌, ◌/◌, ◌%◌, length, map, Some, IsErr, IsTrue, OnOk, OnErr};
ghost use Rattle.aff_model.specs.declared.limits.TheConstants.{SECTOR};
ghost use Rattle.aff_model.specs.Causes.{HasCause};
ghost use Rattle.aff_model.specs.Content.{IsRead, Touches};
ghost use Rattle.aff_memory.specs.Flaked.{flaky_content, still_fails, worn};

use crate::flaky::Flaky;
use aff_model::SECTOR;
use aff_outside::{Device, DeviceFailed};
use std::marker::Model;

/// Holds given bytes, in blocks of one sector. A reading fails exactly where it touches a sector that is to fail still; it counts
/// for each listed sector that it touches.
#[derive(Drop)]
pub struct FlakyDevice {
    bytes: Vec<u8>,
    flaky: Vec<Flaky>,
    faults: u64,
}

impl Model for FlakyDevice {
    ghost use Rattle.aff_memory.specs.Flaked.{Flaked};

    ghost Value = { Flaked };

    ghost view = { λ d. record { bytes = d.bytes.items; flaky = d.flaky.items; faults = d.faults } };
}

impl FlakyDevice {
    pub fn new(bytes: Vec<u8>, flaky: Vec<Flaky>) -> FlakyDevice
        ensures { result ≡ record { bytes = bytes.items; flaky = flaky.items; faults = 0 } }
    {
        FlakyDevice {
            bytes,
            flaky,
            faults: 0,
        }
    }
}

/// Whether a reading of these sectors is to fail.
fn any_fails(flaky: &[Flaky], first: u64, end: u64) -> bool
    ensures { result ≡ still_fails first end flaky.now }
{
    flaky.iter().any(|one| one.still_fails(first, end))
}

/// Counts a reading of these sectors.
fn wear_all(flaky: &mut [Flaky], first: u64, end: u64)
    ensures { flaky.new ≡ map (worn first end) flaky.old }
{
    for one in flaky.iter_mut() {
        one.wear(first, end);
    }
}

impl Device for FlakyDevice {
    ghost device_content = { λ d. Some (flaky_content d) };

    ghost device_block = { λ _. SECTOR };

    ghost device_size = { λ d. length d.bytes };

    ghost device_faults = { λ d. d.faults };

    fn block(&self) -> u32 {
        SECTOR as u32
    }

    fn size(&self) -> u64 {
        self.bytes.len() as u64
    }

    fn read_at(&mut self, at: u64, out: &mut [u8]) -> Result<(), DeviceFailed>
        requires whole { at % SECTOR ≡ 0 }
        requires whole_len { length out.old % SECTOR ≡ 0 }
        requires inside { at + length out.old ≤ length self.old.bytes }
        ensures bytes { OnOk result (IsRead (flaky_content self.old) at out.new) }
        ensures weak { OnErr result (Touches (flaky_content self.old).weak at (length out.old)) }
        ensures content { flaky_content self.new ≡ flaky_content self.old }
        ensures size { length self.new.bytes ≡ length self.old.bytes }
        ensures cause { HasCause self.old.faults self.new.faults (IsErr result) }
        ensures failed { IsErr result ↔ IsTrue (still_fails (at / SECTOR) ((at + length out.old) / SECTOR) self.old.flaky) }
        ensures worn { self.new.flaky ≡ map (worn (at / SECTOR) ((at + length out.old) / SECTOR)) self.old.flaky }
    {
        let whole = self.bytes.as_slice();
        let start = at as usize;
        let end = start + out.len();
        let fails = any_fails(&self.flaky, at / SECTOR, end as u64 / SECTOR);
        wear_all(&mut self.flaky, at / SECTOR, end as u64 / SECTOR);
        if fails {
            self.faults = self.faults.saturating_add(1);
            return Err(DeviceFailed);
        }
        out.copy_from_slice(&whole[start..end]);
        Ok(())
    }
}
