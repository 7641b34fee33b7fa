//! The reading of an extent of a plan.
ghost use Rattle.std.specs.Prelude.{◌≡◌, ◌<◌, ◌≤◌, Some, length, slice_index_or, IfOk, IfSome};
ghost use Rattle.aff_model.specs.declared.extent.Extent.{Extent};
ghost use Rattle.aff_model.specs.Index.{extent_at};
ghost use Rattle.aff_model.specs.Legal.{blocks_in};
ghost use Rattle.aff_outside.specs.Kept.{IsSameDevice};
ghost use Rattle.aff_device.specs.Around.{RoseBy};
ghost use Rattle.aff_extent.specs.Drafts.{IsDraft};

use aff_extent::{Draft, ExtentReader};
use aff_model::{Case, Extent, Memory, Plan};
use aff_outside::Device;

/// Reads the extent of a plan with this number, from a device of the plan's size and block. The reader keeps its bytes. The
/// device's count of faults rises by one at least for each block that could not be read.
pub fn read_planned<C: Case>(
    plan: &Plan,
    number: u32,
    device: &mut dyn Device,
    reader: &mut ExtentReader,
) -> Result<Draft, Memory>
    requires planned { number < length plan.now.extents }
    requires size { device_size device.old ≡ plan.now.size }
    requires block { device_block device.old ≡ plan.now.block }
    requires told { IfSome C.content (λ c. device_content device.old ≡ Some c) }
    ensures draft { IfOk result (λ d. IsDraft C.content plan.now.block (extent_at plan.now.extents number) reader.new d) }
    ensures faults { IfOk result (λ d. RoseBy (blocks_in plan.now.block d.unreadable) (device_faults device.old) (device_faults device.new)) }
    ensures kept { IsSameDevice (λ d. device_content d) (λ d. device_block d) (λ d. device_size d) (λ d. device_faults d) device.old device.new }
{
    reader.read(device, extent_of(plan.extents(), number))
}

// The extent with a number.
fn extent_of(extents: &[Extent], number: u32) -> &Extent
    requires { number < length extents.now }
    ensures { (d : Extent) → result.now ≡ slice_index_or extents.now number d }
{
    &extents[number as usize]
}
