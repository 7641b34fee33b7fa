//! Writing a plan.
ghost use Rattle.std.specs.Prelude.{◌≡◌, IfOk};
ghost use Rattle.std.specs.String.{string_bytes};
ghost use Rattle.aff_spec.specs.PlanText.{extent_line, plan_text};

use aff_model::{Extent, Memory, Plan};
use std::alloc::{AllocError, Global};

/// The text of a plan: one line an extent, and no other.
pub fn plan_text(alloc: Global, plan: &Plan) -> Result<Vec<u8>, Memory>
    ensures { IfOk result (λ text. text.items ≡ plan_text plan.now.extents) }
{
    lines(alloc, plan.extents()).map_err(|_| Memory)
}

fn lines(alloc: Global, extents: &[Extent]) -> Result<Vec<u8>, AllocError>
    ensures { IfOk result (λ text. text.items ≡ plan_text extents.now) }
{
    let mut text = Vec::new(alloc);
    for extent in extents {
        text.extend_from_slice(line(alloc, extent)?.as_bytes())?;
    }
    Ok(text)
}

fn line(alloc: Global, extent: &Extent) -> Result<String, AllocError>
    ensures { IfOk result (λ text. string_bytes text ≡ extent_line extent.now) }
{
    let Extent { at, len, priority } = *extent;
    format!(in alloc; "extent {at} {len} {priority}\n")
}
