//! What a text asks for: a plan, and the script behind it.
ghost use Rattle.std.specs.Prelude.{◌≡◌, ◌≢◌, ◌≤◌, ◌⊎◌, IfOk, IfErr, IfSome, IsErrOf, length};
ghost use Rattle.std.specs.Io.KnownBytes.{IsAtEnd};
ghost use Rattle.aff_model.specs.Causes.{HasCause};
ghost use Rattle.aff_model.specs.Content.{IsBlock};
ghost use Rattle.aff_model.specs.Plan.{IsPlan};
ghost use Rattle.aff_script.specs.Script.{IsScript};
ghost use Rattle.aff_top.specs.Texts.{HasBadScript, HasScript, IsRefusedAs, IsRefusedFrom, IsRunText};

use crate::fault::{Fault, TextFault};
use crate::source::read_text;
use aff_model::{MAX_TEXT, Plan};
use aff_outside::Source;
use aff_plan::PlanError;
use aff_script::{Script, ScriptError, read_script, split};
use std::alloc::Global;

/// What a text asks for.
#[derive(Drop)]
pub struct Work {
    pub plan: Plan,
    pub script: Script,
}

// What a refused plan is to a run.
fn of_plan(error: PlanError) -> Fault
    ensures { ((error ≡ PlanError.Memory) × (result ≡ Fault.Memory)) ⊎ ((error ≢ PlanError.Memory) × (result ≡ Fault.Text (TextFault.Plan error))) }
{
    match error {
        PlanError::Memory => Fault::Memory,
        error => Fault::Text(TextFault::Plan(error)),
    }
}

// What a refused script is to a run.
fn of_script(error: ScriptError) -> Fault
    ensures { ((error ≡ ScriptError.Memory) × (result ≡ Fault.Memory)) ⊎ ((error ≢ ScriptError.Memory) × (result ≡ Fault.Text (TextFault.Script error))) }
{
    match error {
        ScriptError::Memory => Fault::Memory,
        error => Fault::Text(TextFault::Script(error)),
    }
}

// The script of a text, over a device of a size in bytes.
fn script_of(alloc: Global, text: &[u8], size: u64) -> Result<Script, ScriptError>
    requires short { length text.now ≤ MAX_TEXT }
    ensures script { IfOk result (HasScript size text.now) }
    ensures refused { IfErr result (λ e. e ≢ ScriptError.Memory → HasBadScript size text.now e) }
{
    let (offset, line) = split(text);
    read_script(alloc, &text[offset..], line, size)
}

// The plan and the script of a text, over a device of a size and a block in bytes.
fn work_of(alloc: Global, text: &[u8], size: u64, block: u32) -> Result<Work, Fault>
    requires block { IsBlock block }
    ensures text { IfOk result (λ w. IsRunText size block w.plan.extents w.script text.now) }
    ensures plan { IfOk result (λ w. (w.plan.size ≡ size) × (w.plan.block ≡ block)) }
    ensures refused { IfErr result (λ e. (e ≡ Fault.Memory) ⊎ IsRefusedAs size block text.now e) }
{
    if text.len() > MAX_TEXT {
        return Err(Fault::Text(TextFault::TooLong));
    }
    let plan = match aff_plan::read_plan(alloc, text, size, block) {
        Ok(plan) => plan,
        Err(error) => return Err(of_plan(error)),
    };
    match script_of(alloc, text, size) {
        Ok(script) => Ok(Work { plan, script }),
        Err(error) => Err(of_script(error)),
    }
}

/// The plan and the script that all the text of a source asks for, over a device of a size and a block in bytes.
pub fn read_work<S: Source>(
    alloc: Global,
    source: &mut S,
    size: u64,
    block: u32,
) -> Result<Work, Fault>
    requires block { IsBlock block }
    ensures plan { IfOk result (λ w. IsPlan size block w.plan.extents × (w.plan.size ≡ size) × (w.plan.block ≡ block)) }
    ensures script { IfOk result (λ w. IsScript size w.script) }
    ensures text { IfOk result (λ w. IfSome (S.left source.old) (IsRunText size block w.plan.extents w.script)) }
    ensures whole { IfOk result (λ _. IsAtEnd (S.left source.new)) }
    ensures cause { HasCause (S.source_faults source.old) (S.source_faults source.new) (IsErrOf result Fault.Source) }
    ensures refused { IfErr result (λ e. (e ≡ Fault.Source) ⊎ ((e ≡ Fault.Memory) ⊎ IsRefusedFrom size block (S.left source.old) e)) }
{
    let text = match read_text(alloc, source) {
        Ok(text) => text,
        Err(fault) => return Err(fault),
    };
    work_of(alloc, &text, size, block)
}
