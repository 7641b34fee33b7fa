//! One acquisition: a plan's extents from devices into a folder.
ghost use Rattle.std.specs.Prelude.{◌≡◌, ◌<◌, ◌≤◌, ◌++◌, All, length, map, vec_len, IfOk, IfErr, IsTrue};
ghost use Rattle.std.specs.FinMap.{empty};
ghost use Rattle.std.specs.String.{string_bytes};
ghost use Rattle.aff_model.specs.Causes.{Rose};
ghost use Rattle.aff_model.specs.Pieces.{published};
ghost use Rattle.aff_model.specs.Plan.{IsPlan};
ghost use Rattle.aff_spec.specs.Report.{report_text};
ghost use Rattle.aff_finish.specs.HashLines.{hash_lines};
ghost use Rattle.aff_report.specs.Examiners.{examiner_lines};
ghost use Rattle.aff_report.specs.Sessions.{session_lines};
ghost use Rattle.aff_run.specs.Devices.{AreKept, Fits};
ghost use Rattle.aff_run.specs.Ends.{HasFailed, asked};
ghost use Rattle.aff_run.specs.Examiners.{AreTheirOwn};
ghost use Rattle.aff_script.specs.Script.{IsScript};
ghost use Rattle.aff_top.specs.Outcomes.{IsToldAs, Says, shown_examiner};

use crate::ended::Ended;
use crate::fault::Fault;
use aff_finish::Hashes;
use aff_hash::hex_line;
use aff_model::{Case, MAX_SIZE, Plan};
use aff_names::Uuid;
use aff_outside::{Device, Examiner, Folder, Gate, Telling};
use aff_report::{digest_lines, examiner_lines, report, session_lines};
use aff_run::{Acquired, Run, RunEnd};
use aff_script::Script;
use std::alloc::Global;
use std::sync::Wait;
use std::thread::Threads;

/// The lines of the hashes.
fn hashes_text(alloc: Global, hashes: &Hashes) -> Result<String, Fault>
    ensures text { IfOk result (λ text. string_bytes text ≡ hash_lines hashes.now) }
    ensures fault { IfErr result (λ e. e ≡ Fault.Memory) }
{
    let mut lines = digest_lines(alloc, &hashes.linear)?;
    let last = hex_line(alloc, "blockmap", &hashes.block_map)?;
    lines.push_str(last.as_str())?;
    Ok(lines)
}

/// A report with the lines of the sessions, of the examiners and of the hashes behind it.
fn joined(report: String, sessions: &str, examiners: &[u8], hashes: &str) -> Result<Vec<u8>, Fault>
    ensures text { IfOk result (λ text. text.items ≡ string_bytes report ++ (sessions.now ++ (examiners.now ++ hashes.now))) }
    ensures fault { IfErr result (λ e. e ≡ Fault.Memory) }
{
    let mut text = report.into_bytes();
    text.extend_from_slice(sessions.as_bytes())?;
    text.extend_from_slice(examiners)?;
    text.extend_from_slice(hashes.as_bytes())?;
    Ok(text)
}

/// The whole report of a run: its history, what sessions were answered, what examiners found, and the hashes of its volume.
fn report_of<R: Telling>(
    alloc: Global,
    uuid: &Uuid,
    plan: &Plan,
    acquired: &Acquired<R>,
) -> Result<Vec<u8>, Fault>
    ensures text { IfOk result (λ text. text.items ≡ report_text uuid.now plan.now.size (length plan.now.extents) (map published acquired.now.pieces.items)
        ++ (session_lines 1 (map (λ s. s.items) acquired.now.sessions.items) ++ (examiner_lines 1 (map (λ f. f.items) acquired.now.findings.items) ++ hash_lines acquired.now.hashes))) }
    ensures fault { IfErr result (λ e. e ≡ Fault.Memory) }
{
    let text = report(
        alloc,
        uuid.text(),
        plan.size(),
        plan.extents().len(),
        &acquired.pieces,
    )?;
    let sessions = session_lines(alloc, &acquired.sessions)?;
    let examiners = examiner_lines(alloc, &acquired.findings)?;
    let hashes = hashes_text(alloc, &acquired.hashes)?;
    joined(text, sessions.as_str(), &examiners, hashes.as_str())
}

/// What is told of the end of a run.
fn said<R: Telling>(
    alloc: Global,
    uuid: &Uuid,
    plan: &Plan,
    end: &RunEnd<R>,
) -> Result<Vec<u8>, Fault>
    ensures { IsToldAs uuid.now plan.now end.now result }
{
    match end {
        RunEnd::Done(acquired) => report_of(alloc, uuid, plan, acquired),
        RunEnd::Failed => Err(Fault::Folder),
        RunEnd::Damaged {
            chunk,
            recorded,
            found,
        } => Err(Fault::Damaged {
            chunk: *chunk,
            recorded: *recorded,
            found: *found,
        }),
        RunEnd::Memory => Err(Fault::Memory),
    }
}

/// Acquires a plan from devices into a folder, a worker for each device; meanwhile the sessions of a script are answered, and
/// examiners are shown what is published.
pub fn acquire<C: Case + Send + Sync, F: Folder, G: Gate, W: Threads + Wait + Sync>(
    rt: &W,
    alloc: Global,
    uuid: &Uuid,
    plan: &Plan,
    script: &Script,
    devices: Vec<Box<dyn Device>>,
    examiners: Vec<Box<dyn Examiner>>,
    folder: F,
    gate: &G,
) -> Ended<F>
    requires examiners { vec_len examiners ≤ 16 }
    requires count { (0 < vec_len devices) × (vec_len devices ≤ 16) }
    requires devices { All (λ d. Fits C.content plan.now (λ d. device_content d) (λ d. device_block d) (λ d. device_size d) d) devices.items }
    requires plan { IsPlan plan.now.size plan.now.block plan.now.extents }
    requires small { plan.now.size ≤ MAX_SIZE }
    requires script { IsScript plan.now.size script.now }
    requires empty { IsTrue F.tells → F.held folder ≡ empty }
    ensures says { Says C.content F.tells F.Receipt.told (asked uuid.now plan.now (vec_len devices) (vec_len examiners)) script.now
        (map (λ e. shown_examiner (rule e) (text e) (state e)) examiners.items) (map (λ e. shown_examiner (rule e) (text e) (state e)) result.examiners.items) (F.held result.folder) (Rose (F.folder_faults folder) (F.folder_faults result.folder)) (HasFailed F.Peek.peek_faults result.peeks.items) result.outcome }
    ensures later { F.folder_faults folder ≤ F.folder_faults result.folder }
    ensures kept { AreKept (λ d. device_content d) (λ d. device_block d) (λ d. device_size d) (λ d. device_faults d) devices.items result.devices.items }
    ensures own { AreTheirOwn (λ e. rule e) (λ e. text e) examiners.items result.examiners.items }
{
    let Run {
        end,
        devices,
        examiners,
        folder,
        peeks,
    } = aff_run::acquire::<C, F, G, W>(
        rt, alloc, uuid, plan, script, devices, examiners, folder, gate,
    );
    Ended {
        outcome: said(alloc, uuid, plan, &end),
        devices,
        examiners,
        folder,
        peeks,
    }
}
