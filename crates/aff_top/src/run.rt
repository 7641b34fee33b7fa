//! The top call.
ghost use Rattle.std.specs.Prelude.{◌≡◌, ◌≤◌, [], map, vec_len, Some, All, IfSome};
ghost use Rattle.aff_command.specs.Finished.{AreOffline};
ghost use Rattle.aff_command.specs.Devices.{shown};
ghost use Rattle.aff_offline.specs.Answered.{shown_folder};
ghost use Rattle.aff_offline.specs.Outcomes.{IsOfflineOutcome};
ghost use Rattle.aff_offline.specs.Written.{shown_sink};
ghost use Rattle.aff_run.specs.Devices.{AreKept};
ghost use Rattle.aff_run.specs.Examiners.{AreTheirOwn};
ghost use Rattle.aff_top.specs.Outcomes.{IsOutcome, IsResult, facts, output, request, shown_examiner};

use crate::acquire::acquire;
use crate::ended::{End, Ended};
use crate::request::read_request;
use crate::tell::tell;
use aff_command::offline;
use aff_model::Case;
use aff_offline::run_offline;
use aff_outside::{Device, Examiner, Folder, Gate, Sink, Source};
use std::alloc::Global;
use std::sync::Wait;
use std::thread::Threads;

/// Does what the words ask for, with what was handed in.
fn perform<
    C: Case + Send + Sync,
    F: Folder,
    S: Source,
    G: Gate,
    W: Alloc<A = Global> + Threads + Wait + Sync,
>(
    rt: &W,
    words: &[&str],
    devices: Vec<Box<dyn Device>>,
    examiners: Vec<Box<dyn Examiner>>,
    folder: F,
    source: &mut S,
    gate: &G,
) -> Ended<F>
    requires told { IfSome C.content (λ c. All (λ d. device_content d ≡ Some c) devices.items) }
    requires few { vec_len examiners ≤ 16 }
    ensures answer { IsResult (request (map (λ w. w.now) words.now) C.content F.tells F.Receipt.told)
        (facts F.Folder S.Source (map (λ d. shown (device_content d) (device_block d) (device_size d) (device_faults d)) devices.items) devices.items (map (λ e. shown_examiner (rule e) (text e) (state e)) examiners.items) folder source.old [])
        (facts F.Folder S.Source (map (λ d. shown (device_content d) (device_block d) (device_size d) (device_faults d)) result.devices.items) result.devices.items (map (λ e. shown_examiner (rule e) (text e) (state e)) result.examiners.items) result.folder source.new (map (λ p. F.Peek.peek_faults p) result.peeks.items))
        result.outcome }
    ensures kept { AreKept (λ d. device_content d) (λ d. device_block d) (λ d. device_size d) (λ d. device_faults d) devices.items result.devices.items }
    ensures own { AreTheirOwn (λ e. rule e) (λ e. text e) examiners.items result.examiners.items }
{
    let mut folder = folder;
    match read_request(rt.alloc(), words, &devices, &mut folder, source) {
        Ok(asked) => acquire::<C, F, G, W>(
            rt,
            rt.alloc(),
            &asked.uuid,
            &asked.plan,
            &asked.script,
            devices,
            examiners,
            folder,
            gate,
        ),
        Err(fault) => Ended {
            outcome: Err(fault),
            devices,
            examiners,
            folder,
            peeks: Vec::new(rt.alloc()),
        },
    }
}

// Acquires what the words ask for, from devices, and writes what is said of it.
fn run_over_devices<
    C: Case + Send + Sync,
    F: Folder,
    S: Source,
    K: Sink,
    G: Gate,
    W: Alloc<A = Global> + Threads + Wait + Sync,
>(
    rt: &W,
    words: &[&str],
    devices: Vec<Box<dyn Device>>,
    examiners: Vec<Box<dyn Examiner>>,
    folder: F,
    source: &mut S,
    sink: &mut K,
    gate: &G,
) -> End<F>
    requires told { IfSome C.content (λ c. All (λ d. device_content d ≡ Some c) devices.items) }
    requires few { vec_len examiners ≤ 16 }
    ensures outcome { IsOutcome (request (map (λ w. w.now) words.now) C.content F.tells F.Receipt.told)
        (facts F.Folder S.Source (map (λ d. shown (device_content d) (device_block d) (device_size d) (device_faults d)) devices.items) devices.items (map (λ e. shown_examiner (rule e) (text e) (state e)) examiners.items) folder source.old [])
        (facts F.Folder S.Source (map (λ d. shown (device_content d) (device_block d) (device_size d) (device_faults d)) result.devices.items) result.devices.items (map (λ e. shown_examiner (rule e) (text e) (state e)) result.examiners.items) result.folder source.new (map (λ p. F.Peek.peek_faults p) result.peeks.items))
        (output K.Sink sink.old) (output K.Sink sink.new) result.status }
    ensures kept { AreKept (λ d. device_content d) (λ d. device_block d) (λ d. device_size d) (λ d. device_faults d) devices.items result.devices.items }
    ensures own { AreTheirOwn (λ e. rule e) (λ e. text e) examiners.items result.examiners.items }
{
    let Ended {
        outcome,
        devices,
        examiners,
        folder,
        peeks,
    } = perform::<C, F, S, G, W>(rt, words, devices, examiners, folder, source, gate);
    let status = tell(rt.alloc(), sink, &outcome);
    End {
        status,
        devices,
        examiners,
        folder,
        peeks,
    }
}

// Asks the finished volume of a folder, and hands all else back.
fn run_over_volume<F: Folder, K: Sink, W: Alloc<A = Global> + Threads + Sync>(
    rt: &W,
    words: &[&str],
    devices: Vec<Box<dyn Device>>,
    examiners: Vec<Box<dyn Examiner>>,
    folder: F,
    sink: &mut K,
) -> End<F>
    ensures outcome { IsOfflineOutcome (map (λ w. w.now) words.now) F.tells (shown_folder F.Folder folder) (shown_folder F.Folder result.folder) (shown_sink K.Sink sink.old) (shown_sink K.Sink sink.new) result.status }
    ensures devices { result.devices ≡ devices }
    ensures examiners { result.examiners ≡ examiners }
{
    let mut folder = folder;
    let status = run_offline(rt, rt.alloc(), words, &mut folder, sink);
    End {
        status,
        devices,
        examiners,
        folder,
        peeks: Vec::new(rt.alloc()),
    }
}

/// Does what the words ask for, over what is handed in, and answers the status. `acquire` and `acquire4k` read the plan
/// and the script from the source, acquire the plan into the folder, which has to be empty, by a worker for each device,
/// answer the script's sessions and show the examiners what is published while the image grows, and write the report to the sink;
/// a fault's line is written in its place. The words only say by which blocks main opens the devices: the run goes by the blocks that they have. The report
/// has the publications, what each session was answered, what each examiner found, and the hashes of the volume, a line each: MD5,
/// SHA-1, SHA-256 and SHA-512 of all bytes of the image, and the block map hash. It may wait: for the workers, and for the gate.
///
/// `read`, `info` and `verify` ask the finished volume of the folder, as `run_offline` does; they wait for nobody.
pub fn run_words<
    C: Case + Send + Sync,
    F: Folder,
    S: Source,
    K: Sink,
    G: Gate,
    W: Alloc<A = Global> + Threads + Wait + Sync,
>(
    rt: &W,
    words: &[&str],
    devices: Vec<Box<dyn Device>>,
    examiners: Vec<Box<dyn Examiner>>,
    folder: F,
    source: &mut S,
    sink: &mut K,
    gate: &G,
) -> End<F>
    requires told { IfSome C.content (λ c. All (λ d. device_content d ≡ Some c) devices.items) }
    requires few { vec_len examiners ≤ 16 }

    // Unless a finished volume is asked: why the run ended with its status, what it leaves in the folder, and what it wrote.
    ensures outcome { ¬ (AreOffline (map (λ w. w.now) words.now)) → IsOutcome (request (map (λ w. w.now) words.now) C.content F.tells F.Receipt.told)
        (facts F.Folder S.Source (map (λ d. shown (device_content d) (device_block d) (device_size d) (device_faults d)) devices.items) devices.items (map (λ e. shown_examiner (rule e) (text e) (state e)) examiners.items) folder source.old [])
        (facts F.Folder S.Source (map (λ d. shown (device_content d) (device_block d) (device_size d) (device_faults d)) result.devices.items) result.devices.items (map (λ e. shown_examiner (rule e) (text e) (state e)) result.examiners.items) result.folder source.new (map (λ p. F.Peek.peek_faults p) result.peeks.items))
        (output K.Sink sink.old) (output K.Sink sink.new) result.status }

    // Of a finished volume: why the command ended with its status, and what it wrote. Devices, examiners and source stay as they are.
    ensures offline { AreOffline (map (λ w. w.now) words.now)
        → IsOfflineOutcome (map (λ w. w.now) words.now) F.tells (shown_folder F.Folder folder) (shown_folder F.Folder result.folder) (shown_sink K.Sink sink.old) (shown_sink K.Sink sink.new) result.status }
    ensures unused { AreOffline (map (λ w. w.now) words.now) → (result.devices ≡ devices) × (result.examiners ≡ examiners) × (source.new ≡ source.old) }

    // What was handed in comes back, in its order: each examiner with its rule and its text.
    ensures kept { AreKept (λ d. device_content d) (λ d. device_block d) (λ d. device_size d) (λ d. device_faults d) devices.items result.devices.items }
    ensures own { AreTheirOwn (λ e. rule e) (λ e. text e) examiners.items result.examiners.items }
{
    match offline(words) {
        Some(_) => run_over_volume(rt, words, devices, examiners, folder, sink),
        None => run_over_devices::<C, F, S, K, G, W>(
            rt, words, devices, examiners, folder, source, sink, gate,
        ),
    }
}
