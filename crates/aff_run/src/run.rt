//! The run.
ghost use Rattle.std.specs.Prelude.{◌≡◌, ◌+◌, ◌<◌, ◌≤◌, [], All, IsTrue, length, map, vec_capacity, vec_len};
ghost use Rattle.std.specs.FinMap.{empty};
ghost use Rattle.aff_model.specs.Causes.{Rose};
ghost use Rattle.aff_model.specs.Pieces.{published};
ghost use Rattle.aff_model.specs.Plan.{IsPlan};
ghost use Rattle.aff_book.specs.Pages.{list_of, run_of, table_of};
ghost use Rattle.aff_script.specs.Script.{IsScript};
ghost use Rattle.aff_run.specs.Devices.{AreKept, Fits};
ghost use Rattle.aff_run.specs.Ends.{HasFailed, IfDone, Leaves, asked};
ghost use Rattle.aff_run.specs.Examinations.{IsNew};
ghost use Rattle.aff_run.specs.Examiners.{AreExamined, AreTheirOwn};
ghost use Rattle.aff_run.specs.Sessions.{IsFresh};

use crate::closing::{Closed, Onlookers, close};
use crate::crew::{disband, post, seat, staff};
use crate::making::{Made, Room, give_back, give_back_of, make};
use crate::sweep::sweep_by_first;
use crate::tasks::run_tasks;
use crate::{Run, RunEnd};
use aff_book::Book;
use aff_model::{Case, MAX_SIZE, Memory, Named, Plan};
use aff_names::Uuid;
use aff_outside::{Device, Examiner, Folder, FolderError, Gate};
use aff_script::Script;
use aff_snapshot::Running;
use std::alloc::Global;
use std::marker::Brand;
use std::sync::Wait;
use std::thread::Threads;

/// Acquires a plan into a folder in which nothing stands, by as many workers as there are devices, beside which the sessions of
/// the script are answered and the examiners are shown what is published, and finishes the volume with this UUID. What workers
/// leave unpublished is read from the first device. Where memory for the making is refused, or peeks, no task starts. Device
/// failures never end a run, and a fault of a session or an examiner leaves a finished volume. Of several faults the first counts: the
/// folder's, then a session's, in their order, then an examiner's.
pub fn acquire<C: Case + Send + Sync, F: Folder, G: Gate, W: Threads + Wait + Sync>(
    rt: &W,
    alloc: Global,
    volume: &Uuid,
    plan: &Plan,
    script: &Script,
    devices: Vec<Box<dyn Device>>,
    examiners: Vec<Box<dyn Examiner>>,
    folder: F,
    gate: &G,
) -> Run<F>
    requires examiners { vec_len examiners ≤ 16 }
    requires count { (0 < vec_len devices) × (vec_len devices ≤ 16) }
    requires devices { All (λ d. Fits C.content plan.now (λ d. device_content d) (λ d. device_block d) (λ d. device_size d) d) devices.items }
    requires plan { IsPlan plan.now.size plan.now.block plan.now.extents }
    requires small { plan.now.size ≤ MAX_SIZE }
    requires script { IsScript plan.now.size script.now }
    requires empty { IsTrue F.tells → F.held folder ≡ empty }
    ensures leaves { Leaves C.content F.tells F.Receipt.told (asked volume.now plan.now (vec_len devices) (vec_len examiners)) script.now (F.held result.folder)
        (Rose (F.folder_faults folder) (F.folder_faults result.folder)) (HasFailed F.Peek.peek_faults result.peeks.items) result.end }
    ensures later { F.folder_faults folder ≤ F.folder_faults result.folder }
    ensures kept { AreKept (λ d. device_content d) (λ d. device_block d) (λ d. device_size d) (λ d. device_faults d) devices.items result.devices.items }
    ensures examined { IfDone result.end (λ a. AreExamined C.content F.tells plan.now (map published a.pieces.items) (λ e. rule e) (λ e. text e) (λ e. state e) examiners.items result.examiners.items (map (λ f. f.items) a.findings.items)) }
    ensures own { AreTheirOwn (λ e. rule e) (λ e. text e) examiners.items result.examiners.items }
{
    let mut folder = folder;
    let mut peeks = match folder.peeks(script.sessions.len() + examiners.len()) {
        Ok(peeks) => peeks,
        Err(FolderError::Failed) => {
            return Run {
                end: RunEnd::Failed,
                devices,
                examiners,
                folder,
                peeks: Vec::new(alloc),
            };
        }
        Err(FolderError::Memory) => {
            return Run {
                end: RunEnd::Memory,
                devices,
                examiners,
                folder,
                peeks: Vec::new(alloc),
            };
        }
    };
    let workers = devices.len() as u32;
    match make(
        rt,
        alloc,
        plan,
        script,
        workers,
        examiners.len(),
        &mut peeks,
    ) {
        Ok(made) => run_named::<C, Brand, F, G, W>(
            rt, volume, plan, made, devices, examiners, folder, peeks, gate,
        ),
        Err(Memory) => Run {
            end: RunEnd::Memory,
            devices,
            examiners,
            folder,
            peeks,
        },
    }
}

// Runs what was made.
fn run_named<
    C: Case + Send + Sync,
    N: Named + Send + Sync,
    F: Folder,
    G: Gate,
    W: Threads + Wait + Sync,
>(
    rt: &W,
    volume: &Uuid,
    plan: &Plan,
    made: Made<C, F>,
    devices: Vec<Box<dyn Device>>,
    examiners: Vec<Box<dyn Examiner>>,
    folder: F,
    peeks: Vec<F::Peek>,
    gate: &G,
) -> Run<F>
    requires run { (volume.now ≡ N.run_volume) × (plan.now ≡ N.run_plan) × (F.folder_faults folder ≡ N.run_opened) }
    requires claims { made.claims.table ≡ table_of (run_of C.Case N.Named) }
    requires ranking { made.claims.ranking.priorities ≡ map (λ e. e.priority) plan.now.extents }
    requires seat { (made.seat.table ≡ made.claims.table) × (made.seat.view.out ≡ []) }
    requires list { made.publisher ≡ record { list = list_of (run_of C.Case N.Named); pieces = [] } }
    requires count { (0 < vec_len devices) × (vec_len devices ≡ N.run_workers) × (vec_len devices ≤ 16) }
    requires kits { (vec_len made.kits ≡ N.run_workers) × All (λ k. (k.pass.claims ≡ made.claims) × (k.pass.view.number < N.run_workers)) made.kits.items }
    requires sessions { (vec_len made.sessions ≤ 16) × All (λ s. IsFresh plan.now made.claims (list_of (run_of C.Case N.Named)) s) made.sessions.items }
    requires followers { (vec_len examiners ≤ 16) × (vec_len made.followers ≡ vec_len examiners) × All (λ f. IsNew plan.now (list_of (run_of C.Case N.Named)) f) made.followers.items }
    requires none { (made.room.tasks.items ≡ []) × (made.room.devices.items ≡ []) × (made.room.sessions.items ≡ []) × (made.room.examinations.items ≡ []) × (made.room.answers.items ≡ []) × (made.room.examiners.items ≡ [])
        × (peeks.items ≡ []) }
    requires room { (N.run_workers + vec_len made.sessions + vec_len examiners ≤ vec_capacity made.room.tasks) × (N.run_workers + vec_len made.sessions + vec_len examiners ≤ vec_capacity made.room.devices)
        × (N.run_workers + vec_len made.sessions + vec_len examiners ≤ vec_capacity made.room.sessions) × (N.run_workers + vec_len made.sessions + vec_len examiners ≤ vec_capacity made.room.examinations)
        × (vec_len made.sessions ≤ vec_capacity made.room.answers) × (vec_len examiners ≤ vec_capacity made.room.examiners) × (vec_len made.sessions + vec_len examiners ≤ vec_capacity peeks) }
    requires devices { All (λ d. Fits C.content plan.now (λ d. device_content d) (λ d. device_block d) (λ d. device_size d) d) devices.items }
    requires plan { IsPlan plan.now.size plan.now.block plan.now.extents }
    requires small { plan.now.size ≤ MAX_SIZE }
    requires empty { IsTrue F.tells → F.held folder ≡ empty }
    ensures leaves { Leaves C.content F.tells F.Receipt.told (asked volume.now plan.now N.run_workers (vec_len examiners)) (map (λ s. s.requests) made.sessions.items) (F.held result.folder)
        (Rose N.run_opened (F.folder_faults result.folder)) (HasFailed F.Peek.peek_faults result.peeks.items) result.end }
    ensures later { N.run_opened ≤ F.folder_faults result.folder }
    ensures kept { AreKept (λ d. device_content d) (λ d. device_block d) (λ d. device_size d) (λ d. device_faults d) devices.items result.devices.items }
    ensures examined { IfDone result.end (λ a. AreExamined C.content F.tells plan.now (map published a.pieces.items) (λ e. rule e) (λ e. text e) (λ e. state e) examiners.items result.examiners.items (map (λ f. f.items) a.findings.items)) }
    ensures own { AreTheirOwn (λ e. rule e) (λ e. text e) examiners.items result.examiners.items }
{
    let Made {
        alloc,
        claims,
        seat: book_seat,
        publisher,
        kits,
        sessions,
        followers,
        room,
    } = made;
    let mut peeks = peeks;
    let book: Book<C, N, F> = match Book::open(
        rt, alloc, folder, plan, volume, book_seat, publisher,
    ) {
        Ok(book) => book,
        Err(refused) => {
            give_back(sessions, &mut peeks);
            give_back_of(followers, &mut peeks);
            return Run {
                end: RunEnd::Memory,
                devices,
                examiners,
                folder: refused.folder,
                peeks,
            };
        }
    };
    let Room {
        tasks,
        devices: no_devices,
        sessions: no_sessions,
        examinations: no_examinations,
        answers,
        examiners: no_examiners,
    } = room;
    let running = Running::new(devices.len() as u32);
    let tasks = seat(staff::<C, F>(devices, kits, tasks), sessions);
    let mut tasks = post(tasks, followers, examiners);
    let mut book = run_tasks(rt, &claims, plan, book, &running, gate, &mut tasks);
    let (mut devices, sessions, examinations) = disband(
        tasks,
        no_devices,
        no_sessions,
        no_examinations,
    );
    let whole = sweep_by_first(rt, alloc, &claims, plan, &mut book, &mut devices);
    let onlookers = Onlookers {
        sessions,
        examinations,
        answers,
        examiners: no_examiners,
    };
    let Closed {
        end,
        examiners,
        folder,
    } = close(
        rt, alloc, volume, plan, book, whole, &running, onlookers, &mut peeks,
    );
    Run {
        end,
        devices,
        examiners,
        folder,
        peeks,
    }
}
