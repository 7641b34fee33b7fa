//! The tasks of a run, and how they run beside each other.
ghost use Rattle.std.specs.Prelude.{◌≡◌, ◌<◌, ℕ, length, map, slice_index_or, All};
ghost use Rattle.aff_book.specs.Pages.{list_of, run_of, table_of};
ghost use Rattle.aff_run.specs.Tasks.{CanRun, CanWork, HasRun, HasWorked};

use aff_book::Book;
use aff_claim::Claims;
use aff_examine::Examination;
use aff_model::{Case, Named, Plan};
use aff_outside::{Device, Examiner, Folder, Gate};
use aff_session::Session;
use aff_snapshot::Running;
use aff_worker::{WorkEnd, Worker, work};
use std::mem::replace;
use std::sync::{Mutex, Wait};
use std::thread;
use std::thread::Threads;

/// A worker, before its work and behind it. While it works the place is taken.
#[derive(Drop)]
pub(crate) enum Job {
    Ready(Worker),
    Ended(WorkEnd),
    Taken,
}

/// What runs in a thread of its own: a worker, a session with its number, which counts from 1, or an examiner that is shown what
/// is published.
#[derive(Drop)]
pub(crate) enum Task<J, S, X> {
    Work(J),
    Look(u32, S),
    Watch(X),
}

/// A task of a run.
pub(crate) type RunTask<C: Case, F: Folder> = Task<Job, Session<C, F>, Examination<C, F>>;

// Lets a worker work to its end.
fn run_job<C: Case, N: Named, F: Folder, G: Gate, W: Wait>(
    rt: &W,
    claims: &Claims,
    plan: &Plan,
    book: &Mutex<Book<C, N, F>>,
    running: &Running,
    gate: &G,
    job: &mut Job,
)
    requires claims { claims.now.table ≡ table_of (run_of C.Case N.Named) }
    requires plan { plan.now ≡ N.run_plan }
    requires ranking { claims.now.ranking.priorities ≡ map (λ e. e.priority) plan.now.extents }
    requires job { CanWork claims.now N.run_workers C.content plan.now (λ d. (⟦<dyn Device as Device>⟧ d.vtable).device_content d.value) (λ d. (⟦<dyn Device as Device>⟧ d.vtable).device_block d.value) (λ d. (⟦<dyn Device as Device>⟧ d.vtable).device_size d.value) job.old }
    ensures { HasWorked (λ d. (⟦<dyn Device as Device>⟧ d.vtable).device_content d.value) (λ d. (⟦<dyn Device as Device>⟧ d.vtable).device_block d.value) (λ d. (⟦<dyn Device as Device>⟧ d.vtable).device_size d.value) (λ d. (⟦<dyn Device as Device>⟧ d.vtable).device_faults d.value) job.old job.new }
{
    match replace(job, Job::Taken) {
        Job::Ready(worker) => {
            *job = Job::Ended(work(rt, claims, plan, book, running, gate, worker));
        }
        other => *job = other,
    }
}

// Runs a task to its end.
fn run_task<C: Case, N: Named, F: Folder, G: Gate, W: Wait>(
    rt: &W,
    claims: &Claims,
    plan: &Plan,
    book: &Mutex<Book<C, N, F>>,
    running: &Running,
    gate: &G,
    task: &mut RunTask<C, F>,
)
    requires claims { claims.now.table ≡ table_of (run_of C.Case N.Named) }
    requires plan { plan.now ≡ N.run_plan }
    requires ranking { claims.now.ranking.priorities ≡ map (λ e. e.priority) plan.now.extents }
    requires task { CanRun (list_of (run_of C.Case N.Named)) claims.now N.run_workers C.content plan.now (λ d. (⟦<dyn Device as Device>⟧ d.vtable).device_content d.value) (λ d. (⟦<dyn Device as Device>⟧ d.vtable).device_block d.value) (λ d. (⟦<dyn Device as Device>⟧ d.vtable).device_size d.value) task.old }
    ensures { HasRun (list_of (run_of C.Case N.Named)) plan.now F.Receipt.receipt_tells F.Receipt.told F.Peek.peek_faults (λ d. (⟦<dyn Device as Device>⟧ d.vtable).device_content d.value) (λ d. (⟦<dyn Device as Device>⟧ d.vtable).device_block d.value) (λ d. (⟦<dyn Device as Device>⟧ d.vtable).device_size d.value) (λ d. (⟦<dyn Device as Device>⟧ d.vtable).device_faults d.value) (λ e. (⟦<dyn Examiner as Examiner>⟧ e.vtable).rule e.value) (λ e. (⟦<dyn Examiner as Examiner>⟧ e.vtable).text e.value) (λ e. (⟦<dyn Examiner as Examiner>⟧ e.vtable).state e.value) task.old task.new }
{
    match task {
        Task::Work(job) => run_job(rt, claims, plan, book, running, gate, job),
        Task::Look(number, session) => session.live(claims, running, gate, *number),
        Task::Watch(examination) => examination.live(running),
    }
}

/// Runs tasks beside each other, one after another where no thread can be made, and takes the book out of its lock.
pub(crate) fn run_tasks<
    C: Case + Send + Sync,
    N: Named + Send + Sync,
    F: Folder,
    G: Gate,
    W: Threads + Wait + Sync,
>(
    rt: &W,
    claims: &Claims,
    plan: &Plan,
    book: Book<C, N, F>,
    running: &Running,
    gate: &G,
    tasks: &mut [RunTask<C, F>],
) -> Book<C, N, F>
    requires claims { claims.now.table ≡ table_of (run_of C.Case N.Named) }
    requires plan { plan.now ≡ N.run_plan }
    requires ranking { claims.now.ranking.priorities ≡ map (λ e. e.priority) plan.now.extents }
    requires some { 0 < length tasks.old }
    requires tasks { All (CanRun (list_of (run_of C.Case N.Named)) claims.now N.run_workers C.content plan.now (λ d. (⟦<dyn Device as Device>⟧ d.vtable).device_content d.value) (λ d. (⟦<dyn Device as Device>⟧ d.vtable).device_block d.value) (λ d. (⟦<dyn Device as Device>⟧ d.vtable).device_size d.value)) tasks.old }
    ensures count { length tasks.new ≡ length tasks.old }
    ensures each { (k : ℕ) (d : _) → k < length tasks.old → HasRun (list_of (run_of C.Case N.Named)) plan.now F.Receipt.receipt_tells F.Receipt.told F.Peek.peek_faults (λ d. (⟦<dyn Device as Device>⟧ d.vtable).device_content d.value) (λ d. (⟦<dyn Device as Device>⟧ d.vtable).device_block d.value) (λ d. (⟦<dyn Device as Device>⟧ d.vtable).device_size d.value) (λ d. (⟦<dyn Device as Device>⟧ d.vtable).device_faults d.value) (λ e. (⟦<dyn Examiner as Examiner>⟧ e.vtable).rule e.value) (λ e. (⟦<dyn Examiner as Examiner>⟧ e.vtable).text e.value) (λ e. (⟦<dyn Examiner as Examiner>⟧ e.vtable).state e.value) (slice_index_or tasks.old k d) (slice_index_or tasks.new k d) }
{
    let shared = Mutex::new(book);
    let lock = &shared;
    let threads = tasks.len();
    thread::for_each_mut(
        rt,
        tasks,
        threads,
        &|_: usize, task: &mut RunTask<C, F>|
            requires { (claims.now.table ≡ table_of (run_of C.Case N.Named)) × (plan.now ≡ N.run_plan)
                × (claims.now.ranking.priorities ≡ map (λ e. e.priority) plan.now.extents)
                × CanRun (list_of (run_of C.Case N.Named)) claims.now N.run_workers C.content plan.now (λ d. device_content (d.vtable, d.value)) (λ d. device_block (d.vtable, d.value)) (λ d. device_size (d.vtable, d.value)) task.old }
            ensures { HasRun (list_of (run_of C.Case N.Named)) plan.entry.now F.Receipt.receipt_tells F.Receipt.told F.Peek.peek_faults (λ d. device_content (d.vtable, d.value)) (λ d. device_block (d.vtable, d.value)) (λ d. device_size (d.vtable, d.value)) (λ d. device_faults (d.vtable, d.value)) (λ e. rule (e.vtable, e.value)) (λ e. text (e.vtable, e.value)) (λ e. state (e.vtable, e.value)) task.old task.new }
        { run_task(rt, claims, plan, lock, running, gate, task) },
    );
    shared.into_inner()
}
