//! Workers with their devices, and sessions and examiners beside them, from the making of a run to its end.
ghost use Rattle.std.specs.Prelude.{◌≡◌, ◌+◌, ◌-◌, ◌<◌, ◌≤◌, ◌^◌, ◌++◌, [], ℕ, All, map, vec_capacity, vec_len};
ghost use Rattle.aff_claim.specs.Values.{Claiming};
ghost use Rattle.aff_model.specs.Plan.{Planned};
ghost use Rattle.aff_snapshot.specs.Lists.{ListName};
ghost use Rattle.aff_run.specs.Devices.{Fits};
ghost use Rattle.aff_run.specs.Examinations.{IsNew};
ghost use Rattle.aff_run.specs.Sessions.{IsFresh};
ghost use Rattle.aff_run.specs.Tasks.{CanRun, device_in, devices_of, examinations_of, sessions_of};

use crate::tasks::{Job, RunTask, Task};
use aff_claim::Pass;
use aff_examine::{Examination, Follower};
use aff_extent::ExtentReader;
use aff_model::Case;
use aff_order::Order;
use aff_outside::{Device, Examiner, Folder};
use aff_session::Session;
use aff_worker::Worker;

/// What a worker has beside its device.
#[derive(Drop)]
pub(crate) struct Kit {
    pub pass: Pass,
    pub order: Order,
    pub reader: ExtentReader,
}

/// Makes a task of each device with a kit, in their order.
pub(crate) fn staff<C: Case, F: Folder>(
    devices: Vec<Box<dyn Device>>,
    kits: Vec<Kit>,
    room: Vec<RunTask<C, F>>,
) -> Vec<RunTask<C, F>>
    requires count { vec_len devices ≡ vec_len kits }
    requires room { vec_len devices ≤ vec_capacity room }
    requires none { room.items ≡ [] }
    ensures count { vec_len result ≡ vec_len devices }
    ensures room { vec_capacity result ≡ vec_capacity room }
    ensures devices { devices_of result.items ≡ devices.items }
    ensures sessions { sessions_of result.items ≡ [] }
    ensures examinations { examinations_of result.items ≡ [] }
    ensures tasks { (list : ListName) (claims : Claiming) (workers : ℕ) (plan : Planned)
        → All (λ k. (k.pass.claims ≡ claims) × (k.pass.view.number < workers)) kits.items
        → All (λ d. Fits C.content plan (λ d. device_content d) (λ d. device_block d) (λ d. device_size d) d) (devices_of result.items)
        → All (CanRun list claims workers C.content plan (λ d. device_content d) (λ d. device_block d) (λ d. device_size d)) result.items }
{
    let mut kits = kits.into_iter();
    let mut tasks = room;
    for device in devices {
        let Some(
            Kit {
                pass,
                order,
                reader,
            },
        ) = kits.next()
        else {
            unreachable!();
        };
        tasks.push_reserved(Task::Work(Job::Ready(Worker {
            pass,
            device,
            order,
            reader,
        })));
    }
    tasks
}

/// Adds a task for each session behind those of the workers, in their order.
pub(crate) fn seat<C: Case, F: Folder>(
    tasks: Vec<RunTask<C, F>>,
    sessions: Vec<Session<C, F>>,
) -> Vec<RunTask<C, F>>
    requires room { vec_len tasks + vec_len sessions ≤ vec_capacity tasks }
    requires few { vec_len sessions < 2 ^ 32 - 1 }
    requires none { sessions_of tasks.items ≡ [] }
    ensures count { vec_len result ≡ vec_len tasks + vec_len sessions }
    ensures room { vec_capacity result ≡ vec_capacity tasks }
    ensures devices { devices_of result.items ≡ devices_of tasks.items }
    ensures sessions { sessions_of result.items ≡ sessions.items }
    ensures examinations { examinations_of result.items ≡ examinations_of tasks.items }
    ensures tasks { (list : ListName) (claims : Claiming) (workers : ℕ) (plan : Planned)
        → All (CanRun list claims workers C.content plan (λ d. (⟦<dyn Device as Device>⟧ d.vtable).device_content d.value) (λ d. (⟦<dyn Device as Device>⟧ d.vtable).device_block d.value) (λ d. (⟦<dyn Device as Device>⟧ d.vtable).device_size d.value)) tasks.items
        → All (λ s. IsFresh plan claims list s) (sessions_of result.items)
        → All (CanRun list claims workers C.content plan (λ d. (⟦<dyn Device as Device>⟧ d.vtable).device_content d.value) (λ d. (⟦<dyn Device as Device>⟧ d.vtable).device_block d.value) (λ d. (⟦<dyn Device as Device>⟧ d.vtable).device_size d.value)) result.items }
{
    let mut tasks = tasks;
    let mut number = 1;
    for session in sessions {
        tasks.push_reserved(Task::Look(number, session));
        number += 1;
    }
    tasks
}

/// Adds a task for each examiner behind the others, with a follower, in their order.
pub(crate) fn post<C: Case, F: Folder>(
    tasks: Vec<RunTask<C, F>>,
    followers: Vec<Follower<C, F>>,
    examiners: Vec<Box<dyn Examiner>>,
) -> Vec<RunTask<C, F>>
    requires count { vec_len followers ≡ vec_len examiners }
    requires room { vec_len tasks + vec_len examiners ≤ vec_capacity tasks }
    requires none { examinations_of tasks.items ≡ [] }
    ensures count { vec_len result ≡ vec_len tasks + vec_len examiners }
    ensures devices { devices_of result.items ≡ devices_of tasks.items }
    ensures sessions { sessions_of result.items ≡ sessions_of tasks.items }
    ensures examiners { map (λ x. x.examiner) (examinations_of result.items) ≡ examiners.items }
    ensures tasks { (list : ListName) (claims : Claiming) (workers : ℕ) (plan : Planned)
        → All (CanRun list claims workers C.content plan (λ d. (⟦<dyn Device as Device>⟧ d.vtable).device_content d.value) (λ d. (⟦<dyn Device as Device>⟧ d.vtable).device_block d.value) (λ d. (⟦<dyn Device as Device>⟧ d.vtable).device_size d.value)) tasks.items
        → All (λ f. IsNew plan list f) followers.items
        → All (CanRun list claims workers C.content plan (λ d. (⟦<dyn Device as Device>⟧ d.vtable).device_content d.value) (λ d. (⟦<dyn Device as Device>⟧ d.vtable).device_block d.value) (λ d. (⟦<dyn Device as Device>⟧ d.vtable).device_size d.value)) result.items }
{
    let mut followers = followers.into_iter();
    let mut tasks = tasks;
    for examiner in examiners {
        let Some(follower) = followers.next() else {
            unreachable!();
        };
        tasks.push_reserved(Task::Watch(Examination {
            follower,
            examiner,
            fault: None,
        }));
    }
    tasks
}

/// The devices of tasks, the sessions and the examinations, each in their order.
pub(crate) fn disband<C: Case, F: Folder>(
    tasks: Vec<RunTask<C, F>>,
    devices: Vec<Box<dyn Device>>,
    sessions: Vec<Session<C, F>>,
    examinations: Vec<Examination<C, F>>,
) -> (
    Vec<Box<dyn Device>>,
    Vec<Session<C, F>>,
    Vec<Examination<C, F>>,
)
    requires room { (vec_len tasks ≤ vec_capacity devices) × (vec_len tasks ≤ vec_capacity sessions) × (vec_len tasks ≤ vec_capacity examinations) }
    requires none { (devices.items ≡ []) × (sessions.items ≡ []) × (examinations.items ≡ []) }
    ensures devices { result.0.items ≡ devices_of tasks.items }
    ensures sessions { result.1.items ≡ sessions_of tasks.items }
    ensures examinations { result.2.items ≡ examinations_of tasks.items }
{
    let mut devices = devices;
    let mut sessions = sessions;
    let mut examinations = examinations;
    for task in tasks {
        match task {
            Task::Work(job) => release(job, &mut devices),
            Task::Look(_, session) => sessions.push_reserved(session),
            Task::Watch(examination) => examinations.push_reserved(examination),
        }
    }
    (devices, sessions, examinations)
}

// Puts the device of a worker behind the others.
fn release(job: Job, devices: &mut Vec<Box<dyn Device>>)
    requires { vec_len devices.old < vec_capacity devices.old }
    ensures items { devices.new.items ≡ devices.old.items ++ device_in job }
    ensures len { vec_len devices.new ≤ vec_len devices.old + 1 }
    ensures room { vec_capacity devices.new ≡ vec_capacity devices.old }
{
    match job {
        Job::Ready(worker) => devices.push_reserved(worker.device),
        Job::Ended(end) => devices.push_reserved(end.device),
        Job::Taken => {}
    }
}
