//! What a run is made of, before anything is read.
ghost use Rattle.std.specs.Prelude.{◌≡◌, ◌+◌, ◌-◌, ◌<◌, ◌≤◌, ◌^◌, [], IfOk, IfSome, All, length, map, vec_capacity, vec_len};
ghost use Rattle.aff_claim.specs.Values.{Claiming};
ghost use Rattle.aff_script.specs.Script.{IsScript, IsSession};
ghost use Rattle.aff_snapshot.specs.Lists.{ListName};
ghost use Rattle.aff_run.specs.Examinations.{IsNew};
ghost use Rattle.aff_run.specs.Sessions.{IsFresh};

use crate::crew::Kit;
use crate::tasks::RunTask;
use aff_claim::{BookSeat, Claims};
use aff_examine::{Examination, Follower};
use aff_extent::ExtentReader;
use aff_model::{Case, Memory, Plan};
use aff_order::{Order, orders};
use aff_outside::{Device, Examiner, Folder};
use aff_plan::order;
use aff_script::{Answer, Script};
use aff_session::Session;
use aff_snapshot::{Publisher, Viewer, open};
use std::alloc::Global;
use std::sync::Wait;

/// All that a run takes memory for before its book is opened: its claim table with the book's seat, its list, a kit for each
/// worker, the sessions, a follower for each examiner, and room.
#[derive(Drop)]
pub(crate) struct Made<C: Case, F: Folder> {
    pub alloc: Global,
    pub claims: Claims,
    pub seat: BookSeat,
    pub publisher: Publisher<C, F::Receipt>,
    pub kits: Vec<Kit>,
    pub sessions: Vec<Session<C, F>>,
    pub followers: Vec<Follower<C, F>>,
    pub room: Room<C, F>,
}

/// Room for the tasks, for the devices, sessions and examinations that come back of them, for what the sessions were answered, and
/// for the examiners.
#[derive(Drop)]
pub(crate) struct Room<C: Case, F: Folder> {
    pub tasks: Vec<RunTask<C, F>>,
    pub devices: Vec<Box<dyn Device>>,
    pub sessions: Vec<Session<C, F>>,
    pub examinations: Vec<Examination<C, F>>,
    pub answers: Vec<Vec<Answer>>,
    pub examiners: Vec<Box<dyn Examiner>>,
}

/// Makes a run for so many workers and examiners, and takes a peek for each session of the script and each examiner; where it is
/// refused, they come back. Of what can be refused the list comes last but for the sessions and followers, since one that is let go
/// is leaked.
pub(crate) fn make<C: Case, F: Folder, W: Wait>(
    rt: &W,
    alloc: Global,
    plan: &Plan,
    script: &Script,
    workers: u32,
    examiners: usize,
    peeks: &mut Vec<F::Peek>,
) -> Result<Made<C, F>, Memory>
    requires few { (workers ≤ 16) × (examiners ≤ 16) }
    requires script { IsScript plan.now.size script.now }
    requires peeks { vec_len peeks.old ≡ length script.now + examiners }
    ensures claims { IfOk result (λ m. (m.claims.table.extents ≡ length plan.now.extents) × (m.claims.table.workers ≡ workers)) }
    ensures ranking { IfOk result (λ m. m.claims.ranking.priorities ≡ map (λ e. e.priority) plan.now.extents) }
    ensures seat { IfOk result (λ m. (m.seat.table ≡ m.claims.table) × (m.seat.view.out ≡ [])) }
    ensures list { IfOk result (λ m. (m.publisher.list.plan ≡ plan.now) × (m.publisher.pieces ≡ [])) }
    ensures count { IfOk result (λ m. vec_len m.kits ≡ workers) }
    ensures kits { IfOk result (λ m. All (λ k. (k.pass.claims ≡ m.claims) × (k.pass.view.number < workers)) m.kits.items) }
    ensures sessions { IfOk result (λ m. All (λ s. IsFresh plan.now m.claims m.publisher.list s) m.sessions.items) }
    ensures script { IfOk result (λ m. map (λ s. s.requests) m.sessions.items ≡ script.now) }
    ensures followers { IfOk result (λ m. (vec_len m.followers ≡ examiners) × All (λ f. IsNew plan.now m.publisher.list f) m.followers.items) }
    ensures none { IfOk result (λ m. (m.room.tasks.items ≡ []) × (m.room.devices.items ≡ []) × (m.room.sessions.items ≡ []) × (m.room.examinations.items ≡ [])
        × (m.room.answers.items ≡ []) × (m.room.examiners.items ≡ [])) }
    ensures room { IfOk result (λ m. (workers + length script.now + examiners ≤ vec_capacity m.room.tasks) × (workers + length script.now + examiners ≤ vec_capacity m.room.devices)
        × (workers + length script.now + examiners ≤ vec_capacity m.room.sessions) × (workers + length script.now + examiners ≤ vec_capacity m.room.examinations)
        × (length script.now ≤ vec_capacity m.room.answers) × (examiners ≤ vec_capacity m.room.examiners)) }
    ensures peeks { IfOk result (λ _. (peeks.new.items ≡ []) × (length script.now + examiners ≤ vec_capacity peeks.new)) }
{
    let sessions = script.sessions.len();
    let readers = (sessions + examiners) as u32;
    let (claims, mut seat) = Claims::new(alloc, plan, workers)?;
    let orders = orders_of(alloc, plan, workers)?;
    let kits = kits_of(alloc, &claims, &mut seat, plan, orders)?;
    let room = room_for(alloc, workers as usize, sessions, examiners)?;
    let (publisher, viewers) = open(rt, alloc, plan, readers)?;
    match readers_of(
        alloc, plan, script, examiners, &claims, &mut seat, viewers, peeks,
    ) {
        Ok((sessions, followers)) => Ok(Made {
            alloc,
            claims,
            seat,
            publisher,
            kits,
            sessions,
            followers,
            room,
        }),
        Err(Memory) => {
            publisher.end(rt);
            Err(Memory)
        }
    }
}

// The suggestions for each of so many workers.
fn orders_of(alloc: Global, plan: &Plan, workers: u32) -> Result<Vec<Order>, Memory>
    ensures { IfOk result (λ orders. vec_len orders ≡ workers) }
{
    let order = order(alloc, plan)?;
    orders(alloc, &order, workers)
}

// Room for so many workers, sessions and examiners.
fn room_for<C: Case, F: Folder>(
    alloc: Global,
    workers: usize,
    sessions: usize,
    examiners: usize,
) -> Result<Room<C, F>, Memory>
    requires few { (workers ≤ 16) × (sessions ≤ 16) × (examiners ≤ 16) }
    ensures none { IfOk result (λ r. (r.tasks.items ≡ []) × (r.devices.items ≡ []) × (r.sessions.items ≡ []) × (r.examinations.items ≡ []) × (r.answers.items ≡ []) × (r.examiners.items ≡ [])) }
    ensures room { IfOk result (λ r. (workers + sessions + examiners ≤ vec_capacity r.tasks) × (workers + sessions + examiners ≤ vec_capacity r.devices)
        × (workers + sessions + examiners ≤ vec_capacity r.sessions) × (workers + sessions + examiners ≤ vec_capacity r.examinations)
        × (sessions ≤ vec_capacity r.answers) × (examiners ≤ vec_capacity r.examiners)) }
{
    let tasks = workers + sessions + examiners;
    Ok(Room {
        tasks: vec_for(alloc, tasks)?,
        devices: vec_for(alloc, tasks)?,
        sessions: vec_for(alloc, tasks)?,
        examinations: vec_for(alloc, tasks)?,
        answers: vec_for(alloc, sessions)?,
        examiners: vec_for(alloc, examiners)?,
    })
}

fn vec_for<T: Drop>(alloc: Global, count: usize) -> Result<Vec<T>, Memory>
    ensures none { IfOk result (λ v. v.items ≡ []) }
    ensures room { IfOk result (λ v. count ≤ vec_capacity v) }
{
    Vec::with_capacity(alloc, count).map_err(|_| Memory)
}

// A kit for each order, with the numbers from 0 on.
fn kits_of(
    alloc: Global,
    claims: &Claims,
    seat: &mut BookSeat,
    plan: &Plan,
    orders: Vec<Order>,
) -> Result<Vec<Kit>, Memory>
    requires seat { (seat.old.table ≡ claims.now.table) × (seat.old.view.made ≡ 0) }
    requires few { vec_len orders < 2 ^ 32 - 1 }
    ensures seat { (seat.new.table ≡ seat.old.table) × (seat.new.view.out ≡ seat.old.view.out) }
    ensures made { IfOk result (λ _. seat.new.view.made ≡ vec_len orders) }
    ensures count { IfOk result (λ kits. vec_len kits ≡ vec_len orders) }
    ensures kits { IfOk result (λ kits. All (λ k. (k.pass.claims ≡ claims.now) × (k.pass.view.number < vec_len orders)) kits.items) }
{
    let Ok(mut kits) = Vec::with_capacity(alloc, orders.len()) else {
        return Err(Memory);
    };
    for order in orders {
        let pass = claims.register(seat)?;
        let reader = ExtentReader::new(alloc, plan.extents())?;
        kits.push_reserved(Kit {
            pass,
            order,
            reader,
        });
    }
    Ok(kits)
}

// The sessions of a script, and a follower for each examiner. Where there are fewer viewers, some have none.
fn readers_of<C: Case, F: Folder>(
    alloc: Global,
    plan: &Plan,
    script: &Script,
    examiners: usize,
    claims: &Claims,
    seat: &mut BookSeat,
    viewers: Vec<Viewer<C, F::Receipt>>,
    peeks: &mut Vec<F::Peek>,
) -> Result<(Vec<Session<C, F>>, Vec<Follower<C, F>>), Memory>
    requires seat { (seat.old.table ≡ claims.now.table) × (seat.old.view.made ≤ 16) }
    requires extents { claims.now.table.extents ≡ length plan.now.extents }
    requires script { IsScript plan.now.size script.now }
    requires viewers { All (λ v. v.list.plan ≡ plan.now) viewers.items }
    requires peeks { vec_len peeks.old ≡ length script.now + examiners }
    ensures seat { (seat.new.table ≡ seat.old.table) × (seat.new.view.out ≡ seat.old.view.out) }
    ensures sessions { IfOk result (λ r. (list : ListName) → All (λ v. v.list ≡ list) viewers.items → All (λ x. IsFresh plan.now claims.now list x) r.0.items) }
    ensures script { IfOk result (λ r. map (λ x. x.requests) r.0.items ≡ script.now) }
    ensures followers { IfOk result (λ r. (list : ListName) → All (λ v. v.list ≡ list) viewers.items → All (λ f. IsNew plan.now list f) r.1.items) }
    ensures count { IfOk result (λ r. vec_len r.1 ≡ examiners) }
    ensures peeks { IfOk result (λ _. (peeks.new.items ≡ []) × (length script.now + examiners ≤ vec_capacity peeks.new)) }
{
    let mut viewers = viewers;
    let sessions = sessions_of(alloc, plan, script, claims, seat, &mut viewers, peeks)?;
    match followers_of(alloc, plan, examiners, &mut viewers, peeks) {
        Ok(followers) => Ok((sessions, followers)),
        Err(Memory) => {
            give_back(sessions, peeks);
            Err(Memory)
        }
    }
}

// A session for each of the script, with the numbers behind those of the workers.
fn sessions_of<C: Case, F: Folder>(
    alloc: Global,
    plan: &Plan,
    script: &Script,
    claims: &Claims,
    seat: &mut BookSeat,
    viewers: &mut Vec<Viewer<C, F::Receipt>>,
    peeks: &mut Vec<F::Peek>,
) -> Result<Vec<Session<C, F>>, Memory>
    requires seat { (seat.old.table ≡ claims.now.table) × (seat.old.view.made ≤ 16) }
    requires extents { claims.now.table.extents ≡ length plan.now.extents }
    requires script { IsScript plan.now.size script.now }
    requires viewers { All (λ v. v.list.plan ≡ plan.now) viewers.old.items }
    requires peeks { length script.now ≤ vec_len peeks.old }
    ensures seat { (seat.new.table ≡ seat.old.table) × (seat.new.view.out ≡ seat.old.view.out) }
    ensures sessions { IfOk result (λ s. (list : ListName) → All (λ v. v.list ≡ list) viewers.old.items → All (λ x. IsFresh plan.now claims.now list x) s.items) }
    ensures script { IfOk result (λ s. map (λ x. x.requests) s.items ≡ script.now) }
    ensures plans { IfOk result (λ _. All (λ v. v.list.plan ≡ plan.now) viewers.new.items) }
    ensures lists { IfOk result (λ _. (list : ListName) → All (λ v. v.list ≡ list) viewers.old.items → All (λ v. v.list ≡ list) viewers.new.items) }
    ensures peeks { IfOk result (λ _. (vec_len peeks.new + length script.now ≡ vec_len peeks.old) × (vec_capacity peeks.new ≡ vec_capacity peeks.old)) }
{
    let mut sessions = vec_for(alloc, script.sessions.len())?;
    for wanted in &script.sessions {
        let viewer = viewers.pop();
        match session_of(alloc, plan, claims, seat, viewer, peeks, wanted) {
            Ok(session) => sessions.push_reserved(session),
            Err(Memory) => {
                give_back(sessions, peeks);
                return Err(Memory);
            }
        }
    }
    Ok(sessions)
}

// A session with a pass of its own and one of the peeks.
fn session_of<C: Case, F: Folder>(
    alloc: Global,
    plan: &Plan,
    claims: &Claims,
    seat: &mut BookSeat,
    viewer: Option<Viewer<C, F::Receipt>>,
    peeks: &mut Vec<F::Peek>,
    wanted: &aff_script::Session,
) -> Result<Session<C, F>, Memory>
    requires table { seat.old.table ≡ claims.now.table }
    requires extents { claims.now.table.extents ≡ length plan.now.extents }
    requires room { seat.old.view.made < 2 ^ 32 - 1 }
    requires viewer { IfSome viewer (λ v. v.list.plan ≡ plan.now) }
    requires wanted { IsSession plan.now.size wanted.now }
    requires peek { 0 < vec_len peeks.old }
    ensures seat { (seat.new.table ≡ seat.old.table) × (seat.new.view.out ≡ seat.old.view.out) }
    ensures made { seat.new.view.made ≤ seat.old.view.made + 1 }
    ensures session { IfOk result (λ s. (list : ListName) → IfSome viewer (λ v. v.list ≡ list) → IsFresh plan.now claims.now list s) }
    ensures wanted { IfOk result (λ s. s.requests ≡ wanted.now) }
    ensures peeks { IfOk result (λ _. vec_len peeks.new + 1 ≡ vec_len peeks.old) }
    ensures room { (vec_len peeks.new ≤ vec_len peeks.old) × (vec_capacity peeks.new ≡ vec_capacity peeks.old) }
{
    let pass = claims.register(seat)?;
    let Some(peek) = peeks.pop() else {
        unreachable!();
    };
    let requests = wanted.requests.as_slice();
    Session::new(alloc, viewer, peek, plan, pass, requests)
}

// A follower for each of so many examiners.
fn followers_of<C: Case, F: Folder>(
    alloc: Global,
    plan: &Plan,
    examiners: usize,
    viewers: &mut Vec<Viewer<C, F::Receipt>>,
    peeks: &mut Vec<F::Peek>,
) -> Result<Vec<Follower<C, F>>, Memory>
    requires viewers { All (λ v. v.list.plan ≡ plan.now) viewers.old.items }
    requires peeks { vec_len peeks.old ≡ examiners }
    ensures followers { IfOk result (λ r. (list : ListName) → All (λ v. v.list ≡ list) viewers.old.items → All (λ f. IsNew plan.now list f) r.items) }
    ensures count { IfOk result (λ r. vec_len r ≡ examiners) }
    ensures peeks { IfOk result (λ _. peeks.new.items ≡ []) }
    ensures room { (vec_len peeks.new ≤ vec_len peeks.old) × (vec_capacity peeks.new ≡ vec_capacity peeks.old) }
{
    let mut followers = vec_for(alloc, examiners)?;
    for _ in 0..examiners {
        match follower_of(alloc, plan, viewers.pop(), peeks) {
            Ok(follower) => followers.push_reserved(follower),
            Err(Memory) => {
                give_back_of(followers, peeks);
                return Err(Memory);
            }
        }
    }
    Ok(followers)
}

// A follower with one of the peeks.
fn follower_of<C: Case, F: Folder>(
    alloc: Global,
    plan: &Plan,
    viewer: Option<Viewer<C, F::Receipt>>,
    peeks: &mut Vec<F::Peek>,
) -> Result<Follower<C, F>, Memory>
    requires viewer { IfSome viewer (λ v. v.list.plan ≡ plan.now) }
    requires peek { 0 < vec_len peeks.old }
    ensures follower { IfOk result (λ f. (list : ListName) → IfSome viewer (λ v. v.list ≡ list) → IsNew plan.now list f) }
    ensures peeks { (vec_len peeks.new + 1 ≡ vec_len peeks.old) × (vec_capacity peeks.new ≡ vec_capacity peeks.old) }
{
    let Some(peek) = peeks.pop() else {
        unreachable!();
    };
    Follower::open(alloc, viewer, peek, plan)
}

/// Puts the peeks of sessions back where they were taken.
pub(crate) fn give_back<C: Case, F: Folder>(sessions: Vec<Session<C, F>>, peeks: &mut Vec<F::Peek>)
    requires room { vec_len peeks.old + vec_len sessions ≤ vec_capacity peeks.old }
    ensures room { (vec_len peeks.new ≡ vec_len peeks.old + vec_len sessions) × (vec_capacity peeks.new ≡ vec_capacity peeks.old) }
{
    for session in sessions {
        peeks.push_reserved(session.into_parts().peek);
    }
}

/// Puts the peeks of followers back where they were taken.
pub(crate) fn give_back_of<C: Case, F: Folder>(
    followers: Vec<Follower<C, F>>,
    peeks: &mut Vec<F::Peek>,
)
    requires room { vec_len peeks.old + vec_len followers ≤ vec_capacity peeks.old }
    ensures room { (vec_len peeks.new ≡ vec_len peeks.old + vec_len followers) × (vec_capacity peeks.new ≡ vec_capacity peeks.old) }
{
    for follower in followers {
        peeks.push_reserved(follower.into_peek());
    }
}
