//! What no clause says of examiners: that they are shown pieces as they come, how often chunks are fetched, and what fails in
//! the middle.
ghost use Rattle.std.specs.Prelude.{◌≡◌, ℕ, ◌<◌, ◌≤◌, [], true, false, None, IfOk, IfSome, length, map, slice_index};
ghost use Rattle.std.specs.Arc.{arc_value};
ghost use Rattle.aff_model.specs.declared.limits.TheConstants as limits;
ghost use Rattle.aff_image.specs.Sound.{AreSound};

use crate::lists::{looked_at, publish, sectors};
use crate::pieces::{Shared, peek_of, plan_of, sevens, sound_piece, stored};
use crate::silent::{SilentFolder, SilentPeek, SilentReceipt};
use aff_examine::{Examination, FollowError, Follower, Tally};
use aff_memory::{MemoryFolder, MemoryReceipt};
use aff_model::{CHUNK, Memory, Plan, SECTOR, Untold};
use aff_outside::{Examiner, Seen};
use aff_snapshot::{Publisher, Running};
use sha2::{Digest, Sha256};
use std::alloc::Global;
use std::sync::Wait;
use std::test::Fail;

// An examiner that keeps what it saw: each front, and the sum of the bytes. It refuses one front.
#[derive(Drop)]
struct Watcher {
    fronts: Vec<u64>,
    sum: u64,
    refused: u64,
}

impl Watcher {
    fn new(alloc: Global, refused: u64) -> Watcher {
        Watcher {
            fronts: Vec::new(alloc),
            sum: 0,
            refused,
        }
    }

    fn saw(&self, fronts: &[u64]) -> bool {
        self.fronts.as_slice() == fronts
    }
}

impl Examiner for Watcher {
    ghost use Rattle.std.specs.Prelude.{[]};

    ghost state = { λ _. [] };

    ghost rule = { λ _ state piece bytes. [] };

    ghost text = { λ _ state. [] };

    fn see(&mut self, piece: &Seen, bytes: &[u8]) -> Result<(), Memory> {
        if piece.front == self.refused || self.fronts.push(piece.front).is_err() {
            return Err(Memory);
        }
        for byte in bytes {
            self.sum = self.sum.saturating_add(u64::from(*byte));
        }
        Ok(())
    }

    fn finding(&self) -> Result<Vec<u8>, Memory> {
        Ok(Vec::new(*self.fronts.allocator()))
    }
}

// The pieces of two extents, the second one first, and who shows them.
fn drained(
    alloc: Global,
    peek_fail: Vec<u64>,
) -> Result<(Follower<Untold, MemoryFolder>, Vec<Shared<MemoryReceipt>>), Fail>
    ensures viewer { IfOk result (λ r. r.0.viewer ≡ None) }
    ensures shown { IfOk result (λ r. r.0.shown ≡ 0) }
    ensures sound { IfOk result (λ r. AreSound None r.0.plan true (λ bytes. bytes) (map arc_value r.1.items)) }
{
    let mut folder = MemoryFolder::new(alloc, Vec::new(alloc), peek_fail);
    let plan = plan_of(alloc)?;
    let second = stored(alloc, &mut folder, 1)?;
    let first = stored(alloc, &mut folder, 0)?;
    let pieces = vec![in alloc; second, first]?;
    let peek = peek_of(&mut folder)?;
    let follower = Follower::open(alloc, None, peek, &plan)?;
    Ok((follower, pieces))
}

#[test]
fn a_tally(rt: HostRuntime) -> Result<(), Fail> {
    let alloc = rt.alloc();
    let (mut follower, pieces) = drained(alloc, Vec::new(alloc))?;
    let mut tally = Tally::new(alloc);
    assert!(rt; follower.drain(&mut tally, &pieces) == Ok(()));
    assert!(rt; tally.finding()?.as_slice() == b"readable 1024 unreadable 1024".as_slice());
    // Each chunk was fetched once.
    assert!(rt; follower.into_peek().calls() == 2);
    Ok(())
}

#[test]
fn unreadable_sectors_are_zeros(rt: HostRuntime) -> Result<(), Fail> {
    let alloc = rt.alloc();
    let (mut follower, pieces) = drained(alloc, Vec::new(alloc))?;
    let mut watcher = Watcher::new(alloc, 0);
    assert!(rt; follower.drain(&mut watcher, &pieces) == Ok(()));
    assert!(rt; watcher.saw(&[1, 2]) && watcher.sum == 2 * 512 * 7);
    Ok(())
}

#[test]
fn memory_at_the_second_piece(rt: HostRuntime) -> Result<(), Fail> {
    let alloc = rt.alloc();
    let (mut follower, pieces) = drained(alloc, Vec::new(alloc))?;
    let mut watcher = Watcher::new(alloc, 2);
    assert!(rt; follower.drain(&mut watcher, &pieces) == Err(FollowError::Memory));
    assert!(rt; watcher.saw(&[1]));
    Ok(())
}

#[test]
fn a_fetch_fails(rt: HostRuntime) -> Result<(), Fail> {
    let alloc = rt.alloc();
    let (mut follower, pieces) = drained(alloc, vec![in alloc; 2u64]?)?;
    let mut tally = Tally::new(alloc);
    assert!(rt; follower.drain(&mut tally, &pieces) == Err(FollowError::Failed));
    assert!(rt; tally.finding()?.as_slice() == b"readable 512 unreadable 512".as_slice());
    Ok(())
}

// The piece of one extent whose receipt tells nothing, and who shows it by a peek that lies.
fn fooled(
    alloc: Global,
    chunk: &[u8],
) -> Result<(Follower<Untold, SilentFolder>, Vec<Shared<SilentReceipt>>), Fail>
    requires len { length chunk.now ≡ limits.CHUNK }
    requires zeros { (k : ℕ) → 512 ≤ k → k < limits.CHUNK → slice_index chunk.now k ≡ 0 }
    ensures shown { IfOk result (λ r. r.0.shown ≡ 0) }
    ensures sound { IfOk result (λ r. AreSound None r.0.plan false (λ _. []) (map arc_value r.1.items)) }
{
    let plan = plan_of(alloc)?;
    let piece = sound_piece(alloc, SilentReceipt, chunk)?;
    let pieces = vec![in alloc; piece]?;
    let follower = Follower::open(alloc, None, SilentPeek { byte: 7 }, &plan)?;
    Ok((follower, pieces))
}

#[test]
fn a_chunk_is_damaged(rt: HostRuntime) -> Result<(), Fail> {
    let alloc = rt.alloc();
    let chunk = sevens(alloc, SECTOR as usize, CHUNK as usize)?;
    let lie = sevens(alloc, CHUNK as usize, CHUNK as usize)?;
    let damaged = FollowError::Damaged {
        chunk: 0,
        recorded: Sha256::digest(&chunk),
        found: Sha256::digest(&lie),
    };
    let (mut follower, pieces) = fooled(alloc, &chunk)?;
    let mut tally = Tally::new(alloc);
    assert!(rt; follower.drain(&mut tally, &pieces) == Err(damaged));
    assert!(rt; tally.finding()?.as_slice() == b"readable 0 unreadable 0".as_slice());
    Ok(())
}

// A list of a plan, and an examiner of it.
fn examined(
    rt: &impl Wait,
    alloc: Global,
    plan: &Plan,
) -> Result<
    (
        Publisher<Untold, SilentReceipt>,
        Follower<Untold, SilentFolder>,
    ),
    Fail,
>
    ensures plan { IfOk result (λ r. r.0.list.plan ≡ plan.now) }
    ensures none { IfOk result (λ r. r.0.pieces ≡ []) }
    ensures list { IfOk result (λ r. IfSome r.1.viewer (λ v. v.list ≡ r.0.list)) }
    ensures shown { IfOk result (λ r. r.1.shown ≡ 0) }
{
    let (publisher, viewer) = looked_at(rt, alloc, plan)?;
    let follower = Follower::open(alloc, viewer, SilentPeek { byte: 0 }, plan)?;
    Ok((publisher, follower))
}

#[test]
fn an_examiner_sees_growth(rt: HostRuntime) -> Result<(), Fail> {
    let alloc = rt.alloc();
    let plan = sectors(alloc)?;
    let (mut publisher, mut follower) = examined(&rt, alloc, &plan)?;
    let mut watcher = Watcher::new(alloc, 0);
    let nobody = Running::new(0);
    assert!(rt; follower.follow(&mut watcher, &nobody) == Ok(0));
    assert!(rt; publish(&rt, alloc, &mut publisher, 0) == Ok(1));
    assert!(rt; follower.follow(&mut watcher, &nobody) == Ok(1) && watcher.saw(&[1]));
    assert!(rt; publish(&rt, alloc, &mut publisher, 1) == Ok(2));
    // A worker runs, but each extent has its piece.
    assert!(rt; follower.follow(&mut watcher, &Running::new(1)) == Ok(2));
    assert!(rt; watcher.saw(&[1, 2]));
    publisher.end(&rt);
    Ok(())
}

// Shows an examiner a whole list at once.
fn shown_whole(
    follower: Follower<Untold, MemoryFolder>,
    examiner: Box<dyn Examiner>,
    pieces: &[Shared<MemoryReceipt>],
) -> Examination<Untold, MemoryFolder>
    requires viewer { follower.viewer ≡ None }
    requires shown { follower.shown ≡ 0 }
    requires sound { AreSound None follower.plan true (λ bytes. bytes) (map arc_value pieces.now) }
{
    let mut examination = Examination {
        follower,
        examiner,
        fault: None,
    };
    examination.close(pieces);
    examination
}

#[test]
fn an_examination_at_the_close(rt: HostRuntime) -> Result<(), Fail> {
    let alloc = rt.alloc();
    let (follower, pieces) = drained(alloc, Vec::new(alloc))?;
    let tally: Box<dyn Examiner> = Box::new(alloc, Tally::new(alloc))?;
    let Examination {
        follower,
        examiner,
        fault,
    } = shown_whole(follower, tally, &pieces);
    assert!(rt; fault.is_none());
    assert!(rt; examiner.finding()?.as_slice() == b"readable 1024 unreadable 1024".as_slice());
    assert!(rt; follower.into_peek().calls() == 2);
    Ok(())
}

// An examination of a list that was not looked at.
fn examination_of(
    follower: Follower<Untold, SilentFolder>,
    examiner: Box<dyn Examiner>,
) -> Examination<Untold, SilentFolder>
    ensures follower { result.follower ≡ follower }
    ensures well { result.fault ≡ None }
{
    Examination {
        follower,
        examiner,
        fault: None,
    }
}

// Shows an examiner what is published, and learns that.
fn live_and_learn(
    publisher: &mut Publisher<Untold, SilentReceipt>,
    examination: &mut Examination<Untold, SilentFolder>,
)
    requires list { IfSome examination.old.follower.viewer (λ v. v.list ≡ publisher.old.list) }
    requires shown { examination.old.follower.shown ≡ 0 }
{
    examination.live(&Running::new(0));
    examination.learn(publisher.tell());
}

#[test]
fn an_examination_of_what_is_published(rt: HostRuntime) -> Result<(), Fail> {
    let alloc = rt.alloc();
    let plan = sectors(alloc)?;
    let (mut publisher, follower) = examined(&rt, alloc, &plan)?;
    assert!(rt; publish(&rt, alloc, &mut publisher, 0) == Ok(1));
    let tally: Box<dyn Examiner> = Box::new(alloc, Tally::new(alloc))?;
    let mut examination = examination_of(follower, tally);
    live_and_learn(&mut publisher, &mut examination);
    publisher.end(&rt);
    assert!(rt; examination.fault.is_none());
    assert!(rt;
        examination.examiner.finding()?.as_slice() == b"readable 512 unreadable 0".as_slice()
    );
    Ok(())
}

#[test]
fn a_list_that_ended_is_not_learned(rt: HostRuntime) -> Result<(), Fail> {
    let alloc = rt.alloc();
    let plan = sectors(alloc)?;
    let (mut publisher, follower) = examined(&rt, alloc, &plan)?;
    let told = publisher.tell();
    publisher.end(&rt);
    let mut follower = follower;
    assert!(rt; !follower.learn(told));
    Ok(())
}
