//! How a list is made, with its publisher and its viewers.
ghost use Rattle.std.specs.Prelude.{◌≡◌, ◌≤◌, [], length, drop, All, IfOk};
ghost use Rattle.left_right.specs.Sides.{view};
ghost use Rattle.aff_snapshot.specs.Lists.{numbers_of};

use crate::front::Front;
use crate::listed::Pieces;
use crate::name::Marked;
use crate::publisher::show;
use crate::shown::{Desk, Hand, Hint};
use crate::{Publisher, Viewer};
use aff_model::{Case, Memory, Plan};
use aff_outside::Telling;
use std::alloc::{AllocError, Global};
use std::sync::{Arc, Wait};

/// Makes a list for the pieces of a plan's extents, with room for one piece an extent in the list and in each viewer.
/// It gives at most `viewers` viewers, and may give fewer. It shows the empty list once, for which it takes `rt`.
pub fn open<C: Case, R: Telling + Marked, W: Wait>(
    rt: &W,
    alloc: Global,
    plan: &Plan,
    viewers: u32,
) -> Result<(Publisher<C, R>, Vec<Viewer<C, R>>), Memory>
    ensures plan { IfOk result (λ r. r.0.list.plan ≡ plan.now) }
    ensures empty { IfOk result (λ r. r.0.pieces ≡ []) }
    ensures viewers { IfOk result (λ r. All (λ v. v ≡ r.0) r.1.items) }
    ensures count { IfOk result (λ r. length r.1.items ≤ viewers) }
{
    let Ok(publisher) = publisher_for(rt, alloc, plan, viewers) else {
        return Err(Memory);
    };
    let Ok(room) = Vec::with_capacity(alloc, viewers as usize) else {
        publisher.end(rt);
        return Err(Memory);
    };
    let room_each = plan.extents().len();
    Ok(with_viewers(publisher, room, alloc, room_each, viewers))
}

// Makes the list with its publisher, which may have so many viewers.
fn publisher_for<C: Case, R: Telling + Marked, W: Wait>(
    rt: &W,
    alloc: Global,
    plan: &Plan,
    viewers: u32,
) -> Result<Publisher<C, R>, AllocError>
    ensures { IfOk result (λ p. (p.pieces ≡ []) × (p.list.plan ≡ plan.now)) }
{
    let (count, front) = Front::open(plan);
    let list: Arc<Pieces<C, R>> = Arc::new(alloc, Pieces::with_rule(alloc, front.tag())?)?;
    let room = plan.extents().len();
    list.reserve(room)?;
    let pieces = Vec::with_capacity(alloc, room)?;
    let hand = opened(rt, alloc, &front, viewers)?;
    Ok(Publisher {
        count,
        front,
        pieces,
        list,
        desk: Desk { hand },
    })
}

// Shows the empty front, and so names the list to the writer.
fn opened<W: Wait>(rt: &W, alloc: Global, front: &Front, viewers: u32) -> Result<Hand, AllocError>
    ensures shown { IfOk result (λ h. (h.desk.shown.value ≡ front.now) × (drop h.behind h.log.items ≡ [])) }
    ensures list { IfOk result (λ h. (view h.desk.place).list ≡ numbers_of front.now.list) }
{
    let readers = viewers.max(1) as usize;
    let mut hand = Hand::new(alloc, front.again(), front.again(), readers)?;
    if hand.append(front.again()).is_err() {
        hand.take(rt);
        return Err(AllocError);
    }
    Ok(show(hand, (rt, front)).0)
}

// Makes viewers, up to the first that is refused.
fn with_viewers<C: Case, R: Telling + Marked>(
    publisher: Publisher<C, R>,
    viewers: Vec<Viewer<C, R>>,
    alloc: Global,
    room: usize,
    count: u32,
) -> (Publisher<C, R>, Vec<Viewer<C, R>>)
    requires new { (publisher.pieces ≡ []) × (viewers.items ≡ []) }
    ensures same { result.0 ≡ publisher }
    ensures viewers { All (λ v. v ≡ publisher) result.1.items }
    ensures count { length result.1.items ≤ count }
{
    let mut publisher = publisher;
    let mut viewers = viewers;
    for number in 0..count {
        if viewers.len() >= viewers.capacity() {
            break;
        }
        let Ok(viewer) = publisher.viewer(alloc, room) else {
            break;
        };
        viewers.push_reserved(viewer);
    }
    (publisher, viewers)
}

impl<C: Case, R: Telling + Marked> Publisher<C, R> {
    // A viewer that has nothing yet.
    fn viewer(&mut self, alloc: Global, room: usize) -> Result<Viewer<C, R>, AllocError>
        requires new { self.old.pieces ≡ [] }
        ensures same { self.new ≡ self.old }
        ensures viewer { IfOk result (λ v. v ≡ self.old) }
    {
        let pieces = Vec::with_capacity(alloc, room)?;
        let list = Arc::try_clone(&self.list)?;
        let mut eye = self.desk.hand.factory().reader()?;
        eye.learn::<Hint>(self.desk.hand.tell::<Hint>());
        Ok(Viewer {
            list,
            pieces,
            front: self.front.again(),
            eye,
        })
    }
}
