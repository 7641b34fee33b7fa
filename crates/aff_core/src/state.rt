//! A state of the core, and the events that change it.
ghost use Rattle.std.specs.Prelude.{◌≡◌, ◌≢◌, ℕ, ◌+◌, ◌<◌, ◌≤◌, ◌↔◌, None, Some, IsTrue, IfOk, OnOk, OnErr, All, Contains, length, map, IsSomeAnd, slice_get, vec_capacity, if◌then◌else◌};
ghost use Rattle.aff_core.specs.declared.event.Event.{Event};
ghost use Rattle.aff_core.specs.Kept.{IsKept, Tracks, place_of};
ghost use Rattle.aff_model.specs.Kinds.{IsAnswer, kind_at};
ghost use Rattle.aff_core.specs.Steps.{CoreState, HasNoStep, IsShaped, IsStep, MayClaim, MayFinish, MayPublish, MayRaise, MayRead, extents_out, start};
ghost use Rattle.aff_model.specs.Cells.{is_bad_at};
ghost use Rattle.aff_model.specs.Legal.{IsComplete};
ghost use Rattle.aff_model.specs.Plan.{has_place};

use crate::runs::add_run;
use crate::standing::{Standing, is_free, is_held};
use crate::{Event, Refused};
use aff_model::{CHUNK, Extent, Kind, MAX_EXTENT, Memory, Plan, Publication, Run, SECTOR};
use std::alloc::{AllocError, Global};
use std::marker::Model;

/// Who claims what, the history, and whether Finish has come. All memory that events need is taken by `new`:
/// 8 bytes an extent and the history's own size.
#[derive(Drop)]
pub struct State<'p> {
    alloc: Global,
    plan: &'p Plan,
    passes: u32,
    sessions: u32,
    /// How far each extent has come. The claimant of a published one is its publication's.
    standings: Vec<Standing>,
    history: Vec<Publication>,
    finished: bool,
}

impl<'p> Model for State<'p> {
    ghost use Rattle.std.specs.Prelude.{map, vec_capacity};
    ghost use Rattle.aff_core.specs.Kept.{IsKept, claim_of};
    ghost use Rattle.aff_core.specs.Steps.{CoreState, extents_out};

    ghost Value = { CoreState };

    ghost view = { λ s. record {
      plan = s.plan.now;
      passes = s.passes;
      sessions = s.sessions;
      claims = map (claim_of (map (λ p. p.claimant) s.history.items)) s.standings.items;
      history = s.history.items;
      finished = s.finished;
    } };

    ghost invariant = { λ s. IsKept s.plan.now s.standings.items (extents_out s.history.items) (vec_capacity s.history) };
}

impl<'p> State<'p> {
    /// The first state of a run of a plan by so many passes and sessions.
    pub fn new(
        alloc: Global,
        plan: &'p Plan,
        passes: u32,
        sessions: u32,
    ) -> Result<State<'p>, Memory>
        ensures { IfOk result (λ s. s ≡ start plan.now passes sessions) }
    {
        let count = plan.extents().len();
        Ok(State {
            alloc,
            plan,
            passes,
            sessions,
            standings: Vec::from_elem(alloc, Standing::Free, count).map_err(|_| Memory)?,
            history: Vec::with_capacity(alloc, count).map_err(|_| Memory)?,
            finished: false,
        })
    }

    /// Takes one event, if it is a step from here. It takes no memory.
    pub fn apply(&mut self, event: Event) -> Result<(), Refused>
        ensures step { OnOk result (IsStep self.old event self.new) }
        ensures refused { OnErr result (HasNoStep self.old event) }
        ensures err { OnErr result (self.new ≡ self.old) }
        ensures plan { self.new.plan ≡ self.old.plan }
    {
        match event {
            Event::Claim { claimant, extent } => self.claim(claimant, extent),
            Event::Publish { publication } => self.publish(publication),
            Event::Read {
                session,
                at,
                len,
                front,
            } => self.read(session, at, len, front),
            Event::Raise { session, extent } => self.raise(session, extent),
            Event::Finish => self.finish(),
        }
    }

    /// The greatest runs of one kind of a range, in bytes. It looks each sector of the range up in the plan, and
    /// goes through the unreadable sectors of its publication.
    pub fn answer(&self, at: u64, len: u64) -> Result<Vec<Run>, Memory>
        requires { at + len ≤ self.now.plan.size }
        ensures { IfOk result (λ v. IsAnswer self.now.plan.extents self.now.history at len v.items) }
    {
        self.runs_of(at, len).map_err(|_| Memory)
    }

    fn runs_of(&self, at: u64, len: u64) -> Result<Vec<Run>, AllocError>
        requires { at + len ≤ self.now.plan.size }
        ensures { IfOk result (λ v. IsAnswer self.now.plan.extents self.now.history at len v.items) }
    {
        let size = self.plan.size();
        prove!(len <= size && at <= size - len);
        let mut runs = Vec::new(self.alloc);
        let mut done = 0;
        while done < len {
            let next = at + done;
            let part = (SECTOR - next % SECTOR).min(len - done);
            add_run(&mut runs, part, self.kind(next))?;
            done += part;
        }
        Ok(runs)
    }

    fn kind(&self, at: u64) -> Kind
        ensures { result ≡ kind_at self.now.plan.extents self.now.history at }
    {
        kind_in(self.plan, &self.standings, &self.history, at)
    }

    fn claim(&mut self, claimant: u32, extent: u32) -> Result<(), Refused>
        ensures step { OnOk result (IsStep self.old (Event.Claim claimant extent) self.new) }
        ensures refused { OnErr result (HasNoStep self.old (Event.Claim claimant extent)) }
        ensures err { OnErr result (self.new ≡ self.old) }
    {
        if self.finished || claimant >= self.passes {
            return Err(Refused);
        }
        if !self.is_free(extent) {
            return Err(Refused);
        }
        self.standings[extent as usize] = Standing::Claimed(claimant);
        Ok(())
    }

    fn is_free(&self, extent: u32) -> bool
        ensures { IsTrue result ↔ (slice_get self.now.claims extent ≡ Some None) }
    {
        is_free(&self.standings, extent)
    }

    fn read(&self, session: u32, at: u64, len: u64, front: u64) -> Result<(), Refused>
        ensures step { OnOk result (MayRead self.now session at len front) }
        ensures refused { OnErr result (¬ (MayRead self.now session at len front)) }
    {
        let size = self.plan.size();
        let inside = at <= size && len <= size - at;
        if session < self.sessions && inside && front == self.history.len() as u64 {
            Ok(())
        } else {
            Err(Refused)
        }
    }

    fn raise(&self, session: u32, extent: u32) -> Result<(), Refused>
        ensures step { OnOk result (MayRaise self.now session extent) }
        ensures refused { OnErr result (¬ (MayRaise self.now session extent)) }
    {
        let planned = (extent as usize) < self.plan.extents().len();
        if !self.finished && session < self.sessions && planned {
            Ok(())
        } else {
            Err(Refused)
        }
    }

    fn finish(&mut self) -> Result<(), Refused>
        ensures step { OnOk result (IsStep self.old Event.Finish self.new) }
        ensures refused { OnErr result (HasNoStep self.old Event.Finish) }
        ensures err { OnErr result (self.new ≡ self.old) }
    {
        if self.finished || !self.is_complete() {
            return Err(Refused);
        }
        self.finished = true;
        Ok(())
    }

    fn is_complete(&self) -> bool
        ensures { IsTrue result ↔ IsComplete self.now.plan.extents self.now.history }
    {
        self.history.len() >= self.standings.len()
    }

    fn publish(&mut self, publication: Publication) -> Result<(), Refused>
        ensures step { OnOk result (IsStep self.old (Event.Publish publication) self.new) }
        ensures refused { OnErr result (HasNoStep self.old (Event.Publish publication)) }
        ensures err { OnErr result (self.new ≡ self.old) }
    {
        if !self.may_publish(&publication) {
            return Err(Refused);
        }
        let extent = publication.extent as usize;
        let place = self.history.len() as u32;
        self.history.push(publication).unwrap();
        self.standings[extent] = Standing::Published(place);
        Ok(())
    }

    fn may_publish(&self, publication: &Publication) -> bool
        ensures { IsTrue result ↔ MayPublish self.now publication.now }
    {
        !self.finished
            && self.is_awaited(publication.extent, publication.claimant)
            && self.has_shape(publication)
    }

    // Whether an extent is the claimant's and not published.
    fn is_awaited(&self, extent: u32, claimant: u32) -> bool
        ensures { IsTrue result ↔ (slice_get self.now.claims extent ≡ Some (Some claimant)) × ¬ (Contains (extents_out self.now.history) extent) }
    {
        is_held(&self.standings, extent, claimant)
    }

    fn has_shape(&self, publication: &Publication) -> bool
        ensures { IsTrue result ↔ IsSomeAnd (slice_get self.now.plan.extents publication.now.extent) (λ e. IsShaped e publication.now) }
    {
        match self.plan.extents().get(publication.extent as usize) {
            Some(extent) => is_shaped(extent, publication),
            None => false,
        }
    }
}

fn kind_in(plan: &Plan, standings: &[Standing], history: &[Publication], at: u64) -> Kind
    requires count { length standings.now ≡ length plan.now.extents }
    requires tracks { Tracks (extents_out history.now) (map place_of standings.now) }
    ensures { result ≡ kind_at plan.now.extents history.now at }
{
    let extents = plan.extents();
    let Some(number) = plan.find(at) else {
        return Kind::Unknown;
    };
    let Standing::Published(place) = standings[number as usize] else {
        return Kind::Unknown;
    };
    kind_published(&extents[number as usize], &history[place as usize], at)
}

// The kind of a place of a published extent.
fn kind_published(extent: &Extent, publication: &Publication, at: u64) -> Kind
    requires short { extent.now.len ≤ MAX_EXTENT }
    requires inside { IsTrue (has_place at extent.now) }
    ensures { result ≡ (if is_bad_at extent.now publication.now at then Kind.Unreadable else Kind.Known) }
{
    let sector = (at / SECTOR - extent.at / SECTOR) as u32;
    if publication.bad.contains(&sector) {
        Kind::Unreadable
    } else {
        Kind::Known
    }
}

fn is_shaped(extent: &Extent, publication: &Publication) -> bool
    requires { extent.now.len ≤ MAX_EXTENT }
    ensures { IsTrue result ↔ IsShaped extent.now publication.now }
{
    let bad = &publication.bad;
    for (k, sector) in bad.iter().enumerate() {
        let rises = k == 0 || bad[k - 1] < *sector;
        if !rises || u64::from(*sector) >= extent.len / SECTOR {
            return false;
        }
    }
    publication.places.len() as u64 == extent.len.div_ceil(CHUNK)
}
