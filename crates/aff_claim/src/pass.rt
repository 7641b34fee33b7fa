//! A thread's pass through the table.
ghost use Rattle.std.specs.Prelude.{◌≡◌, ℕ, ◌+◌, ◌*◌, ◌<◌, ◌≤◌, ◌↔◌, IsTrue, Contains, length, slice_index};
ghost use Rattle.aff_claim.specs.Demands.{Has};
ghost use Rattle.aff_claim.specs.Next.{AreUrgentIn};
ghost use Rattle.aff_claim.specs.Words.{demand_count};

use crate::ranking::Ranking;
use crate::view::View;
use atomic_table::Seat;
use std::alloc::Global;
use std::marker::Model;
use std::sync::Arc;

/// What a thread claims and looks with. It keeps which extents it knows to be taken.
#[derive(Drop)]
pub struct Pass {
    pub(crate) seat: Seat<(), View>,
    pub(crate) number: u32,
    pub(crate) ranking: Arc<Ranking, Global>,
    /// Whether it knows each extent to be taken.
    pub(crate) seen: Vec<bool>,
    /// For each demand word, bits of extents that it knows to be taken: those that stood there when it served them.
    pub(crate) served: Vec<u64>,
    /// It knows as many of the ranking's first extents.
    pub(crate) front: usize,
}

impl Model for Pass {
    ghost use Rattle.std.specs.Arc.{arc_value};
    ghost use Rattle.aff_claim.specs.Values.{Passing, Remembers};

    ghost Value = { Passing };

    ghost view = { λ p. record {
      claims = record {
        table = record { id = p.seat.table_id; extents = p.seat.me.0.extents; workers = p.seat.me.0.workers };
        ranking = arc_value p.ranking;
      };
      view = p.seat.me.0.pass;
    } };

    ghost invariant = { λ p. Remembers (arc_value p.ranking) p.seen.items p.served.items p.front p.number p.seat.me.0 };
}

impl Pass {
    /// The number under which it claims. It claims nothing where that is not below the number of workers.
    pub fn number(&self) -> u32
        ensures { result ≡ self.now.view.number }
    {
        self.number
    }

    // How many of the most urgent extents it knows.
    pub(crate) fn front(&self) -> usize
        ensures within { result ≤ length self.now.claims.ranking.falling }
        ensures behind { (i : ℕ) → i < result → Contains self.now.view.known (slice_index self.now.claims.ranking.falling i) }
    {
        self.front
    }

    pub(crate) fn set_front(&mut self, front: usize)
        requires within { front ≤ length self.old.claims.ranking.falling }
        requires behind { (i : ℕ) → i < front → Contains self.old.view.known (slice_index self.old.claims.ranking.falling i) }
        ensures { self.new ≡ self.old }
    {
        self.front = front;
    }

    // Whether it knows that an extent is taken.
    pub(crate) fn knows(&self, extent: u32) -> bool
        requires { extent < length self.now.claims.ranking.priorities }
        ensures { IsTrue result ↔ Contains self.now.view.known extent }
    {
        self.seen[extent as usize]
    }

    // Bits of a demand word whose extents it knows to be taken.
    pub(crate) fn served(&self, number: usize) -> u64
        requires { number < demand_count (length self.now.claims.ranking.priorities) }
        ensures { (i : ℕ) → Has result i → Contains self.now.view.known (64 * number + i) }
    {
        self.served[number]
    }

    pub(crate) fn set_served(&mut self, number: usize, bits: u64)
        requires number { number < demand_count (length self.old.claims.ranking.priorities) }
        requires known { (i : ℕ) → Has bits i → Contains self.old.view.known (64 * number + i) }
        ensures { self.new ≡ self.old }
    {
        self.served[number] = bits;
    }

    // Whether it may try to claim an extent: it does not know it to be taken, but each more urgent one.
    pub(crate) fn may_claim(&self, extent: u32) -> bool
        requires { extent < length self.now.claims.ranking.priorities }
        ensures unknown { IsTrue result → ¬ Contains self.now.view.known extent }
        ensures urgent { IsTrue result → AreUrgentIn self.now.claims.ranking.priorities extent self.now.view.known }
    {
        !self.knows(extent) && self.ranking.leads(extent, self.front)
    }
}
