//! The claim table: how it is made, given to passes, and closed.
ghost use Rattle.std.specs.Prelude.{◌≡◌, ℕ, ◌+◌, ◌-◌, ◌<◌, ◌≤◌, ◌^◌, None, IfOk, IfErr, length, map, replicate, slice_index_or, false};
ghost use Rattle.std.specs.Arc.{arc_value};
ghost use Rattle.std.specs.Mem.Slots.{slots_items, slots_len, IsFull};
ghost use Rattle.aff_claim.specs.Rule.{AreLastWords};
ghost use Rattle.aff_claim.specs.Views.{new_book, new_pass};
ghost use Rattle.aff_claim.specs.Words as spec;
ghost use Rattle.aff_claim.specs.Words.{Names, word_at};

use crate::ranking::Ranking;
use crate::rule::{ClaimRule, Newcomer, Register};
use crate::view::{Limits, View};
use crate::word::{DRAWN_COUNT, claim_place, demand_count, read_word, word_count};
use crate::{BookSeat, Ended, Pass, Word};
use aff_model::{Memory, Plan};
use atomic_table::{Closed, Table};
use std::alloc::{AllocError, Global};
use std::marker::Model;
use std::sync::Arc;

/// The claim words of a plan's extents. Threads share it and step on it, each with a pass of its own.
#[derive(Drop)]
pub struct Claims {
    pub(crate) table: Table<(), View, Limits, ClaimRule, Global>,
    pub(crate) ranking: Arc<Ranking, Global>,
    pub(crate) workers: u32,
    alloc: Global,
}

impl Model for Claims {
    ghost use Rattle.std.specs.Prelude.{◌≡◌, ◌≤◌, ◌<◌, ◌^◌, length};
    ghost use Rattle.std.specs.Arc.{arc_value};
    ghost use Rattle.aff_claim.specs.Values.{Claiming};
    ghost use Rattle.aff_claim.specs.Words.{word_count};

    ghost Value = { Claiming };

    ghost view = { λ c. record {
      table = record { id = c.table.shared.table_id; extents = length (arc_value c.ranking).priorities; workers = c.workers };
      ranking = arc_value c.ranking;
    } };

    ghost invariant = { λ c.
        (c.table.shared.key ≡ record { extents = length (arc_value c.ranking).priorities; workers = c.workers })
        × (c.table.shared.table_id.words ≡ word_count (length (arc_value c.ranking).priorities))
        × (c.table.shared.table_id.slots ≡ 0)
        × (length (arc_value c.ranking).priorities ≤ 65536)
        × (c.workers < 2 ^ 32) };
}

impl Claims {
    /// A table for the extents of a plan, none of them claimed, and the seat of its book. The numbers below
    /// `workers` are those of the workers, and `workers` itself is that of the sweep.
    pub fn new(alloc: Global, plan: &Plan, workers: u32) -> Result<(Claims, BookSeat), Memory>
        ensures plan { IfOk result (λ r. (r.0.table.extents ≡ length plan.now.extents) × (r.0.ranking.priorities ≡ map (λ e. e.priority) plan.now.extents)) }
        ensures workers { IfOk result (λ r. r.0.table.workers ≡ workers) }
        ensures seat { IfOk result (λ r. (r.1.table ≡ r.0.table) × (r.1.view ≡ new_book)) }
    {
        let ranking = Ranking::of(alloc, plan).map_err(|_| Memory)?;
        table_of(alloc, ranking, workers).map_err(|_| Memory)
    }

    /// A pass with the next number: 0 for the first one, then 1 and so on. A refusal changes nothing.
    pub fn register(&self, seat: &mut BookSeat) -> Result<Pass, Memory>
        requires table { seat.old.table ≡ self.now.table }
        requires room { seat.old.view.made < 2 ^ 32 - 1 }
        ensures table { seat.new.table ≡ seat.old.table }
        ensures pass { IfOk result (λ p. (p.claims ≡ self.now) × (p.view ≡ new_pass seat.old.view.made)) }
        ensures made { IfOk result (λ _. seat.new.view ≡ record seat.old.view { made = seat.old.view.made + 1; drawn = None }) }
        ensures refused { IfErr result (λ _. seat.new ≡ seat.old) }
    {
        let Ok((ranking, seen, served)) = self.equipment() else {
            return Err(Memory);
        };
        let number = self
            .table
            .shared
            .fetch_add::<Register>(&mut seat.seat, DRAWN_COUNT, 1);
        let pass = self.table.shared.split_seat::<Newcomer>(&mut seat.seat);
        Ok(Pass {
            seat: pass,
            number: number as u32,
            ranking,
            seen,
            served,
            front: 0,
        })
    }

    /// Ends the table, and gives its claim words. Where that is refused, they are gone.
    pub fn close(self, seat: BookSeat) -> Result<Ended, Memory>
        requires { seat.table ≡ self.table }
        ensures { IfOk result (λ ended. AreLastWords self.table.extents self.table.workers seat.view ended.words) }
    {
        let Claims {
            table,
            ranking,
            workers: _,
            alloc,
        } = self;
        let BookSeat { seat } = seat;
        let closed = table.close_with(seat);
        let words = words_of(alloc, &closed, ranking.len());
        closed.free();
        match words {
            Ok(words) => Ok(Ended { words }),
            Err(_) => Err(Memory),
        }
    }

    // What a pass has beside its seat.
    fn equipment(&self) -> Result<(Arc<Ranking, Global>, Vec<bool>, Vec<u64>), AllocError>
        ensures ranking { IfOk result (λ e. arc_value e.0 ≡ self.now.ranking) }
        ensures seen { IfOk result (λ e. e.1.items ≡ replicate self.now.table.extents false) }
        ensures served { IfOk result (λ e. e.2.items ≡ replicate (spec.demand_count self.now.table.extents) 0) }
    {
        let extents = self.ranking.len();
        let ranking = Arc::try_clone(&self.ranking)?;
        let seen = vec![in self.alloc; false; extents]?;
        let served = free_words(self.alloc, demand_count(extents))?;
        Ok((ranking, seen, served))
    }
}

// The table for so many workers.
fn table_of(alloc: Global, ranking: Ranking, workers: u32) -> Result<(Claims, BookSeat), AllocError>
    requires { length ranking.priorities ≤ 65536 }
    ensures claims { IfOk result (λ r. (r.0.table.extents ≡ length ranking.priorities) × (r.0.table.workers ≡ workers) × (r.0.ranking ≡ ranking)) }
    ensures seat { IfOk result (λ r. (r.1.table ≡ r.0.table) × (r.1.view ≡ new_book)) }
{
    let extents = ranking.len();
    let ranking = Arc::new(alloc, ranking)?;
    let words = free_words(alloc, word_count(extents))?;
    let limits = Limits {
        extents: extents as u64,
        workers: u64::from(workers),
    };
    let (table, seat) = Table::of_words(alloc, words.as_slice(), &limits)?;
    let claims = Claims {
        table,
        ranking,
        workers,
        alloc,
    };
    Ok((claims, BookSeat { seat }))
}

// So many words that are 0.
fn free_words(alloc: Global, count: usize) -> Result<Vec<u64>, AllocError>
    ensures { IfOk result (λ v. v.items ≡ replicate count 0) }
{
    let words = vec![in alloc; 0u64; count]?;
    Ok(words)
}

// The claim words of a closed table.
fn words_of(
    alloc: Global,
    closed: &Closed<(), Global>,
    extents: usize,
) -> Result<Vec<Word>, AllocError>
    requires few { extents ≤ 65536 }
    requires words { (slots_len closed.now.words ≡ spec.word_count extents) × IsFull closed.now.words }
    requires numbers { (e k : ℕ) → e < extents → Names (word_at (slots_items closed.now.words) e) k → k < 2 ^ 32 }
    ensures count { IfOk result (λ v. length v.items ≡ extents) }
    ensures words { IfOk result (λ v. (e : ℕ) → e < extents → slice_index_or v.items e Word.Free ≡ word_at (slots_items closed.now.words) e) }
{
    let mut words = Vec::with_capacity(alloc, extents)?;
    for extent in 0..extents {
        words.push(read_word(closed.word(claim_place(extent as u32))))?;
    }
    Ok(words)
}
