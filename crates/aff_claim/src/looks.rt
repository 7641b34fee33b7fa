//! Looks at claim words.
ghost use Rattle.std.specs.Prelude.{◌≡◌, ◌≢◌, ◌↔◌, ℕ, ◌<◌, ◌≤◌, Contains};
ghost use Rattle.aff_claim.specs.Steps.{book_looked, looked};
ghost use Rattle.aff_claim.specs.Words.{IsPublished, Names};

use crate::rule::{BookLoad, Load};
use crate::word::{claim_place, read_word};
use crate::{BookSeat, Claims, Pass, Word};

impl Claims {
    /// The word of an extent, at this moment.
    pub fn look(&self, pass: &mut Pass, extent: u32) -> Word
        requires table { pass.old.claims ≡ self.now }
        requires planned { extent < self.now.table.extents }
        ensures table { pass.new.claims ≡ pass.old.claims }
        ensures view { pass.new.view ≡ looked pass.old.view extent result }
        ensures number { (k : ℕ) → Names result k → k ≤ self.now.table.workers }
        ensures mine { Contains pass.old.view.mine extent → Names result pass.old.view.number }
        ensures known { Contains pass.old.view.known extent → result ≢ Word.Free }
    {
        let found = self
            .table
            .shared
            .load::<Load>(&mut pass.seat, claim_place(extent));
        pass.seen[extent as usize] |= found != 0;
        read_word(found)
    }

    /// The word of an extent, at this moment, for the book.
    pub fn book_look(&self, seat: &mut BookSeat, extent: u32) -> Word
        requires table { seat.old.table ≡ self.now.table }
        requires planned { extent < self.now.table.extents }
        ensures table { seat.new.table ≡ seat.old.table }
        ensures view { seat.new.view ≡ book_looked seat.old.view extent result }
        ensures number { (k : ℕ) → Names result k → k ≤ self.now.table.workers }
        ensures out { Contains seat.old.view.out extent ↔ IsPublished result }
        ensures held { (k : ℕ) → Contains seat.old.view.held (extent, k) → Names result k }
    {
        let found = self
            .table
            .shared
            .load::<BookLoad>(&mut seat.seat, claim_place(extent));
        read_word(found)
    }
}
