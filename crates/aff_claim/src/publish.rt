//! Publishing, and the claims of the sweep.
ghost use Rattle.std.specs.Prelude.{◌≡◌, ◌≢◌, ◌↔◌, ℕ, ◌<◌, ◌≤◌, ◌++◌, ◌∷◌, [], Contains, IfOk, IfErr, IsOk, IsTrue};
ghost use Rattle.aff_claim.specs.Steps.{published, swept, swept_word};
ghost use Rattle.aff_claim.specs.Words.{IsPublished, Names};

use crate::rule::{Publish, Sweep};
use crate::word::{claim_place, read_word};
use crate::{BookSeat, Claims, Word};

impl Claims {
    /// Publishes an extent under the number that claimed it. Otherwise the word that stood there comes back, and
    /// no word changes.
    pub fn publish_step(&self, seat: &mut BookSeat, extent: u32, claimant: u32) -> Result<(), Word>
        requires table { seat.old.table ≡ self.now.table }
        requires planned { extent < self.now.table.extents }
        ensures table { seat.new.table ≡ seat.old.table }
        ensures ok { IfOk result (λ _. seat.new.view ≡ record seat.old.view { out = seat.old.view.out ++ extent ∷ []; found = seat.old.view.found ++ (extent, Word.Claimed claimant) ∷ [] }) }
        ensures err { IfErr result (λ word. (word ≢ Word.Claimed claimant) × (seat.new.view ≡ record seat.old.view { found = seat.old.view.found ++ (extent, word) ∷ [] })) }
        ensures out { IfErr result (λ word. Contains seat.old.view.out extent ↔ IsPublished word) }
        ensures held { IfErr result (λ word. (k : ℕ) → Contains seat.old.view.held (extent, k) → Names word k) }
        ensures succeeds { Contains seat.old.view.held (extent, claimant) → ¬ Contains seat.old.view.out extent → IsOk result }
    {
        let found = self.publish_word(seat, extent, claimant);
        if is_claim_of(found, claimant) {
            Ok(())
        } else {
            Err(found)
        }
    }

    /// Claims an extent for the sweep, under the number of workers, where no worker has claimed it; then or else
    /// the word that stands there now. It is never free.
    pub fn sweep_claim(&self, seat: &mut BookSeat, extent: u32) -> Word
        requires table { seat.old.table ≡ self.now.table }
        requires planned { extent < self.now.table.extents }
        ensures table { seat.new.table ≡ seat.old.table }
        ensures view { (found : Word) × (seat.new.view ≡ swept seat.old.view extent self.now.table.workers found) × (result ≡ swept_word self.now.table.workers found) }
        ensures taken { result ≢ Word.Free }
        ensures number { (k : ℕ) → Names result k → k ≤ self.now.table.workers }
        ensures held { (k : ℕ) → result ≡ Word.Claimed k → Contains seat.new.view.held (extent, k) }
        ensures out { Contains seat.new.view.out extent ↔ IsPublished result }
    {
        match self.sweep_word(seat, extent) {
            Word::Free => Word::Claimed(self.workers),
            taken => taken,
        }
    }

    // The exchange that publishes: the word that it found.
    fn publish_word(&self, seat: &mut BookSeat, extent: u32, claimant: u32) -> Word
        requires table { seat.old.table ≡ self.now.table }
        requires planned { extent < self.now.table.extents }
        ensures table { seat.new.table ≡ seat.old.table }
        ensures view { seat.new.view ≡ published seat.old.view extent claimant result }
        ensures out { Contains seat.old.view.out extent ↔ IsPublished result }
        ensures held { (k : ℕ) → Contains seat.old.view.held (extent, k) → Names result k }
    {
        let claim = 2 * u64::from(claimant) + 1;
        let found = self
            .table
            .shared
            .compare_exchange::<Publish>(&mut seat.seat, claim_place(extent), claim, claim + 1);
        read_word(found)
    }

    // The exchange of the sweep: the word that it found.
    fn sweep_word(&self, seat: &mut BookSeat, extent: u32) -> Word
        requires table { seat.old.table ≡ self.now.table }
        requires planned { extent < self.now.table.extents }
        ensures table { seat.new.table ≡ seat.old.table }
        ensures view { seat.new.view ≡ swept seat.old.view extent self.now.table.workers result }
        ensures number { (k : ℕ) → Names result k → k ≤ self.now.table.workers }
        ensures out { Contains seat.old.view.out extent ↔ IsPublished result }
    {
        let claim = 2 * u64::from(self.workers) + 1;
        let found = self
            .table
            .shared
            .compare_exchange::<Sweep>(&mut seat.seat, claim_place(extent), 0, claim);
        read_word(found)
    }
}

// Whether a word is the claim of this number.
fn is_claim_of(word: Word, claimant: u32) -> bool
    ensures { IsTrue result ↔ (word ≡ Word.Claimed claimant) }
{
    match word {
        Word::Claimed(number) => number == claimant,
        Word::Free | Word::Published(_) => false,
    }
}
