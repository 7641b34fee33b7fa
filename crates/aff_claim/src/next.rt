//! Which extent a pass claims next.
ghost use Rattle.std.specs.Prelude.{◌≡◌, ◌<◌, IsTrue, IfSome, IfNone, Contains, None, Some, false};
ghost use Rattle.aff_claim.specs.Next.{HasClaimed, HasServed, IsLater, KnowsAll};
ghost use Rattle.aff_claim.specs.Steps.{tried};

use crate::rule::{Claim, Turn};
use crate::word::{claim_place, cursor_place, read_word};
use crate::{Claims, Pass, Word};
use aff_order::Order;

impl Claims {
    /// The next extent for a pass to read, which it has claimed by its own exchange; None where it knows every extent
    /// to be taken.
    ///
    /// It looks at each demand word once, and claims what was asked for first. Where it knows all that to be taken, it
    /// draws a suggestion of `order`, which is a hint: it is claimed only where the pass knows each more urgent extent to
    /// be taken. Else the pass goes on by falling priority and rising place, from where it stopped last. So a call takes
    /// a step for each demand word, and all calls of one pass together a number of further steps that grows with the
    /// number of extents.
    pub fn next(&self, pass: &mut Pass, order: &mut Order) -> Option<u32>
        requires table { pass.old.claims ≡ self.now }
        requires worker { pass.old.view.number < self.now.table.workers }
        ensures table { pass.new.claims ≡ pass.old.claims }
        ensures order { order.new ≡ order.old }
        ensures later { IsLater pass.old.view pass.new.view }
        ensures some { IfSome result (λ extent. HasClaimed self.now.ranking.priorities extent pass.old.view pass.new.view) }
        ensures none { IfNone result ((pass.new.view.mine ≡ pass.old.view.mine) × KnowsAll self.now.table.extents pass.new.view) }
        ensures all_known { KnowsAll self.now.table.extents pass.old.view → result ≡ None }
    {
        if let Some(extent) = self.claim_asked(pass) {
            return Some(extent);
        }
        let turn = self.turn(pass);
        if let Some(extent) = self.claim_suggested(pass, order.suggest(turn)) {
            return Some(extent);
        }
        self.claim_first(pass)
    }

    // Tries to claim a suggestion, where the pass may.
    fn claim_suggested(&self, pass: &mut Pass, suggestion: Option<u32>) -> Option<u32>
        requires table { pass.old.claims ≡ self.now }
        requires worker { pass.old.view.number < self.now.table.workers }
        requires served { HasServed self.now.table.extents pass.old.view.looked pass.old.view.known }
        ensures table { pass.new.claims ≡ pass.old.claims }
        ensures later { IsLater pass.old.view pass.new.view }
        ensures some { IfSome result (λ extent. HasClaimed self.now.ranking.priorities extent pass.old.view pass.new.view) }
        ensures none { IfNone result ((pass.new.view.mine ≡ pass.old.view.mine) × (pass.new.view.looked ≡ pass.old.view.looked)) }
        ensures all_known { KnowsAll self.now.table.extents pass.old.view → result ≡ None }
    {
        let extent = suggestion?;
        let planned = (extent as usize) < self.ranking.len();
        if planned && pass.may_claim(extent) && self.claim(pass, extent) {
            Some(extent)
        } else {
            None
        }
    }

    // Claims the first extent that the pass can claim, by falling priority.
    fn claim_first(&self, pass: &mut Pass) -> Option<u32>
        requires table { pass.old.claims ≡ self.now }
        requires worker { pass.old.view.number < self.now.table.workers }
        requires served { HasServed self.now.table.extents pass.old.view.looked pass.old.view.known }
        ensures table { pass.new.claims ≡ pass.old.claims }
        ensures later { IsLater pass.old.view pass.new.view }
        ensures some { IfSome result (λ extent. HasClaimed self.now.ranking.priorities extent pass.old.view pass.new.view) }
        ensures none { IfNone result ((pass.new.view.mine ≡ pass.old.view.mine) × KnowsAll self.now.table.extents pass.new.view) }
        ensures all_known { KnowsAll self.now.table.extents pass.old.view → result ≡ None }
    {
        let extents = self.ranking.len();
        for place in pass.front()..extents {
            let extent = self.ranking.at(place);
            if !pass.knows(extent) && self.claim(pass, extent) {
                pass.set_front(place);
                return Some(extent);
            }
        }
        pass.set_front(extents);
        None
    }

    // Tries to claim an extent.
    pub(crate) fn claim(&self, pass: &mut Pass, extent: u32) -> bool
        requires table { pass.old.claims ≡ self.now }
        requires planned { extent < self.now.table.extents }
        requires worker { pass.old.view.number < self.now.table.workers }
        ensures table { pass.new.claims ≡ pass.old.claims }
        ensures claimed { IsTrue result → pass.new.view ≡ tried pass.old.view extent Word.Free }
        ensures later { IsLater pass.old.view pass.new.view }
        ensures lost { result ≡ false → (pass.new.view.mine ≡ pass.old.view.mine) × (pass.new.view.looked ≡ pass.old.view.looked) }
        ensures known { Contains pass.new.view.known extent }
    {
        self.exchange(pass, extent) == Word::Free
    }

    // The exchange that claims an extent: the word that it found.
    fn exchange(&self, pass: &mut Pass, extent: u32) -> Word
        requires table { pass.old.claims ≡ self.now }
        requires planned { extent < self.now.table.extents }
        requires worker { pass.old.view.number < self.now.table.workers }
        ensures table { pass.new.claims ≡ pass.old.claims }
        ensures view { pass.new.view ≡ tried pass.old.view extent result }
    {
        let claimed = 2 * u64::from(pass.number) + 1;
        let found = self
            .table
            .shared
            .compare_exchange::<Claim>(&mut pass.seat, claim_place(extent), 0, claimed);
        pass.seen[extent as usize] = true;
        read_word(found)
    }

    // The turn that a pass draws.
    fn turn(&self, pass: &mut Pass) -> u64
        requires { pass.old.claims ≡ self.now }
        ensures { pass.new ≡ pass.old }
    {
        let cursor = cursor_place(self.ranking.len());
        self.table
            .shared
            .fetch_add::<Turn>(&mut pass.seat, cursor, 1)
    }
}
