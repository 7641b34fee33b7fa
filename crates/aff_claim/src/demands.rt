//! Demands: asking for an extent, and claiming what was asked for.
ghost use Rattle.std.specs.Prelude.{◌≡◌, ◌+◌, ◌*◌, ◌<◌, ◌≤◌, ℕ, IfSome, IfNone, Contains, None, length};
ghost use Rattle.aff_claim.specs.Demands.{ArePlanned, Has};
ghost use Rattle.aff_claim.specs.Next.{HasClaimed, HasServed, IsLater, IsServed, KnowsAll};
ghost use Rattle.aff_claim.specs.Steps.{demands_looked, raising};
ghost use Rattle.aff_claim.specs.Words.{demand_count as count_of};

use crate::rule::{DemandLoad, Raise};
use crate::word::{demand_bit, demand_count, demand_number, demand_place};
use crate::{Claims, Pass};

impl Claims {
    /// Asks for an extent. A pass that claims after this takes it before any extent that nobody asked for. A demand is
    /// never taken back; one for an extent that is taken does nothing.
    pub fn raise(&self, pass: &mut Pass, extent: u32)
        requires table { pass.old.claims ≡ self.now }
        requires planned { extent < self.now.table.extents }
        ensures table { pass.new.claims ≡ pass.old.claims }
        ensures view { pass.new.view ≡ raising pass.old.view extent }
    {
        let place = demand_place(self.ranking.len(), demand_number(extent));
        self.table
            .shared
            .fetch_or::<Raise>(&mut pass.seat, place, demand_bit(extent));
    }

    // Claims the first extent that is asked for and not known to be taken.
    pub(crate) fn claim_asked(&self, pass: &mut Pass) -> Option<u32>
        requires table { pass.old.claims ≡ self.now }
        requires worker { pass.old.view.number < self.now.table.workers }
        ensures table { pass.new.claims ≡ pass.old.claims }
        ensures later { IsLater pass.old.view pass.new.view }
        ensures some { IfSome result (λ extent. HasClaimed self.now.ranking.priorities extent pass.old.view pass.new.view) }
        ensures none { IfNone result ((pass.new.view.mine ≡ pass.old.view.mine) × HasServed self.now.table.extents pass.new.view.looked pass.new.view.known) }
        ensures all_known { KnowsAll self.now.table.extents pass.old.view → result ≡ None }
    {
        for number in 0..demand_count(self.ranking.len()) {
            if let Some(extent) = self.serve(pass, number) {
                return Some(extent);
            }
        }
        None
    }

    // Looks at a demand word, and claims the first of its extents that is asked for and not known to be taken.
    fn serve(&self, pass: &mut Pass, number: usize) -> Option<u32>
        requires table { pass.old.claims ≡ self.now }
        requires worker { pass.old.view.number < self.now.table.workers }
        requires number { number < count_of self.now.table.extents }
        ensures table { pass.new.claims ≡ pass.old.claims }
        ensures later { IsLater pass.old.view pass.new.view }
        ensures some { IfSome result (λ extent. HasClaimed self.now.ranking.priorities extent pass.old.view pass.new.view) }
        ensures none { IfNone result ((pass.new.view.mine ≡ pass.old.view.mine) × IsServed number pass.old.view pass.new.view) }
        ensures all_known { KnowsAll self.now.table.extents pass.old.view → result ≡ None }
    {
        let bits = self.demands(pass, number);
        if bits != pass.served(number) {
            if let Some(extent) = self.claim_of(pass, number, bits) {
                return Some(extent);
            }
            pass.set_served(number, bits);
        }
        None
    }

    // Claims the first extent for which bits of a demand word ask, and which is not known to be taken.
    fn claim_of(&self, pass: &mut Pass, number: usize, bits: u64) -> Option<u32>
        requires table { pass.old.claims ≡ self.now }
        requires worker { pass.old.view.number < self.now.table.workers }
        requires number { number < count_of self.now.table.extents }
        requires sized { (self.now.table.extents ≡ length self.now.ranking.priorities) × (self.now.table.extents ≤ 65536) }
        requires planned { ArePlanned self.now.table.extents number bits }
        requires found { Contains pass.old.view.looked (number, bits) }
        ensures table { pass.new.claims ≡ pass.old.claims }
        ensures later { IsLater pass.old.view pass.new.view }
        ensures some { IfSome result (λ extent. HasClaimed self.now.ranking.priorities extent pass.old.view pass.new.view) }
        ensures none { IfNone result ((pass.new.view.mine ≡ pass.old.view.mine) × (pass.new.view.looked ≡ pass.old.view.looked)) }
        ensures known { IfNone result ((i : ℕ) → Has bits i → Contains pass.new.view.known (64 * number + i)) }
        ensures all_known { KnowsAll self.now.table.extents pass.old.view → result ≡ None }
    {
        for bit in 0..64 {
            if bits >> bit & 1 == 1 {
                let extent = 64 * number as u32 + bit;
                if !pass.knows(extent) && self.claim(pass, extent) {
                    return Some(extent);
                }
            }
        }
        None
    }

    // The bits of a demand word.
    fn demands(&self, pass: &mut Pass, number: usize) -> u64
        requires table { pass.old.claims ≡ self.now }
        requires number { number < count_of self.now.table.extents }
        ensures table { pass.new.claims ≡ pass.old.claims }
        ensures view { pass.new.view ≡ demands_looked pass.old.view number result }
        ensures planned { ArePlanned self.now.table.extents number result }
        ensures sized { (self.now.table.extents ≡ length self.now.ranking.priorities) × (self.now.table.extents ≤ 65536) }
        ensures before { (old i : ℕ) → Contains pass.old.view.looked (number, old) → Has old i → Has result i }
    {
        let place = demand_place(self.ranking.len(), number);
        self.table.shared.load::<DemandLoad>(&mut pass.seat, place)
    }
}
