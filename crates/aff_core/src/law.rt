//! What holds over every list of events.
ghost use Rattle.std.specs.Prelude.{◌≡◌, ℕ, List, ◌∷◌, ◌++◌, nat_eq, if◌then◌else◌};
ghost use Rattle.std.specs.List.{IsDistinct};
ghost use Rattle.std.specs.List.Sorted.{IsNonDecreasing};
ghost use Rattle.aff_core.specs.declared.event.Event.{Event};
ghost use Rattle.aff_model.specs.Kinds.{kind_at};
ghost use Rattle.aff_core.specs.Laws.{finish_count, fronts_of, kind_of};
ghost use Rattle.aff_core.specs.Steps.{CoreState, IsRun, extents_out, start};
ghost use Rattle.aff_model.specs.declared.extent.Extent.{Extent};
ghost use Rattle.aff_model.specs.Cells.{cell_of};
ghost use Rattle.aff_model.specs.Content.{Content};
ghost use Rattle.aff_model.specs.History.{Published};
ghost use Rattle.aff_model.specs.Legal.{IsComplete};
ghost use Rattle.aff_model.specs.Plan.{Planned};

/// Does nothing. Its contract has the laws of the core: each extent stands once in the history, which only
/// grows at its end; a session's fronts do not fall; Finish comes once at most, and only where every extent
/// is published; and a place is of the kind of its cell, whatever the device's bytes are.
pub fn laws()
    ensures once { (plan : Planned) (passes sessions : ℕ) (events : List Event) (c : CoreState)
        → IsRun (start plan passes sessions) events c → IsDistinct nat_eq (extents_out c.history) }
    ensures grows { (c : CoreState) (events : List Event) (d : CoreState) → IsRun c events d
        → (more : List Published) × (d.history ≡ c.history ++ more) }
    ensures fronts { (c : CoreState) (events : List Event) (d : CoreState) (session : ℕ) → IsRun c events d
        → IsNonDecreasing (fronts_of session events) }
    ensures one_finish { (plan : Planned) (passes sessions : ℕ) (events : List Event) (c : CoreState)
        → IsRun (start plan passes sessions) events c
        → finish_count events ≡ (if c.finished then 1 else 0) }
    ensures complete { (c : CoreState) (before after : List Event) (d : CoreState)
        → IsRun c (before ++ Event.Finish ∷ after) d
        → (between : CoreState) × IsRun c before between
        × IsComplete between.plan.extents between.history }
    ensures kinds { (content : Content) (extents : List Extent) (history : List Published) (i : ℕ)
        → kind_of (cell_of content extents history i) ≡ kind_at extents history i }
{}
