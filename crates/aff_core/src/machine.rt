//! Lists of events.
ghost use Rattle.std.specs.Prelude.{◌≡◌, ℕ, ◌⊎◌, IfOk, IfErr, OnErr, length, take};
ghost use Rattle.aff_core.specs.Steps.{CoreState, IsFirstRefused, IsRefusal, IsRun, start};

use crate::{CoreError, Event, State};
use aff_model::Plan;
use std::alloc::Global;

/// The state that a list of events gives, one step each from the first state on.
pub fn run<'p>(
    alloc: Global,
    plan: &'p Plan,
    passes: u32,
    sessions: u32,
    events: Vec<Event>,
) -> Result<State<'p>, CoreError>
    ensures plan { IfOk result (λ s. s.plan ≡ plan.now) }
    ensures state { IfOk result (λ s. IsRun (start plan.now passes sessions) events.items s) }
    ensures refusal { IfErr result (IsRefusal (start plan.now passes sessions) events.items) }

    // Want of memory aside, each run is taken and each first event that is no step is named.
    ensures taken { (s : CoreState) → IsRun (start plan.now passes sessions) events.items s → OnErr result (result ≡ Err CoreError.Memory) }
    ensures named { (place : ℕ) → IsFirstRefused (start plan.now passes sessions) events.items place
        → (result ≡ Err (CoreError.Refused place)) ⊎ (result ≡ Err CoreError.Memory) }
{
    let Ok(mut state) = State::new(alloc, plan, passes, sessions) else {
        return Err(CoreError::Memory);
    };
    for (place, event) in events.into_iter().enumerate() {
        if state.apply(event).is_err() {
            return Err(CoreError::Refused(place as u64));
        }
    }
    Ok(state)
}

#[cfg(test)]
mod tests {
    use super::*;
    use aff_model::{Extent, Kind, Place, PlanFault, Publication, Run};
    use std::alloc::AllocError;
    use std::test::Fail;

    fn plan_of(alloc: Global, len: u64, size: u64) -> Result<Plan, PlanFault>
        ensures { IfOk result (λ p. p.size ≡ size) }
    {
        let extent = Extent {
            at: 0,
            len,
            priority: 0,
        };
        let mut extents = Vec::new(alloc);
        extents.push(extent).map_err(AllocError::from)?;
        Plan::of(alloc, extents, size, 512)
    }

    fn publication(alloc: Global, bad: &[u32]) -> Result<Publication, AllocError> {
        Ok(Publication {
            extent: 0,
            claimant: 0,
            swept: false,
            bad: Vec::from_slice(alloc, bad)?,
            places: Vec::from_slice(alloc, &[Place::Chunk(0)])?,
        })
    }

    // An event of one extent, one pass and one session, by a letter.
    fn event(alloc: Global, letter: u8) -> Result<Event, AllocError> {
        let session = 0;
        let extent = 0;
        Ok(match letter {
            b'c' => Event::Claim {
                claimant: 0,
                extent,
            },
            b'p' => Event::Publish {
                publication: publication(alloc, &[])?,
            },
            b'r' => Event::Read {
                session,
                at: 0,
                len: 512,
                front: 0,
            },
            b's' => Event::Read {
                session,
                at: 0,
                len: 512,
                front: 1,
            },
            b'a' => Event::Raise { session, extent },
            _ => Event::Finish,
        })
    }

    fn events(alloc: Global, letters: &[u8]) -> Result<Vec<Event>, AllocError> {
        let mut list = Vec::new(alloc);
        for letter in letters {
            list.push(event(alloc, *letter)?)?;
        }
        Ok(list)
    }

    #[test]
    fn lists(rt: HostRuntime) -> Result<(), Fail> {
        let alloc = rt.alloc();
        let plan = plan_of(alloc, 512, 512)?;
        let table: [(&[u8], Option<u64>); 11] = [
            (b"crpsf", None),
            (b"crppsf", Some(3)),
            (b"", None),
            (b"cc", Some(1)),
            (b"p", Some(0)),
            (b"f", Some(0)),
            (b"cpff", Some(3)),
            (b"s", Some(0)),
            (b"cpfa", Some(3)),
            (b"acpr", Some(3)),
            (b"cpfs", None),
        ];
        for (letters, refused) in table {
            let fault = run(alloc, &plan, 1, 1, events(alloc, letters)?).err();
            assert_eq!(rt; fault, refused.map(CoreError::Refused));
        }
        Ok(())
    }

    #[test]
    fn answers(rt: HostRuntime) -> Result<(), Fail> {
        let alloc = rt.alloc();
        let plan = plan_of(alloc, 512, 512)?;
        let state = run(alloc, &plan, 1, 1, events(alloc, b"crpsf")?)?;
        let known = Run {
            len: 512,
            kind: Kind::Known,
        };
        assert_eq!(rt; state.answer(0, 512)?.as_slice(), [known].as_slice());
        Ok(())
    }

    #[test]
    fn three_kinds(rt: HostRuntime) -> Result<(), Fail> {
        let alloc = rt.alloc();
        let plan = plan_of(alloc, 1536, 2048)?;
        let mut state = State::new(alloc, &plan, 1, 1)?;
        state.apply(event(alloc, b'c')?)?;
        state.apply(Event::Publish {
            publication: publication(alloc, &[2])?,
        })?;
        let runs = [
            Run {
                len: 924,
                kind: Kind::Known,
            },
            Run {
                len: 512,
                kind: Kind::Unreadable,
            },
            Run {
                len: 12,
                kind: Kind::Unknown,
            },
        ];
        assert_eq!(rt; state.answer(100, 1448)?.as_slice(), runs.as_slice());
        Ok(())
    }
}
