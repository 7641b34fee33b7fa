//! What no clause says of sessions: that they are answered, and what the gate is told.
ghost use Rattle.std.specs.Prelude.{◌≡◌, [], None, IfOk, IfSome};
ghost use Rattle.aff_script.specs.Script.{IsSession};

use crate::lists::{looked_at, publish, sectors};
use crate::silent::{SilentFolder, SilentPeek, SilentReceipt};
use aff_claim::Claims;
use aff_model::{Kind, Plan, Untold};
use aff_outside::{Gate, GateStep};
use aff_script::{Answer, Request, RunLine};
use aff_session::Session;
use aff_snapshot::{Running, Viewer};
use std::alloc::Global;
use std::sync::atomic::{AtomicU64, Ordering};
use std::test::Fail;

// The SHA-256 of 512 zeros.
const SECTOR_SUM: [u8; 32] = [
    0x07, 0x6a, 0x27, 0xc7, 0x9e, 0x5a, 0xce, 0x2a, 0x3d, 0x47, 0xf9, 0xdd, 0x2e, 0x83, 0xe4, 0xff,
    0x6e, 0xa8, 0x87, 0x2b, 0x3c, 0x22, 0x18, 0xf6, 0x6c, 0x92, 0xb8, 0x9b, 0x55, 0xf3, 0x65, 0x60,
];

// A gate that counts how often was asked, and adds up the fronts.
#[derive(Drop)]
struct Counts {
    asked: AtomicU64,
    fronts: AtomicU64,
}

impl Gate for Counts {
    fn at(&self, step: GateStep) {
        match step {
            GateStep::Asking(_) => {
                self.asked.fetch_add(1, Ordering::SeqCst);
            }
            GateStep::Answered(_, front) => {
                self.fronts.fetch_add(front, Ordering::SeqCst);
            }
            GateStep::Reading(_) | GateStep::Published(_) => {}
        }
    }
}

// A session with the claims of its pass.
fn session_of(
    alloc: Global,
    plan: &Plan,
    viewer: Option<Viewer<Untold, SilentReceipt>>,
    requests: &[Request],
) -> Result<(Claims, Session<Untold, SilentFolder>), Fail>
    requires viewer { IfSome viewer (λ v. v.list.plan ≡ plan.now) }
    requires size { plan.now.size ≡ 1024 }
    requires requests { IsSession 1024 requests.now }
    ensures claims { IfOk result (λ r. r.1.claims ≡ r.0) }
    ensures viewer { IfOk result (λ r. r.1.viewer ≡ viewer) }
    ensures fresh { IfOk result (λ r. (r.1.answers ≡ []) × (r.1.fault ≡ None)) }
{
    let (claims, mut seat) = Claims::new(alloc, plan, 1)?;
    let pass = claims.register(&mut seat)?;
    let session = Session::new(alloc, viewer, SilentPeek { byte: 0 }, plan, pass, requests)?;
    Ok((claims, session))
}

// A read while the image grows, after a wait that ends where no worker runs, and one of the whole.
fn two_reads() -> [Request; 4]
    ensures { IsSession 1024 result }
{
    [
        Request::Await(7),
        Request::Read { at: 0, len: 1024 },
        Request::After,
        Request::Read { at: 500, len: 24 },
    ]
}

fn nothing_told() -> Counts {
    Counts {
        asked: AtomicU64::new(0),
        fronts: AtomicU64::new(0),
    }
}

// Goes through a session without a viewer, of a list that stays empty.
fn ask_alone(claims: &Claims, gate: &Counts, session: &mut Session<Untold, SilentFolder>)
    requires claims { session.old.claims ≡ claims.now }
    requires viewer { session.old.viewer ≡ None }
    requires fresh { (session.old.answers ≡ []) × (session.old.fault ≡ None) }
{
    session.live(claims, &Running::new(0), gate, 1);
    session.close(&[]);
}

// Whether an answer has this front and these runs.
fn is_answer(answers: &[Answer], number: usize, front: u64, runs: &[RunLine]) -> bool {
    match answers.get(number) {
        Some(answer) => answer.front == front && answer.runs.as_slice() == runs,
        None => false,
    }
}

fn unknown(at: u64, len: u64) -> RunLine {
    RunLine {
        at,
        len,
        kind: Kind::Unknown,
        sha256: [0; 32],
    }
}

#[test]
fn a_session_looks_on(rt: HostRuntime) -> Result<(), Fail> {
    let alloc = rt.alloc();
    let plan = sectors(alloc)?;
    let (mut publisher, viewer) = looked_at(&rt, alloc, &plan)?;
    let (claims, mut session) = session_of(alloc, &plan, viewer, &two_reads())?;
    assert!(rt; publish(&rt, alloc, &mut publisher, 0) == Ok(1));
    let gate = nothing_told();
    session.live(&claims, &Running::new(0), &gate, 1);
    publisher.end(&rt);
    assert!(rt; gate.asked.load(Ordering::SeqCst) == 1);
    assert!(rt; gate.fronts.load(Ordering::SeqCst) == 1);
    let parts = session.into_parts();
    assert!(rt; parts.fault.is_none() && parts.answers.len() == 1);
    let zeros = RunLine {
        at: 0,
        len: 512,
        kind: Kind::Known,
        sha256: SECTOR_SUM,
    };
    assert!(rt; is_answer(&parts.answers, 0, 1, &[zeros, unknown(512, 512)]));
    Ok(())
}

#[test]
fn without_a_viewer_all_is_asked_at_the_close(rt: HostRuntime) -> Result<(), Fail> {
    let alloc = rt.alloc();
    let plan = sectors(alloc)?;
    let (claims, mut session) = session_of(alloc, &plan, None, &two_reads())?;
    let gate = nothing_told();
    ask_alone(&claims, &gate, &mut session);
    assert!(rt; gate.asked.load(Ordering::SeqCst) == 0);
    let parts = session.into_parts();
    assert!(rt; parts.fault.is_none() && parts.answers.len() == 2);
    assert!(rt; is_answer(&parts.answers, 0, 0, &[unknown(0, 1024)]));
    assert!(rt; is_answer(&parts.answers, 1, 0, &[unknown(500, 24)]));
    Ok(())
}
