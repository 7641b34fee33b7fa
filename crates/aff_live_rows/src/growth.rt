//! What sessions see while the image grows.
use crate::fixture::{card, reports, run};
use crate::gates::{BehindEach, FirstPublished, InTurn};
use aff_memory::RecordingGate;
use aff_outside::GateStep;
use std::test::Fail;

#[test]
fn reads_see_growth(rt: HostRuntime) -> Result<(), Fail> {
    let text =
        b"extent 0 512 0\nextent 512 512 0\nextent 1024 512 0\nextent 1536 512 0\nsession\nread 0 2048\nread 0 2048\nread 0 2048\nread 0 2048\nread 0 2048\n";
    let ran = run(
        &rt,
        text,
        card(rt.alloc(), 2_048, &[])?,
        &[],
        &InTurn::new(),
    )?;
    reports(
        &ran,
        "session 1
read 0 2048 0
unknown 0 2048
read 0 2048 1
known 0 512 15933044960fd23a7daaac9ce51355f1f39894d1c3fe6de21b59b28ce2c77e77
unknown 512 1536
read 0 2048 2
known 0 1024 a99c07ce93703c7390589c5b007bd9a97a8b6de29e9a920d474d4f028ce2d42c
unknown 1024 1024
read 0 2048 3
known 0 1536 f969955861e3636807cfcd28ee5121d8bc251367f30743cb02e49a6cfc2b7db3
unknown 1536 512
read 0 2048 4
known 0 2048 e4fde89f39bc53b90e9935a8015b80dd6e4135485e894094a3517fa250e344ae
md5 ",
    )
}

/// A read that comes behind the first publication is answered by it.
#[test]
fn a_read_behind_a_publication_knows_it(rt: HostRuntime) -> Result<(), Fail> {
    let text = b"extent 0 512 0\nsession\nread 0 512\n";
    let ran = run(
        &rt,
        text,
        card(rt.alloc(), 512, &[])?,
        &[],
        &FirstPublished::new(),
    )?;
    reports(
        &ran,
        "session 1
read 0 512 1
known 0 512 15933044960fd23a7daaac9ce51355f1f39894d1c3fe6de21b59b28ce2c77e77
md5 ",
    )
}

/// A session looks after each of five publications while a worker goes on, a hundred times.
#[test]
fn looks_beside_a_worker(rt: HostRuntime) -> Result<(), Fail> {
    let text =
        b"extent 0 512 0\nextent 512 512 0\nextent 1024 512 0\nextent 1536 512 0\nextent 2048 512 0\nsession\nread 0 0\nread 0 512\nread 512 512\nread 0 2560\nread 0 0\n";
    for _ in 0..100 {
        let gate = BehindEach::new();
        let ran = run(&rt, text, card(rt.alloc(), 2_560, &[])?, &[], &gate)?;
        assert!(rt; ran.status == 0 && gate.saw(5));
    }
    Ok(())
}

#[test]
fn a_run_tells_its_steps(rt: HostRuntime) -> Result<(), Fail> {
    let gate = RecordingGate::new(&rt)?;
    let ran = run(
        &rt,
        b"extent 0 512 0\n",
        card(rt.alloc(), 512, &[])?,
        &[],
        &gate,
    )?;
    let steps = [GateStep::Reading(0), GateStep::Published(1)];
    assert!(rt; ran.status == 0 && gate.steps()?.as_slice() == steps.as_slice());
    Ok(())
}
