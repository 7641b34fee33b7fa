//! Scripts that are refused.
use crate::fixture::{card, run, wrote};
use aff_outside::OpenGate;
use std::test::Fail;

#[test]
fn scripts_are_refused(rt: HostRuntime) -> Result<(), Fail> {
    let rows: [(&[u8], &str); 7] = [
        (b"session\nread 0 1048577\n", "error script 2 toolong\n"),
        (b"session\nread 0 513\n", "error script 2 pastend\n"),
        (
            b"extent 0 512 0\nsession\nraise 1 512\n",
            "error script 3 pastend\n",
        ),
        (b"session\nawait 01\n", "error script 2 number\n"),
        (b"session\nafter\nafter\n", "error script 3 shape\n"),
        (b"session\nextent 0 512 0\n", "error script 2 shape\n"),
        (b"read 0 1\n", "error plan 1 shape\n"),
    ];
    for (text, line) in rows {
        let ran = run(&rt, text, card(rt.alloc(), 512, &[])?, &[], &OpenGate)?;
        wrote(&ran, 3, line)?;
    }
    Ok(())
}

/// Sixteen sessions are taken, and a seventeenth is refused.
#[test]
fn a_seventeenth_session_is_refused(rt: HostRuntime) -> Result<(), Fail> {
    let alloc = rt.alloc();
    let mut text = Vec::new(alloc);
    for _ in 0..16 {
        text.extend_from_slice(b"session\n")?;
    }
    let ran = run(&rt, &text, card(alloc, 512, &[])?, &[], &OpenGate)?;
    assert!(rt; ran.status == 0 && ran.peeks == 16);
    text.extend_from_slice(b"session\n")?;
    let ran = run(&rt, &text, card(alloc, 512, &[])?, &[], &OpenGate)?;
    wrote(&ran, 3, "error script 17 toomany\n")
}
