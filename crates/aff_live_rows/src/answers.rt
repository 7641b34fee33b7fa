//! What sessions are answered behind `after`.
use crate::fixture::{card, reports, run, wrote};
use aff_outside::{OpenGate, read_segment};
use std::test::Fail;

/// A text with a bad sector in its last chunk, and a read from one chunk into the next and behind the plan.
const ACROSS: &[u8] = b"extent 0 33792 0\nsession\nafter\nread 32700 1200\n";

#[test]
fn a_read_across_kinds(rt: HostRuntime) -> Result<(), Fail> {
    let ran = run(
        &rt,
        ACROSS,
        card(rt.alloc(), 34_816, &[65])?,
        &[],
        &OpenGate,
    )?;
    reports(
        &ran,
        "publication 1 0 0 own 65+1 c0+2
session 1
read 32700 1200 1
known 32700 580 f1ad40a62942cc32bb662d093ddd79fddd576f7e3e21d85adb0b6d3a8fc3cc6c
unreadable 33280 512
unknown 33792 108
md5 ",
    )
}

/// A card of 8 MiB: its boot record first, which a session reads while the rest is acquired, and both again behind `after`.
#[test]
fn the_card(rt: HostRuntime) -> Result<(), Fail> {
    let text =
        b"# boot record first\nextent 0 1048576 9\nextent 1048576 7340032 0\n\nsession\nread 446 66\nafter\nread 446 66\nread 8388000 608\n";
    let ran = run(&rt, text, card(rt.alloc(), 8_388_608, &[])?, &[], &OpenGate)?;
    reports(
        &ran,
        "\npublication 1 0 0 own - c0+32\npublication 2 1 0 own - c32+224\nsession 1\nread 446 66 ",
    )?;
    reports(
        &ran,
        "
read 446 66 2
known 446 66 603494bff2b1eb821298a82832d9bfa23dd98b4b284997c660b50db3d2a71de6
read 8388000 608 2
known 8388000 608 8c63d95ac692b86d98ee1fe128228f2f7858546ba0751270244efe12aff42624
md5 ",
    )
}

/// The first fetch of each peek fails: the run ends so, and the volume is finished.
#[test]
fn a_peek_fails(rt: HostRuntime) -> Result<(), Fail> {
    let alloc = rt.alloc();
    let mut ran = run(&rt, ACROSS, card(alloc, 34_816, &[65])?, &[1], &OpenGate)?;
    wrote(&ran, 6, "error folder\n")?;
    assert!(rt; ran.peeks == 1);
    match read_segment(alloc, &mut ran.folder, "information.turtle") {
        Ok(Some(text)) => assert!(rt; text.len() > 0),
        _ => return Err("the volume is not finished")?,
    }
    Ok(())
}

/// Sessions are numbered, also one that reads nothing; a read of no bytes has no run, and only reads are printed.
#[test]
fn sessions_are_told_by_their_numbers(rt: HostRuntime) -> Result<(), Fail> {
    let text =
        b"extent 0 512 0\nsession\nsession\nraise 0 512\nawait 1\nafter\nread 512 0\nread 0 512\n";
    let ran = run(&rt, text, card(rt.alloc(), 512, &[])?, &[], &OpenGate)?;
    reports(
        &ran,
        "publication 1 0 0 own - c0+1
session 1
session 2
read 512 0 1
read 0 512 1
known 0 512 15933044960fd23a7daaac9ce51355f1f39894d1c3fe6de21b59b28ce2c77e77
md5 ",
    )
}
