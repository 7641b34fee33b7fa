//! A folder that holds something.
use crate::fixture::{NONE, WORDS, card, run_into, wrote};
use aff_memory::MemoryFolder;
use aff_outside::{Device, Folder};
use std::test::Fail;

#[test]
fn an_occupied_folder_stays_as_it_is(rt: HostRuntime) -> Result<(), Fail> {
    let alloc = rt.alloc();
    let mut folder = MemoryFolder::new(alloc, Vec::new(alloc), Vec::new(alloc));
    assert!(rt; folder.append("note", b"").is_ok());
    let mut devices: Vec<Box<dyn Device>> = Vec::new(alloc);
    devices.push(Box::new(alloc, card(alloc, 1)?)?)?;
    // The text is that of no plan, and is not read.
    let ran = run_into(&rt, &WORDS, b"x", devices, folder, NONE)?;
    assert_eq!(rt; ran.folder.calls(), 2);
    wrote(&ran, 8, "error occupied\n")
}
