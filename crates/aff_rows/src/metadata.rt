//! What a finished volume says of itself, read as any reader of Turtle would.
use crate::fixture::{NONE, card, run};
use aff_info::{InfoRead, of_triples};
use aff_map::Target;
use aff_memory::{FixedDevice, MemoryFolder};
use aff_outside::read_segment;
use aff_turtle::read;
use std::alloc::Global;
use std::test::Fail;

/// The bytes of a segment of the volume itself.
fn bytes_of(alloc: Global, folder: &mut MemoryFolder, name: &str) -> Result<Vec<u8>, Fail> {
    match read_segment(alloc, folder, name) {
        Ok(Some(bytes)) => Ok(bytes),
        _ => Err("no such segment")?,
    }
}

/// The metadata of a volume.
pub fn info(alloc: Global, folder: &mut MemoryFolder) -> Result<InfoRead, Fail> {
    let bytes = bytes_of(alloc, folder, "information.turtle")?;
    let triples = match read(alloc, &bytes) {
        Ok(triples) => triples,
        Err(_) => return Err("no Turtle")?,
    };
    match of_triples(alloc, &triples) {
        Ok(found) => Ok(found),
        Err(_) => Err("no metadata")?,
    }
}

#[test]
fn one_sector(rt: HostRuntime) -> Result<(), Fail> {
    let alloc = rt.alloc();
    let mut ran = run(&rt, b"extent 0 512 0\n", card(alloc, 1)?, NONE)?;
    let found = info(alloc, &mut ran.folder)?;
    assert!(rt; found.aside.is_empty());
    let volume = "aff4://11111111-2222-4333-8444-555555555555";
    assert!(rt; found.info.volume.text() == volume);
    assert!(rt; found.info.stream.text() == "aff4://11111111-2222-4333-8444-555555555555/data");
    assert!(rt; found.info.image.text() == "aff4://11111111-2222-4333-8444-555555555555/image");
    assert_eq!(rt; found.info.stream_size, 32_768);
    assert_eq!(rt; found.info.image_size, 512);
    assert!(rt; matches!(found.info.gap, Target::Unknown));
    assert!(rt; found.info.linear.md5.starts_with(&[0x39, 0x3a, 0x0f, 0xa0]));
    assert!(rt;
        found
            .info
            .linear
            .sha512
            .starts_with(&[0x61, 0x1b, 0xae, 0x45])
    );
    assert!(rt; found.info.block_map.starts_with(&[0xd2, 0x19, 0x55, 0x10]));
    let version = bytes_of(alloc, &mut ran.folder, "version.txt")?;
    assert!(rt; version.as_slice() == "major=1\nminor=0\ntool=live-imager 1\n".as_bytes());
    let description = bytes_of(alloc, &mut ran.folder, "container.description")?;
    assert!(rt; description.as_slice() == volume.as_bytes());
    Ok(())
}

#[test]
fn an_empty_plan(rt: HostRuntime) -> Result<(), Fail> {
    let alloc = rt.alloc();
    let mut ran = run(&rt, b"", card(alloc, 1)?, NONE)?;
    let info = info(alloc, &mut ran.folder)?.info;
    assert_eq!(rt; info.stream_size, 0);
    assert_eq!(rt; info.image_size, 512);
    assert!(rt; info.block_map.starts_with(&[0xc2, 0x09, 0x1b, 0x7e]));
    Ok(())
}

#[test]
fn a_chunk_of_bad_sectors(rt: HostRuntime) -> Result<(), Fail> {
    let alloc = rt.alloc();
    let bad: Vec<u64> = (64..128).collect(alloc)?;
    let device = FixedDevice::new(vec![in alloc; 7u8; 98_304]?, bad);
    let mut ran = run(&rt, b"extent 0 98304 0\n", device, NONE)?;
    let info = info(alloc, &mut ran.folder)?.info;
    // The stream has two chunks of the three.
    assert_eq!(rt; info.stream_size, 65_536);
    assert_eq!(rt; info.image_size, 98_304);
    Ok(())
}
