//! Block hashes, linear hashes, and a stream of more than one bevvy.
use crate::fixture::{NONE, STREAM, card, has, is_missing, maps, run, sectors, segment};
use aff_memory::FixedDevice;
use std::test::Fail;

#[test]
fn one_sector_of_two(rt: HostRuntime) -> Result<(), Fail> {
    let alloc = rt.alloc();
    let ran = run(&rt, b"extent 0 512 0\n", card(alloc, 2)?, NONE)?;
    has(
        &ran,
        &[
            "md5 b6d2005fbdd7565c84c2209241d9dbb1",
            "sha1 f0f1a37fbd511f53cc4740115df61f9909b2ee6d",
            "sha256 3d0c591ab9b6d9e222813beabe520ab9400ee690c92a2a379494ed6ac0894e18",
            "sha512 ea2fb5635c7c3fcec4e03dec2d9a26e9ce6786ddf01c86caf2d3d283f48a783a11abf150fac0a8634467ad0098dd00c9f1f4e0fbfd8f561aa4149852c966c90f",
        ],
    )
}

#[test]
fn block_hashes_are_those_of_the_padded_chunk(rt: HostRuntime) -> Result<(), Fail> {
    let alloc = rt.alloc();
    let mut ran = run(&rt, b"extent 0 512 0\n", card(alloc, 2)?, NONE)?;
    let folder = &mut ran.folder;
    let md5 = segment(alloc, folder, STREAM, "00000000.blockHash.md5")?;
    let expected = b"\xc0\x26\xf3\xa3\xa4\x2a\x7b\xee\x78\xf6\x35\x44\x00\x4d\xf0\x09";
    assert!(rt; md5.as_slice() == expected.as_slice());
    let sha1 = segment(alloc, folder, STREAM, "00000000.blockHash.sha1")?;
    assert!(rt; sha1.len() == 20 && sha1.starts_with(&[0x23]));
    let sha256 = segment(alloc, folder, STREAM, "00000000.blockHash.sha256")?;
    assert!(rt; sha256.len() == 32 && sha256.ends_with(&[0x48]));
    Ok(())
}

#[test]
fn no_extent(rt: HostRuntime) -> Result<(), Fail> {
    let alloc = rt.alloc();
    let ran = run(&rt, b"", card(alloc, 1)?, NONE)?;
    has(&ran, &["md5 3df800501e62fab2ba2690ea81f23619"])
}

#[test]
fn an_unreadable_sector_is_hashed_as_it_is_printed(rt: HostRuntime) -> Result<(), Fail> {
    let alloc = rt.alloc();
    let device = FixedDevice::new(sectors(alloc, 3)?, vec![in alloc; 1u64]?);
    let ran = run(&rt, b"extent 0 1536 0\n", device, NONE)?;
    has(&ran, &["md5 5311f764c393a50bf5357d8f623601b2"])
}

#[test]
fn the_order_of_the_plan_changes_no_hash(rt: HostRuntime) -> Result<(), Fail> {
    let alloc = rt.alloc();
    let whole = "md5 0a04f7d87dcc0aa10db6cd925c811b97";
    let text = b"extent 512 512 9\nextent 0 512 0\n";
    has(&run(&rt, text, card(alloc, 2)?, NONE)?, &[whole])?;
    has(
        &run(&rt, b"extent 0 1024 0\n", card(alloc, 2)?, NONE)?,
        &[whole],
    )
}

#[test]
fn a_second_bevvy(rt: HostRuntime) -> Result<(), Fail> {
    let alloc = rt.alloc();
    let device = FixedDevice::new(vec![in alloc; 1u8; 33_587_200]?, Vec::new(alloc));
    let text = b"extent 0 16777216 0\nextent 16777216 16777216 0\nextent 33554432 32768 0\n";
    let mut ran = run(&rt, text, device, NONE)?;
    let lines = [
        "publication 3 2 0 own - c1024+1",
        "md5 052d2c91a9bda1241cdd92fd33443521",
    ];
    has(&ran, &lines)?;
    let folder = &mut ran.folder;
    maps(alloc, folder, "0 33587200 0 0\n")?;
    let lengths = [
        ("00000000.index", 12_288),
        ("00000001.index", 12),
        ("00000000.blockHash.sha256", 32_768),
        ("00000001.blockHash.sha256", 32),
    ];
    for (name, len) in lengths {
        assert!(rt; segment(alloc, folder, STREAM, name)?.len() == len);
    }
    assert!(rt; is_missing(alloc, folder, STREAM, "00000002")?);
    Ok(())
}
