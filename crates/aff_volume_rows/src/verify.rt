//! Worked verdicts on one small volume.
use crate::sample::{Change, ENTRIES, IDX, RESPELLED, pair, sample, stream, sums_of_halves};
use aff_fields::write_entries;
use aff_verify::{Finding, Verdict, verify};
use std::alloc::{Alloc, Global};
use std::test::Fail;
use std::thread::Threads;

/// What is said of the sample with a change.
fn verdict<R: Alloc<A = Global> + Threads + Sync>(
    rt: &R,
    change: Change<'_>,
) -> Result<String, Fail> {
    let alloc = rt.alloc();
    let mut folder = sample(alloc, Vec::new(alloc), change)?;
    match verify(rt, alloc, &mut folder) {
        Ok(Verdict::Sound) => Ok(String::from_str(alloc, "sound")?),
        Ok(Verdict::Unsound(Finding::Block { kind, chunk, .. })) => {
            Ok(format!(in alloc; "block {kind:?} {chunk}")?)
        }
        Ok(Verdict::Unsound(Finding::Linear { kind, .. })) => Ok(format!(in alloc;
            "linear {kind:?}"
        )?),
        Ok(Verdict::Unsound(Finding::BlockMap { .. })) => Ok(String::from_str(alloc, "blockmap")?),
        Err(error) => Ok(format!(in alloc; "{error:?}")?),
    }
}

/// The sample with a change is found to be this.
fn is_found<R: Alloc<A = Global> + Threads + Sync>(
    rt: &R,
    change: Change<'_>,
    expected: &str,
) -> Result<(), Fail> {
    if verdict(rt, change)?.as_str() != expected {
        return Err("another verdict")?;
    }
    Ok(())
}

/// The sample with other bytes in a segment is found to be this.
fn is_found_with<'a, R: Alloc<A = Global> + Threads + Sync>(
    rt: &R,
    last: &'a str,
    bytes: &'a [u8],
    expected: &str,
) -> Result<(), Fail> {
    is_found(rt, Change::Has(last, bytes), expected)
}

#[test]
fn block_hashes_are_compared_first(rt: HostRuntime) -> Result<(), Fail> {
    let alloc = rt.alloc();
    let bytes = stream(alloc)?;
    let (first, second) = sums_of_halves(bytes.as_slice());
    let mut changed = stream(alloc)?;
    changed[65_535] = 8;
    let md5 = pair(alloc, &second.md5, &second.md5)?;
    let sha1 = pair(alloc, &first.sha1, &first.sha1)?;
    let sha256 = pair(alloc, &first.sha256, &first.sha256)?;
    is_found_with(&rt, "00000000", &changed, "block Md5 1")?;
    is_found_with(&rt, "00000000.blockHash.md5", &md5, "block Md5 0")?;
    is_found_with(&rt, "00000000.blockHash.sha1", &sha1, "block Sha1 1")?;
    is_found_with(&rt, "00000000.blockHash.sha256", &sha256, "block Sha256 1")?;
    is_found(&rt, Change::Without("00000000"), "Stream(NoSegment(0))")
}

/// An image without its last stored run has other bytes, and one whose targets stand in another order has another map.
#[test]
fn hashes_of_the_image_are_compared_behind_them(rt: HostRuntime) -> Result<(), Fail> {
    let alloc = rt.alloc();
    let map = write_entries(alloc, &ENTRIES[..2]).map_err(|_| "no map")?;
    let idx = format!(in alloc; "{IDX}http://aff4.org/Schema#UnknownData")?;
    is_found(&rt, Change::Nothing, "sound")?;
    is_found_with(&rt, "information.turtle", RESPELLED.as_bytes(), "sound")?;
    is_found_with(&rt, "map", &map, "linear Md5")?;
    is_found_with(&rt, "idx", idx.as_bytes(), "blockmap")
}
