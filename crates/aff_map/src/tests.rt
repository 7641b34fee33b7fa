ghost use Rattle.std.specs.Prelude.{◌≡◌, ◌≢◌, false, ◌/◌, ◌+◌, ◌<◌, ◌≤◌, ◌^◌, IsTrue, IfOk, All, length, map};
ghost use Rattle.std.specs.List.Sorted.{IsStrictlyIncreasing};
ghost use Rattle.aff_model.specs.Plan.{chunk_count};
ghost use Rattle.aff_model.specs.Pieces.{published};
ghost use Rattle.aff_map.specs.Mappable.{AreMappable, IsNumbered};

use crate::{Target, entries_of, symbol};
use aff_fields::Entry;
use aff_model::{Extent, Piece, Place, Plan};
use std::alloc::{AllocError, Global};
use std::sync::Arc;
use std::test::Fail;

// A piece without receipts.
fn piece(
    alloc: Global,
    extent: u32,
    bad: &[u32],
    places: &[Place],
) -> Result<Arc<Piece<()>>, AllocError>
    ensures { IfOk result (λ a. published a ≡ record { extent = extent; claimant = 0; swept = false; bad = bad.now; places = places.now }) }
{
    let piece = Piece {
        extent,
        claimant: 0,
        swept: false,
        bad: Vec::from_slice(alloc, bad)?,
        places: Vec::from_slice(alloc, places)?,
        digests: Vec::new(alloc),
        receipts: Vec::new(alloc),
    };
    Ok(Arc::new(alloc, piece)?)
}

// Whether each number is over the one before it.
fn rises(numbers: &[u32]) -> bool
    ensures { IsTrue result → IsStrictlyIncreasing numbers.now }
{
    for k in 1..numbers.len() {
        if numbers[k] <= numbers[k - 1] {
            return false;
        }
    }
    true
}

// Whether a chunk has a small number.
fn is_small(place: Place) -> bool
    ensures { IsTrue result → IsNumbered place }
{
    match place {
        Place::Chunk(chunk) => chunk < 1 << 48,
        Place::Zero | Place::Nothing => true,
    }
}

// Whether all chunks have small numbers.
fn are_small(places: &[Place]) -> bool
    ensures { IsTrue result → All IsNumbered places.now }
{
    for place in places {
        if !is_small(*place) {
            return false;
        }
    }
    true
}

// Whether an extent of a length may have these sectors and places.
fn may_have(len: u64, bad: &[u32], places: &[Place]) -> bool
    requires { len < 2 ^ 63 }
    ensures { IsTrue result → IsStrictlyIncreasing bad.now × (length places.now ≡ chunk_count len) × All IsNumbered places.now }
{
    rises(bad) && places.len() as u64 == (len + 32_767) / 32_768 && are_small(places)
}

// The entries of one extent, which is the whole device.
fn entries_of_one(
    alloc: Global,
    len: u32,
    bad: &[u32],
    places: &[Place],
) -> Result<Vec<Entry>, Fail> {
    let len = u64::from(len);
    let extents = vec![in alloc;
        Extent {
            at: 0,
            len,
            priority: 0
        },
    ]?;
    let plan = Plan::of(alloc, extents, len, 512)?;
    if !may_have(len, bad, places) {
        return Err("the sectors or places are wrong")?;
    }
    let pieces = vec![in alloc; piece(alloc, 0, bad, places)?]?;
    Ok(entries_of(alloc, &plan, &pieces)?)
}

fn entry(at: u64, len: u64, target_at: u64, target: u32) -> Entry {
    Entry {
        at,
        len,
        target_at,
        target,
    }
}

#[test]
fn an_unreadable_sector_parts_a_chunk(rt: HostRuntime) -> Result<(), Fail> {
    let entries = entries_of_one(rt.alloc(), 1_536, &[1], &[Place::Chunk(0)])?;
    let expected = [
        entry(0, 512, 0, 0),
        entry(512, 512, 512, 2),
        entry(1_024, 512, 1_024, 0),
    ];
    assert_eq!(rt; entries.as_slice(), expected.as_slice());
    Ok(())
}

#[test]
fn zeros_are_one_run(rt: HostRuntime) -> Result<(), Fail> {
    let entries = entries_of_one(rt.alloc(), 65_536, &[], &[Place::Zero, Place::Zero])?;
    assert_eq!(rt; entries.as_slice(), [entry(0, 65_536, 0, 1)].as_slice());
    Ok(())
}

#[test]
fn an_unreadable_chunk_has_no_place_in_the_stream(rt: HostRuntime) -> Result<(), Fail> {
    let bad: Vec<u32> = (64..128).collect(rt.alloc())?;
    let places = [Place::Chunk(0), Place::Nothing, Place::Chunk(1)];
    let entries = entries_of_one(rt.alloc(), 98_304, &bad, &places)?;
    let expected = [
        entry(0, 32_768, 0, 0),
        entry(32_768, 32_768, 32_768, 2),
        entry(65_536, 32_768, 32_768, 0),
    ];
    assert_eq!(rt; entries.as_slice(), expected.as_slice());
    Ok(())
}

// The entries of two extents of a chunk each, which are published in this order.
fn entries_of_two(alloc: Global, first: u32, second: u32) -> Result<Vec<Entry>, Fail>
    requires other { first ≢ second }
    requires known { (first < 2) × (second < 2) }
{
    let extents = vec![in alloc;
        Extent {
            at: 0,
            len: 32_768,
            priority: 0
        },
        Extent {
            at: 32_768,
            len: 32_768,
            priority: 0
        },
    ]?;
    let plan = Plan::of(alloc, extents, 65_536, 512)?;
    let pieces = vec![in alloc;
        piece(alloc, first, &[], &[Place::Chunk(0)])?,
        piece(alloc, second, &[], &[Place::Chunk(1)])?,
    ]?;
    Ok(entries_of(alloc, &plan, &pieces)?)
}

#[test]
fn runs_join_where_the_stream_goes_on(rt: HostRuntime) -> Result<(), Fail> {
    let crossed = entries_of_two(rt.alloc(), 1, 0)?;
    assert_eq!(rt;
        crossed.as_slice(),
        [entry(0, 32_768, 32_768, 0), entry(32_768, 32_768, 0, 0)].as_slice()
    );
    let straight = entries_of_two(rt.alloc(), 0, 1)?;
    assert_eq!(rt; straight.as_slice(), [entry(0, 65_536, 0, 0)].as_slice());
    Ok(())
}

#[test]
fn symbolic_bytes_are_letters(rt: HostRuntime) {
    assert_eq!(rt; symbol(Target::Zero, 5), 0);
    assert_eq!(rt; symbol(Target::Unknown, 511), b'U');
    assert_eq!(rt; symbol(Target::Unknown, 515), b'O');
    assert_eq!(rt; symbol(Target::Unreadable, 512), b'L');
}
