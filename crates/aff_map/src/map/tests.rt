ghost use Rattle.std.specs.Prelude.{◌≡◌, ◌≤◌, IfOk};

use crate::{Map, MapError, Spot, Target, idx_text};
use aff_fields::{Entry, write_entries};
use aff_names::Urn;
use std::alloc::Global;
use std::test::Fail;

// An entry's place, length, place in its target, and target.
type Row = (u64, u64, u64, u32);

const STREAM: &str = "aff4://11111111-2222-4333-8444-555555555555/data";

const IDX: &str =
    "aff4://11111111-2222-4333-8444-555555555555/data\nhttp://aff4.org/Schema#Zero\nhttp://aff4.org/Schema#UnreadableData\n";

fn written(alloc: Global, rows: &[Row]) -> Result<Vec<u8>, MapError> {
    let mut entries = Vec::new(alloc);
    for (at, len, target_at, target) in rows {
        entries.push(Entry {
            at: *at,
            len: *len,
            target_at: *target_at,
            target: *target,
        })?;
    }
    write_entries(alloc, &entries).map_err(|_| MapError::Memory)
}

// The map of an image over a stream of 32,768 bytes.
fn opened(alloc: Global, stream: &Urn, rows: &[Row], idx: &str, size: u64) -> Result<Map, MapError>
    ensures { IfOk result (λ m. m.size ≡ size) }
{
    let map = written(alloc, rows)?;
    Map::open(
        alloc,
        &map,
        idx.as_bytes(),
        size,
        stream,
        32_768,
        Target::Unknown,
    )
}

#[test]
fn the_first_refusal_decides(rt: HostRuntime) -> Result<(), Fail> {
    let alloc = rt.alloc();
    let stream = Urn::read(alloc, STREAM)?;
    let cases: [(&[Row], Option<MapError>); 13] = [
        (&[(0, 512, 32_256, 0), (512, 512, u64::MAX - 511, 1)], None),
        (&[(512, 512, 512, 2), (0, 512, 0, 1)], None),
        (&[(0, 512, 0, 0), (512, 0, 0, 9)], Some(MapError::Empty(1))),
        (&[(512, 513, 0, 9)], Some(MapError::PastEnd(0))),
        (&[(u64::MAX, 1, 0, 0)], Some(MapError::PastEnd(0))),
        (&[(0, 512, 40_000, 3)], Some(MapError::NoTarget(0))),
        (&[(0, 512, 32_257, 0)], Some(MapError::PastTarget(0))),
        (&[(0, 512, u64::MAX, 0)], Some(MapError::PastTarget(0))),
        (
            &[(0, 512, u64::MAX - 510, 2)],
            Some(MapError::PastTarget(0)),
        ),
        (
            &[(0, 512, 0, 0), (0, 512, 512, 0)],
            Some(MapError::Overlap(0, 1)),
        ),
        (
            &[
                (768, 256, 0, 1),
                (0, 512, 0, 0),
                (512, 256, 0, 1),
                (256, 300, 0, 0),
                (0, 1, 0, 0),
            ],
            Some(MapError::Overlap(1, 3)),
        ),
        (
            &[(0, 512, 0, 0), (0, 512, 0, 0), (0, 512, 40_000, 0)],
            Some(MapError::PastTarget(2)),
        ),
        (&[(0, 1025, 0, 0), (0, 0, 0, 0)], Some(MapError::PastEnd(0))),
    ];
    for (rows, fault) in cases {
        assert_eq!(rt; opened(alloc, &stream, rows, IDX, 1024).err(), fault);
    }
    Ok(())
}

#[test]
fn each_line_is_a_target(rt: HostRuntime) -> Result<(), Fail> {
    let alloc = rt.alloc();
    let stream = Urn::read(alloc, STREAM)?;
    let text = idx_text(alloc, &stream)?;
    assert_eq!(rt; text.as_str(), IDX);
    let cases: [(&str, &[Row], Option<MapError>); 9] = [
        (
            "http://aff4.org/Schema#UnknownData\naff4://11111111-2222-4333-8444-555555555555/data",
            &[(0, 512, 512, 1), (512, 512, 40_000, 0)],
            None,
        ),
        ("", &[], None),
        ("", &[(0, 512, 0, 0)], Some(MapError::NoTarget(0))),
        ("\n", &[], Some(MapError::BadTarget(1))),
        (
            "http://aff4.org/Schema#Zero\r\n",
            &[],
            Some(MapError::BadTarget(1)),
        ),
        (
            "http://aff4.org/Schema#Zero\n\nhttp://aff4.org/Schema#Zero",
            &[],
            Some(MapError::BadTarget(2)),
        ),
        (
            "http://aff4.org/Schema#Zero\n\n",
            &[],
            Some(MapError::BadTarget(2)),
        ),
        (
            "http://aff4.org/Schema#Zero\nhttp://aff4.org/Schema#zero\n\n",
            &[(0, 0, 0, 0)],
            Some(MapError::BadTarget(2)),
        ),
        (
            "aff4://11111111-2222-4333-8444-555555555555/image",
            &[],
            Some(MapError::BadTarget(1)),
        ),
    ];
    for (idx, rows, fault) in cases {
        assert_eq!(rt; opened(alloc, &stream, rows, idx, 1024).err(), fault);
    }
    let ragged = Map::open(alloc, &[0; 27], b"x", 0, &stream, 0, Target::Zero);
    assert_eq!(rt; ragged.err(), Some(MapError::Ragged(27)));
    Ok(())
}

// Where the byte at a place comes from.
fn found(map: &Map, size: u64, at: u64) -> Option<Spot>
    requires { map.now.size ≡ size }
{
    if at < size { Some(map.find(at)) } else { None }
}

#[test]
fn every_place_leads_somewhere(rt: HostRuntime) -> Result<(), Fail> {
    let alloc = rt.alloc();
    let stream = Urn::read(alloc, STREAM)?;
    let rows = [(200, 100, 1000, 0), (100, 100, 0, 2)];
    let map = opened(alloc, &stream, &rows, IDX, 400)?;
    let cases = [
        (0, Target::Unknown, 0, 100),
        (99, Target::Unknown, 99, 1),
        (100, Target::Unreadable, 0, 100),
        (199, Target::Unreadable, 99, 1),
        (200, Target::Stored, 1000, 100),
        (250, Target::Stored, 1050, 50),
        (300, Target::Unknown, 300, 100),
        (399, Target::Unknown, 399, 1),
    ];
    for (at, target, target_at, len) in cases {
        let spot = Spot {
            target,
            target_at,
            len,
        };
        assert_eq!(rt; found(&map, 400, at), Some(spot));
    }
    Ok(())
}

// Entries of 5 bytes at every tenth place, from the last to the first.
fn falling(alloc: Global, count: u32) -> Result<Vec<Row>, MapError>
    requires { count ≤ 1000000 }
{
    let mut rows = Vec::new(alloc);
    for number in (0..count).rev() {
        rows.push((10 * u64::from(number), 5, u64::from(number), 1))?;
    }
    Ok(rows)
}

#[test]
fn entries_stand_in_any_order(rt: HostRuntime) -> Result<(), Fail> {
    let alloc = rt.alloc();
    let stream = Urn::read(alloc, STREAM)?;
    let rows = falling(alloc, 100)?;
    let map = opened(alloc, &stream, &rows, IDX, 1000)?;
    for number in 0..100 {
        let at = 10 * number;
        let spot = Spot {
            target: Target::Zero,
            target_at: number + 3,
            len: 2,
        };
        assert_eq!(rt; found(&map, 1000, at + 3), Some(spot));
        let gap = Spot {
            target: Target::Unknown,
            target_at: at + 6,
            len: 4,
        };
        assert_eq!(rt; found(&map, 1000, at + 6), Some(gap));
    }
    Ok(())
}

#[test]
fn many_entries_are_sorted(rt: HostRuntime) -> Result<(), Fail> {
    let alloc = rt.alloc();
    let stream = Urn::read(alloc, STREAM)?;
    let mut rows = falling(alloc, 100_000)?;
    let fault = opened(alloc, &stream, &rows, IDX, 1_000_000).err();
    assert_eq!(rt; fault, None);
    rows.push((14, 1, 0, 1))?;
    let fault = opened(alloc, &stream, &rows, IDX, 1_000_000).err();
    assert_eq!(rt; fault, Some(MapError::Overlap(99_998, 100_000)));
    Ok(())
}
