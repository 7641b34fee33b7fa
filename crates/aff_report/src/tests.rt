use crate::{digest_lines, examiner_lines, report};
use aff_hash::Linear;
use aff_model::{Piece, Place};
use std::alloc::{AllocError, Global};
use std::sync::Arc;
use std::test::Fail;

// A piece without receipts.
fn piece(
    alloc: Global,
    extent: u32,
    claimant: u32,
    swept: bool,
    bad: &[u32],
    places: &[Place],
) -> Result<Arc<Piece<()>>, AllocError> {
    let piece = Piece {
        extent,
        claimant,
        swept,
        bad: Vec::from_slice(alloc, bad)?,
        places: Vec::from_slice(alloc, places)?,
        digests: Vec::new(alloc),
        receipts: Vec::new(alloc),
    };
    Ok(Arc::new(alloc, piece)?)
}

// Whether the report of one piece ends in a line with this end.
fn is_shown_as(alloc: Global, bad: &[u32], places: &[Place], shown: &str) -> Result<bool, Fail> {
    let pieces = vec![in alloc; piece(alloc, 7, 0, false, bad, places)?]?;
    let text = report(alloc, "u", 512, 8, &pieces)?;
    let want = format!(in alloc;
        "volume aff4://u\nsize 512\nextents 8\npublications 1\npublication 1 7 0 own {shown}\n"
    )?;
    Ok(text.as_str() == want.as_str())
}

#[test]
fn no_publication_has_no_line(rt: HostRuntime) -> Result<(), Fail> {
    let pieces: Vec<Arc<Piece<()>>> = Vec::new(rt.alloc());
    let uuid = "00112233-4455-6677-8899-aabbccddeeff";
    let text = report(rt.alloc(), uuid, 17_592_186_044_416, 0, &pieces)?;
    assert_eq!(rt;
        text.as_str(),
        "volume aff4://00112233-4455-6677-8899-aabbccddeeff\nsize 17592186044416\nextents 0\npublications 0\n"
    );
    Ok(())
}

#[test]
fn publications_are_counted_from_one(rt: HostRuntime) -> Result<(), Fail> {
    let alloc = rt.alloc();
    let pieces = vec![in alloc;
        piece(alloc, 1, 0, false, &[], &[Place::Chunk(0)])?,
        piece(alloc, 0, 3, true, &[1], &[Place::Chunk(1), Place::Zero])?,
    ]?;
    let text = report(alloc, "u", 98_304, 2, &pieces)?;
    assert_eq!(rt;
        text.as_str(),
        "volume aff4://u\nsize 98304\nextents 2\npublications 2\npublication 1 1 0 own - c0+1\npublication 2 0 3 swept 1+1 c1+1,z1\n"
    );
    Ok(())
}

#[test]
fn neighbouring_sectors_are_one_run(rt: HostRuntime) -> Result<(), Fail> {
    let alloc = rt.alloc();
    let every: Vec<u32> = (0..128).collect(alloc)?;
    let zero = [Place::Zero];
    assert!(rt; is_shown_as(alloc, &[], &zero, "- z1")?);
    assert!(rt; is_shown_as(alloc, &[5], &zero, "5+1 z1")?);
    assert!(rt; is_shown_as(alloc, &[0, 1, 3, 5, 6, 7], &zero, "0+2,3+1,5+3 z1")?);
    assert!(rt; is_shown_as(alloc, &every, &zero, "0+128 z1")?);
    // Lists that do not rise have a text too.
    assert!(rt; is_shown_as(alloc, &[2, 2, 1, 2], &zero, "2+1,2+1,1+2 z1")?);
    assert!(rt; is_shown_as(alloc, &[4_294_967_295, 0], &zero, "4294967295+1,0+1 z1")?);
    Ok(())
}

#[test]
fn places_of_one_kind_are_one_run(rt: HostRuntime) -> Result<(), Fail> {
    let alloc = rt.alloc();
    let last = u64::MAX;
    assert!(rt; is_shown_as(alloc, &[], &[], "- ")?);
    assert!(rt; is_shown_as(alloc, &[], &[Place::Zero, Place::Zero], "- z2")?);
    assert!(rt;
        is_shown_as(
            alloc,
            &[],
            &[Place::Chunk(0), Place::Nothing, Place::Chunk(1)],
            "- c0+1,n1,c1+1",
        )?
    );
    assert!(rt;
        is_shown_as(
            alloc,
            &[],
            &[
                Place::Chunk(0),
                Place::Chunk(1),
                Place::Zero,
                Place::Nothing,
                Place::Chunk(2),
            ],
            "- c0+2,z1,n1,c2+1",
        )?
    );
    // Numbers of chunks that do not follow, at the end of their range too.
    assert!(rt;
        is_shown_as(
            alloc,
            &[],
            &[Place::Chunk(4), Place::Chunk(4), Place::Chunk(3)],
            "- c4+1,c4+1,c3+1",
        )?
    );
    assert!(rt;
        is_shown_as(
            alloc,
            &[],
            &[Place::Chunk(last - 1), Place::Chunk(last), Place::Chunk(0)],
            "- c18446744073709551614+2,c0+1",
        )?
    );
    Ok(())
}

// Vectors from outside: the digests of no bytes.
#[test]
fn digests_have_a_line_each(rt: HostRuntime) -> Result<(), Fail> {
    let digests = Linear::new().finish();
    let text = digest_lines(rt.alloc(), &digests)?;
    assert_eq!(rt;
        text.as_str(),
        "md5 d41d8cd98f00b204e9800998ecf8427e\nsha1 da39a3ee5e6b4b0d3255bfef95601890afd80709\nsha256 e3b0c44298fc1c149afbf4c8996fb92427ae41e4649b934ca495991b7852b855\nsha512 cf83e1357eefb8bdf1542850d66d8007d620e4050b5715dc83f4a921d36ce9ce47d0d13c5d85f2b0ff8318d2877eec2f63b931bd47417a81a538327af927da3e\n"
    );
    Ok(())
}

#[test]
fn examiners_have_a_line_each(rt: HostRuntime) -> Result<(), Fail> {
    let alloc = rt.alloc();
    // The second finding is no text.
    let findings = vec![in alloc;
        Vec::from_slice(alloc, b"signatures 3")?,
        Vec::from_slice(alloc, b"\xff at 512")?,
    ]?;
    let text = examiner_lines(alloc, &findings)?;
    let want = b"examiner 1 signatures 3\nexaminer 2 \xff at 512\n";
    assert!(rt; text.as_slice() == want.as_slice());
    Ok(())
}
