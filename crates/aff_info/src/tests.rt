use crate::{of_triples, to_triples};
use aff_map::Target;
use aff_model::MAX_SIZE;
use std::process::Abort;
use std::test::Fail;

const PREFIXES: &str = "@prefix aff4: <http://aff4.org/Schema#> .
@prefix live: <urn:aff4-live:> .
@prefix xsd: <http://www.w3.org/2001/XMLSchema#> .
@prefix v: <aff4://11111111-2222-4333-8444-555555555555> .
@prefix s: <aff4://11111111-2222-4333-8444-555555555555/data> .
@prefix i: <aff4://11111111-2222-4333-8444-555555555555/image> .
";

/// The name of each statement, in the order in which they stand, a text that states it, one that states another value,
/// and one that states a value that it may not have.
const ROWS: [(&str, &str, &str, &str); 16] = [
    (
        "Stream",
        "s: a aff4:ImageStream .",
        "v: a aff4:ImageStream .",
        "<urn:s> a aff4:ImageStream .",
    ),
    (
        "StreamSize",
        "s: aff4:size \"65536\"^^xsd:long .",
        "s: aff4:size \"65536\" .",
        "s: aff4:size \"065536\"^^xsd:long .",
    ),
    (
        "ChunkSize",
        "s: aff4:chunkSize 32768 .",
        "s: aff4:chunkSize 65536 .",
        "s: aff4:chunkSize 65536 .",
    ),
    (
        "ChunksInSegment",
        "s: aff4:chunksInSegment \"1024\"^^xsd:unsignedLong .",
        "s: aff4:chunksInSegment aff4:Zero .",
        "s: aff4:chunksInSegment \"1024\"^^xsd:short .",
    ),
    (
        "Method",
        "s: aff4:compressionMethod aff4:NullCompressor .",
        "s: aff4:compressionMethod aff4:Zlib .",
        "s: aff4:compressionMethod \"http://aff4.org/Schema#NullCompressor\" .",
    ),
    (
        "StreamStored",
        "s: aff4:stored v: .",
        "s: aff4:stored i: .",
        "s: aff4:stored <urn:v> .",
    ),
    (
        "Image",
        "i: a aff4:Map .",
        "v: a aff4:Map .",
        "<aff4://1/image> a aff4:Map .",
    ),
    (
        "ImageSize",
        "i: aff4:size \"17592186044416\"^^xsd:long .",
        "i: aff4:size \"0\"^^xsd:long .",
        "i: aff4:size \"17592186044417\"^^xsd:long .",
    ),
    (
        "Dependent",
        "i: aff4:dependentStream s: .",
        "i: aff4:dependentStream v: .",
        "i: aff4:dependentStream i: .",
    ),
    (
        "Gap",
        "i: aff4:mapGapDefaultStream aff4:UnknownData .",
        "i: aff4:mapGapDefaultStream aff4:Zero .",
        "i: aff4:mapGapDefaultStream s: .",
    ),
    (
        "ImageStored",
        "i: aff4:stored v: .",
        "i: aff4:stored \"v\" .",
        "i: aff4:stored s: .",
    ),
    (
        "Md5",
        "i: aff4:hash \"d41d8cd98f00b204e9800998ecf8427e\"^^aff4:MD5 .",
        "i: aff4:hash \"D41D8CD98F00B204E9800998ECF8427E\"^^aff4:MD5 .",
        "i: aff4:hash \"d41d8cd98f00b204e9800998ecf8427\"^^aff4:MD5 .",
    ),
    (
        "Sha1",
        "i: aff4:hash \"DA39a3ee5e6b4b0d3255bfef95601890afd80709\"^^aff4:SHA1 .",
        "i: aff4:hash \"\"^^aff4:SHA1 .",
        "i: aff4:hash \"da39a3ee5e6b4b0d3255bfef95601890afd80709da\"^^aff4:SHA1 .",
    ),
    (
        "Sha256",
        "i: aff4:hash \"e3b0c44298fc1c149afbf4c8996fb92427ae41e4649b934ca495991b7852b855\"^^aff4:SHA256 .",
        "i: aff4:hash \"x\"^^aff4:SHA256 .",
        "i: aff4:hash \"g3b0c44298fc1c149afbf4c8996fb92427ae41e4649b934ca495991b7852b855\"^^aff4:SHA256 .",
    ),
    (
        "Sha512",
        "i: aff4:hash \"00000000000000000000000000000000000000000000000000000000000000000000000000000000000000000000000000000000000000000000000000000000\"^^aff4:SHA512 .",
        "i: aff4:hash \"1\"^^aff4:SHA512 .",
        "i: aff4:hash \"0x00\"^^aff4:SHA512 .",
    ),
    (
        "BlockMap",
        "i: live:blockMapHash \"00000000000000000000000000000000000000000000000000000000000000000000000000000000000000000000000000000000000000000000000000000000\"^^aff4:SHA512 .",
        "i: live:blockMapHash s: .",
        "i: live:blockMapHash \"d41d8cd98f00b204e9800998ecf8427e\"^^aff4:MD5 .",
    ),
];

/// A text in which the given row has another line, or two where `more` stands.
fn text(rt: &impl AllocGlobal, changed: usize, line: &str, more: &str) -> Result<String, Fail> {
    let mut all = String::from_str(rt.alloc(), PREFIXES)?;
    for (place, row) in ROWS.iter().enumerate() {
        if place == changed {
            all.push_str(line)?;
            all.push_str(more)?;
        } else {
            all.push_str(row.1)?;
        }
    }
    Ok(all)
}

/// What reading a text gives: the fault, or the places kept aside.
fn outcome(rt: &impl AllocGlobal, text: &str) -> Result<String, Fail> {
    let triples = aff_turtle::read(rt.alloc(), text.as_bytes())?;
    match of_triples(rt.alloc(), &triples) {
        Ok(read) => {
            let aside = read.aside;
            Ok(format!(in rt.alloc(); "aside {aside:?}")?)
        }
        Err(fault) => Ok(format!(in rt.alloc(); "{fault:?}")?),
    }
}

fn is_so(rt: &(impl Abort + AllocGlobal), text: &str, expected: &str) -> Result<(), Fail> {
    let found = outcome(rt, text)?;
    assert_eq!(rt; found.as_str(), expected, "{text}");
    Ok(())
}

#[test]
fn each_statement_is_needed(rt: HostRuntime) -> Result<(), Fail> {
    for (place, row) in ROWS.iter().enumerate() {
        let name = row.0;
        let expected = format!(in rt.alloc(); "Missing({name})")?;
        is_so(&rt, text(&rt, place, "", "")?.as_str(), expected.as_str())?;
    }
    Ok(())
}

#[test]
fn no_statement_stands_twice(rt: HostRuntime) -> Result<(), Fail> {
    for (place, row) in ROWS.iter().enumerate() {
        let name = row.0;
        let expected = format!(in rt.alloc(); "Twice({name})")?;
        is_so(
            &rt,
            text(&rt, place, row.1, row.2)?.as_str(),
            expected.as_str(),
        )?;
    }
    Ok(())
}

#[test]
fn each_value_is_checked(rt: HostRuntime) -> Result<(), Fail> {
    for (place, row) in ROWS.iter().enumerate() {
        let name = row.0;
        let expected = format!(in rt.alloc(); "BadValue({name})")?;
        is_so(
            &rt,
            text(&rt, place, row.3, "")?.as_str(),
            expected.as_str(),
        )?;
    }
    Ok(())
}

#[test]
fn equal_statements_count_once(rt: HostRuntime) -> Result<(), Fail> {
    for (place, row) in ROWS.iter().enumerate() {
        let at = place + 1;
        let expected = format!(in rt.alloc(); "aside [{at}]")?;
        is_so(
            &rt,
            text(&rt, place, row.1, row.1)?.as_str(),
            expected.as_str(),
        )?;
    }
    Ok(())
}

#[test]
fn the_stream_and_the_image_come_first(rt: HostRuntime) -> Result<(), Fail> {
    let method = text(&rt, 4, "s: aff4:compressionMethod aff4:Zlib .", "")?;
    is_so(
        &rt,
        method.as_str(),
        "Method(\"http://aff4.org/Schema#Zlib\")",
    )?;
    let other = text(&rt, 0, "s: a aff4:Stream .", "v: a aff4:Map .")?;
    is_so(&rt, other.as_str(), "Missing(Stream)")?;
    let second = text(&rt, 1, "", "v: a aff4:Map .")?;
    is_so(&rt, second.as_str(), "Twice(Image)")?;
    Ok(())
}

#[test]
fn other_statements_are_kept_aside(rt: HostRuntime) -> Result<(), Fail> {
    let more =
        "i: aff4:hash s:, \"x\"^^aff4:SHA3, \"x\" . v: aff4:size 1 . s: aff4:hash \"x\"^^aff4:MD5 . s: a aff4:Other .";
    let all = text(&rt, 0, more, "s: a aff4:ImageStream .")?;
    is_so(&rt, all.as_str(), "aside [0, 1, 2, 3, 4, 5]")
}

#[test]
fn what_is_stated_reads_back(rt: HostRuntime) -> Result<(), Fail> {
    let all = text(&rt, 16, "", "")?;
    let triples = aff_turtle::read(rt.alloc(), all.as_bytes())?;
    let info = match of_triples(rt.alloc(), &triples) {
        Ok(read) => read.info,
        Err(_) => Err("not read")?,
    };
    assert_eq!(rt; info.stream_size, 65_536);
    assert_eq!(rt; info.image_size, 17_592_186_044_416);
    assert_eq!(rt; info.gap, Target::Unknown);
    let digest = info.linear.md5;
    assert_eq!(rt; digest[0], 0xd4);
    assert!(rt; info.stream.text() != info.image.text());
    assert!(rt; info.stream_size <= MAX_SIZE);
    assert!(rt; info.image_size <= MAX_SIZE);
    let triples = to_triples(rt.alloc(), &info).map_err(|_| "not stated")?;
    assert_eq!(rt; triples.len(), 16);
    match of_triples(rt.alloc(), &triples) {
        Ok(read) => {
            assert_eq!(rt; read.aside.len(), 0);
            assert_eq!(rt; read.info.image_size, info.image_size);
        }
        Err(_) => assert!(rt; false, "not read back"),
    }
    Ok(())
}
