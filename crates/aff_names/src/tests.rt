use crate::{NameError, Urn, folder_name, segment_name};
use std::test::Fail;

#[test]
fn texts_are_refused_where_they_go_wrong(rt: HostRuntime) {
    let cases = [
        ("", NameError::NoScheme),
        ("file:///x", NameError::NoScheme),
        (
            "AFF4://11111111-2222-4333-8444-555555555555",
            NameError::NoScheme,
        ),
        ("aff4:/", NameError::NoScheme),
        ("aff4://", NameError::BadUuid(7)),
        ("aff4://1111", NameError::BadUuid(11)),
        ("aff4://1111g", NameError::BadUuid(11)),
        ("aff4://111111112", NameError::BadUuid(15)),
        (
            "aff4://11111111-2222-4333-8444-55555555555",
            NameError::BadUuid(42),
        ),
        (
            "aff4://11111111-2222-4333-8444-5555555555555",
            NameError::BadUuid(43),
        ),
        (
            "aff4://11111111-2222-4333-8444-555555555555x/",
            NameError::BadUuid(43),
        ),
    ];
    for (text, expected) in cases {
        match Urn::read(rt.alloc(), text) {
            Ok(_) => assert!(rt; false, "{text} is read"),
            Err(fault) => assert_eq!(rt; fault, expected, "{text}"),
        }
    }
}

#[test]
fn urns_name_their_folders(rt: HostRuntime) -> Result<(), Fail> {
    let cases = [
        (
            "aff4://11111111-2222-4333-8444-555555555555/data",
            "aff4%3A%2F%2F11111111-2222-4333-8444-555555555555%2Fdata",
        ),
        (
            "aff4://AbCdEf01-2222-4333-8444-555555555555",
            "aff4%3A%2F%2FAbCdEf01-2222-4333-8444-555555555555",
        ),
        (
            "aff4://11111111-2222-4333-8444-555555555555/_.~ \u{e9}",
            "aff4%3A%2F%2F11111111-2222-4333-8444-555555555555%2F_.%7E%20%C3%A9",
        ),
    ];
    for (text, expected) in cases {
        let urn = Urn::read(rt.alloc(), text)?;
        assert_eq!(rt; urn.text(), text);
        let name = folder_name(rt.alloc(), &urn)?;
        assert_eq!(rt; name.as_str(), expected);
    }
    Ok(())
}

#[test]
fn segments_have_eight_digits(rt: HostRuntime) -> Result<(), Fail> {
    let stream = Urn::read(
        rt.alloc(),
        "aff4://11111111-2222-4333-8444-555555555555/data",
    )?;
    let cases = [
        (0, "", "/00000000"),
        (1_234_567, ".index", "/01234567.index"),
        (99_999_999, ".blockHash.md5", "/99999999.blockHash.md5"),
    ];
    for (number, suffix, expected) in cases {
        if number < 100_000_000 {
            let name = segment_name(rt.alloc(), &stream, number, suffix)?;
            let folder = folder_name(rt.alloc(), &stream)?;
            let whole = format!(in rt.alloc(); "{folder}{expected}")?;
            assert_eq!(rt; name.as_str(), whole.as_str());
        }
    }
    Ok(())
}
