use crate::{Request, Script, ScriptError, read_script, split};
use std::alloc::{AllocError, Global};
use std::test::Fail;

const REALISTIC: &[u8] =
    b"# boot record first\nextent 0 1048576 9\nextent 1048576 7340032 0\n\nsession\n\
    read 446 66\nafter\nread 446 66\nread 8388000 608\n";

#[test]
fn a_script_begins(rt: HostRuntime) -> Result<(), Fail> {
    let rows: [(&[u8], (usize, u64)); 10] = [
        (b"", (0, 1)),
        (b"\n", (1, 2)),
        (b"session", (0, 1)),
        (b"a", (1, 2)),
        (b"a\n", (2, 2)),
        (b"a\n\n", (3, 3)),
        (b"a\n\nb", (4, 4)),
        (b"extent 0 512 0\n\nsession\nsession\n", (16, 3)),
        (b"#session\n session\nsession\r\nsession 1\n", (37, 5)),
        (b"# x\nsession", (4, 2)),
    ];
    for (text, begin) in rows {
        assert_eq!(rt; split(text), begin);
    }
    Ok(())
}

#[test]
fn a_script_is_read(rt: HostRuntime) -> Result<(), Fail> {
    let (offset, number) = split(REALISTIC);
    assert_eq!(rt; number, 5);
    let Script { sessions } = read_script(rt.alloc(), &REALISTIC[offset..], 5, 8_388_608)?;
    assert_eq!(rt; sessions.len(), 1);
    let requests = [
        Request::Read { at: 446, len: 66 },
        Request::After,
        Request::Read { at: 446, len: 66 },
        Request::Read {
            at: 8_388_000,
            len: 608,
        },
    ];
    assert!(rt; sessions[0].requests.as_slice() == requests.as_slice());
    Ok(())
}

#[test]
fn sessions_have_their_requests(rt: HostRuntime) -> Result<(), Fail> {
    let text =
        b"#\nsession\nsession\n\nraise 512 0\nawait 18446744073709551615\n# x\nread 0 7\nsession";
    let Script { sessions } = read_script(rt.alloc(), text, 1, 512)?;
    assert_eq!(rt; sessions.len(), 3);
    let requests = [
        Request::Raise { at: 512, len: 0 },
        Request::Await(18_446_744_073_709_551_615),
        Request::Read { at: 0, len: 7 },
    ];
    assert!(rt; sessions[0].requests.is_empty());
    assert!(rt; sessions[1].requests.as_slice() == requests.as_slice());
    assert!(rt; sessions[2].requests.is_empty());
    Ok(())
}

fn error_of(alloc: Global, text: &[u8], size: u64) -> Option<ScriptError> {
    read_script(alloc, text, 1, size).err()
}

#[test]
fn lines_are_taken_on_512_bytes(rt: HostRuntime) -> Result<(), Fail> {
    let texts: [&[u8]; 15] = [
        b"",
        b"\n",
        b"#\n\n#x",
        b"session",
        b"session\n",
        b"\n# x\nsession\n\n",
        b"session\nread 0 512",
        b"session\nread 512 0",
        b"session\nraise 512 0\n",
        b"session\nraise 0 512\n",
        b"session\nawait 0\nawait 1\n",
        b"session\nawait 18446744073709551615\n",
        b"session\nafter\n",
        b"session\nafter\nread 0 1\n#\nread 0 0\n",
        b"session\nafter\nsession\nraise 0 1\nawait 1\nafter\n",
    ];
    for text in texts {
        assert_eq!(rt; error_of(rt.alloc(), text, 512), None);
    }
    Ok(())
}

#[test]
fn shapes_are_refused(rt: HostRuntime) -> Result<(), Fail> {
    let rows: [(&[u8], u64); 25] = [
        (b"read 0 1\n", 1),
        (b"#\nafter\n", 2),
        (b"await x\nsession\n", 1),
        (b"session\nextent 0 512 0\n", 2),
        (b"session\nread  0 1\n", 2),
        (b"session\nread  1\n", 2),
        (b"session\n read 0 1\n", 2),
        (b"session\nread 0 1 \n", 2),
        (b"session\nread 0 \n", 2),
        (b"session\nread\t0 1\n", 2),
        (b"session\nread 0\t1\n", 2),
        (b"session\nread 0\n", 2),
        (b"session\nread 0 1 2\n", 2),
        (b"session\nawait 1 2\n", 2),
        (b"session\nawait\n", 2),
        (b"session\nawait \n", 2),
        (b"session\nafter 1\n", 2),
        (b"session 1\n", 1),
        (b"session\r\n", 1),
        (b"session\n \n", 2),
        (b"session\n\n #x\n", 3),
        (b"session\nafter\nraise 0 1\n", 3),
        (b"session\nafter\nread 0 1\nafter\n", 4),
        (b"session\nafter\nawait x\n", 3),
        (b"session\nRead 0 1\n", 2),
    ];
    for (text, line) in rows {
        assert_eq!(rt;
            error_of(rt.alloc(), text, 512),
            Some(ScriptError::Shape(line))
        );
    }
    Ok(())
}

#[test]
fn numbers_are_refused(rt: HostRuntime) -> Result<(), Fail> {
    let texts: [&[u8]; 10] = [
        b"session\nread 00 1\n",
        b"session\nread 0 01\n",
        b"session\nread 0 1\r\n",
        b"session\nread +0 1\n",
        b"session\nread 0 -1\n",
        b"session\nread 0\t 1\n",
        b"session\nraise 0 x\n",
        b"session\nraise 18446744073709551616 0\n",
        b"session\nawait 18446744073709551616\n",
        b"session\nread 9999999999999999999 x\n",
    ];
    for text in texts {
        assert_eq!(rt;
            error_of(rt.alloc(), text, 512),
            Some(ScriptError::Number(2))
        );
    }
    Ok(())
}

#[test]
fn ranges_are_refused(rt: HostRuntime) -> Result<(), Fail> {
    let rows: [(&[u8], u64, Option<ScriptError>); 12] = [
        (b"session\nread 0 513\n", 512, Some(ScriptError::PastEnd(2))),
        (b"session\nread 513 0\n", 512, Some(ScriptError::PastEnd(2))),
        (
            b"session\nraise 1 512\n",
            512,
            Some(ScriptError::PastEnd(2)),
        ),
        (
            b"session\nraise 18446744073709551615 18446744073709551615\n",
            512,
            Some(ScriptError::PastEnd(2)),
        ),
        (
            b"session\nread 18446744073709551615 1\n",
            18_446_744_073_709_551_615,
            Some(ScriptError::PastEnd(2)),
        ),
        (
            b"session\nread 18446744073709551615 0\n",
            18_446_744_073_709_551_615,
            None,
        ),
        (b"session\nread 0 1048576\n", 2_097_152, None),
        (
            b"session\nread 0 1048577\n",
            2_097_152,
            Some(ScriptError::TooLong(2)),
        ),
        (
            b"session\nread 0 1048577\n",
            512,
            Some(ScriptError::TooLong(2)),
        ),
        (b"session\nraise 0 1048577\n", 2_097_152, None),
        (
            b"session\nread 0 513\nread 0 1048577\n",
            512,
            Some(ScriptError::PastEnd(2)),
        ),
        (
            b"session\n#\n\nread 1 512\nraise",
            512,
            Some(ScriptError::PastEnd(4)),
        ),
    ];
    for (text, size, error) in rows {
        assert_eq!(rt; error_of(rt.alloc(), text, size), error);
    }
    Ok(())
}

// A line so often, and then another text.
fn repeated(alloc: Global, line: &[u8], count: u32, end: &[u8]) -> Result<Vec<u8>, AllocError> {
    let mut text = Vec::new(alloc);
    for _ in 0..count {
        text.extend_from_slice(line)?;
    }
    text.extend_from_slice(end)?;
    Ok(text)
}

#[test]
fn sessions_are_counted(rt: HostRuntime) -> Result<(), Fail> {
    let rows: [(u32, &[u8], Option<ScriptError>); 4] = [
        (15, b"session\n", None),
        (16, b"await 1\n", None),
        (16, b"#\nsession\n", Some(ScriptError::TooMany(34))),
        (16, b"#\nsession 1\n", Some(ScriptError::Shape(34))),
    ];
    for (count, end, error) in rows {
        let text = repeated(rt.alloc(), b"#\nsession\n", count, end)?;
        assert_eq!(rt; error_of(rt.alloc(), &text, 512), error);
    }
    Ok(())
}

#[test]
fn requests_are_counted(rt: HostRuntime) -> Result<(), Fail> {
    let rows: [(u32, &[u8], Option<ScriptError>); 8] = [
        (1_023, b"after\n", None),
        (1_024, b"#\n\nsession\nread 0 0\n", None),
        (1_024, b"after\n", Some(ScriptError::TooMany(2_050))),
        (
            1_024,
            b"read 0 1048577\n",
            Some(ScriptError::TooMany(2_050)),
        ),
        (1_024, b"raise 0 513\n", Some(ScriptError::TooMany(2_050))),
        (1_024, b"raise 0 x\n", Some(ScriptError::Number(2_050))),
        (
            1_023,
            b"after\nread 0 0\n",
            Some(ScriptError::TooMany(2_049)),
        ),
        (
            1_023,
            b"after\nraise 0 0\n",
            Some(ScriptError::Shape(2_049)),
        ),
    ];
    for (count, end, error) in rows {
        let lines = repeated(rt.alloc(), b"\nawait 1\n", count, end)?;
        let mut text = Vec::from_slice(rt.alloc(), b"session\n")?;
        text.extend_from_slice(&lines)?;
        assert_eq!(rt; error_of(rt.alloc(), &text, 512), error);
    }
    Ok(())
}
