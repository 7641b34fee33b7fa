use crate::{Entry, FieldsError, Point, read_entries, read_points, write_entries, write_points};
use std::test::Fail;

#[test]
fn a_point_is_twelve_bytes(rt: HostRuntime) -> Result<(), Fail> {
    let bytes = write_points(rt.alloc(), &[Point { at: 0, len: 32_768 }])?;
    assert_eq!(rt;
        bytes.as_slice(),
        [0, 0, 0, 0, 0, 0, 0, 0, 0, 128, 0, 0].as_slice()
    );
    let points = read_points(rt.alloc(), &bytes)?;
    assert_eq!(rt;
        points.as_slice(),
        [Point { at: 0, len: 32_768 }].as_slice()
    );
    Ok(())
}

#[test]
fn an_entry_is_28_bytes(rt: HostRuntime) -> Result<(), Fail> {
    let entry = Entry {
        at: 513,
        len: 512,
        target_at: 7,
        target: 2,
    };
    let bytes = write_entries(rt.alloc(), &[entry])?;
    let expected = [
        1, 2, 0, 0, 0, 0, 0, 0, 0, 2, 0, 0, 0, 0, 0, 0, 7, 0, 0, 0, 0, 0, 0, 0, 2, 0, 0, 0,
    ];
    assert_eq!(rt; bytes.as_slice(), expected.as_slice());
    let entries = read_entries(rt.alloc(), &bytes)?;
    assert_eq!(rt; entries.as_slice(), [entry].as_slice());
    Ok(())
}

#[test]
fn a_ragged_text_is_refused_by_its_length(rt: HostRuntime) -> Result<(), Fail> {
    let ragged = read_points(rt.alloc(), &[0; 13]);
    assert!(rt; matches!(ragged, Err(FieldsError::Ragged(13))));
    let ragged = read_entries(rt.alloc(), &[0; 27]);
    assert!(rt; matches!(ragged, Err(FieldsError::Ragged(27))));
    let none = read_entries(rt.alloc(), &[])?;
    assert_eq!(rt; none.len(), 0);
    Ok(())
}
