ghost use Rattle.aff_model.specs.Content.{IsBlock};

use crate::{PlanError, order, plan_text, read_plan, script_line};
use std::alloc::{AllocError, Global};
use std::test::Fail;

const REALISTIC: &[u8] =
    b"# boot record first\nextent 0 1048576 9\nextent 1048576 7340032 0\n\nsession\nread 446 66\n";

#[test]
fn a_text_is_read_and_written(rt: HostRuntime) -> Result<(), Fail> {
    let plan = read_plan(rt.alloc(), REALISTIC, 8_388_608, 512)?;
    assert_eq!(rt; plan.extents().len(), 2);
    let text = plan_text(rt.alloc(), &plan)?;
    let lines = b"extent 0 1048576 9\nextent 1048576 7340032 0\n";
    assert!(rt; text.as_slice() == lines.as_slice());
    let again = read_plan(rt.alloc(), &text, 8_388_608, 512)?;
    assert!(rt; again.extents() == plan.extents());
    Ok(())
}

#[test]
fn a_script_begins_at_a_line(rt: HostRuntime) -> Result<(), Fail> {
    assert_eq!(rt; script_line(REALISTIC), Some(5));
    assert_eq!(rt; script_line(b"session"), Some(1));
    assert_eq!(rt;
        script_line(b"#session\n session\nsession\r\nsession 1\n"),
        None
    );
    Ok(())
}

#[test]
fn extents_are_ordered(rt: HostRuntime) -> Result<(), Fail> {
    let text = b"extent 0 512 0\nextent 1024 512 9\nextent 512 512 9\nextent 1536 512 3\n";
    let plan = read_plan(rt.alloc(), text, 2_048, 512)?;
    let order = order(rt.alloc(), &plan)?;
    assert!(rt; order.as_slice() == [2, 1, 3, 0].as_slice());
    Ok(())
}

fn error_of(alloc: Global, text: &[u8], size: u64, block: u32) -> Option<PlanError>
    requires { IsBlock block }
{
    read_plan(alloc, text, size, block).err()
}

#[test]
fn lines_are_refused(rt: HostRuntime) -> Result<(), Fail> {
    let rows: [(&[u8], Option<PlanError>); 25] = [
        (b"", None),
        (b"\n#\n", None),
        (b"extent 0 512 0", None),
        (b"extent 0 512 0\nsession\nextent 0 512 0\n", None),
        (b"extent  0 512 0\n", Some(PlanError::Shape(1))),
        (b"extent  512 0\n", Some(PlanError::Shape(1))),
        (b"extent 0 512 0 \n", Some(PlanError::Shape(1))),
        (b" extent 0 512 0\n", Some(PlanError::Shape(1))),
        (b"\n \n", Some(PlanError::Shape(2))),
        (b" #x\n", Some(PlanError::Shape(1))),
        (b"extent\t0 512 0\n", Some(PlanError::Shape(1))),
        (b"session\r\n", Some(PlanError::Shape(1))),
        (b"extent 0\t 512 0\n", Some(PlanError::Number(1))),
        (b"extent 0 512 0\r\n", Some(PlanError::Number(1))),
        (b"extent 0 0512 0\n", Some(PlanError::Number(1))),
        (b"extent +0 512 0\n", Some(PlanError::Number(1))),
        (
            b"extent 0 18446744073709551616 0\n",
            Some(PlanError::Number(1)),
        ),
        (b"extent 512 513 0\n", Some(PlanError::Sector(1))),
        (b"extent 512 512 10\n", Some(PlanError::PastEnd(1))),
        (b"#\n\nextent 0 512 10", Some(PlanError::Priority(3))),
        (b"extent 0 512 300\n", Some(PlanError::Priority(1))),
        (
            b"extent 0 512 0\nextent 0 512 9\n",
            Some(PlanError::Overlap(2, 1)),
        ),
        (
            b"\nextent 0 512 0\n#\nextent 0 512 9\n#\n",
            Some(PlanError::Overlap(4, 2)),
        ),
        (
            b"extent 0 512 0\nextent 0 512 0\nread 0 1\n",
            Some(PlanError::Shape(3)),
        ),
        (b"extent 0 512 10\nextent 0\n", Some(PlanError::Priority(1))),
    ];
    for (text, error) in rows {
        assert_eq!(rt; error_of(rt.alloc(), text, 512, 512), error);
    }
    Ok(())
}

#[test]
fn extents_are_refused_by_the_block(rt: HostRuntime) -> Result<(), Fail> {
    let size = 134_217_728;
    let rows: [(&[u8], u32, Option<PlanError>); 6] = [
        (b"extent 512 512 0\n", 512, None),
        (b"#\nextent 512 512 0\n", 4_096, Some(PlanError::Sector(2))),
        (b"extent 0 67109376 0\n", 512, Some(PlanError::TooLong(1))),
        (b"extent 0 67109376 0\n", 4_096, Some(PlanError::Sector(1))),
        (b"extent 0 67112960 0\n", 4_096, Some(PlanError::TooLong(1))),
        (b"extent 4096 67108864 0\n", 4_096, None),
    ];
    for (text, block, error) in rows {
        if block == 512 {
            assert_eq!(rt; error_of(rt.alloc(), text, size, 512), error);
        } else {
            assert_eq!(rt; error_of(rt.alloc(), text, size, 4_096), error);
        }
    }
    Ok(())
}

// The lines of some extents of one length, from the last one by place to the first, behind a comment.
fn many(alloc: Global, count: u64, len: u64) -> Result<Vec<u8>, AllocError> {
    let mut text = Vec::from_slice(alloc, b"# many\n")?;
    for number in (0..count).rev() {
        let at = number.wrapping_mul(len);
        text.extend_from_slice(format!(in alloc; "extent {at} {len} 0\n")?.as_bytes())?;
    }
    Ok(text)
}

#[test]
fn the_greatest_plan(rt: HostRuntime) -> Result<(), Fail> {
    let text = many(rt.alloc(), 65_536, 512)?;
    let plan = read_plan(rt.alloc(), &text, 33_554_944, 512)?;
    let order = order(rt.alloc(), &plan)?;
    assert_eq!(rt; order.first(), Some(&65_535));
    Ok(())
}

#[test]
fn an_extent_too_many(rt: HostRuntime) -> Result<(), Fail> {
    let text = many(rt.alloc(), 65_537, 512)?;
    assert_eq!(rt;
        error_of(rt.alloc(), &text, 33_554_944, 512),
        Some(PlanError::TooMany(65_538))
    );
    Ok(())
}

#[test]
fn too_many_bytes_together(rt: HostRuntime) -> Result<(), Fail> {
    let text = many(rt.alloc(), 16_385, 67_108_864)?;
    let total = Some(PlanError::Total(16_386));
    assert_eq!(rt; error_of(rt.alloc(), &text, 1 << 44, 512), total);
    assert_eq!(rt; error_of(rt.alloc(), &text, 1 << 44, 4_096), total);
    Ok(())
}
