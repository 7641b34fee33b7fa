ghost use Rattle.std.specs.Prelude.{◌≡◌, IfOk, length};

use crate::{Cut, cut, pad};
use std::alloc::{AllocError, Global};
use std::test::Fail;

fn filled(alloc: Global, byte: u8, count: usize) -> Result<Vec<u8>, AllocError>
    ensures { IfOk result (λ v. length v.items ≡ count) }
{
    vec![in alloc; byte; count]
}

#[test]
fn a_chunk_with_a_readable_sector_is_stored(rt: HostRuntime) -> Result<(), Fail> {
    let bytes = filled(rt.alloc(), 0, 1_536)?;
    let cuts = cut(rt.alloc(), &bytes, &[1])?;
    assert_eq!(rt; cuts.as_slice(), [Cut::Stored].as_slice());
    let cuts = cut(rt.alloc(), &bytes, &[2, 0, 1, 1])?;
    assert_eq!(rt; cuts.as_slice(), [Cut::Nothing].as_slice());
    let cuts = cut(rt.alloc(), &bytes, &[3])?;
    assert_eq!(rt; cuts.as_slice(), [Cut::Zero].as_slice());
    Ok(())
}

#[test]
fn each_chunk_is_cut_by_itself(rt: HostRuntime) -> Result<(), Fail> {
    let mut bytes = filled(rt.alloc(), 0, 98_304)?;
    bytes[98_303] = 1;
    let bad: Vec<u32> = (64..128).collect(rt.alloc())?;
    let cuts = cut(rt.alloc(), &bytes, &bad)?;
    assert_eq!(rt;
        cuts.as_slice(),
        [Cut::Zero, Cut::Nothing, Cut::Stored].as_slice()
    );
    let none = cut(rt.alloc(), &[], &[])?;
    assert_eq!(rt; none.len(), 0);
    Ok(())
}

#[test]
fn the_last_chunk_is_padded(rt: HostRuntime) -> Result<(), Fail> {
    let bytes = filled(rt.alloc(), 7, 33_280)?;
    let mut out = filled(rt.alloc(), 9, 32_768)?;
    pad(&bytes, 1, &mut out);
    assert_eq!(rt; out[511], 7);
    assert_eq!(rt; out[512], 0);
    assert_eq!(rt; out[32_767], 0);
    Ok(())
}
