//! What no clause says: that calls succeed where there is memory, and each call once.
ghost use Rattle.std.specs.Prelude.{◌≡◌, ◌+◌, ◌<◌, IfOk, vec_len};

use crate::{BlockHashes, Check, check};
use aff_hash::{Digest, Hash, chunk_sums, digest};
use aff_memory::MemoryFolder;
use aff_names::Urn;
use aff_outside::{Folder, FolderError};
use std::alloc::Global;
use std::test::Fail;

const STREAM: &str = "aff4://11111111-2222-4333-8444-555555555555/data";

const FOLDER: &str = "aff4%3A%2F%2F11111111-2222-4333-8444-555555555555%2Fdata";

/// Pushes the digests of so many chunks, each of which has its number's bytes.
fn push_chunks(
    alloc: Global,
    hashes: &mut BlockHashes,
    folder: &mut MemoryFolder,
    count: u32,
) -> Result<(), FolderError>
    requires { hashes.old.bevvy + count < 100000000 }
{
    for number in 0..count {
        hashes.push(folder, &chunk_sums(&number.to_le_bytes()))?;
    }
    Ok(())
}

/// Names and lengths of all segments, without their folder.
fn listed(alloc: Global, folder: &mut MemoryFolder) -> Result<String, Fail> {
    let mut text = String::new(alloc);
    for segment in &folder.list().map_err(|_| "list")? {
        let name = segment.name.as_str().strip_prefix(FOLDER).ok_or("folder")?;
        write!(&mut text, "{name} {},", segment.len)?;
    }
    Ok(text)
}

/// Nothing was pushed.
fn unpushed(alloc: Global) -> Result<BlockHashes, Fail>
    ensures { IfOk result (λ hashes. hashes.bevvy ≡ 0) }
{
    let stream = Urn::read(alloc, STREAM)?;
    match BlockHashes::new(alloc, &stream) {
        Ok(hashes) => Ok(hashes),
        Err(_) => Err(Fail::from("memory")),
    }
}

#[test]
fn three_chunks_are_appended_at_the_end(rt: HostRuntime) -> Result<(), Fail> {
    let alloc = rt.alloc();
    let mut folder = MemoryFolder::new(alloc, Vec::new(alloc), Vec::new(alloc));
    let mut hashes = unpushed(alloc)?;
    assert!(rt; push_chunks(alloc, &mut hashes, &mut folder, 3).is_ok());
    assert_eq!(rt; folder.calls(), 0);
    assert!(rt; hashes.finish(&mut folder).is_ok());
    assert_eq!(rt;
        listed(alloc, &mut folder)?.as_str(),
        "/00000000.blockHash.md5 48,/00000000.blockHash.sha1 60,/00000000.blockHash.sha256 96,"
    );
    Ok(())
}

#[test]
fn a_full_bevvy_is_appended_by_itself(rt: HostRuntime) -> Result<(), Fail> {
    let alloc = rt.alloc();
    let mut folder = MemoryFolder::new(alloc, Vec::new(alloc), Vec::new(alloc));
    let mut hashes = unpushed(alloc)?;
    assert!(rt; push_chunks(alloc, &mut hashes, &mut folder, 1_024).is_ok());
    assert!(rt; hashes.finish(&mut folder).is_ok());
    assert_eq!(rt; folder.calls(), 3);
    assert_eq!(rt;
        listed(alloc, &mut folder)?.as_str(),
        "/00000000.blockHash.md5 16384,/00000000.blockHash.sha1 20480,/00000000.blockHash.sha256 32768,"
    );
    Ok(())
}

#[test]
fn a_failed_append_is_answered(rt: HostRuntime) -> Result<(), Fail> {
    let alloc = rt.alloc();
    let mut folder = MemoryFolder::new(alloc, vec![in alloc; 2]?, Vec::new(alloc));
    let mut hashes = unpushed(alloc)?;
    assert!(rt; push_chunks(alloc, &mut hashes, &mut folder, 1).is_ok());
    assert_eq!(rt; hashes.finish(&mut folder), Err(FolderError::Failed));
    assert_eq!(rt;
        listed(alloc, &mut folder)?.as_str(),
        "/00000000.blockHash.md5 16,"
    );
    Ok(())
}

/// Two MD5 digests, one after another.
fn two_digests(alloc: Global, first: &Digest, second: &Digest) -> Result<Vec<u8>, Fail>
    ensures { IfOk result (λ bytes. vec_len bytes ≡ 32) }
{
    let mut bytes = Vec::new(alloc);
    bytes.extend_from_slice(&first.bytes[..16])?;
    bytes.extend_from_slice(&second.bytes[..16])?;
    Ok(bytes)
}

#[test]
fn a_last_byte_makes_digests_differ(rt: HostRuntime) -> Result<(), Fail> {
    for chunk in ["", "abc"] {
        let chunk = chunk.as_bytes();
        let found = digest(Hash::Md5, chunk);
        let mut other = found;
        other.bytes[15] ^= 1;
        let recorded = two_digests(rt.alloc(), &found, &other)?;
        assert_eq!(rt; check(Hash::Md5, &recorded, 0, chunk), Check::Match);
        assert_eq!(rt;
            check(Hash::Md5, &recorded, 1, chunk),
            Check::Differs {
                recorded: other,
                found
            }
        );
    }
    Ok(())
}
