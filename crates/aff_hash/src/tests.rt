ghost use Rattle.std.specs.Prelude.{◌<◌, ◌≤◌, All, IfOk, length};

use crate::{ChunkSums, Digests, Hash, Linear, chunk_sums, digest, hex_line, sums_of_chosen};
use hex::FromHex;
use std::alloc::{AllocError, Global};
use std::test::Fail;

const CHUNKS: usize = 7;

// Vectors from outside: the digests of no bytes and of `abc`.
#[test]
fn known_messages_have_their_digests(rt: HostRuntime) -> Result<(), Fail> {
    for (kind, message, want) in [
        (Hash::Md5, "", "d41d8cd98f00b204e9800998ecf8427e"),
        (Hash::Md5, "abc", "900150983cd24fb0d6963f7d28e17f72"),
        (Hash::Sha1, "", "da39a3ee5e6b4b0d3255bfef95601890afd80709"),
        (
            Hash::Sha1,
            "abc",
            "a9993e364706816aba3e25717850c26c9cd0d89d",
        ),
        (
            Hash::Sha256,
            "",
            "e3b0c44298fc1c149afbf4c8996fb92427ae41e4649b934ca495991b7852b855",
        ),
        (
            Hash::Sha256,
            "abc",
            "ba7816bf8f01cfea414140de5dae2223b00361a396177a9cb410ff61f20015ad",
        ),
        (
            Hash::Sha512,
            "",
            "cf83e1357eefb8bdf1542850d66d8007d620e4050b5715dc83f4a921d36ce9ce47d0d13c5d85f2b0ff8318d2877eec2f63b931bd47417a81a538327af927da3e",
        ),
        (
            Hash::Sha512,
            "abc",
            "ddaf35a193617abacc417349ae20413112e6fa4e89a97ea20a9eeee64b55d39a2192992a274fc1a836ba3c23a3feebbd454d4423643ce80e2a9ac94fa54ca49f",
        ),
    ] {
        let found = digest(kind, message.as_bytes());
        let line = hex_line(rt.alloc(), "digest", &found.bytes)?;
        let want = format!(in rt.alloc(); "digest {want:0<128}\n")?;
        assert_eq!(rt; found.kind, kind);
        assert_eq!(rt; line.as_str(), want.as_str());
    }
    Ok(())
}

#[test]
fn a_chunk_of_zeros_has_its_three_digests(rt: HostRuntime) -> Result<(), Fail> {
    let chunk = vec![in rt.alloc(); 0; 32_768]?;
    let want = ChunkSums {
        md5: <[u8; 16]>::from_hex("bb7df04e1b0a2570657527a7e108ae23")?,
        sha1: <[u8; 20]>::from_hex("5188431849b4613152fd7bdba6a3ff0a4fd6424b")?,
        sha256: <[u8; 32]>::from_hex(
            "c35020473aed1b4642cd726cad727b63fff2824ad68cedd7ffb73c7cbd890479",
        )?,
    };
    assert_eq!(rt; chunk_sums(&chunk), want);
    Ok(())
}

// The bytes of an extent: six whole chunks and a short one, no two alike.
fn extent(alloc: Global) -> Result<Vec<u8>, AllocError> {
    let mut bytes = Vec::new(alloc);
    for sector in 0..64 * CHUNKS as u32 - 1 {
        for place in 0..512 {
            bytes.push((sector * 512 + place).to_le_bytes()[(place % 3) as usize])?;
        }
    }
    Ok(bytes)
}

// The digests of each chunk, which is padded here in a list of its own.
fn sums_of_each(alloc: Global, bytes: &[u8]) -> Result<Vec<ChunkSums>, AllocError> {
    let mut sums = Vec::new(alloc);
    for part in bytes.chunks(32_768) {
        let mut chunk = part.to_vec(alloc)?;
        chunk.resize(32_768, 0)?;
        sums.push(chunk_sums(&chunk))?;
    }
    Ok(sums)
}

// The numbers of some chunks, in no order.
fn numbers(alloc: Global, count: usize) -> Result<Vec<usize>, AllocError>
    ensures { IfOk result (λ chosen. All (λ number. number < 7) chosen.items) }
{
    let mut chosen = Vec::new(alloc);
    for i in 0..count {
        chosen.push((i % CHUNKS * 5 + count % CHUNKS) % CHUNKS)?;
    }
    Ok(chosen)
}

// Every remainder of four and of eight. With memory enough each call answers.
#[test]
fn each_chosen_chunk_has_the_digests_of_its_stored_bytes(rt: HostRuntime) -> Result<(), Fail> {
    let bytes = extent(rt.alloc())?;
    let each = sums_of_each(rt.alloc(), &bytes)?;
    for count in [0, 1, 2, 3, 4, 5, 6, 7, 8, 15] {
        let chosen = numbers(rt.alloc(), count)?;
        if bytes.len() > 32_768 * (CHUNKS - 1) {
            let sums = sums_of_chosen(rt.alloc(), &bytes, &chosen)?;
            assert_eq!(rt; sums.len(), chosen.len());
            for (entry, number) in sums.iter().zip(&chosen) {
                assert_eq!(rt; Some(*entry), each.get(*number).copied(), "chunk {number}");
            }
        }
    }
    Ok(())
}

fn in_three_pieces(whole: &[u8], first: usize, second: usize) -> Digests
    requires first { first ≤ second }
    requires second { second ≤ length whole.now }
{
    let mut linear = Linear::new();
    may_be_sent(&linear);
    linear.update(&whole[..first]);
    linear.update(&whole[first..second]);
    linear.update(&whole[second..]);
    linear.finish()
}

// A worker may hold the hasher.
fn may_be_sent<T: Send>(_value: &T) {}

#[test]
fn how_the_whole_is_cut_makes_no_difference(rt: HostRuntime) -> Result<(), Fail> {
    let mut whole = Vec::new(rt.alloc());
    for place in 0..612_u32 {
        whole.push((place % 251) as u8)?;
    }
    for first in [0, 1, 63, 64, 127, 256, 300] {
        for second in [0, 1, 64, 129, 255, 256, 511, 512, 600] {
            if first <= second && second <= whole.len() {
                let found = in_three_pieces(&whole, first, second);
                assert_eq!(rt;
                    found.md5.as_slice(),
                    &digest(Hash::Md5, &whole).bytes[..16]
                );
                assert_eq!(rt;
                    found.sha1.as_slice(),
                    &digest(Hash::Sha1, &whole).bytes[..20]
                );
                assert_eq!(rt;
                    found.sha256.as_slice(),
                    &digest(Hash::Sha256, &whole).bytes[..32]
                );
                assert_eq!(rt; found.sha512, digest(Hash::Sha512, &whole).bytes);
            }
        }
    }
    Ok(())
}

// Side by side or one after another: the same digests.
#[test]
fn threads_give_the_same_digests(rt: HostRuntime) -> Result<(), Fail> {
    let whole = extent(rt.alloc())?;
    let mut beside = Linear::new();
    let mut alone = Linear::new();
    for piece in whole.chunks(100_001) {
        beside.update_beside(&rt, piece);
        alone.update(piece);
    }
    let found = beside.finish();
    assert_eq!(rt; found, alone.finish());
    assert_eq!(rt; found.sha512, digest(Hash::Sha512, &whole).bytes);
    Ok(())
}

#[test]
fn a_line_has_a_name_and_digits_in_lower_case(rt: HostRuntime) -> Result<(), Fail> {
    let line = hex_line(rt.alloc(), "sha1", &[0, 10, 171, 255])?;
    assert_eq!(rt; line.as_str(), "sha1 000aabff\n");
    Ok(())
}
