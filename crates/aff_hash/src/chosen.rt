//! The digests of an extent's chosen chunks, eight at a time.
ghost use Rattle.std.specs.Prelude.{◌≡◌, ◌++◌, ◌*◌, ◌/◌, ◌%◌, ◌<◌, ◌≤◌, All, IfOk, OnOk, length, map};
ghost use Rattle.aff_lanes.specs.Messages.{texts, HaveOneLength};
ghost use Rattle.aff_model.specs.Plan.{chunk_count};
ghost use Rattle.aff_spec.specs.Chunks.{chunk_at};
ghost use Rattle.aff_hash.specs.Chosen.{chosen_sums, chunk_sums_of};

use crate::{ChunkSums, chunk_sums};
use aff_lanes::{
    md5_of_eight, md5_of_four, sha1_of_eight, sha1_of_four, sha256_of_eight, sha256_of_four,
};
use aff_model::{CHUNK, Memory};
use std::alloc::{AllocError, Global};

const CHUNK_BYTES: usize = CHUNK as usize;

/// The digests of the chosen chunks of an extent's bytes: one entry a number, in the order of the numbers, each of
/// the chunk as it is stored, with zeros behind it up to 32,768 bytes where it is the last and short. Chunks are
/// numbered from 0; they may be chosen in any order, and more than once. All memory is taken first: the room of the
/// entries and a chunk's; for want of it `Memory`, and no other error comes.
pub fn sums_of_chosen(
    alloc: Global,
    bytes: &[u8],
    chosen: &[usize],
) -> Result<Vec<ChunkSums>, Memory>
    requires { All (λ j. j < chunk_count (length bytes.now)) chosen.now }
    ensures { IfOk result (λ sums. sums.items ≡ chosen_sums bytes.now chosen.now) }
{
    chosen_in_groups(alloc, bytes, chosen).map_err(|_| Memory)
}

// Eight at a time, then four, then one by one.
fn chosen_in_groups(
    alloc: Global,
    bytes: &[u8],
    chosen: &[usize],
) -> Result<Vec<ChunkSums>, AllocError>
    requires { All (λ j. j < chunk_count (length bytes.now)) chosen.now }
    ensures { IfOk result (λ sums. sums.items ≡ chosen_sums bytes.now chosen.now) }
{
    let mut sums = Vec::with_capacity(alloc, chosen.len())?;
    let end = end_of(alloc, bytes)?;
    let eights = chosen.len() / 8 * 8;
    let fours = chosen.len() / 4 * 4;
    push_eights(&mut sums, bytes, &end, &chosen[..eights])?;
    push_fours(&mut sums, bytes, &end, &chosen[eights..fours])?;
    push_others(&mut sums, bytes, &end, &chosen[fours..])?;
    Ok(sums)
}

/// The bytes of an extent behind its last whole chunk, with zeros behind them up to the length of a chunk.
pub fn padded_end(alloc: Global, bytes: &[u8]) -> Result<Vec<u8>, Memory>
    ensures { IfOk result (λ end. end.items ≡ chunk_at bytes.now (length bytes.now / 32768)) }
{
    end_of(alloc, bytes).map_err(|_| Memory)
}

#[tactic(auto, unfolding(aff_spec::specs::Chunks::padded))]
fn end_of(alloc: Global, bytes: &[u8]) -> Result<Vec<u8>, AllocError>
    ensures { IfOk result (λ end. end.items ≡ chunk_at bytes.now (length bytes.now / 32768)) }
{
    let mut end = Vec::with_capacity(alloc, CHUNK_BYTES)?;
    end.extend_from_slice(&bytes[bytes.len() / CHUNK_BYTES * CHUNK_BYTES..])?;
    end.resize(CHUNK_BYTES, 0)?;
    Ok(end)
}

/// A chunk of an extent as it is stored: only where it is the last and short it is that of `end`, the extent's
/// padded end; the others are not copied.
pub fn chunk<'a>(bytes: &'a [u8], end: &'a [u8], number: usize) -> &'a [u8]
    requires end { end.now ≡ chunk_at bytes.now (length bytes.now / 32768) }
    requires number { number < chunk_count (length bytes.now) }
    ensures chunk { result.now ≡ chunk_at bytes.now number }
    ensures len { length result.now ≡ 32768 }
{
    if number < bytes.len() / CHUNK_BYTES {
        &bytes[CHUNK_BYTES * number..CHUNK_BYTES * (number + 1)]
    } else {
        end
    }
}

fn four_chunks<'a>(bytes: &'a [u8], end: &'a [u8], chosen: &[usize]) -> [&'a [u8]; 4]
    requires end { end.now ≡ chunk_at bytes.now (length bytes.now / 32768) }
    requires count { length chosen.now ≡ 4 }
    requires chosen { All (λ j. j < chunk_count (length bytes.now)) chosen.now }
    ensures chunks { texts result ≡ map (chunk_at bytes.now) chosen.now }
    ensures lengths { HaveOneLength result }
{
    [
        chunk(bytes, end, chosen[0]),
        chunk(bytes, end, chosen[1]),
        chunk(bytes, end, chosen[2]),
        chunk(bytes, end, chosen[3]),
    ]
}

fn eight_chunks<'a>(bytes: &'a [u8], end: &'a [u8], chosen: &[usize]) -> [&'a [u8]; 8]
    requires end { end.now ≡ chunk_at bytes.now (length bytes.now / 32768) }
    requires count { length chosen.now ≡ 8 }
    requires chosen { All (λ j. j < chunk_count (length bytes.now)) chosen.now }
    ensures chunks { texts result ≡ map (chunk_at bytes.now) chosen.now }
    ensures lengths { HaveOneLength result }
{
    [
        chunk(bytes, end, chosen[0]),
        chunk(bytes, end, chosen[1]),
        chunk(bytes, end, chosen[2]),
        chunk(bytes, end, chosen[3]),
        chunk(bytes, end, chosen[4]),
        chunk(bytes, end, chosen[5]),
        chunk(bytes, end, chosen[6]),
        chunk(bytes, end, chosen[7]),
    ]
}

fn entry(md5: [u8; 16], sha1: [u8; 20], sha256: [u8; 32]) -> ChunkSums
    ensures { result ≡ record { md5 = md5; sha1 = sha1; sha256 = sha256 } }
{
    ChunkSums { md5, sha1, sha256 }
}

fn sums_of_four(chunks: &[&[u8]; 4]) -> [ChunkSums; 4]
    requires { HaveOneLength chunks.now }
    ensures { result ≡ map chunk_sums_of (texts chunks.now) }
{
    let [a, b, c, d] = md5_of_four(chunks);
    let [e, f, g, h] = sha1_of_four(chunks);
    let [i, j, k, l] = sha256_of_four(chunks);
    [
        entry(a, e, i),
        entry(b, f, j),
        entry(c, g, k),
        entry(d, h, l),
    ]
}

fn sums_of_eight(chunks: &[&[u8]; 8]) -> [ChunkSums; 8]
    requires { HaveOneLength chunks.now }
    ensures { result ≡ map chunk_sums_of (texts chunks.now) }
{
    let md5 = md5_of_eight(chunks);
    let sha1 = sha1_of_eight(chunks);
    let sha256 = sha256_of_eight(chunks);
    [
        entry(md5[0], sha1[0], sha256[0]),
        entry(md5[1], sha1[1], sha256[1]),
        entry(md5[2], sha1[2], sha256[2]),
        entry(md5[3], sha1[3], sha256[3]),
        entry(md5[4], sha1[4], sha256[4]),
        entry(md5[5], sha1[5], sha256[5]),
        entry(md5[6], sha1[6], sha256[6]),
        entry(md5[7], sha1[7], sha256[7]),
    ]
}

fn push_eights(
    sums: &mut Vec<ChunkSums>,
    bytes: &[u8],
    end: &[u8],
    chosen: &[usize],
) -> Result<(), AllocError>
    requires end { end.now ≡ chunk_at bytes.now (length bytes.now / 32768) }
    requires count { length chosen.now % 8 ≡ 0 }
    requires chosen { All (λ j. j < chunk_count (length bytes.now)) chosen.now }
    ensures { OnOk result (sums.new.items ≡ sums.old.items ++ chosen_sums bytes.now chosen.now) }
{
    'groups: for i in 0..chosen.len() / 8 {
        let chunks = eight_chunks(bytes, end, &chosen[8 * i..8 * i + 8]);
        sums.extend_from_slice(&sums_of_eight(&chunks))?;
    }
    Ok(())
}

fn push_fours(
    sums: &mut Vec<ChunkSums>,
    bytes: &[u8],
    end: &[u8],
    chosen: &[usize],
) -> Result<(), AllocError>
    requires end { end.now ≡ chunk_at bytes.now (length bytes.now / 32768) }
    requires count { length chosen.now % 4 ≡ 0 }
    requires chosen { All (λ j. j < chunk_count (length bytes.now)) chosen.now }
    ensures { OnOk result (sums.new.items ≡ sums.old.items ++ chosen_sums bytes.now chosen.now) }
{
    'groups: for i in 0..chosen.len() / 4 {
        let chunks = four_chunks(bytes, end, &chosen[4 * i..4 * i + 4]);
        sums.extend_from_slice(&sums_of_four(&chunks))?;
    }
    Ok(())
}

fn push_others(
    sums: &mut Vec<ChunkSums>,
    bytes: &[u8],
    end: &[u8],
    chosen: &[usize],
) -> Result<(), AllocError>
    requires end { end.now ≡ chunk_at bytes.now (length bytes.now / 32768) }
    requires chosen { All (λ j. j < chunk_count (length bytes.now)) chosen.now }
    ensures { OnOk result (sums.new.items ≡ sums.old.items ++ chosen_sums bytes.now chosen.now) }
{
    'others: for i in 0..chosen.len() {
        sums.push(chunk_sums(chunk(bytes, end, chosen[i])))?;
    }
    Ok(())
}
