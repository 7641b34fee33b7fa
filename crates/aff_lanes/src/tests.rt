ghost use Rattle.std.specs.Prelude.{◌≡◌, ◌+◌, ◌*◌, ◌≤◌, length};
ghost use Rattle.aff_lanes.specs.Messages.{HaveOneLength};

use crate::{
    Sha256Hasher, md5_of_eight, md5_of_four, sha1_of_eight, sha1_of_four, sha256_of_eight,
    sha256_of_four,
};
use hex::FromHex;
use md5::{Digest as Md5Digest, Md5};
use sha1::Sha1;
use sha2::{Digest as Sha2Digest, Sha256};
use std::process::Abort;
use std::test::Fail;

const TWO_BLOCKS: &str = "abcdbcdecdefdefgefghfghighijhijkijkljklmklmnlmnomnopnopq";

const LONG_END: &str =
    "abcdefghbcdefghicdefghijdefghijkefghijklfghijklmghijklmnhijklmnoijklmnopjklmnopqklmnopqrlmnopqrsmnopqrstnopqrstu";

// A message in every lane.
fn md5_in_each(message: &[u8]) -> ([[u8; 16]; 4], [[u8; 16]; 8]) {
    let m = message;
    (
        md5_of_four(&[m, m, m, m]),
        md5_of_eight(&[m, m, m, m, m, m, m, m]),
    )
}

fn sha1_in_each(message: &[u8]) -> ([[u8; 20]; 4], [[u8; 20]; 8]) {
    let m = message;
    (
        sha1_of_four(&[m, m, m, m]),
        sha1_of_eight(&[m, m, m, m, m, m, m, m]),
    )
}

fn sha256_in_each(message: &[u8]) -> ([[u8; 32]; 4], [[u8; 32]; 8]) {
    let m = message;
    (
        sha256_of_four(&[m, m, m, m]),
        sha256_of_eight(&[m, m, m, m, m, m, m, m]),
    )
}

// The test suite of RFC 1321, A.5.
#[test]
fn md5_has_its_published_digests(rt: HostRuntime) -> Result<(), Fail> {
    for (message, want) in [
        ("", "d41d8cd98f00b204e9800998ecf8427e"),
        ("a", "0cc175b9c0f1b6a831c399e269772661"),
        ("abc", "900150983cd24fb0d6963f7d28e17f72"),
        ("message digest", "f96b697d7cb7938d525a2f31aaf161d0"),
        (
            "abcdefghijklmnopqrstuvwxyz",
            "c3fcd3d76192e4007dfb496cca67e13b",
        ),
        (
            "ABCDEFGHIJKLMNOPQRSTUVWXYZabcdefghijklmnopqrstuvwxyz0123456789",
            "d174ab98d277d9f5a5611c2c9f419d9f",
        ),
        (
            "12345678901234567890123456789012345678901234567890123456789012345678901234567890",
            "57edf4a22be3c955ac49da2e2107b67a",
        ),
    ] {
        let want = <[u8; 16]>::from_hex(want)?;
        let (four, eight) = md5_in_each(message.as_bytes());
        assert_eq!(rt; four, [want; 4]);
        assert_eq!(rt; eight, [want; 8]);
    }
    Ok(())
}

// The examples of FIPS 180, and no bytes.
#[test]
fn sha1_has_its_published_digests(rt: HostRuntime) -> Result<(), Fail> {
    for (message, want) in [
        ("", "da39a3ee5e6b4b0d3255bfef95601890afd80709"),
        ("abc", "a9993e364706816aba3e25717850c26c9cd0d89d"),
        (TWO_BLOCKS, "84983e441c3bd26ebaae4aa1f95129e5e54670f1"),
        (LONG_END, "a49b2446a02c645bf419f995b67091253a04a259"),
    ] {
        let want = <[u8; 20]>::from_hex(want)?;
        let (four, eight) = sha1_in_each(message.as_bytes());
        assert_eq!(rt; four, [want; 4]);
        assert_eq!(rt; eight, [want; 8]);
    }
    Ok(())
}

#[test]
fn sha256_has_its_published_digests(rt: HostRuntime) -> Result<(), Fail> {
    for (message, want) in [
        (
            "",
            "e3b0c44298fc1c149afbf4c8996fb92427ae41e4649b934ca495991b7852b855",
        ),
        (
            "abc",
            "ba7816bf8f01cfea414140de5dae2223b00361a396177a9cb410ff61f20015ad",
        ),
        (
            TWO_BLOCKS,
            "248d6a61d20638b8e5c026930c3e6039a33ce45964ff2167f6ecedd419db06c1",
        ),
        (
            LONG_END,
            "cf5b16a778af8380036ce59e7b0492370b249b11e8f07a51afac45037afee9d1",
        ),
    ] {
        let want = <[u8; 32]>::from_hex(want)?;
        let (four, eight) = sha256_in_each(message.as_bytes());
        assert_eq!(rt; four, [want; 4]);
        assert_eq!(rt; eight, [want; 8]);
        let mut hasher = Sha256Hasher::new();
        hasher.update(message.as_bytes());
        assert_eq!(rt; hasher.finish(), want);
    }
    Ok(())
}

// A message of random bytes.
fn part(bytes: &[u8], at: usize, len: usize) -> &[u8]
    requires { at + len ≤ length bytes.now }
    ensures { length result.now ≡ len }
{
    &bytes[at..at + len]
}

// Eight messages of one length.
fn eight_messages(bytes: &[u8], len: usize) -> [&[u8]; 8]
    requires { 8 * len ≤ length bytes.now }
    ensures { HaveOneLength result }
{
    [
        part(bytes, 0, len),
        part(bytes, len, len),
        part(bytes, 2 * len, len),
        part(bytes, 3 * len, len),
        part(bytes, 4 * len, len),
        part(bytes, 5 * len, len),
        part(bytes, 6 * len, len),
        part(bytes, 7 * len, len),
    ]
}

// Each lane of eight, and each of four, has the digest of its own message.
fn check_lanes(rt: &impl Abort, messages: &[&[u8]; 8])
    requires { HaveOneLength messages.now }
{
    let md5 = md5_of_eight(messages);
    let sha1 = sha1_of_eight(messages);
    let sha256 = sha256_of_eight(messages);
    for (lane, message) in messages.iter().enumerate() {
        assert_eq!(rt; md5[lane], Md5::digest(message));
        assert_eq!(rt; sha1[lane], Sha1::digest(message));
        assert_eq!(rt; sha256[lane], Sha256::digest(message));
    }
}

// A message that comes in three pieces has the digest of the whole.
fn check_pieces(rt: &impl Abort, message: &[u8], first: usize, second: usize) {
    if first <= second && second <= message.len() {
        let mut hasher = Sha256Hasher::new();
        hasher.update(&message[..first]);
        hasher.update(&message[first..second]);
        hasher.update(&message[second..]);
        assert_eq!(rt;
            hasher.finish(),
            Sha256::digest(message),
            "cut at {first} and {second}"
        );
    }
}

// The next bytes of a sequence that looks random (Knuth's 64-bit linear congruence).
fn fill(bytes: &mut [u8], mut state: u64) -> u64 {
    for byte in bytes.iter_mut() {
        state = state
            .wrapping_mul(6_364_136_223_846_793_005)
            .wrapping_add(1_442_695_040_888_963_407);
        *byte = state.to_be_bytes()[0];
    }
    state
}

// 1,000 messages of lengths that leave every number of bytes behind their last whole block, and
// 125 messages cut into pieces at every place of a group of four blocks.
#[test]
fn random_messages_have_the_digests_of_the_scalar_code(rt: HostRuntime) -> Result<(), Fail> {
    let mut bytes = vec![in rt.alloc(); 0; 2_640]?;
    let mut state = 20_261_201;
    for turn in 0..125 {
        state = fill(&mut bytes, state);
        let len = 37 * turn % 331;
        if 8 * len <= bytes.len() {
            check_lanes(&rt, &eight_messages(&bytes, len));
        }
        check_pieces(&rt, &bytes, 37 * turn % 257, 300 + 41 * turn % 513);
        check_pieces(&rt, &bytes, 64 * turn, 64 * turn + 256);
    }
    Ok(())
}
