//! Feeding four hashers the same bytes, each in a thread of its own.
ghost use Rattle.std.specs.Prelude.{◌++◌, ℕ, List};
ghost use Rattle.aff_lanes.specs.Hasher.{Holds as Holds256};
ghost use Rattle.md5.specs.Md5.{Holds as HoldsMd5};
ghost use Rattle.sha1.specs.Sha1.{Holds as HoldsSha1};
ghost use Rattle.sha2.specs.Hashers.{Holds512};

use aff_lanes::Sha256Hasher;
use md5::{Digest as Md5Hasher, Md5};
use sha1::Sha1;
use sha2::{Digest as Sha2Hasher, Sha512};
use std::thread::{Threads, join_mut};

pub(crate) fn feed_md5_and_sha1<R: Threads + Sync>(
    rt: &R,
    md5: &mut Md5,
    sha1: &mut Sha1,
    bytes: &[u8],
)
    ensures md5 { (m : List ℕ) → HoldsMd5 md5.old m → HoldsMd5 md5.new (m ++ bytes.now) }
    ensures sha1 { (m : List ℕ) → HoldsSha1 sha1.old m → HoldsSha1 sha1.new (m ++ bytes.now) }
{
    join_mut(rt, &mut || md5.update(bytes), &mut || sha1.update(bytes));
}

pub(crate) fn feed_sha256_and_sha512<R: Threads + Sync>(
    rt: &R,
    sha256: &mut Sha256Hasher,
    sha512: &mut Sha512,
    bytes: &[u8],
)
    ensures sha256 { (m : List ℕ) → Holds256 sha256.old m → Holds256 sha256.new (m ++ bytes.now) }
    ensures sha512 { (m : List ℕ) → Holds512 sha512.old m → Holds512 sha512.new (m ++ bytes.now) }
{
    join_mut(
        rt,
        &mut || sha256.update(bytes),
        &mut || sha512.update(bytes),
    );
}
