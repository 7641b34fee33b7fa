//! The digests of bytes that come piece by piece.
ghost use Rattle.std.specs.Prelude.{◌≡◌, ◌++◌, []};
ghost use Rattle.aff_hash.specs.Digest.{digest_of};

use crate::beside::{feed_md5_and_sha1, feed_sha256_and_sha512};
use crate::fed::with_next;
use crate::{Digests, Hash};
use aff_lanes::Sha256Hasher;
use boxcar::tag::Tag;
use md5::{Digest as Md5Hasher, Md5};
use sha1::Sha1;
use sha2::{Digest as Sha2Hasher, Sha512};
use std::marker::Model;
use std::thread::{Threads, join_mut};

/// The linear hash of an image: its four digests, from bytes that are fed in order. Clauses see the list
/// of all bytes that were fed. It has a fixed size and takes no memory.
#[derive(Drop)]
pub struct Linear {
    md5: Md5,
    sha1: Sha1,
    sha256: Sha256Hasher,
    sha512: Sha512,
    fed: Tag,
}

impl Model for Linear {
    ghost use Rattle.std.specs.Prelude.{ℕ, List};
    ghost use Rattle.aff_hash.specs.Linear.{AllHold};

    ghost Value = { List ℕ };

    ghost view = { λ l. l.fed.numbers };

    ghost invariant = { λ l. AllHold l.md5 l.sha1 l.sha256 l.sha512 l.fed.numbers };
}

impl Linear {
    /// No bytes were fed.
    pub fn new() -> Linear
        ensures { result ≡ [] }
    {
        Linear {
            md5: Md5::new(),
            sha1: Sha1::new(),
            sha256: Sha256Hasher::new(),
            sha512: Sha512::new(),
            fed: Tag::empty(),
        }
    }

    /// Feeds the next bytes. How the whole is cut into pieces makes no difference.
    pub fn update(&mut self, bytes: &[u8])
        ensures { self.new ≡ self.old ++ bytes.now }
    {
        self.md5.update(bytes);
        self.sha1.update(bytes);
        self.sha256.update(bytes);
        self.sha512.update(bytes);
        self.fed = with_next(&self.fed, bytes);
    }

    /// Feeds the next bytes, as `update` does, to the four hash functions side by side. Three threads are begun and
    /// joined at each call, so it pays for pieces of about a mebibyte and more; where none can be begun, one
    /// digest is fed after another.
    pub fn update_beside<R: Threads + Sync>(&mut self, rt: &R, bytes: &[u8])
        ensures { self.new ≡ self.old ++ bytes.now }
    {
        let Linear {
            md5,
            sha1,
            sha256,
            sha512,
            fed,
        } = self;
        join_mut(
            rt,
            &mut || feed_sha256_and_sha512(rt, sha256, sha512, bytes),
            &mut || feed_md5_and_sha1(rt, md5, sha1, bytes),
        );
        *fed = with_next(fed, bytes);
    }

    /// The digests of all bytes that were fed.
    pub fn finish(self) -> Digests
        ensures md5 { result.md5 ≡ digest_of Hash.Md5 self }
        ensures sha1 { result.sha1 ≡ digest_of Hash.Sha1 self }
        ensures sha256 { result.sha256 ≡ digest_of Hash.Sha256 self }
        ensures sha512 { result.sha512 ≡ digest_of Hash.Sha512 self }
    {
        Digests {
            md5: self.md5.finalize(),
            sha1: self.sha1.finalize(),
            sha256: self.sha256.finish(),
            sha512: self.sha512.finalize(),
        }
    }
}
