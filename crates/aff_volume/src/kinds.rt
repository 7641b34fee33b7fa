//! The hash functions of block hashes.
ghost use Rattle.std.specs.Prelude.{◌≡◌, ◌≤◌};
ghost use Rattle.aff_hash.specs.Digest.{digest_size};
ghost use Rattle.aff_volume.specs.Image.{hash_suffix};

use aff_hash::Hash;

/// What stands behind a bevvy's number in the name of its block hashes.
pub(crate) fn hash_suffix(kind: Hash) -> &'static str
    ensures { result.now ≡ hash_suffix kind }
{
    match kind {
        Hash::Md5 => ".blockHash.md5",
        Hash::Sha1 => ".blockHash.sha1",
        Hash::Sha256 => ".blockHash.sha256",
        Hash::Sha512 => ".blockHash.sha512",
    }
}

/// How many bytes a digest has.
pub(crate) fn digest_len(kind: Hash) -> u64
    ensures size { result ≡ digest_size kind }
    ensures few { result ≤ 64 }
{
    match kind {
        Hash::Md5 => 16,
        Hash::Sha1 => 20,
        Hash::Sha256 => 32,
        Hash::Sha512 => 64,
    }
}
