//! Digests in lanes: MD5 (RFC 1321), SHA-1 and SHA-256 (FIPS 180-4) of four and of eight messages of one length at
//! once, a message in each lane of a vector; and SHA-256 of one message that comes piece by piece, with the
//! schedules of four of its blocks in lanes. Each is the digest that `md5`, `sha1` and `sha2` define. Nothing here
//! takes memory.
#![tactic(auto)]

mod ends;
mod lane;
mod md5_lanes;
mod sha1_lanes;
mod sha256_hasher;
mod sha256_lanes;
mod words;

pub use md5_lanes::{md5_of_eight, md5_of_four};
pub use sha1_lanes::{sha1_of_eight, sha1_of_four};
pub use sha256_hasher::Sha256Hasher;
pub use sha256_lanes::{sha256_of_eight, sha256_of_four};

#[cfg(test)]
mod tests;
