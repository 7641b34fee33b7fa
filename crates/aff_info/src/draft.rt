//! What is known while statements are read.
ghost use Rattle.std.specs.Prelude.{◌≡◌};
ghost use Rattle.aff_info.specs.Reading.{nothing};

use aff_hash::Digests;
use aff_map::Target;
use aff_names::Urn;

/// What the statements read so far say. What was not read yet is absent or 0.
#[derive(Drop)]
pub struct PartialInfo {
    pub volume: Option<Urn>,
    pub stream: Option<Urn>,
    pub image: Option<Urn>,
    pub stream_size: u64,
    pub image_size: u64,
    pub gap: Target,
    pub linear: Digests,
    pub block_map: [u8; 64],
}

/// Nothing is known.
pub fn empty() -> PartialInfo
    ensures { result ≡ nothing }
{
    PartialInfo {
        volume: None,
        stream: None,
        image: None,
        stream_size: 0,
        image_size: 0,
        gap: Target::Unknown,
        linear: Digests {
            md5: [0; 16],
            sha1: [0; 20],
            sha256: [0; 32],
            sha512: [0; 64],
        },
        block_map: [0; 64],
    }
}
