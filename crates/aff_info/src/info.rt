//! Metadata.
use aff_hash::Digests;
use aff_map::Target;
use aff_names::Urn;
use std::marker::Model;

/// What a volume says of itself: the URNs of the volume, of its stream of chunks and of its image; the sizes of the
/// stream and of the image in bytes; what the image has where its map has no entry; the linear hashes; and the block map
/// hash.
#[derive(Drop)]
pub struct Info {
    pub volume: Urn,
    pub stream: Urn,
    pub image: Urn,
    pub stream_size: u64,
    pub image_size: u64,
    pub gap: Target,
    pub linear: Digests,
    pub block_map: [u8; 64],
}

/// Metadata as it was read, and the places, from 0, of the triples that say nothing of it.
#[derive(Drop)]
pub struct InfoRead {
    pub info: Info,
    pub aside: Vec<u64>,
}

impl Model for InfoRead {
    ghost use Rattle.aff_info.specs.Found.{Found};

    ghost Value = { Found };

    ghost view = { λ r. record { info = r.info; aside = r.aside.items } };
}
