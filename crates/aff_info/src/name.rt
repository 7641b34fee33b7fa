//! The names of the sixteen statements.
ghost use Rattle.std.specs.Prelude.{◌≡◌};
ghost use Rattle.aff_info.specs.Table.{predicate_of};

/// What a statement is about. `Stream` and `Image` say that there is a stream of chunks and an image.
#[derive(Clone, Copy, Debug, PartialEq, Eq)]
pub enum InfoName {
    Stream,
    StreamSize,
    ChunkSize,
    ChunksInSegment,
    Method,
    StreamStored,
    Image,
    ImageSize,
    Dependent,
    Gap,
    ImageStored,
    Md5,
    Sha1,
    Sha256,
    Sha512,
    BlockMap,
}

/// The names in the order in which they are read: the stream and the image come first, since the others speak of them.
pub const NAMES: [InfoName; 16] = [
    InfoName::Stream,
    InfoName::Image,
    InfoName::StreamSize,
    InfoName::ChunkSize,
    InfoName::ChunksInSegment,
    InfoName::Method,
    InfoName::StreamStored,
    InfoName::ImageSize,
    InfoName::Dependent,
    InfoName::Gap,
    InfoName::ImageStored,
    InfoName::Md5,
    InfoName::Sha1,
    InfoName::Sha256,
    InfoName::Sha512,
    InfoName::BlockMap,
];

/// The predicate of a name's statement.
pub fn predicate(name: InfoName) -> &'static str
    ensures { result.now ≡ predicate_of name }
{
    match name {
        InfoName::Stream | InfoName::Image => "http://www.w3.org/1999/02/22-rdf-syntax-ns#type",
        InfoName::StreamSize | InfoName::ImageSize => "http://aff4.org/Schema#size",
        InfoName::ChunkSize => "http://aff4.org/Schema#chunkSize",
        InfoName::ChunksInSegment => "http://aff4.org/Schema#chunksInSegment",
        InfoName::Method => "http://aff4.org/Schema#compressionMethod",
        InfoName::StreamStored | InfoName::ImageStored => "http://aff4.org/Schema#stored",
        InfoName::Dependent => "http://aff4.org/Schema#dependentStream",
        InfoName::Gap => "http://aff4.org/Schema#mapGapDefaultStream",
        InfoName::Md5 | InfoName::Sha1 | InfoName::Sha256 | InfoName::Sha512 => {
            "http://aff4.org/Schema#hash"
        }
        InfoName::BlockMap => "urn:aff4-live:blockMapHash",
    }
}
