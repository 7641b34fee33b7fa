//! The lines of folders that are refused as volumes.
ghost use Rattle.std.specs.Prelude.{◌≡◌, IfOk};
ghost use Rattle.std.specs.String.{string_bytes};
ghost use Rattle.aff_offline.specs.Refusals.{info_line, map_line, name_word, stream_line, turtle_line, volume_line};

use aff_bevvy::StreamError;
use aff_info::{InfoError, InfoName};
use aff_map::MapError;
use aff_turtle::TurtleError;
use aff_volume::VolumeError;
use std::alloc::{AllocError, Global};

// The name of a statement in lower case.
fn name_word(name: InfoName) -> &'static str
    ensures { result.now ≡ name_word name }
{
    match name {
        InfoName::Stream => "stream",
        InfoName::StreamSize => "streamsize",
        InfoName::ChunkSize => "chunksize",
        InfoName::ChunksInSegment => "chunksinsegment",
        InfoName::Method => "method",
        InfoName::StreamStored => "streamstored",
        InfoName::Image => "image",
        InfoName::ImageSize => "imagesize",
        InfoName::Dependent => "dependent",
        InfoName::Gap => "gap",
        InfoName::ImageStored => "imagestored",
        InfoName::Md5 => "md5",
        InfoName::Sha1 => "sha1",
        InfoName::Sha256 => "sha256",
        InfoName::Sha512 => "sha512",
        InfoName::BlockMap => "blockmap",
    }
}

fn turtle_line(alloc: Global, error: TurtleError) -> Result<String, AllocError>
    ensures { IfOk result (λ line. string_bytes line ≡ turtle_line error) }
{
    match error {
        TurtleError::Syntax(line) => format!(in alloc; "error volume turtle syntax {line}\n"),
        TurtleError::NoPrefix(line) => format!(in alloc; "error volume turtle noprefix {line}\n"),
        TurtleError::Unsupported(line) => format!(in alloc;
            "error volume turtle unsupported {line}\n"
        ),
        TurtleError::Utf8(at) => format!(in alloc; "error volume turtle utf8 {at}\n"),
        TurtleError::Memory => format!(in alloc; "error memory\n"),
    }
}

fn info_line(alloc: Global, error: InfoError) -> Result<String, AllocError>
    ensures { IfOk result (λ line. string_bytes line ≡ info_line error) }
{
    match error {
        InfoError::Missing(name) => {
            let name = name_word(name);
            format!(in alloc; "error volume info missing {name}\n")
        }
        InfoError::Twice(name) => {
            let name = name_word(name);
            format!(in alloc; "error volume info twice {name}\n")
        }
        InfoError::BadValue(name) => {
            let name = name_word(name);
            format!(in alloc; "error volume info badvalue {name}\n")
        }
        InfoError::Method(iri) => format!(in alloc; "error volume info method {iri}\n"),
        InfoError::Memory => format!(in alloc; "error memory\n"),
    }
}

fn stream_line(alloc: Global, error: StreamError) -> Result<String, AllocError>
    ensures { IfOk result (λ line. string_bytes line ≡ stream_line error) }
{
    match error {
        StreamError::NoSegment(bevvy) => format!(in alloc;
            "error volume stream nosegment {bevvy}\n"
        ),
        StreamError::Ragged(bevvy) => format!(in alloc; "error volume stream ragged {bevvy}\n"),
        StreamError::PointPastEnd(chunk) => format!(in alloc;
            "error volume stream pointpastend {chunk}\n"
        ),
        StreamError::PointLength(chunk, len) => format!(in alloc;
            "error volume stream pointlength {chunk} {len}\n"
        ),
        StreamError::Failed => format!(in alloc; "error folder\n"),
        StreamError::Memory => format!(in alloc; "error memory\n"),
    }
}

fn map_line(alloc: Global, error: MapError) -> Result<String, AllocError>
    ensures { IfOk result (λ line. string_bytes line ≡ map_line error) }
{
    match error {
        MapError::Ragged(len) => format!(in alloc; "error volume map ragged {len}\n"),
        MapError::Empty(entry) => format!(in alloc; "error volume map empty {entry}\n"),
        MapError::PastEnd(entry) => format!(in alloc; "error volume map pastend {entry}\n"),
        MapError::Overlap(first, second) => {
            format!(in alloc; "error volume map overlap {first} {second}\n")
        }
        MapError::NoTarget(entry) => format!(in alloc; "error volume map notarget {entry}\n"),
        MapError::BadTarget(line) => format!(in alloc; "error volume map badtarget {line}\n"),
        MapError::PastTarget(entry) => format!(in alloc; "error volume map pasttarget {entry}\n"),
        MapError::Memory => format!(in alloc; "error memory\n"),
    }
}

/// The line of a folder that is refused as a volume.
pub fn volume_line(alloc: Global, error: VolumeError) -> Result<String, AllocError>
    ensures { IfOk result (λ line. string_bytes line ≡ volume_line error) }
{
    match error {
        VolumeError::NoInformation => format!(in alloc; "error volume noinformation\n"),
        VolumeError::Turtle(error) => turtle_line(alloc, error),
        VolumeError::Info(error) => info_line(alloc, error),
        VolumeError::NoMap => format!(in alloc; "error volume nomap\n"),
        VolumeError::Stream(error) => stream_line(alloc, error),
        VolumeError::BlockHashes(bevvy) => format!(in alloc; "error volume blockhashes {bevvy}\n"),
        VolumeError::Map(error) => map_line(alloc, error),
        VolumeError::Failed => format!(in alloc; "error folder\n"),
        VolumeError::Memory => format!(in alloc; "error memory\n"),
    }
}
