//! A small volume, as the format has it: two chunks, an image of 2,560 bytes over them. Its digests come from another
//! program.
ghost use Rattle.std.specs.Prelude.{◌≡◌, length, IfOk};

use aff_fields::{Entry, Point, write_entries, write_points};
use aff_hash::{ChunkSums, chunk_sums};
use aff_memory::MemoryFolder;
use aff_outside::Folder;
use std::alloc::{AllocError, Global};
use std::test::Fail;

/// The URNs' folders.
const DATA: &str = "aff4%3A%2F%2F11111111-2222-4333-8444-555555555555%2Fdata";

const IMAGE: &str = "aff4%3A%2F%2F11111111-2222-4333-8444-555555555555%2Fimage";

/// The list of targets.
pub const IDX: &str = "aff4://11111111-2222-4333-8444-555555555555/data
http://aff4.org/Schema#Zero
http://aff4.org/Schema#UnreadableData
";

/// The metadata, in the spelling in which they are written.
pub const INFORMATION: &str =
    "<aff4://11111111-2222-4333-8444-555555555555/data> <http://www.w3.org/1999/02/22-rdf-syntax-ns#type> <http://aff4.org/Schema#ImageStream> .
<aff4://11111111-2222-4333-8444-555555555555/data> <http://aff4.org/Schema#size> \"65536\"^^<http://www.w3.org/2001/XMLSchema#long> .
<aff4://11111111-2222-4333-8444-555555555555/data> <http://aff4.org/Schema#chunkSize> \"32768\"^^<http://www.w3.org/2001/XMLSchema#int> .
<aff4://11111111-2222-4333-8444-555555555555/data> <http://aff4.org/Schema#chunksInSegment> \"1024\"^^<http://www.w3.org/2001/XMLSchema#int> .
<aff4://11111111-2222-4333-8444-555555555555/data> <http://aff4.org/Schema#compressionMethod> <http://aff4.org/Schema#NullCompressor> .
<aff4://11111111-2222-4333-8444-555555555555/data> <http://aff4.org/Schema#stored> <aff4://11111111-2222-4333-8444-555555555555> .
<aff4://11111111-2222-4333-8444-555555555555/image> <http://www.w3.org/1999/02/22-rdf-syntax-ns#type> <http://aff4.org/Schema#Map> .
<aff4://11111111-2222-4333-8444-555555555555/image> <http://aff4.org/Schema#size> \"2560\"^^<http://www.w3.org/2001/XMLSchema#long> .
<aff4://11111111-2222-4333-8444-555555555555/image> <http://aff4.org/Schema#dependentStream> <aff4://11111111-2222-4333-8444-555555555555/data> .
<aff4://11111111-2222-4333-8444-555555555555/image> <http://aff4.org/Schema#mapGapDefaultStream> <http://aff4.org/Schema#UnknownData> .
<aff4://11111111-2222-4333-8444-555555555555/image> <http://aff4.org/Schema#stored> <aff4://11111111-2222-4333-8444-555555555555> .
<aff4://11111111-2222-4333-8444-555555555555/image> <http://aff4.org/Schema#hash> \"9d748df02245d824849e3fd753d25f62\"^^<http://aff4.org/Schema#MD5> .
<aff4://11111111-2222-4333-8444-555555555555/image> <http://aff4.org/Schema#hash> \"b12067afc58359925ff78625775d2bd9c0d2c895\"^^<http://aff4.org/Schema#SHA1> .
<aff4://11111111-2222-4333-8444-555555555555/image> <http://aff4.org/Schema#hash> \"049f821dea928e875681406c4152fe414788ca91081c139871df3a502574880a\"^^<http://aff4.org/Schema#SHA256> .
<aff4://11111111-2222-4333-8444-555555555555/image> <http://aff4.org/Schema#hash> \"64605c1f367e94b4fdf4f5bbaee6657018ed0f734b1222ec9ca0dbb1a4fd73f152eefd9970ccefe5fdc697a2c2868318ad77cf02c4236465aeef35515e66b824\"^^<http://aff4.org/Schema#SHA512> .
<aff4://11111111-2222-4333-8444-555555555555/image> <urn:aff4-live:blockMapHash> \"a4621928addf1cdd7a3c22eb37be68c662ddfcb119fc2dcf987b919c0c14054de4170ad8fe624061d602b4720d05f42bda13503d36b90f5b384e4b9858279209\"^^<http://aff4.org/Schema#SHA512> .
";

/// The same metadata in another spelling, and a statement more.
pub const RESPELLED: &str = "@prefix a: <http://aff4.org/Schema#> .
@prefix x: <http://www.w3.org/2001/XMLSchema#> .
# the image first, and a note
<aff4://11111111-2222-4333-8444-555555555555/image> a a:Map ; a:size 2560 ; a:dependentStream <aff4://11111111-2222-4333-8444-555555555555/data> ; a:mapGapDefaultStream a:UnknownData ; a:stored <aff4://11111111-2222-4333-8444-555555555555> ;
  a:hash \"64605C1F367E94B4FDF4F5BBAEE6657018ED0F734B1222EC9CA0DBB1A4FD73F152EEFD9970CCEFE5FDC697A2C2868318AD77CF02C4236465AEEF35515E66B824\"^^a:SHA512, \"9d748df02245d824849e3fd753d25f62\"^^a:MD5, \"b12067afc58359925ff78625775d2bd9c0d2c895\"^^a:SHA1, \"049f821dea928e875681406c4152fe414788ca91081c139871df3a502574880a\"^^a:SHA256 ;
  <urn:aff4-live:blockMapHash> \"a4621928addf1cdd7a3c22eb37be68c662ddfcb119fc2dcf987b919c0c14054de4170ad8fe624061d602b4720d05f42bda13503d36b90f5b384e4b9858279209\"^^a:SHA512 .
<aff4://11111111-2222-4333-8444-555555555555/data> a a:ImageStream ; a:stored <aff4://11111111-2222-4333-8444-555555555555> ; a:compressionMethod a:NullCompressor ; a:chunksInSegment '1024' ;
  a:chunkSize \"32768\"^^x:unsignedLong ; a:size 65536 ; a:note \"kept aside\"
.";

/// What is done to a segment of the sample, which is named by its last word.
#[derive(Clone, Copy)]
pub enum Change<'a> {
    Nothing,
    Without(&'a str),
    Has(&'a str, &'a [u8]),
}

/// The entries of the map.
pub const ENTRIES: [Entry; 3] = [
    Entry {
        at: 0,
        len: 512,
        target_at: 0,
        target: 0,
    },
    Entry {
        at: 512,
        len: 512,
        target_at: 512,
        target: 2,
    },
    Entry {
        at: 1_024,
        len: 1_024,
        target_at: 32_768,
        target: 0,
    },
];

/// The chunks of the stream, one after another.
pub fn stream(alloc: Global) -> Result<Vec<u8>, AllocError>
    ensures { IfOk result (λ bytes. length bytes.items ≡ 65536) }
{
    let mut bytes = filled(alloc, 7, 65_536)?;
    for k in 0..32_768 {
        bytes[k] = (k % 251) as u8;
    }
    Ok(bytes)
}

/// So many times this byte.
pub fn filled(alloc: Global, byte: u8, count: usize) -> Result<Vec<u8>, AllocError>
    ensures { IfOk result (λ bytes. length bytes.items ≡ count) }
{
    vec![in alloc; byte; count]
}

/// Two digests, one after another.
pub fn pair(alloc: Global, first: &[u8], second: &[u8]) -> Result<Vec<u8>, AllocError> {
    let mut bytes = Vec::new(alloc);
    bytes.extend_from_slice(first)?;
    bytes.extend_from_slice(second)?;
    Ok(bytes)
}

/// The digests of the two chunks of the stream.
pub fn sums_of_halves(bytes: &[u8]) -> (ChunkSums, ChunkSums) {
    let middle = bytes.len() / 2;
    (chunk_sums(&bytes[..middle]), chunk_sums(&bytes[middle..]))
}

/// A folder that is filled with the sample.
#[derive(Drop)]
struct Filling<'a> {
    folder: MemoryFolder,
    change: Change<'a>,
}

impl Filling<'_> {
    /// Appends a segment, unless the change says otherwise.
    fn put(&mut self, alloc: Global, place: &str, last: &str, bytes: &[u8]) -> Result<(), Fail> {
        let change = self.change;
        let bytes = match change {
            Change::Without(other) if other == last => return Ok(()),
            Change::Has(other, changed) if other == last => changed,
            _ => bytes,
        };
        let name = format!(in alloc; "{place}{last}")?;
        match self.folder.append(name.as_str(), bytes) {
            Ok(_) => Ok(()),
            Err(_) => Err("no append")?,
        }
    }
}

/// The sample with a change, in a folder whose calls of these numbers fail.
pub fn sample(alloc: Global, fail: Vec<u64>, change: Change<'_>) -> Result<MemoryFolder, Fail> {
    let data = format!(in alloc; "{DATA}/")?;
    let image = format!(in alloc; "{IMAGE}/")?;
    let bytes = stream(alloc)?;
    let points = [
        Point { at: 0, len: 32_768 },
        Point {
            at: 32_768,
            len: 32_768,
        },
    ];
    let index = write_points(alloc, &points).map_err(|_| "no index")?;
    let map = write_entries(alloc, &ENTRIES).map_err(|_| "no map")?;
    let (first, second) = sums_of_halves(bytes.as_slice());
    let mut filling = Filling {
        folder: MemoryFolder::new(alloc, fail, Vec::new(alloc)),
        change,
    };
    filling.put(alloc, data.as_str(), "00000000", &bytes)?;
    filling.put(alloc, data.as_str(), "00000000.index", &index)?;
    let md5 = pair(alloc, &first.md5, &second.md5)?;
    filling.put(alloc, data.as_str(), "00000000.blockHash.md5", &md5)?;
    let sha1 = pair(alloc, &first.sha1, &second.sha1)?;
    filling.put(alloc, data.as_str(), "00000000.blockHash.sha1", &sha1)?;
    let sha256 = pair(alloc, &first.sha256, &second.sha256)?;
    filling.put(alloc, data.as_str(), "00000000.blockHash.sha256", &sha256)?;
    filling.put(alloc, image.as_str(), "map", &map)?;
    filling.put(alloc, image.as_str(), "idx", IDX.as_bytes())?;
    filling.put(alloc, "", "information.turtle", INFORMATION.as_bytes())?;
    Ok(filling.folder)
}
