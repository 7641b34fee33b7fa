//! A stream that is read.
ghost use Rattle.std.specs.Prelude.{◌≡◌, ℕ, ◌+◌, ◌<◌, ◌≤◌, ◌⊎◌, Some, length, take, drop, slice_index, IfOk, IfErr, OnOk, IsErrOf, IsTrue};
ghost use Rattle.aff_model.specs.Causes.{HasCause};
ghost use Rattle.aff_model.specs.Held.{lengths};
ghost use Rattle.aff_model.specs.Plan.{chunk_count};
ghost use Rattle.aff_outside.specs.declared.folder.FolderError.TheVariants.{Failed};
ghost use Rattle.aff_spec.specs.Streams.{chunk_of, stream_byte};
ghost use Rattle.aff_bevvy.specs.Faults.{IsListFault, IsStreamRefused};
ghost use Rattle.aff_bevvy.specs.Segments.{AreBevvies, listed_length};
ghost use Rattle.aff_bevvy.specs.Streams.{IsStream, chunk_len, chunk_point};

use crate::StreamError;
use crate::bevvies::bevvy_lengths;
use crate::error::stream_error;
use crate::points::{check_chunks, count_chunks};
use aff_fields::{Point, read_point};
use aff_model::{BEVVY, CHUNK, Memory};
use aff_names::{Urn, segment_name};
use aff_outside::{Folder, FolderError, Segment};
use std::alloc::Global;
use std::marker::Model;

/// Reads a stream of a folder that was found to have it. It keeps neither points nor bytes.
#[derive(Drop)]
pub struct StreamReader {
    alloc: Global,
    stream: Urn,
    size: u64,
}

impl Model for StreamReader {
    ghost use Rattle.std.specs.Prelude.{◌≤◌};
    ghost use Rattle.aff_bevvy.specs.Streams.{Sized};

    ghost Value = { Sized };

    ghost view = { λ r. record { stream = r.stream; size = r.size } };

    ghost invariant = { λ r. r.size ≤ 17592186044416 };
}

impl StreamReader {
    /// Checks that a folder with these segments has the stream, of `size` bytes: bevvy by bevvy whether it and
    /// its index are there (`NoSegment`) and the index has a point for each chunk of the bevvy (`Ragged`), then
    /// chunk by chunk whether its point lies in the bevvy (`PointPastEnd`) and is as long as the stored chunk
    /// (`PointLength`): 32,768 bytes or, without padding, the rest of the stream. The first fault is answered. What the folder holds stays, whatever the answer.
    pub fn open<F: Folder>(
        alloc: Global,
        folder: &mut F,
        segments: &[Segment],
        stream: &Urn,
        size: u64,
    ) -> Result<StreamReader, StreamError>
        requires size { size ≤ 17592186044416 }
        requires listed { IsTrue F.tells → segments.now ≡ lengths (F.held folder.old) }
        ensures reader { IfOk result (λ reader. reader ≡ record { stream = stream.now; size = size }) }
        ensures bevvies { OnOk result (AreBevvies (listed_length segments.now) stream.now (chunk_count size)) }
        ensures ok { OnOk result (IsTrue F.tells → IsStream (F.held folder.old) stream.now size) }
        ensures fault { IfErr result (IsListFault (listed_length segments.now) stream.now (chunk_count size)) }
        ensures refused { IfErr result (λ e. IsTrue F.tells → IsStreamRefused (F.held folder.old) stream.now size e) }
        ensures same { IsTrue F.tells → F.held folder.new ≡ F.held folder.old }
        ensures cause { HasCause (F.folder_faults folder.old) (F.folder_faults folder.new) (IsErrOf result StreamError.Failed) }
    {
        let lens = match bevvy_lengths(alloc, segments, stream, count_chunks(size)) {
            Ok(lens) => lens,
            Err(fault) => return Err(fault),
        };
        if let Err(fault) = check_chunks(alloc, folder, stream, size, &lens) {
            return Err(fault);
        }
        match stream.try_clone(alloc) {
            Ok(stream) => Ok(StreamReader {
                alloc,
                stream,
                size,
            }),
            Err(Memory) => Err(StreamError::Memory),
        }
    }

    /// Reads the stream's bytes from `at` on, as many as `out` has room for, from a folder that has the stream.
    /// What the folder holds stays, whatever the answer; after an error `out` may hold anything.
    pub fn read_at<F: Folder>(
        &self,
        folder: &mut F,
        at: u64,
        out: &mut [u8],
    ) -> Result<(), StreamError>
        requires inside { at + length out.old ≤ self.now.size }
        requires stream { IsTrue F.tells → IsStream (F.held folder.old) self.now.stream self.now.size }
        ensures bytes { OnOk result (IsTrue F.tells → (k : ℕ) → k < length out.new → stream_byte (F.held folder.old) self.now.stream (at + k) ≡ Some (slice_index out.new k)) }
        ensures fault { IfErr result (λ e. (e ≡ StreamError.Failed) ⊎ (e ≡ StreamError.Memory)) }
        ensures same { IsTrue F.tells → F.held folder.new ≡ F.held folder.old }
        ensures cause { HasCause (F.folder_faults folder.old) (F.folder_faults folder.new) (IsErrOf result StreamError.Failed) }
    {
        match self.read_parts(folder, at, out) {
            Ok(()) => Ok(()),
            Err(error) => Err(stream_error(error)),
        }
    }

    // Reads the parts of the chunks that the range meets.
    fn read_parts<F: Folder>(
        &self,
        folder: &mut F,
        at: u64,
        out: &mut [u8],
    ) -> Result<(), FolderError>
        requires inside { at + length out.old ≤ self.now.size }
        requires stream { IsTrue F.tells → IsStream (F.held folder.old) self.now.stream self.now.size }
        ensures bytes { OnOk result (IsTrue F.tells → (k : ℕ) → k < length out.new → stream_byte (F.held folder.old) self.now.stream (at + k) ≡ Some (slice_index out.new k)) }
        ensures same { IsTrue F.tells → F.held folder.new ≡ F.held folder.old }
        ensures cause { HasCause (F.folder_faults folder.old) (F.folder_faults folder.new) (IsErrOf result Failed) }
    {
        // With a field in use its bound is known, so that no place below overflows.
        let _ = &self.size;
        let mut filled = 0;
        while filled < out.len() {
            let place = at + filled as u64;
            let skip = place % CHUNK;
            let end = out.len().min(filled + (CHUNK - skip) as usize);
            let part = &mut out[filled..end];
            if let Err(fault) = self.read_part(folder, place / CHUNK, skip, part) {
                return Err(fault);
            }
            filled = end;
        }
        Ok(())
    }

    // Reads a part of a chunk, from its byte `skip` on. Where the folder does not tell, its point may have changed
    // since the stream was checked, and the folder fails where it does not fit.
    fn read_part<F: Folder>(
        &self,
        folder: &mut F,
        chunk: u64,
        skip: u64,
        out: &mut [u8],
    ) -> Result<(), FolderError>
        requires low { chunk < chunk_count self.now.size }
        requires inside { skip + length out.old ≤ chunk_len self.now.size chunk }
        requires stream { IsTrue F.tells → IsStream (F.held folder.old) self.now.stream self.now.size }
        ensures bytes { OnOk result (IsTrue F.tells → out.new ≡ take (length out.old) (drop skip (chunk_of (F.held folder.old) self.now.stream chunk))) }
        ensures same { IsTrue F.tells → F.held folder.new ≡ F.held folder.old }
        ensures cause { HasCause (F.folder_faults folder.old) (F.folder_faults folder.new) (IsErrOf result Failed) }
    {
        let point = match self.point(folder, chunk) {
            Ok(point) => point,
            Err(fault) => return Err(fault),
        };
        let name = match segment_name(self.alloc, &self.stream, (chunk / BEVVY) as u32, "") {
            Ok(name) => name,
            Err(Memory) => return Err(FolderError::Memory),
        };
        folder.read_at(name.as_str(), point.at.saturating_add(skip), out)
    }

    // Reads the point of a chunk.
    fn point<F: Folder>(&self, folder: &mut F, chunk: u64) -> Result<Point, FolderError>
        requires low { chunk < chunk_count self.now.size }
        requires stream { IsTrue F.tells → IsStream (F.held folder.old) self.now.stream self.now.size }
        ensures point { IfOk result (λ point. IsTrue F.tells → point ≡ chunk_point (F.held folder.old) self.now.stream chunk) }
        ensures same { IsTrue F.tells → F.held folder.new ≡ F.held folder.old }
        ensures cause { HasCause (F.folder_faults folder.old) (F.folder_faults folder.new) (IsErrOf result Failed) }
    {
        let name = match segment_name(self.alloc, &self.stream, (chunk / BEVVY) as u32, ".index") {
            Ok(name) => name,
            Err(Memory) => return Err(FolderError::Memory),
        };
        let mut bytes = [0; 12];
        match folder.read_at(name.as_str(), 12 * (chunk % BEVVY), &mut bytes) {
            Ok(()) => Ok(read_point(&bytes)),
            Err(fault) => Err(fault),
        }
    }
}
