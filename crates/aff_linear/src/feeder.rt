//! Bytes on their way to the hasher, gathered so that it is fed long pieces.
ghost use Rattle.std.specs.Prelude.{◌≡◌, ◌+◌, ◌≤◌, ◌<◌, ◌^◌, ◌++◌, [], length, map, take, drop, IfOk, OnOk, IsErrOf, IsTrue};
ghost use Rattle.std.specs.List.{range_with_len};
ghost use Rattle.aff_map.specs.Symbol.{IsSymbolic, symbol_of};
ghost use Rattle.aff_model.specs.Causes.{HasCause};
ghost use Rattle.aff_model.specs.Held.{IsInside, bytes_of};
ghost use Rattle.aff_linear.specs.Feeds.{AreDigestsOf};

use crate::symbols::fill;
use aff_fields::zeros;
use aff_hash::{Digests, Linear};
use aff_map::Target;
use aff_outside::{Folder, FolderError};
use std::alloc::{AllocError, Global};
use std::marker::Model;
use std::thread::Threads;

// How many bytes are hashed at a time, by threads of which each is begun anew.
const ROOM_LEN: usize = 1_048_576;

/// Feeds a hasher the bytes that come to it in pieces of any length, 1 MiB at a time, all four digests side by side.
/// Clauses see the list of all bytes that came.
#[derive(Drop)]
pub(crate) struct Feeder {
    linear: Linear,
    room: Vec<u8>,
    filled: usize,
}

impl Model for Feeder {
    ghost use Rattle.std.specs.Prelude.{ℕ, List, ◌<◌, ◌++◌, take, length};

    ghost Value = { List ℕ };

    ghost view = { λ f. f.linear ++ take f.filled f.room.items };

    ghost invariant = { λ f. f.filled < length f.room.items };
}

impl Feeder {
    /// No bytes came.
    pub(crate) fn new(alloc: Global) -> Result<Feeder, AllocError>
        ensures { IfOk result (λ feeder. feeder ≡ []) }
    {
        let room = zeros(alloc, ROOM_LEN)?;
        Ok(Feeder {
            linear: Linear::new(),
            room,
            filled: 0,
        })
    }

    /// Takes a first piece of `len` bytes of a symbolic stream from the place `at` on, and answers how many it has.
    pub(crate) fn take_symbols<R: Threads + Sync>(
        &mut self,
        rt: &R,
        target: Target,
        at: u64,
        len: u64,
    ) -> u64
        requires some { 0 < len }
        requires symbolic { IsSymbolic target }
        requires fits { at + len < 2 ^ 64 }
        ensures some { 0 < result }
        ensures few { result ≤ len }
        ensures fed { self.new ≡ self.old ++ map (symbol_of target) (range_with_len at result) }
    {
        let end = end_of(self.filled, self.room.len(), len);
        let piece = &mut self.room[self.filled..end];
        let count = piece.len() as u64;
        fill(piece, target, at);
        self.filled = feed_full(rt, &mut self.linear, &self.room, end);
        count
    }

    /// Takes a first piece of `len` bytes of a segment from its byte `at` on, and answers how many it has.
    pub(crate) fn take_segment<R: Threads + Sync, F: Folder>(
        &mut self,
        rt: &R,
        folder: &mut F,
        name: &str,
        at: u64,
        len: u64,
    ) -> Result<u64, FolderError>
        requires some { 0 < len }
        requires inside { IsTrue F.tells → IsInside (F.held folder.old) name.now at len }
        ensures some { IfOk result (λ count. 0 < count) }
        ensures few { IfOk result (λ count. count ≤ len) }
        ensures fed { IfOk result (λ count. IsTrue F.tells → self.new ≡ self.old ++ take count (drop at (bytes_of (F.held folder.old) name.now))) }
        ensures same { IsTrue F.tells → F.held folder.new ≡ F.held folder.old }
        ensures cause { HasCause (F.folder_faults folder.old) (F.folder_faults folder.new) (IsErrOf result FolderError.Failed) }
    {
        let end = end_of(self.filled, self.room.len(), len);
        let piece = &mut self.room[self.filled..end];
        let count = piece.len() as u64;
        match folder.read_at(name, at, piece) {
            Ok(()) => {
                self.filled = feed_full(rt, &mut self.linear, &self.room, end);
                Ok(count)
            }
            Err(error) => Err(error),
        }
    }

    /// The digests of all bytes that came.
    pub(crate) fn finish<R: Threads + Sync>(mut self, rt: &R) -> Digests
        ensures { AreDigestsOf result self }
    {
        self.linear.update_beside(rt, &self.room[..self.filled]);
        self.linear.finish()
    }
}

// Where the next piece ends, of so many bytes that come.
fn end_of(filled: usize, room: usize, len: u64) -> usize
    requires some { 0 < len }
    requires low { filled < room }
    ensures some { filled < result }
    ensures inside { result ≤ room }
    ensures few { result ≤ filled + len }
{
    filled + len.min((room - filled) as u64) as usize
}

// Feeds the room where it is full, and answers how much of it is filled then.
fn feed_full<R: Threads + Sync>(rt: &R, linear: &mut Linear, room: &[u8], filled: usize) -> usize
    requires some { 0 < length room.now }
    requires inside { filled ≤ length room.now }
    ensures low { result < length room.now }
    ensures fed { linear.new ++ take result room.now ≡ linear.old ++ take filled room.now }
{
    if filled < room.len() {
        return filled;
    }
    linear.update_beside(rt, room);
    0
}
