//! The book.
ghost use Rattle.std.specs.Prelude.{◌≡◌, ◌≢◌, ◌↔◌, ℕ, ◌<◌, ◌≤◌, [], false, length, map, Contains, IfOk, IfErr, OnOk, IsTrue};
ghost use Rattle.std.specs.Arc.{arc_value};
ghost use Rattle.std.specs.FinMap.{empty};
ghost use Rattle.aff_model.specs.Causes.{HasCause};
ghost use Rattle.aff_model.specs.Index.{extent_at};
ghost use Rattle.aff_model.specs.Plan.{IsPlan};
ghost use Rattle.aff_spec.specs.Names.{stream_urn};
ghost use Rattle.aff_extent.specs.Drafts.{IsDraft};
ghost use Rattle.aff_claim.specs.Steps.{swept, swept_word};
ghost use Rattle.aff_claim.specs.Words.{IsPublished, Names};
ghost use Rattle.aff_book.specs.Answers.{Answered};
ghost use Rattle.aff_book.specs.Pages.{Pages, list_of, run_of, table_of};
ghost use Rattle.aff_book.specs.Rule.{BookRule};

use crate::publishing::publish;
use crate::{BookParts, BookRefused, Put};
use aff_claim::{BookSeat, Claims, Word};
use aff_extent::Draft;
use aff_model::{Case, Memory, Named, Piece, Plan};
use aff_names::{Urn, Uuid};
use aff_outside::{Folder, FolderError};
use aff_snapshot::{Publisher, Told};
use aff_store::{Claim, Stream};
use std::alloc::Global;
use std::marker::{Model, PhantomData};
use std::snapshot::Snapshot;
use std::sync::{Arc, Wait};

/// What is stored and published of a run, for one thread at a time. `C` tells of what device it is, and `N` names the run.
/// End it by `into_parts`: with a book that is let go, its list is leaked.
#[derive(Drop)]
pub struct Book<C: Case, N: Named, F: Folder> {
    alloc: Global,
    folder: F,
    stream: Stream,
    pieces: Vec<Arc<Piece<F::Receipt>>>,
    seat: BookSeat,
    publisher: Publisher<C, F::Receipt>,
    stopped: bool,
    memory: bool,
    run: PhantomData<Snapshot<N>>,
}

impl<C: Case, N: Named, F: Folder> Model for Book<C, N, F> {
    ghost use Rattle.std.specs.Prelude.{◌≡◌, map};
    ghost use Rattle.std.specs.Arc.{arc_value};
    ghost use Rattle.aff_book.specs.Codes.{pages_code};
    ghost use Rattle.aff_book.specs.Pages.{Pages, list_of, run_of, table_of};
    ghost use Rattle.aff_book.specs.Rule.{BookRule};

    ghost Value = { Pages F.Receipt };

    ghost coded = { pages_code F.Receipt.code };

    ghost view = { λ b. record {
      seat = b.seat.view;
      pieces = b.publisher.pieces;
      stream = b.stream;
      held = F.held b.folder;
      faults = F.folder_faults b.folder;
      stopped = b.stopped;
      memory = b.memory;
    } };

    // table and list are the run's, the list has the pieces, and the book rule holds
    ghost invariant = { λ b. (b.seat.table ≡ table_of (run_of C.Case N.Named))
        × (b.publisher.list ≡ list_of (run_of C.Case N.Named))
        × (map arc_value b.pieces.items ≡ b.publisher.pieces)
        × BookRule (run_of C.Case N.Named) F.tells F.Receipt.told (record {
          seat = b.seat.view;
          pieces = b.publisher.pieces;
          stream = b.stream;
          held = F.held b.folder;
          faults = F.folder_faults b.folder;
          stopped = b.stopped;
          memory = b.memory;
        }) };
}

impl<C: Case, N: Named, F: Folder> Book<C, N, F> {
    /// A book without a piece, over a folder in which nothing stands, for the volume with this UUID. Where memory is
    /// refused, the list ends and the folder comes back.
    pub fn open<W: Wait>(
        rt: &W,
        alloc: Global,
        folder: F,
        plan: &Plan,
        volume: &Uuid,
        seat: BookSeat,
        publisher: Publisher<C, F::Receipt>,
    ) -> Result<Book<C, N, F>, BookRefused<F>>
        requires plan { plan.now ≡ N.run_plan }
        requires volume { volume.now ≡ N.run_volume }
        requires seat { (seat.table ≡ table_of (run_of C.Case N.Named)) × (seat.view.out ≡ []) }
        requires publisher { publisher ≡ record { list = list_of (run_of C.Case N.Named); pieces = [] } }
        requires empty { IsTrue F.tells → F.held folder ≡ empty }
        requires opened { F.folder_faults folder ≡ N.run_opened }
        ensures opened { IfOk result (λ b. b ≡ record {
          seat = seat.view;
          pieces = [];
          stream = record { urn = stream_urn volume.now; chunks = []; ended = false };
          held = F.held folder;
          faults = F.folder_faults folder;
          stopped = false;
          memory = false;
        }) }
        ensures refused { IfErr result (λ r. r.folder ≡ folder) }
    {
        match equipment(alloc, plan, volume) {
            Ok((stream, pieces)) => Ok(Book {
                alloc,
                folder,
                stream,
                pieces,
                seat,
                publisher,
                stopped: false,
                memory: false,
                run: PhantomData,
            }),
            Err(Memory) => {
                publisher.end(rt);
                Err(BookRefused { folder })
            }
        }
    }

    /// Stores what was read of a claimed extent, and publishes its piece: the chunks are appended and hashed, then the
    /// piece joins the published list, then the claim word says so. `bytes` are the extent's, with 0 in each sector that
    /// could not be read, and `draft` speaks of them. After `Failed` and `Memory` nothing is published any more, and the
    /// chunks that this call appended belong to no piece.
    pub fn put<W: Wait>(
        &mut self,
        rt: &W,
        claims: &Claims,
        claim: Claim,
        draft: Draft,
        bytes: &[u8],
    ) -> Put
        requires table { claims.now.table ≡ table_of (run_of C.Case N.Named) }
        requires planned { claim.extent < length N.run_plan.extents }
        requires swept { claim.claimant ≡ N.run_workers → IsTrue claim.swept }
        requires read { IsDraft C.content N.run_plan.block (extent_at N.run_plan.extents claim.extent) bytes.now draft }
        ensures answer { Answered F.tells F.Receipt.told claim draft bytes.now self.old self.new result }
        ensures cause { HasCause self.old.faults self.new.faults (result ≡ Put.Failed) }
        ensures ours { (word : Word) → result ≡ Put.NotYours word → Contains self.old.seat.held (claim.extent, claim.claimant) → Contains self.old.seat.out claim.extent }
    {
        if self.stopped {
            return Put::Stopped;
        }
        if self.memory {
            return Put::Memory;
        }
        let word = claims.book_look(&mut self.seat, claim.extent);
        if !is_claim_of(word, claim.claimant) {
            return Put::NotYours(word);
        }
        let piece = match self
            .stream
            .put(self.alloc, &mut self.folder, claim, draft, bytes)
        {
            Ok(piece) => piece,
            Err(FolderError::Failed) => {
                self.stopped = true;
                return Put::Failed;
            }
            Err(FolderError::Memory) => {
                self.memory = true;
                return Put::Memory;
            }
        };
        match publish(
            rt,
            self.alloc,
            claims,
            &mut self.seat,
            &mut self.publisher,
            &mut self.pieces,
            piece,
        ) {
            Ok(front) => Put::Done(front),
            Err(Memory) => {
                self.memory = true;
                Put::Memory
            }
        }
    }

    /// Claims an extent for the sweep where no worker has claimed it, and gives the word that stands there now. A put
    /// under the number that it names finds its claim, unless the extent is published.
    pub fn sweep(&mut self, claims: &Claims, extent: u32) -> Word
        requires table { claims.now.table ≡ table_of (run_of C.Case N.Named) }
        requires planned { extent < length N.run_plan.extents }
        ensures seat { (found : Word) × (self.new ≡ record self.old { seat = swept self.old.seat extent N.run_workers found }) × (result ≡ swept_word N.run_workers found) }
        ensures taken { result ≢ Word.Free }
        ensures number { (k : ℕ) → Names result k → k ≤ N.run_workers }
        ensures held { (k : ℕ) → result ≡ Word.Claimed k → Contains self.new.seat.held (extent, k) }
        ensures out { Contains self.new.seat.out extent ↔ IsPublished result }
        ensures pieces { map (λ p. p.extent) self.new.pieces ≡ self.new.seat.out }
    {
        claims.sweep_claim(&mut self.seat, extent)
    }

    /// How many pieces are published.
    pub fn front(&self) -> u64
        ensures front { result ≡ length self.now.pieces }
        ensures rule { BookRule (run_of C.Case N.Named) F.tells F.Receipt.told self.now }
    {
        self.pieces.len() as u64
    }

    /// Tells the published list as it is now. A told list serves one `learn`.
    pub fn tell(&mut self) -> Told<C, F::Receipt>
        ensures told { result ≡ record { list = list_of (run_of C.Case N.Named); pieces = self.old.pieces } }
        ensures same { self.new ≡ self.old }
    {
        self.publisher.tell()
    }

    /// Ends the list, and gives the book's parts. It may wait for a look to end.
    pub fn into_parts<W: Wait>(self, rt: &W) -> BookParts<F>
        ensures folder { (F.held result.folder ≡ self.held) × (F.folder_faults result.folder ≡ self.faults) }
        ensures seat { result.seat ≡ record { table = table_of (run_of C.Case N.Named); view = self.seat } }
        ensures pieces { map arc_value result.pieces.items ≡ self.pieces }
        ensures stream { result.stream ≡ self.stream }
        ensures flags { (result.stopped ≡ self.stopped) × (result.memory ≡ self.memory) }
        ensures rule { BookRule (run_of C.Case N.Named) F.tells F.Receipt.told self }
    {
        let Book {
            alloc: _,
            folder,
            stream,
            pieces,
            seat,
            publisher,
            stopped,
            memory,
            run: _,
        } = self;
        publisher.end(rt);
        BookParts {
            folder,
            seat,
            pieces,
            stream,
            stopped,
            memory,
        }
    }
}

// Whether a word is the claim of this number.
fn is_claim_of(word: Word, claimant: u32) -> bool
    ensures { IsTrue result ↔ (word ≡ Word.Claimed claimant) }
{
    match word {
        Word::Claimed(number) => number == claimant,
        Word::Free | Word::Published(_) => false,
    }
}

// What a book has beside what it is handed: the volume's stream, and room for a piece of each extent.
fn equipment<R: Drop>(
    alloc: Global,
    plan: &Plan,
    volume: &Uuid,
) -> Result<(Stream, Vec<Arc<Piece<R>>>), Memory>
    ensures stream { IfOk result (λ e. e.0 ≡ record { urn = stream_urn volume.now; chunks = []; ended = false }) }
    ensures pieces { IfOk result (λ e. e.1.items ≡ []) }
    ensures planned { OnOk result (IsPlan plan.now.size plan.now.block plan.now.extents) }
{
    let urn = Urn::of_stream(alloc, volume)?;
    let stream = Stream::new(alloc, &urn)?;
    match Vec::with_capacity(alloc, plan.extents().len()) {
        Ok(pieces) => Ok((stream, pieces)),
        Err(_) => Err(Memory),
    }
}
