//! What is left of a book.
use aff_claim::BookSeat;
use aff_model::Piece;
use aff_outside::Folder;
use aff_store::Stream;
use std::sync::Arc;

/// The folder of a book that was refused.
#[derive(Drop)]
pub struct BookRefused<F: Folder> {
    pub folder: F,
}

/// The parts of a book whose list has ended. `stopped` says that a put answered `Failed`, and `memory` that one answered
/// `Memory`; after either, the stream has ended and the folder may have chunks that belong to no piece.
#[derive(Drop)]
pub struct BookParts<F: Folder> {
    pub folder: F,
    pub seat: BookSeat,
    pub pieces: Vec<Arc<Piece<F::Receipt>>>,
    pub stream: Stream,
    pub stopped: bool,
    pub memory: bool,
}
