//! The book's seat.
use crate::view::View;
use atomic_table::Seat;
use std::marker::Model;

/// What the book registers passes, looks and publishes with. A table has one.
#[derive(Drop)]
pub struct BookSeat {
    pub(crate) seat: Seat<(), View>,
}

impl Model for BookSeat {
    ghost use Rattle.std.specs.Prelude.{◌≡◌, true};
    ghost use Rattle.aff_claim.specs.Values.{Booking};

    ghost Value = { Booking };

    ghost view = { λ s. record {
      table = record { id = s.seat.table_id; extents = s.seat.me.0.extents; workers = s.seat.me.0.workers };
      view = s.seat.me.0.book;
    } };

    ghost invariant = { λ s. s.seat.me.0.is_book ≡ true };
}
