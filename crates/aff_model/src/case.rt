//! What a run is about: meanings alone, which no code reads.
ghost use Rattle.std.specs.Prelude.{ℕ, Option, None, List, []};
ghost use Rattle.aff_model.specs.Content.{Content};

use std::marker::Brand;

/// One content of a device, or none.
pub trait Case {
    /// What every device of the run holds, where that is told.
    ghost content: { Option Content };
}

/// Tells nothing.
#[derive(Drop)]
pub struct Untold;

impl Case for Untold {
    ghost content = { None };
}

impl Case for Brand {
    ghost content = { None };
}

/// One run: its plan, with the size and the block of its devices; its claim table and its number of workers; its
/// published list; its volume's UUID; and the folder's count of faults when the run's book was opened.
pub trait Named {
    ghost use Rattle.atomic_table.specs.Seated.{TableId};
    ghost use Rattle.logbook.specs.Pages.{Book};
    ghost use Rattle.aff_model.specs.Plan.{Planned};

    ghost run_plan: { Planned };

    ghost run_table: { TableId };

    ghost run_workers: { ℕ };

    ghost run_list: { Book };

    ghost run_volume: { List ℕ };

    ghost run_opened: { ℕ };
}

impl Named for Brand {
    ghost run_plan = { record { extents = []; size = 0; block = 0 } };

    ghost run_table = { record { words = 0; slots = 0; views_name = 0; atom = 0; block = 0; offset = 0; slot_names = [] } };

    ghost run_workers = { 0 };

    ghost run_list = { record { number = 0; log_name = 0; cells_name = 0 } };

    ghost run_volume = { [] };

    ghost run_opened = { 0 };
}
