//! The definitions, computed on small inputs: each function is a law, and does nothing.
ghost use Rattle.std.specs.Prelude.{◌≡◌, ℕ, None, Some, List, [], ◌∷◌, length, map, take};
ghost use Rattle.aff_model.specs.declared.cell.Cell.TheVariants.{Byte, Unreadable, Unknown};
ghost use Rattle.aff_model.specs.Legal.{IsComplete};
ghost use Rattle.aff_image.specs.Image.{acquired_content, image_at, image_bytes, image_cell, image_spot};
ghost use Rattle.aff_image.specs.Witnesses.{AreWitnessed, history_of, kept_chunks};
ghost use Rattle.aff_image.specs.Small.{by_two, extent, one_bad, one_sector, plan_of, urgent_first};

/// One sector on a device of two: it is the first of the stream, and nothing is known of the other.
pub fn one_sector()
    ensures spot { image_spot one_sector 511 ≡ Some (0, 511) }
    ensures behind { image_spot one_sector 512 ≡ None }
    ensures cell { image_cell one_sector 511 ≡ Byte 512 }
    ensures acquired { acquired_content one_sector 511 ≡ Byte 512 }
    ensures unknown { acquired_content one_sector 512 ≡ Unknown }
    ensures chunks { length one_sector.chunks ≡ 1 }
    ensures bytes { take 3 (image_bytes one_sector) ≡ 1 ∷ 2 ∷ 3 ∷ [] }
{}

/// Three sectors in one chunk, the second of which could not be read.
pub fn one_bad_sector()
    ensures before { acquired_content one_bad 511 ≡ Byte 512 }
    ensures bad { acquired_content one_bad 512 ≡ Unreadable }
    ensures behind { acquired_content one_bad 1024 ≡ Byte 1025 }
    ensures cell { image_cell one_bad 512 ≡ Unreadable }
    ensures target { image_spot one_bad 512 ≡ Some (2, 512) }
    ensures stored { image_spot one_bad 1024 ≡ Some (0, 1024) }
    ensures chunks { length one_bad.chunks ≡ 1 }
{}

/// Two extents, the later one published first: its chunk comes first, and after it alone nothing else is known.
pub fn priority_against_place()
    ensures early { image_spot urgent_first 0 ≡ Some (0, 32768) }
    ensures late { image_spot urgent_first 512 ≡ Some (0, 0) }
    ensures known { image_cell (image_at urgent_first 1) 512 ≡ Byte 513 }
    ensures unknown { image_cell (image_at urgent_first 1) 0 ≡ Unknown }
    ensures first { length (image_at urgent_first 1).chunks ≡ 1 }
    ensures all { length urgent_first.chunks ≡ 2 }
{}

/// The same two extents by two workers, of devices that tell nothing: these are readings of a run, and complete.
pub fn two_workers()
    ensures readings { AreWitnessed None (plan_of 1024 (extent 0 512 ∷ extent 512 512 ∷ [])) 2 by_two }
    ensures complete { IsComplete (extent 0 512 ∷ extent 512 512 ∷ []) (history_of by_two) }
    ensures chunks { map (take 2) (kept_chunks by_two) ≡ (7 ∷ 0 ∷ []) ∷ (9 ∷ 0 ∷ []) ∷ [] }
{}
