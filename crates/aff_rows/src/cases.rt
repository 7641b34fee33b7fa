//! The definitions, computed on small inputs: each function is a law, and does nothing.
ghost use Rattle.std.specs.Prelude.{◌≡◌, Some, None, [], ◌∷◌, codes, slice_index};
ghost use Rattle.std.specs.List.{range_with_len};
ghost use Rattle.aff_model.specs.declared.publication.Place.TheVariants.{Zero, Chunk, Nothing};
ghost use Rattle.aff_model.specs.declared.cell.Cell.TheVariants.{Byte, Unreadable, Unknown};
ghost use Rattle.aff_model.specs.declared.limits.TheConstants.{SECTOR, LARGE_BLOCK};
ghost use Rattle.aff_model.specs.Cells.{cell_of};
ghost use Rattle.aff_model.specs.Legal.{blocks_in};
ghost use Rattle.aff_fields.specs.Entry.{entries_of};
ghost use Rattle.aff_fields.specs.Point.{point_at};
ghost use Rattle.aff_spec.specs.Names.{bevvy_name, map_name, stream_urn, image_urn};
ghost use Rattle.aff_spec.specs.Report.{place_runs, sector_runs, Zeros, Nothings, Chunks};
ghost use Rattle.aff_spec.specs.Runs.{history_spot, lookup};
ghost use Rattle.aff_spec.specs.Symbols.{fill_of};
ghost use Rattle.aff_spec.specs.Volumes.{volume_cell, volume_byte, volume_of};
ghost use Rattle.aff_examine.specs.Folds.{fold_of};
ghost use Rattle.aff_examine.specs.Sights.{shown_as, shown_bytes};
ghost use Rattle.aff_examine.specs.Tallies.{tally_rule, tally_text};
ghost use Rattle.aff_rows.specs.Small.{counting, extent, one_stored, one_bad, one_bad_read, one_bad_seen, one_bad_block, bad_chunk, two_zeros, urgent_first, uuid, four_bytes};

/// One sector: its chunk is chunk 0, its bytes are places 0 to 511 of the stream, and nothing else is there.
pub fn one_sector()
    ensures first { history_spot (extent 0 512 ∷ []) one_stored 0 ≡ Some (0, 0) }
    ensures last { history_spot (extent 0 512 ∷ []) one_stored 511 ≡ Some (0, 511) }
    ensures behind { history_spot (extent 0 512 ∷ []) one_stored 512 ≡ None }
    ensures cell { cell_of counting (extent 0 512 ∷ []) one_stored 511 ≡ Byte 512 }
    ensures index { point_at (0 ∷ 0 ∷ 0 ∷ 0 ∷ 0 ∷ 0 ∷ 0 ∷ 0 ∷ 0 ∷ 128 ∷ 0 ∷ 0 ∷ []) 0 ≡ record { at = 0; len = 32768 } }
    ensures map { entries_of (0 ∷ 0 ∷ 0 ∷ 0 ∷ 0 ∷ 0 ∷ 0 ∷ 0 ∷ 0 ∷ 2 ∷ 0 ∷ 0 ∷ 0 ∷ 0 ∷ 0 ∷ 0 ∷ 0 ∷ 0 ∷ 0 ∷ 0 ∷ 0 ∷ 0 ∷ 0 ∷ 0 ∷ 0 ∷ 0 ∷ 0 ∷ 0 ∷ [])
        ≡ record { at = 0; len = 512; target_at = 0; target = 0 } ∷ [] }
{}

/// Zeros only: no chunk, and the image's places in the stream of zeros.
pub fn zeros_only()
    ensures first { history_spot (extent 0 65536 ∷ []) two_zeros 0 ≡ Some (1, 0) }
    ensures last { history_spot (extent 0 65536 ∷ []) two_zeros 65535 ≡ Some (1, 65535) }
    ensures runs { place_runs (Zero ∷ Zero ∷ []) ≡ Zeros 2 ∷ [] }
    ensures map { entries_of (0 ∷ 0 ∷ 0 ∷ 0 ∷ 0 ∷ 0 ∷ 0 ∷ 0 ∷ 0 ∷ 0 ∷ 1 ∷ 0 ∷ 0 ∷ 0 ∷ 0 ∷ 0 ∷ 0 ∷ 0 ∷ 0 ∷ 0 ∷ 0 ∷ 0 ∷ 0 ∷ 0 ∷ 1 ∷ 0 ∷ 0 ∷ 0 ∷ [])
        ≡ record { at = 0; len = 65536; target_at = 0; target = 1 } ∷ [] }
{}

/// Sectors 01, bad, 03: the second reads as unreadable, and is printed from `L` on.
pub fn one_bad_sector()
    ensures before { history_spot (extent 0 1536 ∷ []) one_bad 511 ≡ Some (0, 511) }
    ensures bad { history_spot (extent 0 1536 ∷ []) one_bad 512 ≡ Some (2, 512) }
    ensures behind { history_spot (extent 0 1536 ∷ []) one_bad 1024 ≡ Some (0, 1024) }
    ensures known { cell_of counting (extent 0 1536 ∷ []) one_bad 511 ≡ Byte 512 }
    ensures unreadable { cell_of counting (extent 0 1536 ∷ []) one_bad 512 ≡ Unreadable }
    ensures unknown { cell_of counting (extent 0 1536 ∷ []) one_bad 1536 ≡ Unknown }
    ensures letter { fill_of 512 Unreadable ≡ 76 }
    ensures sectors { sector_runs (1 ∷ []) ≡ record { first = 1; count = 1 } ∷ [] }
{}

/// The same, as an examiner is shown it, and as a tally counts it: once, twice, and where its count is full.
pub fn one_bad_sector_examined()
    ensures piece { shown_as (extent 0 1536) 1 one_bad_read ≡ record { front = 1; extent = 0; at = 0; len = 1536; bad = 1 ∷ [] } }
    ensures before { slice_index (shown_bytes counting (extent 0 1536) one_bad_read) 511 ≡ 512 }
    ensures bad { slice_index (shown_bytes counting (extent 0 1536) one_bad_read) 512 ≡ 0 }
    ensures bad_last { slice_index (shown_bytes counting (extent 0 1536) one_bad_read) 1023 ≡ 0 }
    ensures behind { slice_index (shown_bytes counting (extent 0 1536) one_bad_read) 1024 ≡ 1025 }
    ensures once { fold_of tally_rule (0 ∷ 0 ∷ []) (one_bad_seen 1 ∷ []) ≡ 1024 ∷ 512 ∷ [] }
    ensures twice { fold_of tally_rule (0 ∷ 0 ∷ []) (one_bad_seen 1 ∷ one_bad_seen 2 ∷ []) ≡ 2048 ∷ 1024 ∷ [] }
    ensures full { fold_of tally_rule (18446744073709551615 ∷ 0 ∷ []) (one_bad_seen 1 ∷ []) ≡ 18446744073709551615 ∷ 512 ∷ [] }
    ensures text { tally_text (1024 ∷ 512 ∷ []) ≡ codes "readable 1024 unreadable 512" }
{}

/// Blocks 01, bad, 03 of 4,096 bytes: the eight sectors of the second are unreadable together.
pub fn one_bad_block_of_three()
    ensures before { history_spot (extent 0 12288 ∷ []) one_bad_block 4095 ≡ Some (0, 4095) }
    ensures bad { history_spot (extent 0 12288 ∷ []) one_bad_block 4096 ≡ Some (2, 4096) }
    ensures bad_last { history_spot (extent 0 12288 ∷ []) one_bad_block 8191 ≡ Some (2, 8191) }
    ensures behind { history_spot (extent 0 12288 ∷ []) one_bad_block 8192 ≡ Some (0, 8192) }
    ensures unreadable { cell_of counting (extent 0 12288 ∷ []) one_bad_block 8191 ≡ Unreadable }
    ensures sectors { sector_runs (range_with_len 8 8) ≡ record { first = 8; count = 8 } ∷ [] }
    ensures one { blocks_in LARGE_BLOCK (range_with_len 8 8) ≡ 1 }
    ensures eight { blocks_in SECTOR (range_with_len 8 8) ≡ 8 }
{}

/// A chunk of bad sectors: it is not stored, and the next chunk has the next number.
pub fn a_chunk_of_bad_sectors()
    ensures before { history_spot (extent 0 98304 ∷ []) bad_chunk 32767 ≡ Some (0, 32767) }
    ensures bad { history_spot (extent 0 98304 ∷ []) bad_chunk 32768 ≡ Some (2, 32768) }
    ensures behind { history_spot (extent 0 98304 ∷ []) bad_chunk 65536 ≡ Some (0, 32768) }
    ensures places { place_runs (Chunk 0 ∷ Nothing ∷ Chunk 1 ∷ []) ≡ Chunks 0 1 ∷ Nothings 1 ∷ Chunks 1 1 ∷ [] }
    ensures sectors { sector_runs (range_with_len 64 64) ≡ record { first = 64; count = 64 } ∷ [] }
{}

/// Two extents, the later one published first: its chunk comes first in the stream.
pub fn priority_against_place()
    ensures early { history_spot (extent 0 32768 ∷ extent 32768 32768 ∷ []) urgent_first 0 ≡ Some (0, 32768) }
    ensures late { history_spot (extent 0 32768 ∷ extent 32768 32768 ∷ []) urgent_first 32768 ≡ Some (0, 0) }
    ensures reversed { lookup (record { at = 0; len = 32768; target_at = 32768; target = 0 } ∷ record { at = 32768; len = 32768; target_at = 0; target = 0 } ∷ []) 40000 ≡ Some (0, 7232) }
{}

/// A volume of four bytes: two places before its one entry, three in it, and none behind.
pub fn a_volume_of_four_bytes()
    ensures before { volume_cell four_bytes (volume_of uuid) 1 ≡ Some Unknown }
    ensures first { volume_cell four_bytes (volume_of uuid) 2 ≡ Some (Byte 8) }
    ensures last { volume_cell four_bytes (volume_of uuid) 4 ≡ Some (Byte 6) }
    ensures behind { volume_cell four_bytes (volume_of uuid) 5 ≡ Some Unknown }
    ensures byte { volume_byte four_bytes (volume_of uuid) 3 ≡ Some 7 }
    ensures letter { volume_byte four_bytes (volume_of uuid) 1 ≡ Some 78 }
    ensures bevvy { bevvy_name (stream_urn uuid) 0 ≡ codes "aff4%3A%2F%2F11111111-2222-4333-8444-555555555555%2Fdata/00000000" }
    ensures map { map_name (image_urn uuid) ≡ codes "aff4%3A%2F%2F11111111-2222-4333-8444-555555555555%2Fimage/map" }
{}
