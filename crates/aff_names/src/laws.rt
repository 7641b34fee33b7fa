//! What names never share. These functions do nothing: each has a law as its contract.
ghost use Rattle.aff_names.specs.Laws.{FoldersAreNoDots};
ghost use Rattle.aff_spec.specs.NameLaws.{FoldersDiffer, FoldersHaveNoSlash, SegmentsDiffer};

/// Different URNs have different folders.
pub fn folders_differ()
    ensures { FoldersDiffer }
{}

/// A folder's name has no `/`, and is neither `.` nor `..`.
pub fn folders_are_files()
    ensures slash { FoldersHaveNoSlash }
    ensures dots { FoldersAreNoDots }
{}

/// Segments of different streams, numbers or suffixes have different names, whatever the suffixes are.
pub fn segments_differ()
    ensures { SegmentsDiffer }
{}
