//! What holds of every run, for any number of workers and any order of publications. These functions do nothing: each
//! has laws as its contract.
ghost use Rattle.aff_image.specs.Laws.{AppendBehind, AreOfOneContent, HasFewChunks, HasImagesBefore, HaveSameBytes, IsAcquiredWhole, IsOfBadSectors, MakeAnImage, MakesItsVolume, ReadsAsItsImage, TakeOneMore};

/// Readings by several workers over devices that tell nothing are of one content, and over devices that tell one are of
/// that.
pub fn readings_are_of_one_content()
    ensures { AreOfOneContent }
{}

/// Readings make an image, whatever was told; so do some first of them, and no image has more chunks than a plan.
pub fn readings_make_an_image()
    ensures image { MakeAnImage }
    ensures before { HasImagesBefore }
    ensures few { HasFewChunks }
{}

/// One reading more, of an extent that was not read, keeps them readings of a run, and its appends stand behind theirs.
pub fn readings_grow()
    ensures one_more { TakeOneMore }
    ensures appends { AppendBehind }
{}

/// A complete image has what was acquired at each place, and what its appends make reads so.
pub fn a_complete_image_has_its_volume()
    ensures cells { IsAcquiredWhole }
    ensures volume { MakesItsVolume }
    ensures bytes { ReadsAsItsImage }
{}

/// Where every weak sector is bad, a complete image and its bytes are the content's alone: they do not depend on who read
/// what, and when.
pub fn the_order_does_not_matter()
    ensures content { IsOfBadSectors }
    ensures bytes { HaveSameBytes }
{}
