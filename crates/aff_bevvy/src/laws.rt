//! What was written is read again. The function does nothing: its contract is the law.
ghost use Rattle.aff_bevvy.specs.Laws.{AppendsItsChunks, HasItsBytes, HasItsChunks, IsNotRefused, IsStreamOfItsSizes, StartsWithNone};

/// A writer begins with a folder that has no segment of its stream, or empty ones. What it leaves, chunk by chunk
/// and at its end, is read as a stream of each size that has so many chunks, is refused for no fault of its
/// segments, and gives the bytes of its chunks.
pub fn written_is_read()
    ensures start { StartsWithNone }
    ensures stream { IsStreamOfItsSizes }
    ensures chunks { HasItsChunks }
    ensures bytes { HasItsBytes }
    ensures only_calls { IsNotRefused }
    ensures volume { AppendsItsChunks }
{}
