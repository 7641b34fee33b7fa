//! A segment by its name.
ghost use Rattle.std.specs.Prelude.{◌≡◌, None, Some, option_map, IfOk, IsErrOf, IsTrue};
ghost use Rattle.std.specs.Ordering.{nat_cmp};
ghost use Rattle.std.specs.Cmp.Lexicographic.{slice_cmp};
ghost use Rattle.std.specs.FinMap.{find, get};
ghost use Rattle.aff_outside.specs.declared.folder.FolderError.TheVariants.{Failed};
ghost use Rattle.aff_model.specs.Causes.{HasCause};

use crate::folder::{Folder, FolderError, Segment};
use std::alloc::Global;

/// The length of the segment with this name.
fn listed_len(segments: &[Segment], name: &str) -> Option<u64>
    ensures { result ≡ find (slice_cmp nat_cmp) name.now segments.now }
{
    for segment in segments {
        if segment.has_name(name) {
            return Some(segment.len);
        }
    }
    None
}

/// Lists the folder and reads the segment with this name whole. None where there is no such segment. What
/// the folder holds stays, whatever the answer.
pub fn read_segment<F: Folder>(
    alloc: Global,
    folder: &mut F,
    name: &str,
) -> Result<Option<Vec<u8>>, FolderError>
    ensures found { IfOk result (λ found. IsTrue F.tells → option_map (λ bytes. bytes.items) found ≡ get (F.held folder.old) name.now) }
    ensures same { IsTrue F.tells → F.held folder.new ≡ F.held folder.old }
    ensures cause { HasCause (F.folder_faults folder.old) (F.folder_faults folder.new) (IsErrOf result Failed) }
{
    let segments = folder.list()?;
    let Some(len) = listed_len(&segments, name) else {
        return Ok(None);
    };
    let mut bytes = vec![in alloc; 0; len as usize]?;
    folder.read_at(name, 0, &mut bytes)?;
    Ok(Some(bytes))
}
