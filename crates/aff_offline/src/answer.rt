//! What is answered of a finished volume.
ghost use Rattle.std.specs.Prelude.{MatchOption};
ghost use Rattle.aff_offline.specs.Answered.{IsAnswered, IsKept, IsRange, IsRangeFault, shown_folder};

use crate::described::info_text;
use crate::fault::{Fault, RangeFault, fault_of_read, fault_of_volume};
use aff_command::Offline;
use aff_fields::zeros;
use aff_model::{MAX_READ, Memory};
use aff_outside::Folder;
use aff_verify::Verdict;
use aff_volume::Volume;
use std::alloc::{AllocError, Global};
use std::thread::Threads;

// Why a range of an image of so many bytes is refused.
fn refuse_range(size: u64, at: u64, len: u64) -> Option<RangeFault>
    ensures { MatchOption result (IsRange size at len) (IsRangeFault size at len) }
{
    if len > MAX_READ {
        return Some(RangeFault::TooLong);
    }
    if size < at || size - at < len {
        return Some(RangeFault::PastEnd);
    }
    None
}

fn read<F: Folder>(alloc: Global, folder: &mut F, at: u64, len: u64) -> Result<Vec<u8>, Fault>
    ensures answered { IsAnswered F.tells (Offline.Read at len) (shown_folder F.Folder folder.old) (shown_folder F.Folder folder.new) result }
    ensures kept { IsKept F.tells (shown_folder F.Folder folder.old) (shown_folder F.Folder folder.new) }
{
    let volume = match Volume::open(alloc, folder) {
        Ok(volume) => volume,
        Err(error) => return Err(fault_of_volume(error)),
    };
    if let Some(fault) = refuse_range(volume.info().image_size, at, len) {
        return Err(Fault::Range(fault));
    }
    let Ok(mut bytes) = zeros(alloc, len as usize) else {
        return Err(Fault::Memory);
    };
    match volume.read(alloc, folder, at, &mut bytes) {
        Ok(()) => Ok(bytes),
        Err(error) => Err(fault_of_read(error)),
    }
}

fn describe<F: Folder>(alloc: Global, folder: &mut F) -> Result<Vec<u8>, Fault>
    ensures answered { IsAnswered F.tells Offline.Info (shown_folder F.Folder folder.old) (shown_folder F.Folder folder.new) result }
    ensures kept { IsKept F.tells (shown_folder F.Folder folder.old) (shown_folder F.Folder folder.new) }
{
    let volume = match Volume::open(alloc, folder) {
        Ok(volume) => volume,
        Err(error) => return Err(fault_of_volume(error)),
    };
    match info_text(alloc, volume.info(), volume.aside()) {
        Ok(text) => Ok(text.into_bytes()),
        Err(Memory) => Err(Fault::Memory),
    }
}

fn verify<R: Threads + Sync, F: Folder>(
    rt: &R,
    alloc: Global,
    folder: &mut F,
) -> Result<Vec<u8>, Fault>
    ensures answered { IsAnswered F.tells Offline.Verify (shown_folder F.Folder folder.old) (shown_folder F.Folder folder.new) result }
    ensures kept { IsKept F.tells (shown_folder F.Folder folder.old) (shown_folder F.Folder folder.new) }
{
    match aff_verify::verify(rt, alloc, folder) {
        Ok(Verdict::Sound) => match Vec::from_slice(alloc, b"sound\n") {
            Ok(text) => Ok(text),
            Err(AllocError) => Err(Fault::Memory),
        },
        Ok(Verdict::Unsound(finding)) => Err(Fault::Unsound(finding)),
        Err(error) => Err(fault_of_volume(error)),
    }
}

/// What is answered of the volume in a folder.
pub fn answer<R: Threads + Sync, F: Folder>(
    rt: &R,
    alloc: Global,
    asked: Offline,
    folder: &mut F,
) -> Result<Vec<u8>, Fault>
    ensures answered { IsAnswered F.tells asked (shown_folder F.Folder folder.old) (shown_folder F.Folder folder.new) result }
    ensures kept { IsKept F.tells (shown_folder F.Folder folder.old) (shown_folder F.Folder folder.new) }
{
    match asked {
        Offline::Read { at, len } => read(alloc, folder, at, len),
        Offline::Info => describe(alloc, folder),
        Offline::Verify => verify(rt, alloc, folder),
    }
}
