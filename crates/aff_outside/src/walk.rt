//! The list of all segments of a folder of the file system.
use crate::file_folder::joined;
use crate::folder::Segment;
use std::fs::Metadata;
use std::io::ErrorKind;
use std::{fs, io};

/// The paths of folders that are still to be listed, each with a `/` behind it, and the segments so far.
/// Both are counted from the top folder.
#[derive(Drop)]
struct Walk {
    folders: Vec<String>,
    segments: Vec<Segment>,
}

impl Walk {
    /// Takes in what one folder has. A name that is not UTF-8 is an error of the folder's own listing.
    fn list(&mut self, rt: &HostRuntime, top: &str, front: &str) -> io::Result<()> {
        let folder = joined(rt, top, front)?;
        for entry in fs::read_dir(rt, folder.as_str())? {
            let entry = entry?;
            self.take(rt, front, entry.file_name(), &entry.metadata()?)?;
        }
        Ok(())
    }

    fn take(
        &mut self,
        rt: &HostRuntime,
        front: &str,
        name: &str,
        about: &Metadata,
    ) -> io::Result<()> {
        if about.is_dir() {
            let folder = format!(in rt.alloc(); "{front}{name}/")?;
            self.folders.push(folder)?;
        } else {
            let name = format!(in rt.alloc(); "{front}{name}")?;
            let len = about.len();
            self.segments.push(Segment { name, len })?;
        }
        Ok(())
    }
}

/// All segments, sorted by name.
pub(crate) fn list_all(rt: &HostRuntime, top: &str) -> io::Result<Vec<Segment>> {
    let mut walk = Walk {
        folders: Vec::new(rt.alloc()),
        segments: Vec::new(rt.alloc()),
    };
    if fs::exists(rt, top)? {
        walk.list(rt, top, "")?;
    }
    for _ in 0..u64::MAX {
        let Some(front) = walk.folders.pop() else {
            let mut segments = walk.segments;
            segments.sort_by(|a, b| a.name.as_str().cmp(&b.name.as_str()))?;
            return Ok(segments);
        };
        walk.list(rt, top, front.as_str())?;
    }
    Err(io::Error::from(ErrorKind::TimedOut))
}
