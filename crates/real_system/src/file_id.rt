//! Which file it is that a name or a stream stands for.

use std::fs::{self, File, Metadata};
use std::os::unix::fs::MetadataExt;
use std::rt::Files;

/// Which file it is: its device, and its number there.
#[derive(Clone, Copy, PartialEq, Eq)]
pub struct FileId {
    device: u64,
    number: u64,
}

impl FileId {
    /// The file that the system describes so.
    pub(crate) fn of(found: &Metadata) -> FileId {
        FileId {
            device: found.dev(),
            number: found.ino(),
        }
    }
}

/// Which file has this name. `None`: there is none, or the system does not say.
pub(crate) fn file_at(rt: &impl Files<File = File>, path: &str) -> Option<FileId> {
    match fs::symlink_metadata(rt, path) {
        Ok(found) => Some(FileId::of(&found)),
        Err(_) => None,
    }
}

/// Which plain file this name leads to. `None`: there is none, or the system does not say.
pub(crate) fn plain_file_behind(rt: &impl Files<File = File>, path: &str) -> Option<FileId> {
    match fs::metadata(rt, path) {
        Ok(found) if found.is_file() => Some(FileId::of(&found)),
        _ => None,
    }
}
