//! New files: each is locked as soon as it is there, and gets its pages and its name.

ghost use Rattle.std.specs.Prelude.{◌≡◌, ◌≤◌, ◌*◌, IfOk};
ghost use Rattle.sector_device.specs.FileDevice.{file_device_state};

use crate::file_id::{FileId, file_at};
use sector_device::{Device, FileDevice, FileFault, SystemCause, SystemFile};
use std::alloc::{AllocError, Global};
use std::fs::{self, File, Metadata, OpenOptions, Permissions, TryLockError};
use std::io;
use std::os::unix::fs::{FileExt, MetadataExt, OpenOptionsExt, PermissionsExt};
use std::path::Path;
use std::rt::Files;
use storage_sizes::{MAX_PAGES, PAGE_SIZE, SECTORS_PER_PAGE};

/// The mode of a new file: its owner alone may read and write it. What policies hide stands in it.
const PRIVATE: u32 = 0o600;

/// What follows the name of a copy until it is whole.
const PARTIAL: &str = ".partial";

/// How many pages of zeros are written at once.
const PAGES_AT_ONCE: u32 = 16;

/// A device over a new file at `path` of so many pages of zeros, which are written, so that no later
/// write wants room on the disk. It is locked before anything is written, so that no other process
/// opens it, until the device is dropped. The file has mode 0600, whatever the umask, and never a wider
/// one: no other user of the system may open it, and its owner may. It and its folder's entry of it are
/// on the disk when this answers `Ok`.
/// After any error but `Exists` the file is taken away again, if the system does so.
///
/// `Exists`: there is something of that name, which is left as it is. `Device`: the system does not
/// make the file, lock it or write it. `Memory`: it does not since an allocation failed.
pub(crate) fn make_file(
    rt: &impl Files<File = File>,
    path: &str,
    pages: u32,
) -> Result<FileDevice<SystemFile>, FileFault>
    requires { pages ≤ MAX_PAGES }
    ensures { IfOk result (λ d. (file_device_state d).sectors ≡ SECTORS_PER_PAGE * pages) }
{
    let mut options = OpenOptions::new();
    options.read(true).write(true).create_new(true);
    options.mode(PRIVATE);
    let file = match options.open(rt, path) {
        Ok(file) => file,
        Err(error) if error.kind() == io::ErrorKind::AlreadyExists => {
            return Err(FileFault::Exists);
        }
        Err(error) => return Err(new_fault(&error)),
    };
    let made = fill(rt, file, path, pages);
    if made.is_err() {
        // The fault is that of the making; a file that stays is seen at the next try.
        let _ = remove_name(rt, path);
    }
    made
}

// Locks a new file, gives it its mode and its pages of zeros, and brings it and its name to the disk.
fn fill(
    rt: &impl Files<File = File>,
    file: File,
    path: &str,
    pages: u32,
) -> Result<FileDevice<SystemFile>, FileFault>
    requires { pages ≤ MAX_PAGES }
    ensures { IfOk result (λ d. (file_device_state d).sectors ≡ SECTORS_PER_PAGE * pages) }
{
    match file.try_lock() {
        Ok(()) => {}
        Err(TryLockError::WouldBlock) => return Err(FileFault::Device(SystemCause::Other)),
        Err(TryLockError::Error(error)) => return Err(new_fault(&error)),
    }
    match lay_out(rt, &file, path, pages) {
        Ok(()) => {}
        Err(error) => return Err(new_fault(&error)),
    }
    let device = FileDevice::stand_over(SystemFile::made(file))?;
    if device.sectors() == SECTORS_PER_PAGE * pages {
        Ok(device)
    } else {
        Err(FileFault::Device(SystemCause::Other))
    }
}

// Gives a new file the mode of which the umask may have taken bits, writes the pages of zeros, and brings the file and its
// name to the disk.
fn lay_out(rt: &impl Files<File = File>, file: &File, path: &str, pages: u32) -> io::Result<()>
    requires { pages ≤ MAX_PAGES }
{
    file.set_permissions(Permissions::from_mode(PRIVATE))?;
    let zeros = [0; PAGE_SIZE * PAGES_AT_ONCE as usize];
    for piece in 0..pages / PAGES_AT_ONCE {
        file.write_all_at(&zeros, zeros.len() as u64 * piece as u64)?;
    }
    let rest = pages % PAGES_AT_ONCE;
    let last = &zeros[..PAGE_SIZE * rest as usize];
    file.write_all_at(last, PAGE_SIZE as u64 * (pages - rest) as u64)?;
    file.sync_all()?;
    sync_folder(rt, path)
}

// Brings the names in the folder of a path to the disk.
fn sync_folder(rt: &impl Files<File = File>, path: &str) -> io::Result<()> {
    let folder = match Path::new(path).parent() {
        Some(folder) if !folder.as_str().is_empty() => folder.as_str(),
        _ => ".",
    };
    File::open(rt, folder)?.sync_all()
}

/// Takes a name away, and brings that to the disk. An error: it is still there. That the folder is not
/// brought to the disk is none: the name is gone, though a power failure may bring it back.
pub(crate) fn remove_name(rt: &impl Files<File = File>, path: &str) -> io::Result<()> {
    fs::remove_file(rt, path)?;
    // What was asked for is done; what a stop may leave is in the page of promises.
    let _ = sync_folder(rt, path);
    Ok(())
}

/// Takes away the name that a copy had until it was whole, where it is one more name of the file at
/// `path`: a stop came while the copy got its name. Anything else of that name is left, a link too.
/// No error is told: the file is the same under either name.
pub(crate) fn remove_partial_name(
    rt: &impl Files<File = File>,
    alloc: Global,
    path: &str,
    found: &Metadata,
) {
    if found.nlink() < 2 {
        return;
    }
    let Ok(partial) = partial_name(alloc, path) else {
        return;
    };
    if file_at(rt, partial.as_str()) == Some(FileId::of(found)) {
        // A name that stays is seen at the next opening.
        let _ = remove_name(rt, partial.as_str());
    }
}

// The name that a copy has until it is whole. The only error is that an allocation failed.
fn partial_name(alloc: Global, path: &str) -> Result<String, AllocError> {
    let mut name = String::from_str(alloc, path)?;
    name.push_str(PARTIAL)?;
    Ok(name)
}

/// Whether there is something of this name, be it a link to nothing. A path without a byte can name
/// nothing, which is an error.
pub(crate) fn is_there(rt: &impl Files<File = File>, path: &str) -> io::Result<bool> {
    if path.is_empty() {
        return Err(io::Error::from(io::ErrorKind::NotFound));
    }
    match fs::symlink_metadata(rt, path) {
        Ok(_found) => Ok(true),
        Err(error) if error.kind() == io::ErrorKind::NotFound => Ok(false),
        Err(error) => Err(error),
    }
}

/// Gives the file at `from` the name `to`, in the same folder, in place of its own. Nothing is ever
/// replaced: `Exists` where there is something of the name `to`. The file has its new name on the
/// disk before it loses the other, so a stop leaves one of them or both. After an error it has the
/// old one alone, as far as the system takes the new one away. Once it has lost the old one there is
/// no error.
pub(crate) fn rename_new(
    rt: &impl Files<File = File>,
    from: &str,
    to: &str,
) -> Result<(), FileFault> {
    match fs::hard_link(rt, from, to) {
        Ok(()) => {}
        Err(error) if error.kind() == io::ErrorKind::AlreadyExists => {
            return Err(FileFault::Exists);
        }
        Err(error) => return Err(new_fault(&error)),
    }
    match leave_name(rt, from, to) {
        Ok(()) => Ok(()),
        Err(error) => {
            // The fault is that of the name; a file that stays is seen at the next try.
            let _ = remove_name(rt, to);
            Err(new_fault(&error))
        }
    }
}

// Brings the second name of a file to the disk, and takes the first away. An error: it is still there.
fn leave_name(rt: &impl Files<File = File>, from: &str, to: &str) -> io::Result<()> {
    sync_folder(rt, to)?;
    remove_name(rt, from)
}

// The fault of a call of the system on a new file.
fn new_fault(error: &io::Error) -> FileFault {
    match error.kind() {
        io::ErrorKind::OutOfMemory => FileFault::Memory,
        _ => FileFault::Device(SystemCause::of(error)),
    }
}
