//! Devices over files of the system that are locked.

use crate::new_files::remove_partial_name;
use crate::streams::Outputs;
use sector_device::{FileDevice, FileFault, SystemCause, SystemFile};
use std::alloc::Global;
use std::fs::{self, File, OpenOptions, TryLockError};
use std::io;
use std::rt::Files;
use systems::{Access, OpenPathFault};

/// A device over the file at `path`, which is opened and locked. To be read it is opened beside others
/// that read it, and no write of the device succeeds. To be written it is opened by this process
/// alone; then the file loses the name that a copy had until it was whole, if a stop left it that one
/// beside its own. It stays locked until the device is dropped. The device has no sectors unless the
/// file's length is a whole number of pages, 65,536 at most.
///
/// `Missing`: there is no file of that name. `PrintedTo`: it is one of these outputs, so what is printed
/// would be written over it or behind it. `InUse`: another process holds a lock that does not go with
/// this one. `Device`: the system does not open the file, lock it or give its length. `Memory`: it does
/// not since an allocation failed.
pub(crate) fn open_file(
    rt: &impl Files<File = File>,
    alloc: Global,
    path: &str,
    access: Access,
    outputs: &Outputs,
) -> Result<FileDevice<SystemFile>, OpenPathFault> {
    let file = match open_with(rt, path, access) {
        Ok(file) => file,
        Err(error) if error.kind() == io::ErrorKind::NotFound => {
            return Err(OpenPathFault::Missing);
        }
        Err(error) => return Err(system_fault(&error)),
    };
    let found = match file.metadata() {
        Ok(found) => found,
        Err(error) => return Err(system_fault(&error)),
    };
    if outputs.has(&found) {
        return Err(OpenPathFault::PrintedTo);
    }
    lock(&file, access)?;
    if access == Access::Write {
        remove_partial_name(rt, alloc, path, &found);
    }
    match FileDevice::stand_over(SystemFile::opened(file)) {
        Ok(device) => Ok(device),
        Err(FileFault::Memory) => Err(OpenPathFault::Memory),
        Err(FileFault::Device(cause)) => Err(OpenPathFault::Device(cause)),
        Err(FileFault::Exists) => Err(OpenPathFault::Device(SystemCause::Other)),
    }
}

// Locks a file: to be read beside others that read it, to be written by this process alone.
fn lock(file: &File, access: Access) -> Result<(), OpenPathFault> {
    let locked = match access {
        Access::Read => file.try_lock_shared(),
        Access::Write => file.try_lock(),
    };
    match locked {
        Ok(()) => Ok(()),
        Err(TryLockError::WouldBlock) => Err(OpenPathFault::InUse),
        Err(TryLockError::Error(error)) => Err(system_fault(&error)),
    }
}

// Opens what stands at a path. What is no plain file is opened to be written too, also where it is
// only to be read: the system refuses that of a folder, and does not wait for a writer of a pipe.
fn open_with(rt: &impl Files<File = File>, path: &str, access: Access) -> io::Result<File> {
    let is_written = match access {
        Access::Read => !fs::metadata(rt, path)?.is_file(),
        Access::Write => true,
    };
    let mut options = OpenOptions::new();
    options.read(true).write(is_written);
    options.open(rt, path)
}

// The fault of a call of the system on a file that is there.
fn system_fault(error: &io::Error) -> OpenPathFault {
    match error.kind() {
        io::ErrorKind::OutOfMemory => OpenPathFault::Memory,
        _ => OpenPathFault::Device(SystemCause::of(error)),
    }
}
