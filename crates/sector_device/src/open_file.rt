//! Devices over files of the system.
ghost use Rattle.std.specs.Prelude.{◌≡◌, ◌≢◌, ◌≤◌, ◌*◌, length, false, IfOk, IfErr};
ghost use Rattle.sector_device.specs.FileState.{sectors_in};
ghost use Rattle.sector_device.specs.FileDevice.{file_of, file_device_state, has_failed_sync};

use crate::{Device, FileDevice, PAGE_SIZE, RawFile, SECTORS_PER_PAGE, SystemCause, SystemFile};
use std::fs::{self, File, OpenOptions};
use std::io;
use std::os::unix::fs::{FileExt, OpenOptionsExt};
use std::path::Path;
use std::rt::Files;
use storage_sizes::MAX_PAGES;
use thiserror::Error;

/// The mode of a new file: its owner alone may read and write it. What policies hide stands in it.
const PRIVATE: u32 = 0o600;

/// Why there is no device over a file.
#[derive(Clone, Copy, Debug, PartialEq, Eq, Error)]
pub enum FileFault {
    /// There is something of that name already.
    #[error("the file exists")]
    Exists,
    /// An allocation failed.
    #[error("out of memory")]
    Memory,
    /// The system refused, or failed, for this cause.
    #[error("the device failed")]
    Device(SystemCause),
}

// The fault of an open or a sync. `Exists` is the answer to a request for a new file alone.
fn fault_of(error: io::Error) -> FileFault
    ensures { result ≢ FileFault.Exists }
{
    match error.kind() {
        io::ErrorKind::OutOfMemory => FileFault::Memory,
        _ => FileFault::Device(SystemCause::of(&error)),
    }
}

impl<F: RawFile + Drop> FileDevice<F> {
    /// A device over a file none of whose syncs has failed, of no sectors unless the file's length is a
    /// whole number of pages, 65,536 at most. `Device` where the file does not give its length, and
    /// `Memory` where an allocation failed.
    pub fn stand_over(file: F) -> Result<FileDevice<F>, FileFault>
        requires { F.faithful file → (F.state file).has_failed_sync ≡ false }
        ensures sectors { F.faithful file → IfOk result
            (λ d. (file_device_state d).sectors ≡ sectors_in (length (F.state file).bytes)) }
        ensures file { IfOk result (λ d. file_of d ≡ file) }
        ensures failures { IfOk result (λ d. (file_device_state d).failures ≡ 0) }
        ensures has_failed_sync { IfOk result (λ d. has_failed_sync d ≡ false) }
        ensures exists { IfErr result (λ e. e ≢ FileFault.Exists) }
    {
        match file.length() {
            Ok(bytes) => Ok(FileDevice::over(file, bytes)),
            Err(error) => Err(fault_of(error)),
        }
    }
}

impl FileDevice<SystemFile> {
    /// A device over the file at `path`, which is opened to be read and written. It has no sectors
    /// unless the file's length is a whole number of pages, 65,536 at most.
    ///
    /// `Device` where the system does not open the file or say its length, and `Memory` where that
    /// is because an allocation failed.
    pub fn open(
        rt: &impl Files<File = File>,
        path: &str,
    ) -> Result<FileDevice<SystemFile>, FileFault>
        ensures failures { IfOk result (λ d. (file_device_state d).failures ≡ 0) }
        ensures has_failed_sync { IfOk result (λ d. has_failed_sync d ≡ false) }
        ensures exists { IfErr result (λ e. e ≢ FileFault.Exists) }
    {
        let mut options = OpenOptions::new();
        options.read(true).write(true);
        match options.open(rt, path) {
            Ok(file) => FileDevice::stand_over(SystemFile::opened(file)),
            Err(error) => Err(fault_of(error)),
        }
    }

    /// A device over a new file at `path` of so many pages of zeros, which are written, so that no
    /// later write wants room on the disk. The file is made with mode 0600, so that no other user
    /// of the system may open it. It and its folder's entry of it are on the disk when it answers
    /// `Ok`. After any error but `Exists` the file is taken away again, if the system does so.
    ///
    /// `Exists` where there is something of that name, which is left as it is, `Memory` and
    /// `Device` as for `open`.
    pub fn make(
        rt: &impl Files<File = File>,
        path: &str,
        pages: u32,
    ) -> Result<FileDevice<SystemFile>, FileFault>
        requires { pages ≤ MAX_PAGES }
        ensures sectors { IfOk result
            (λ d. (file_device_state d).sectors ≡ SECTORS_PER_PAGE * pages) }
        ensures failures { IfOk result (λ d. (file_device_state d).failures ≡ 0) }
        ensures has_failed_sync { IfOk result (λ d. has_failed_sync d ≡ false) }
    {
        let mut options = OpenOptions::new();
        options.read(true).write(true).create_new(true);
        options.mode(PRIVATE);
        let file = match options.open(rt, path) {
            Ok(file) => file,
            Err(error) if error.kind() == io::ErrorKind::AlreadyExists => return Err(
                FileFault::Exists,
            ),
            Err(error) => return Err(fault_of(error)),
        };
        let made = fill(rt, file, path, pages);
        if made.is_err() {
            // What failed is told, whether or not its file could be removed.
            let _ = fs::remove_file(rt, path);
        }
        made
    }
}

// Gives a new file its pages of zeros, and brings it and its name to the disk.
fn fill(
    rt: &impl Files<File = File>,
    file: File,
    path: &str,
    pages: u32,
) -> Result<FileDevice<SystemFile>, FileFault>
    requires { pages ≤ MAX_PAGES }
    ensures sectors { IfOk result
        (λ d. (file_device_state d).sectors ≡ SECTORS_PER_PAGE * pages) }
    ensures failures { IfOk result (λ d. (file_device_state d).failures ≡ 0) }
    ensures has_failed_sync { IfOk result (λ d. has_failed_sync d ≡ false) }
{
    match lay_out(rt, &file, path, pages) {
        Ok(()) => (),
        Err(error) => return Err(fault_of(error)),
    }
    let device = FileDevice::stand_over(SystemFile::made(file))?;
    if device.sectors() == SECTORS_PER_PAGE * pages {
        Ok(device)
    } else {
        Err(FileFault::Device(SystemCause::Other))
    }
}

fn lay_out(rt: &impl Files<File = File>, file: &File, path: &str, pages: u32) -> io::Result<()> {
    let zeros = [0; PAGE_SIZE];
    for page in 0..pages {
        file.write_all_at(&zeros, PAGE_SIZE as u64 * page as u64)?;
    }
    file.sync_all()?;
    let folder = match Path::new(path).parent() {
        Some(folder) if !folder.as_str().is_empty() => folder.as_str(),
        _ => ".",
    };
    File::open(rt, folder)?.sync_all()
}
