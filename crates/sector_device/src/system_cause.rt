//! Why the system refused a call.

ghost use Rattle.std.specs.Prelude.{◌≡◌, Some};
ghost use Rattle.std.specs.IoError.{error_kind};
ghost use Rattle.sector_device.specs.SystemCause.{cause_of, cause_text};

use std::error::Error;
use std::{fmt, io};

/// Why the system refused a call, in the words of a message.
#[derive(Clone, Copy, Debug, PartialEq, Eq)]
pub enum SystemCause {
    /// There is no file of that name, or no folder for it.
    NotFound,
    /// The user may not do it.
    PermissionDenied,
    /// It is a folder.
    IsFolder,
    /// What stands for a folder in its path is none.
    NotAFolder,
    /// It lies in a file system that is only read.
    ReadOnly,
    /// There is no room on the disk.
    NoSpace,
    /// Another socket has the address.
    AddressInUse,
    /// Anything else, or the system does not say.
    Other,
}

impl SystemCause {
    /// The cause of an error of the system.
    pub fn of(error: &io::Error) -> SystemCause
        ensures { result ≡ cause_of (error_kind error.now) }
    {
        match error.kind() {
            io::ErrorKind::NotFound => SystemCause::NotFound,
            io::ErrorKind::PermissionDenied => SystemCause::PermissionDenied,
            io::ErrorKind::IsADirectory => SystemCause::IsFolder,
            io::ErrorKind::NotADirectory => SystemCause::NotAFolder,
            io::ErrorKind::ReadOnlyFilesystem => SystemCause::ReadOnly,
            io::ErrorKind::StorageFull => SystemCause::NoSpace,
            io::ErrorKind::QuotaExceeded => SystemCause::NoSpace,
            io::ErrorKind::AddrInUse => SystemCause::AddressInUse,
            _ => SystemCause::Other,
        }
    }
}

impl fmt::Display for SystemCause {
    ghost output = { λ cause. Some (cause_text cause) };

    fn fmt<W: fmt::Write>(&self, f: &mut fmt::Formatter<W>) -> fmt::Result {
        match self {
            SystemCause::NotFound => write!(f, "no such file or folder"),
            SystemCause::PermissionDenied => write!(f, "permission denied"),
            SystemCause::IsFolder => write!(f, "it is a folder"),
            SystemCause::NotAFolder => write!(f, "a part of the path is not a folder"),
            SystemCause::ReadOnly => write!(f, "the file system is read-only"),
            SystemCause::NoSpace => write!(f, "no room on the disk"),
            SystemCause::AddressInUse => write!(f, "the address is in use"),
            SystemCause::Other => write!(f, "a call of the system failed"),
        }
    }
}

impl Error for SystemCause {}
