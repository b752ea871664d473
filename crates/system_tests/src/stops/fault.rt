//! What went otherwise than expected, or why a test ends before its work is done.

use kv_store::OpenFault;
use recovery::OpeningFault;
use sector_device::DeviceFault;
use std::alloc::{AllocError, AllocFailed};
use std::io;
use store::{Fault, StoreFault};

/// What went otherwise than expected, or why a test ends before its work is done.
#[derive(Clone, Copy, Debug)]
pub enum TestFault {
    /// Memory was refused.
    Memory,
    /// A file is not read, a line is not printed, or a script or a new database is not as it should be.
    Io(io::ErrorKind),
    /// A call of a device failed that was to pass.
    Device,
    /// A store failed that was to answer.
    Store(StoreFault),
    /// No store is opened on a device.
    NoStore(OpenFault),
    /// No server is opened over a store.
    NoServer(OpeningFault),
    /// There is no cache of so many pages.
    NoSuchCache,
    /// A device has another number of sectors.
    AnotherSize,
    /// A script has fewer events.
    FewerEvents,
    /// What was tried again and again has no end.
    NoEnd,
    /// An event or a bad frame has another answer.
    AnotherAnswer,
    /// A connection has another end.
    AnotherEnd,
    /// The map on a device is neither that before the event under way nor that after it.
    AnotherMap,
    /// The map on a device is neither that before one more commit nor that after it.
    AnotherMapAgain,
    /// So many calls failed, where it was to be one, or none where the work was done.
    Calls(u64),
    /// An event is answered by 58030 before a call fails.
    EarlyFailure,
    /// An event after the call that failed is answered.
    LaterAnswer,
    /// An opening or a copy hands a device back with another content.
    AnotherContent,
    /// A copy is refused for another fault than that its device stopped.
    CopyRefused,
}

impl TestFault {
    /// Whether an opening was refused since the device failed.
    pub fn is_device(self) -> bool {
        matches!(
            self,
            TestFault::NoStore(OpenFault::Device)
                | TestFault::NoServer(OpeningFault::Read(Fault::Device))
                | TestFault::NoServer(OpeningFault::Commit(StoreFault::Device))
        )
    }

    /// Whether an opening found no database: no root, or records that stand for none.
    pub fn is_no_database(self) -> bool {
        matches!(
            self,
            TestFault::NoStore(OpenFault::NotADatabase)
                | TestFault::NoServer(OpeningFault::Read(Fault::Damaged))
        )
    }

    /// Tells why an opening was refused.
    pub fn tell(self, out: &mut String) -> Result<(), AllocError> {
        match self {
            TestFault::NoStore(OpenFault::NewerFormat(_)) => write!(out, "Format"),
            TestFault::NoStore(fault) => write!(out, "{fault:?}"),
            TestFault::NoServer(OpeningFault::Read(fault)) => write!(out, "{fault:?}"),
            TestFault::NoServer(OpeningFault::Commit(fault)) => write!(out, "{fault:?}"),
            _ => write!(out, "{self:?}"),
        }
    }
}

impl From<AllocError> for TestFault {
    fn from(_refused: AllocError) -> TestFault {
        TestFault::Memory
    }
}

impl<T: Drop> From<AllocFailed<T>> for TestFault {
    fn from(_refused: AllocFailed<T>) -> TestFault {
        TestFault::Memory
    }
}

impl From<io::Error> for TestFault {
    fn from(error: io::Error) -> TestFault {
        TestFault::Io(error.kind())
    }
}

impl From<DeviceFault> for TestFault {
    fn from(_fault: DeviceFault) -> TestFault {
        TestFault::Device
    }
}

impl From<StoreFault> for TestFault {
    fn from(fault: StoreFault) -> TestFault {
        TestFault::Store(fault)
    }
}
