//! Why a journal was not turned on or off.
use kv_store::OpenFault;
use store::StoreFault;
use thiserror::Error;

/// Why a journal was not turned on, or not off. Whatever it is, the contents stay.
#[derive(Clone, Copy, Debug, PartialEq, Eq, Error)]
pub enum SwitchFault {
    /// The device was not opened.
    #[error("the device was not opened")]
    Unopened(OpenFault),
    /// The records are of record format 1: they must be migrated before there can be a journal.
    #[error("the records are of record format 1")]
    NotMigrated,
    /// A commit was refused, or the device failed.
    #[error("nothing was committed")]
    Refused(StoreFault),
}
