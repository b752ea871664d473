//! Why the system did not do what it was asked.

use sector_device::SystemCause;
use thiserror::Error;

/// Why a text was not read.
#[derive(Clone, Copy, Debug, PartialEq, Eq, Error)]
pub enum TextFault {
    /// There is nothing of that name.
    #[error("no such file")]
    Missing,
    /// An allocation failed.
    #[error("out of memory")]
    Memory,
    /// The system refused, or failed, for this cause.
    #[error("the system failed")]
    Device(SystemCause),
}

/// Why standard input was not read.
#[derive(Clone, Copy, Debug, PartialEq, Eq, Error)]
pub enum InputFault {
    /// An allocation failed.
    #[error("out of memory")]
    Memory,
    /// The system refused, or failed, for this cause.
    #[error("the system failed")]
    Device(SystemCause),
}

/// Why a device was not opened.
#[derive(Clone, Copy, Debug, PartialEq, Eq, Error)]
pub enum OpenPathFault {
    /// There is nothing of that name.
    #[error("no such file")]
    Missing,
    /// This program or another has it open.
    #[error("the file is in use")]
    InUse,
    /// What this program prints goes to it.
    #[error("the program prints to the file")]
    PrintedTo,
    /// An allocation failed.
    #[error("out of memory")]
    Memory,
    /// The system refused, or failed, for this cause.
    #[error("the device failed")]
    Device(SystemCause),
}
