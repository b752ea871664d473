//! Why no database was opened on a device.

use journal_store::OpenFault;
use recovery::OpeningFault;

/// Why no database was opened on a device, and so no life began.
#[derive(Clone, Copy, PartialEq, Eq, Drop)]
pub enum DatabaseFault {
    /// No store was opened over the pages of the device.
    Pages(OpenFault),
    /// A store was, but no server over its records.
    Records(OpeningFault),
}
