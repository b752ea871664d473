//! Why a store was not opened.

use store::{Fault, StoreFault};

/// Why a store was not migrated, or no server was opened over it.
#[derive(Clone, Copy, Debug, PartialEq, Eq, Drop)]
pub enum OpeningFault {
    /// Its records were not read, or are `Damaged`: they stand for no database. `Memory` stands here
    /// too where an allocation failed later than that, but for those of the commit.
    Read(Fault),
    /// The records were not committed in record format 2.
    Commit(StoreFault),
}
