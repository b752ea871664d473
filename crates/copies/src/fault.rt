//! Why records, or the database that they are, were not copied.
ghost use Rattle.std.specs.Prelude.{◌≡◌};
ghost use Rattle.store.specs.declared.fault.Fault.TheVariants as faults;

use journal_store::OpenFault;
use std::alloc::AllocError;
use store::{Fault, StoreFault};

/// Why records, or the database on a device, were not copied. Each copy says which of these it can give.
#[derive(Clone, Copy, Drop, PartialEq, Eq)]
pub enum CopyFault {
    /// No store was opened over the pages of the source. Nothing was written.
    Pages(OpenFault),
    /// The source was not read: its device failed; or a record of it is of no size that a store takes, or they all stand
    /// for no database, which is `Damaged`; or an allocation failed.
    Read(Fault),
    /// The copy was not written: an allocation failed, or its device did; of a store, also: no room or no number is left.
    Write(StoreFault),
    /// The device of the copy does not have 64 to 65,536 whole pages. Nothing was written.
    WrongSize,
    /// The device of the copy has no room left. The copy wants so many pages at least.
    Full(u64),
}

impl From<Fault> for CopyFault {
    ghost use Rattle.copies.specs.declared.fault.CopyFault.TheVariants.{Read};

    ghost from_gives = { λ fault given. given ≡ Read fault };

    fn from(fault: Fault) -> CopyFault {
        CopyFault::Read(fault)
    }
}

impl From<StoreFault> for CopyFault {
    ghost use Rattle.copies.specs.declared.fault.CopyFault.TheVariants.{Write};

    ghost from_gives = { λ fault given. given ≡ Write fault };

    fn from(fault: StoreFault) -> CopyFault {
        CopyFault::Write(fault)
    }
}

impl From<AllocError> for CopyFault {
    ghost use Rattle.copies.specs.declared.fault.CopyFault.TheVariants.{Read};

    ghost from_gives = { λ _ given. given ≡ Read faults.Memory };

    fn from(_refused: AllocError) -> CopyFault {
        CopyFault::Read(Fault::Memory)
    }
}
