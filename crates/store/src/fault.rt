//! The faults of stores, and of reads of their records.
ghost use Rattle.std.specs.Prelude.{◌≡◌};
ghost use Rattle.store.specs.declared.fault.StoreFault.TheVariants as store_faults;
ghost use Rattle.store.specs.declared.fault.Fault.TheVariants as faults;
ghost use Rattle.store.specs.Fault.{fault_of};

use std::alloc::{AllocError, AllocFailed};
use thiserror::Error;

/// Why a call of a store failed.
#[derive(Clone, Copy, Debug, PartialEq, Eq, Drop, Error)]
pub enum StoreFault {
    /// No room is left for the records.
    #[error("the store is full")]
    Full,
    /// An allocation failed.
    #[error("out of memory")]
    Memory,
    /// The device below failed, or a read gave what no store writes. The store answers nothing
    /// else from then on.
    #[error("the device failed")]
    Device,
    /// No number is left for a commit.
    #[error("no commit number is left")]
    Number,
}

/// Why a read of records failed.
#[derive(Clone, Copy, Debug, PartialEq, Eq, Drop, Error)]
pub enum Fault {
    /// An allocation failed.
    #[error("out of memory")]
    Memory,
    /// The device below failed.
    #[error("the device failed")]
    Device,
    /// A record is one that no database writes.
    #[error("a record is damaged")]
    Damaged,
}

impl From<AllocError> for StoreFault {
    ghost from_gives = { λ _ fault. fault ≡ store_faults.Memory };

    fn from(_refused: AllocError) -> StoreFault {
        StoreFault::Memory
    }
}

impl<T: Drop> From<AllocFailed<T>> for StoreFault {
    ghost from_gives = { λ _ fault. fault ≡ store_faults.Memory };

    fn from(_refused: AllocFailed<T>) -> StoreFault {
        StoreFault::Memory
    }
}

impl From<AllocError> for Fault {
    ghost from_gives = { λ _ fault. fault ≡ faults.Memory };

    fn from(_refused: AllocError) -> Fault {
        Fault::Memory
    }
}

impl<T: Drop> From<AllocFailed<T>> for Fault {
    ghost from_gives = { λ _ fault. fault ≡ faults.Memory };

    fn from(_refused: AllocFailed<T>) -> Fault {
        Fault::Memory
    }
}

/// Of the fault of a read, which is Memory or Device. Full and Number would be Device here.
impl From<StoreFault> for Fault {
    ghost from_gives = { λ fault given. given ≡ fault_of fault };

    fn from(fault: StoreFault) -> Fault {
        match fault {
            StoreFault::Memory => Fault::Memory,
            StoreFault::Full | StoreFault::Device | StoreFault::Number => Fault::Device,
        }
    }
}
