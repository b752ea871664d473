//! Why a dump was not read.
ghost use Rattle.std.specs.Prelude.{◌≡◌};
ghost use Rattle.dumps.specs.declared.fault.DumpFault.TheVariants as dump;
ghost use Rattle.dumps.specs.Faults.{of_read};

use std::alloc::AllocError;
use store::Fault;

/// Why a dump was not read.
#[derive(Clone, Copy, Debug, PartialEq, Eq, Drop)]
pub enum DumpFault {
    /// It does not begin as a dump does.
    NotADump,
    /// Its form is of this version, which is not the one that this program knows.
    OtherVersion(u32),
    /// It begins as a dump does, and is none: it was cut off, or bytes of it were changed.
    Damaged,
    /// An allocation failed.
    Memory,
    /// The device failed.
    Device,
}

impl From<Fault> for DumpFault {
    ghost from_gives = { λ fault given. given ≡ of_read fault };

    fn from(fault: Fault) -> DumpFault {
        match fault {
            Fault::Memory => DumpFault::Memory,
            Fault::Device => DumpFault::Device,
            Fault::Damaged => DumpFault::Damaged,
        }
    }
}

impl From<AllocError> for DumpFault {
    ghost from_gives = { λ _ given. given ≡ dump.Memory };

    fn from(_refused: AllocError) -> DumpFault {
        DumpFault::Memory
    }
}
