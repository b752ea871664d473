//! Why a dump was not restored.
ghost use Rattle.std.specs.Prelude.{◌≡◌};
ghost use Rattle.database_dumps.specs.declared.fault.RestoreFault.TheVariants as restore;

use copies::CopyFault;
use dumps::DumpFault;

/// Why no database was made of a dump.
#[derive(Clone, Copy, Drop, PartialEq, Eq)]
pub enum RestoreFault {
    /// The dump was not read; or it stands for no database, which is `Damaged`.
    Dump(DumpFault),
    /// The database was not written: `WrongSize`, or `Write`.
    New(CopyFault),
}

impl From<DumpFault> for RestoreFault {
    ghost from_gives = { λ fault given. given ≡ restore.Dump fault };

    fn from(fault: DumpFault) -> RestoreFault {
        RestoreFault::Dump(fault)
    }
}

impl From<CopyFault> for RestoreFault {
    ghost from_gives = { λ fault given. given ≡ restore.New fault };

    fn from(fault: CopyFault) -> RestoreFault {
        RestoreFault::New(fault)
    }
}
