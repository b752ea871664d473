//! Why the database in a file was not copied.

ghost use Rattle.std.specs.Prelude.{◌≡◌};
ghost use Rattle.cli.specs.CopyFaults.{of_copy};

use crate::fault::CommandFault;
use copies::CopyFault;

/// Which file a copy of the database in a file was refused for, and why.
#[derive(Clone, Copy, PartialEq, Eq)]
pub enum CopyRefusal {
    /// The file, for this fault of `read_file`.
    File(CommandFault),
    /// The new file: `Exists`, `Partial`, `WrongSize`, `NoRoom`, `Memory` or `Device`.
    New(CommandFault),
}

impl CopyRefusal {
    /// Why a copy to so many pages was refused that was made from one device to another.
    pub(crate) fn of(fault: CopyFault, pages: u32) -> CopyRefusal
        ensures { result ≡ of_copy pages fault }
    {
        match fault {
            CopyFault::Pages(fault) => CopyRefusal::File(CommandFault::from(fault)),
            CopyFault::Read(fault) => CopyRefusal::File(CommandFault::from(fault)),
            CopyFault::Write(fault) => CopyRefusal::New(CommandFault::from(fault)),
            CopyFault::WrongSize => CopyRefusal::New(CommandFault::WrongSize),
            CopyFault::Full(least) => CopyRefusal::New(CommandFault::NoRoom { pages, least }),
        }
    }
}
