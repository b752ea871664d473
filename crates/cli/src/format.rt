//! A new database in a new file.

ghost use Rattle.cli.specs.Formatting.{FormatsFile};

use crate::fault::CommandFault;
use cow_pages::page_count;
use databases::make_database;
use sector_device::Device;
use sql_types::name::Name;
use std::alloc::Global;
use storage_sizes::{MAX_PAGES, SECTORS_PER_PAGE};
use systems::System;

/// Makes a file at `path` of so many pages of 4,096 bytes, with a new database whose one role is
/// the superuser `admin`, with a journal or without, and closes it. Until the new database is whole, the file opens as none.
/// After any error but `Exists` no file is left, as far as the system removes it.
///
/// `WrongSize`: the number of pages is not from 64 to 65,536; no file is made, and neither `Exists`
/// nor `Device` comes. `Exists`: there is something of that name, which is left as it is. `Device`:
/// the system does not make the file, or a call on it fails. `Memory`: an allocation failed.
pub fn format_file<Y: System>(
    system: &mut Y,
    alloc: Global,
    path: &str,
    pages: u32,
    admin: &Name,
    journal: bool,
) -> Result<(), CommandFault>
    ensures { FormatsFile Y.Device.Device (Y.state system.old) path.now pages admin.now journal
        result (Y.state system.new) }
{
    if pages > MAX_PAGES {
        return Err(CommandFault::WrongSize);
    }
    let Some(_pages) = page_count(SECTORS_PER_PAGE * pages) else {
        return Err(CommandFault::WrongSize);
    };
    let mut device = match system.make(path, pages) {
        Ok(device) => device,
        Err(fault) => return Err(CommandFault::from(fault)),
    };
    match make_database(alloc, &mut device, admin, journal) {
        Ok(()) => {
            system.close(path, device);
            Ok(())
        }
        Err(fault) => {
            // That it stays where the system does not take it away is told by no other fault.
            let _ = system.remove(path, device);
            Err(CommandFault::from(fault))
        }
    }
}
