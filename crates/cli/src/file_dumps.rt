//! A dump of the database in a file, in a new file.

ghost use Rattle.std.specs.Prelude.{◌≡◌, ◌≢◌, ◌≤◌};
ghost use Rattle.cli.specs.Copying.{partial_path};
ghost use Rattle.cli.specs.Dumping.{DumpsFile, LeavesDump, dumping};
ghost use Rattle.cli.specs.NewFiles.{LeavesMadeOf, MakesBeside};

use crate::copy_fault::CopyRefusal;
use crate::fault::CommandFault;
use crate::file_copies::{partial_fault, partial_name, rename_copy};
use database_dumps::{dump_database, pages_of_dump};
use sector_device::Device;
use std::alloc::Global;
use storage_sizes::MAX_PAGES;
use systems::{Access, System};

/// Writes a dump of the database in the file at `path` to a new file at `target`. Others may read the file meanwhile, and not one
/// sector of it is written; of format 1 it is dumped in format 2. Both files are closed then.
///
/// The dump is made in a file of its own, which has the name of the target with `.partial` after it. It gets its name once it is
/// whole and on the disk, and replaces nothing. So a stop at any moment leaves nothing of the name `target`, or a whole dump; the
/// other name may be left beside. After an error nothing is left of it, as far as the system removes it.
///
/// `File`: what `read_file` refuses of the file. `New`: `Exists`, where there is something of the name `target`, which is left as
/// it is; `Partial`, where there is something of the name that the dump has until it is whole, which is left as it is; `NoRoom`,
/// where the dump has more pages than a file may have; `Device`, where the system does not make the file or name it, or a call on
/// it fails; `Memory`, where an allocation failed.
pub fn dump_file<Y: System>(
    system: &mut Y,
    alloc: Global,
    path: &str,
    target: &str,
) -> Result<(), CopyRefusal>
    ensures dumps { DumpsFile Y.Device.Device Y.state (Y.state system.old) path.now target.now
        result (Y.state system.new) }
    ensures left { (Y.state system.old).faithful → target.now ≢ path.now
        → LeavesDump Y.Device.Device path.now target.now (Y.state system.old) (Y.state system.new) }
{
    let device = match system.open(path, Access::Read) {
        Ok(device) => device,
        Err(fault) => return Err(CopyRefusal::File(CommandFault::from(fault))),
    };
    let (left, dumped) = dump_beside(system, alloc, device, target);
    system.close(path, left);
    dumped
}

// Writes a dump of the database on a device to a new file, where nothing has its name, and hands the device back.
fn dump_beside<Y: System>(
    system: &mut Y,
    alloc: Global,
    device: Y::Device,
    target: &str,
) -> (Y::Device, Result<(), CopyRefusal>)
    ensures makes { MakesBeside Y.Device.Device (dumping Y.Device.Device) (Y.state system.old)
        (partial_path target.now) target.now device result.1 result.0 (Y.state system.new) }
    ensures left { (Y.state system.old).faithful → (Y.Device.state device).faithful
        → LeavesMadeOf (dumping Y.Device.Device) device target.now (Y.state system.old)
        (Y.state system.new) }
{
    let found = match system.has_name(target) {
        Ok(found) => found,
        Err(cause) => return (device, Err(CopyRefusal::New(CommandFault::Device(cause)))),
    };
    if found {
        return (device, Err(CopyRefusal::New(CommandFault::Exists)));
    }
    let partial = match partial_name(alloc, target) {
        Ok(partial) => partial,
        Err(_) => return (device, Err(CopyRefusal::New(CommandFault::Memory))),
    };
    let (counted, pages) = pages_of_dump(alloc, device);
    match pages {
        Ok(pages) => dump_as(system, alloc, counted, partial.as_str(), target, pages),
        Err(fault) => (counted, Err(CopyRefusal::of(fault, MAX_PAGES))),
    }
}

// Writes a dump of so many pages to a new file, which has one name until it is whole and another then.
fn dump_as<Y: System>(
    system: &mut Y,
    alloc: Global,
    device: Y::Device,
    partial: &str,
    target: &str,
    pages: u32,
) -> (Y::Device, Result<(), CopyRefusal>)
    requires size { pages ≤ MAX_PAGES }
    requires names { target.now ≢ partial.now }
    ensures makes { MakesBeside Y.Device.Device (dumping Y.Device.Device) (Y.state system.old)
        partial.now target.now device result.1 result.0 (Y.state system.new) }
    ensures left { (Y.state system.old).faithful → (Y.Device.state device).faithful
        → LeavesMadeOf (dumping Y.Device.Device) device target.now (Y.state system.old)
        (Y.state system.new) }
{
    let blank = match system.make(partial, pages) {
        Ok(blank) => blank,
        Err(fault) => return (device, Err(partial_fault(fault))),
    };
    let (left, dump, dumped) = dump_database(alloc, device, blank);
    match dumped {
        Ok(()) => (left, rename_copy(system, partial, target, dump)),
        Err(fault) => {
            // That it stays where the system does not take it away is told by no other fault.
            let _ = system.remove(partial, dump);
            (left, Err(CopyRefusal::of(fault, pages)))
        }
    }
}
