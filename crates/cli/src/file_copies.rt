//! A copy of the database in a file, in a new file.

ghost use Rattle.std.specs.Prelude.{◌≡◌, ◌≢◌, ◌≤◌, IfOk, string_bytes};
ghost use Rattle.sector_device.specs.Device.{KeepsHistory};
ghost use Rattle.cow_pages.specs.Held.{KeepsContent};
ghost use Rattle.copies.specs.DatabaseCopies.{CopiesDatabase};
ghost use Rattle.cli.specs.CopyFaults.{of_partial};
ghost use Rattle.cli.specs.CopyNames.{LeavesCopy, LeavesCopyOf};
ghost use Rattle.cli.specs.Copying.{CopiesBeside, CopiesFile, Renames, partial_path};
ghost use Rattle.systems.specs.Systems.{LeavesAlso};

use crate::copy_fault::CopyRefusal;
use crate::fault::CommandFault;
use copies::{CopyFault, copy_database};
use cow_pages::page_count;
use journal_store::JournalDevice;
use sector_device::{CopyProgress, Device, FileFault};
use std::alloc::{AllocError, Global};
use storage_sizes::{MAX_PAGES, SECTORS_PER_PAGE};
use systems::{Access, System};

/// What follows the name of a copy until it is whole.
const PARTIAL: &str = ".partial";

/// Copies the database in the file at `path` to a new file at `target` of so many pages of 4,096
/// bytes. Others may read the file meanwhile, and not one sector of it is written; of format 1 it is
/// copied in format 2. Both files are closed then.
///
/// The copy is made in a file of its own, which has the name of the target with `.partial` after it.
/// It gets its name once it is whole, and replaces nothing. So a stop at any moment leaves nothing of
/// the name `target`, or a whole copy; the other name may be left beside. After an error nothing is
/// left of it, as far as the system removes it. What the system has for it is told how far a large
/// copy is.
///
/// `New` with `WrongSize`: the number of pages is not from 64 to 65,536; no file is opened. `File`:
/// what `read_file` refuses of the file. `New`: `Exists`, where there is something of the name
/// `target`, which is left as it is; `Partial`, where there is something of the name that the copy has
/// until it is whole, which is left as it is; `NoRoom`, where the database has no room in so many
/// pages, with how many it wants at least; `Device`, where the system does not make the file or name
/// it, or a call on it fails; `Memory`, where an allocation failed.
pub fn copy_file<Y: System>(
    system: &mut Y,
    alloc: Global,
    path: &str,
    target: &str,
    pages: u32,
) -> Result<(), CopyRefusal>
    ensures copies { CopiesFile Y.Device.Device Y.state (Y.state system.old) path.now target.now pages
        result (Y.state system.new) }
    ensures left { (Y.state system.old).faithful → target.now ≢ path.now
        → LeavesCopy Y.Device.Device path.now target.now (Y.state system.old) (Y.state system.new) }
{
    if pages > MAX_PAGES {
        return Err(CopyRefusal::New(CommandFault::WrongSize));
    }
    let Some(_pages) = page_count(SECTORS_PER_PAGE * pages) else {
        return Err(CopyRefusal::New(CommandFault::WrongSize));
    };
    let device = match system.open(path, Access::Read) {
        Ok(device) => device,
        Err(fault) => return Err(CopyRefusal::File(CommandFault::from(fault))),
    };
    let (left, copied) = copy_beside(system, alloc, device, target, pages);
    system.close(path, left);
    copied
}

// Copies the database on a device to a new file, where nothing has its name, and hands the device
// back.
fn copy_beside<Y: System>(
    system: &mut Y,
    alloc: Global,
    device: Y::Device,
    target: &str,
    pages: u32,
) -> (Y::Device, Result<(), CopyRefusal>)
    requires { pages ≤ MAX_PAGES }
    ensures copies { CopiesBeside Y.Device.Device (Y.state system.old) (partial_path target.now)
        target.now pages device result.1 result.0 (Y.state system.new) }
    ensures left { (Y.state system.old).faithful → (Y.Device.state device).faithful
        → LeavesCopyOf Y.Device.Device device target.now (Y.state system.old) (Y.state system.new) }
{
    let found = match system.has_name(target) {
        Ok(found) => found,
        Err(cause) => return (device, Err(CopyRefusal::New(CommandFault::Device(cause)))),
    };
    if found {
        return (device, Err(CopyRefusal::New(CommandFault::Exists)));
    }
    match partial_name(alloc, target) {
        Ok(partial) => copy_as(system, alloc, device, partial.as_str(), target, pages),
        Err(_) => (device, Err(CopyRefusal::New(CommandFault::Memory))),
    }
}

// The name that a copy has until it is whole. The only error is that an allocation failed.
pub(crate) fn partial_name(alloc: Global, target: &str) -> Result<String, AllocError>
    ensures { IfOk result (λ name. string_bytes name ≡ partial_path target.now) }
{
    let mut name = String::from_str(alloc, target)?;
    name.push_str(PARTIAL)?;
    Ok(name)
}

// Copies the database on a device to a new file, which has one name until it is whole and another
// then, and hands the device back.
fn copy_as<Y: System>(
    system: &mut Y,
    alloc: Global,
    device: Y::Device,
    partial: &str,
    target: &str,
    pages: u32,
) -> (Y::Device, Result<(), CopyRefusal>)
    requires size { pages ≤ MAX_PAGES }
    requires names { target.now ≢ partial.now }
    ensures copies { CopiesBeside Y.Device.Device (Y.state system.old) partial.now target.now pages
        device result.1 result.0 (Y.state system.new) }
    ensures left { (Y.state system.old).faithful → (Y.Device.state device).faithful
        → LeavesCopyOf Y.Device.Device device target.now (Y.state system.old) (Y.state system.new) }
{
    let blank = match system.make(partial, pages) {
        Ok(blank) => blank,
        Err(fault) => return (device, Err(partial_fault(fault))),
    };
    let (left, copy, copied) = copy_with_progress(alloc, device, blank, system.copy_progress());
    match copied {
        Ok(()) => (left, rename_copy(system, partial, target, copy)),
        Err(fault) => {
            // That it stays where the system does not take it away is told by no other fault.
            let _ = system.remove(partial, copy);
            (left, Err(CopyRefusal::of(fault, pages)))
        }
    }
}

// Copies the database on a device to another device, while its progress is told.
fn copy_with_progress<D: JournalDevice, W: CopyProgress + Drop>(
    alloc: Global,
    device: D,
    blank: D,
    progress: W,
) -> (D, D, Result<(), CopyFault>)
    ensures history { KeepsHistory (D.state device) (D.state result.0) }
    ensures unwritten { (D.state device).faithful → KeepsContent (D.state device) (D.state result.0) }
    ensures copies { (D.state device).faithful
        → CopiesDatabase (D.state device) (D.state result.0) D.state result.2 blank result.1 }
{
    let mut progress = progress;
    copy_database(alloc, device, blank, &mut progress)
}

// Why nothing was made under the name that a copy has until it is whole.
pub(crate) fn partial_fault(fault: FileFault) -> CopyRefusal
    ensures { result ≡ of_partial fault }
{
    match fault {
        FileFault::Exists => CopyRefusal::New(CommandFault::Partial),
        FileFault::Memory => CopyRefusal::New(CommandFault::Memory),
        FileFault::Device(cause) => CopyRefusal::New(CommandFault::Device(cause)),
    }
}

// Gives a copy that is whole its name, or takes it away.
pub(crate) fn rename_copy<Y: System>(
    system: &mut Y,
    partial: &str,
    target: &str,
    copy: Y::Device,
) -> Result<(), CopyRefusal>
    ensures renames { Renames (Y.state system.old) partial.now target.now copy result
        (Y.state system.new) }
    ensures left { (Y.state system.old).faithful → target.now ≢ partial.now
        → LeavesAlso target.now copy (Y.state system.old) (Y.state system.new) }
{
    match system.rename(partial, target, copy) {
        Ok(()) => Ok(()),
        Err((copy, fault)) => {
            // That it stays where the system does not take it away is told by no other fault.
            let _ = system.remove(partial, copy);
            Err(CopyRefusal::New(CommandFault::from(fault)))
        }
    }
}
