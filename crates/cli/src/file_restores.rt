//! A database in a new file, made of the dump in a file; and whether a dump is whole.

ghost use Rattle.std.specs.Prelude.{◌≡◌, ◌≢◌, ◌≤◌};
ghost use Rattle.cli.specs.Copying.{partial_path};
ghost use Rattle.cli.specs.NewFiles.{LeavesMadeOf, MakesBeside};
ghost use Rattle.cli.specs.Restoring.{ChecksAsDump, ChecksOrDump, LeavesRestored, RestoresFile, answer_of, has_no_database, of_dump, of_restore, restoring};

use crate::copy_fault::CopyRefusal;
use crate::fault::CommandFault;
use crate::file_copies::{partial_fault, partial_name, rename_copy};
use copies::CopyFault;
use cow_pages::page_count;
use database_dumps::{RestoreFault, RestoredRoles, restore_database};
use dumps::{DumpFault, check_dump};
use sector_device::{CopyProgress, Device, SystemCause};
use std::alloc::Global;
use storage_sizes::{MAX_PAGES, SECTORS_PER_PAGE};
use store::StoreFault;
use systems::{Access, System};

/// Makes a database of the dump in the file at `path`, in a new file at `target` of so many pages of 4,096 bytes. Others may read
/// the dump meanwhile. Both files are closed then. It answers how many roles of the database are superusers or may log in.
///
/// The database is made in a file of its own, which has the name of the target with `.partial` after it. It gets its name once all
/// of it was read and checked, and replaces nothing. So a stop at any moment leaves nothing of the name `target`, or the whole
/// database; the other name may be left beside. After an error nothing is left of it, as far as the system removes it.
///
/// `New` with `WrongSize`: the number of pages is not from 64 to 65,536; no file is opened. `File`: `NotADump`, `OtherDump` and
/// `DamagedDump`, where no dump of a database is there, and what `System::open` refuses. `New`: `Exists` and `Partial`, as
/// `copy_file` has them; `NoDumpRoom`, where the database has no room in so many pages; `Device`, where the system does not make the
/// file or name it, or a call on it fails; `Memory`, where an allocation failed.
pub fn restore_file<Y: System>(
    system: &mut Y,
    alloc: Global,
    path: &str,
    target: &str,
    pages: u32,
) -> Result<RestoredRoles, CopyRefusal>
    ensures restores { RestoresFile Y.Device.Device Y.state (Y.state system.old) path.now target.now
        pages result (Y.state system.new) }
    ensures left { (Y.state system.old).faithful → target.now ≢ path.now
        → LeavesRestored Y.Device.Device path.now target.now pages (Y.state system.old)
        (Y.state system.new) }
{
    if pages > MAX_PAGES {
        return Err(CopyRefusal::New(CommandFault::WrongSize));
    }
    let Some(_pages) = page_count(SECTORS_PER_PAGE * pages) else {
        return Err(CopyRefusal::New(CommandFault::WrongSize));
    };
    let dump = match system.open(path, Access::Read) {
        Ok(dump) => dump,
        Err(fault) => return Err(CopyRefusal::File(CommandFault::from(fault))),
    };
    let (left, restored) = restore_beside(system, alloc, dump, target, pages);
    system.close(path, left);
    restored
}

// Makes a database of the dump on a device in a new file, where nothing has its name, and hands the device back.
fn restore_beside<Y: System>(
    system: &mut Y,
    alloc: Global,
    dump: Y::Device,
    target: &str,
    pages: u32,
) -> (Y::Device, Result<RestoredRoles, CopyRefusal>)
    requires { pages ≤ MAX_PAGES }
    ensures makes { MakesBeside Y.Device.Device (restoring Y.Device.Device pages)
        (Y.state system.old) (partial_path target.now) target.now dump result.1 result.0
        (Y.state system.new) }
    ensures left { (Y.state system.old).faithful → (Y.Device.state dump).faithful
        → LeavesMadeOf (restoring Y.Device.Device pages) dump target.now (Y.state system.old)
        (Y.state system.new) }
{
    let found = match system.has_name(target) {
        Ok(found) => found,
        Err(cause) => return (dump, Err(CopyRefusal::New(CommandFault::Device(cause)))),
    };
    if found {
        return (dump, Err(CopyRefusal::New(CommandFault::Exists)));
    }
    match partial_name(alloc, target) {
        Ok(partial) => restore_as(system, alloc, dump, partial.as_str(), target, pages),
        Err(_) => (dump, Err(CopyRefusal::New(CommandFault::Memory))),
    }
}

// Makes a database in a new file, which has one name until it is whole and another then.
fn restore_as<Y: System>(
    system: &mut Y,
    alloc: Global,
    dump: Y::Device,
    partial: &str,
    target: &str,
    pages: u32,
) -> (Y::Device, Result<RestoredRoles, CopyRefusal>)
    requires size { pages ≤ MAX_PAGES }
    requires names { target.now ≢ partial.now }
    ensures makes { MakesBeside Y.Device.Device (restoring Y.Device.Device pages)
        (Y.state system.old) partial.now target.now dump result.1 result.0 (Y.state system.new) }
    ensures left { (Y.state system.old).faithful → (Y.Device.state dump).faithful
        → LeavesMadeOf (restoring Y.Device.Device pages) dump target.now (Y.state system.old)
        (Y.state system.new) }
{
    let blank = match system.make(partial, pages) {
        Ok(blank) => blank,
        Err(fault) => return (dump, Err(partial_fault(fault))),
    };
    let mut progress = system.copy_progress();
    let (left, made, restored) = restore_database(alloc, dump, blank, &mut progress);
    match restored {
        Ok(roles) => match rename_copy(system, partial, target, made) {
            Ok(()) => (left, Ok(roles)),
            Err(refusal) => (left, Err(refusal)),
        },
        Err(fault) => {
            // That it stays where the system does not take it away is told by no other fault.
            let _ = system.remove(partial, made);
            (left, Err(restore_refusal(fault, pages)))
        }
    }
}

// Why no database of so many pages was made of a dump.
fn restore_refusal(fault: RestoreFault, pages: u32) -> CopyRefusal
    ensures { result ≡ of_restore pages fault }
{
    match fault {
        RestoreFault::Dump(fault) => CopyRefusal::File(dump_fault(fault)),
        RestoreFault::New(CopyFault::Write(StoreFault::Full)) => {
            CopyRefusal::New(CommandFault::NoDumpRoom(pages))
        }
        RestoreFault::New(fault) => CopyRefusal::of(fault, pages),
    }
}

// Why a dump was not read.
fn dump_fault(fault: DumpFault) -> CommandFault
    ensures { result ≡ of_dump fault }
{
    match fault {
        DumpFault::NotADump => CommandFault::NotADump,
        DumpFault::OtherVersion(version) => CommandFault::OtherDump(version),
        DumpFault::Damaged => CommandFault::DamagedDump,
        DumpFault::Memory => CommandFault::Memory,
        DumpFault::Device => CommandFault::Device(SystemCause::Other),
    }
}

/// What checking a file answers: where it holds no database, but begins as a dump does, whether that is whole. The faults of a dump
/// are `OtherDump` and `DamagedDump`.
pub(crate) fn check_as_dump<Y: System>(
    system: &mut Y,
    alloc: Global,
    path: &str,
    checked: Result<(), CommandFault>,
) -> Result<(), CommandFault>
    ensures { ChecksOrDump Y.Device.Device (Y.state system.old) path.now checked result
        (Y.state system.new) }
{
    if has_no_database(checked) {
        read_as_dump(system, alloc, path, checked)
    } else {
        checked
    }
}

// Whether what checking a file answers is that no database is there.
fn has_no_database(checked: Result<(), CommandFault>) -> bool
    ensures { result ≡ has_no_database checked }
{
    matches!(
        checked,
        Err(CommandFault::NotADatabase | CommandFault::WrongSize)
    )
}

// Reads a file in which no database is as a dump. Where it is none, or is not opened, what was answered of it is answered again.
fn read_as_dump<Y: System>(
    system: &mut Y,
    alloc: Global,
    path: &str,
    checked: Result<(), CommandFault>,
) -> Result<(), CommandFault>
    ensures { ChecksAsDump Y.Device.Device (Y.state system.old) path.now checked result
        (Y.state system.new) }
{
    let Ok(device) = system.open(path, Access::Read) else {
        return checked;
    };
    let (left, whole) = check_dump(alloc, device);
    system.close(path, left);
    answer_of(checked, whole)
}

// What is answered of a file in which no database is, by what reading it as a dump came to.
fn answer_of(
    checked: Result<(), CommandFault>,
    whole: Result<(), DumpFault>,
) -> Result<(), CommandFault>
    ensures { result ≡ answer_of checked whole }
{
    match whole {
        Ok(()) => Ok(()),
        Err(DumpFault::NotADump) => checked,
        Err(fault) => Err(dump_fault(fault)),
    }
}
