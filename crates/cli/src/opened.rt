//! The database in a file, which is opened for a command.

ghost use Rattle.std.specs.Prelude.{◌≡◌, true, Err, IfOk, OnOk};
ghost use Rattle.std.specs.Io.KnownBytes.{Appends};
ghost use Rattle.sector_device.specs.Device.{IsSynced};
ghost use Rattle.databases.specs.Openings.{state_under};
ghost use Rattle.cli.specs.Files.{IsOpenedAt, OpensAt};
ghost use Rattle.cli.specs.Migrations.{TellsMigration, migration_text};

use crate::fault::CommandFault;
use databases::{Opened, open_database, renewed};
use journal_store::{DeviceStore, MAX_CACHE_PAGES};
use sector_device::Device;
use server::decide::EventHandler;
use server::server::Server;
use std::alloc::Global;
use std::io;
use std::io::Write;
use systems::{Access, System};

/// How a command over a file ended, and whether standard error took the line that says that the file
/// was migrated, where it was owed one.
#[derive(Drop)]
pub struct CommandEnd<T> {
    pub outcome: Result<T, CommandFault>,
    pub told: bool,
}

impl<T> CommandEnd<T> {
    /// The end of a command that did not open the database: nothing was owed.
    pub(crate) fn unopened(fault: CommandFault) -> CommandEnd<T>
        ensures outcome { result.outcome ≡ Err fault }
        ensures told { result.told ≡ true }
    {
        CommandEnd {
            outcome: Err(fault),
            told: true,
        }
    }
}

/// Opens the database in the file at `path`, whose events `handler` decides, with the largest cache,
/// to answer from it: once it is accepted its first page is brought to the medium as it is read.
/// Where it is refused, or that fails, the file is closed again.
///
/// The faults are those of `open_to_check_in`, and then `Device`, where that failed.
pub(crate) fn open_database_in<Y: System, X: EventHandler + Drop>(
    system: &mut Y,
    alloc: Global,
    handler: X,
    path: &str,
) -> Result<Opened<Y::Device, X>, CommandFault>
    ensures opens { OpensAt Y.Device.Device (Y.state system.old) path.now result
        (Y.state system.new) }
    ensures renewed { (Y.state system.old).faithful
        → IfOk result (λ opened. IsSynced (state_under opened.server)) }
{
    match open_to_check_in(system, alloc, handler, path) {
        Ok(opened) => renew_in(system, path, opened),
        Err(fault) => Err(fault),
    }
}

// Brings the first page of the device below a database that was just opened to the medium, as it is
// read. Where that fails the file is closed again. It is not inlined: else the servers that it moves
// would have room on the stack while the database is opened, which takes most of the stack.
#[inline(never)]
fn renew_in<Y: System, X: EventHandler + Drop>(
    system: &mut Y,
    path: &str,
    opened: Opened<Y::Device, X>,
) -> Result<Opened<Y::Device, X>, CommandFault>
    ensures opens { (first : Y) → IsOpenedAt Y.Device.Device (Y.state first) path.now opened
        (Y.state system.old)
        → OpensAt Y.Device.Device (Y.state first) path.now result (Y.state system.new) }
    ensures renewed { (state_under opened.server).faithful
        → IfOk result (λ ready. IsSynced (state_under ready.server)) }
{
    match renewed(opened) {
        Ok(ready) => Ok(ready),
        Err((device, fault)) => {
            system.close(path, device);
            Err(CommandFault::from(fault))
        }
    }
}

/// Opens the database in the file at `path`, whose events `handler` decides, with the largest cache,
/// to answer nothing from it. Where it is refused the file is closed again.
///
/// The faults are those of `System::open`, and then those of `open_database`.
pub(crate) fn open_to_check_in<Y: System, X: EventHandler + Drop>(
    system: &mut Y,
    alloc: Global,
    handler: X,
    path: &str,
) -> Result<Opened<Y::Device, X>, CommandFault>
    ensures { OpensAt Y.Device.Device (Y.state system.old) path.now result (Y.state system.new) }
{
    let device = match system.open(path, Access::Write) {
        Ok(device) => device,
        Err(fault) => return Err(CommandFault::from(fault)),
    };
    match open_database(alloc, device, handler, MAX_CACHE_PAGES) {
        Ok(opened) => Ok(opened),
        Err((left, fault)) => {
            system.close(path, left);
            Err(CommandFault::from(fault))
        }
    }
}

/// Tells on `err` that a file was migrated, where it was, and answers whether `err` took that. Of
/// another file nothing is told.
pub(crate) fn tell_migration<E: Write>(was_migrated: bool, path: &str, err: &mut E) -> bool
    ensures { TellsMigration was_migrated path.now result (E.contents err.old)
        (E.contents err.new) }
{
    if was_migrated {
        write_migration(path, err).is_ok()
    } else {
        true
    }
}

// Writes the line of a migration.
fn write_migration<E: Write>(path: &str, err: &mut E) -> io::Result<()>
    ensures { OnOk result (Appends (E.contents err.old) (E.contents err.new)
        (migration_text path.now)) }
{
    writeln!(
        err,
        "guarddb: {path} was of format 1 and is of format 2 now"
    )
}
