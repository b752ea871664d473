//! Commands that answer no event, over any device: each is one of those that follow each other.

ghost use Rattle.std.specs.Prelude.{MatchResult};
ghost use Rattle.databases.specs.Openings.{IsRefused};
ghost use Rattle.durability_laws.specs.EventlessCommands.{ChecksFrom, CopiesFrom, SwitchesFrom, TurnsJournal};

use copies::{CopyFault, copy_database};
use databases::{DatabaseFault, open_database};
use journal_store::{JournalDevice, MAX_CACHE_PAGES, SwitchFault, turn_off, turn_on};
use sector_device::{CopyProgress, Device};
use server::decide::EventHandler;
use std::alloc::Global;

/// Opens the database on a device and closes it again. It answers whether the database was migrated, or
/// why it was not opened.
pub fn check_device<D: JournalDevice, X: EventHandler + Drop>(
    alloc: Global,
    device: D,
    handler: X,
) -> (D, Result<bool, DatabaseFault>)
    ensures { (D.state device).faithful → MatchResult result.1
        (λ _. ChecksFrom D.Device X device result.0)
        (λ fault. IsRefused (D.state device) fault (D.state result.0)) }
{
    match open_database(alloc, device, handler, MAX_CACHE_PAGES) {
        Ok(opened) => {
            let was_migrated = opened.was_migrated;
            (opened.server.into_store().into_device(), Ok(was_migrated))
        }
        Err((device, fault)) => (device, Err(fault)),
    }
}

/// Copies the database on a device to another device, and hands both back.
pub fn copy_device<D: JournalDevice, W: CopyProgress>(
    alloc: Global,
    source: D,
    target: D,
    progress: &mut W,
) -> (D, D, Result<(), CopyFault>)
    ensures { (D.state source).faithful
        → CopiesFrom D.Device result.2 source result.0 target result.1 }
{
    copy_database(alloc, source, target, progress)
}

/// Turns the journal of a device on or off. It answers the number that its contents have then, or why
/// the journal is as it was.
pub fn switch_device<D: JournalDevice>(
    alloc: Global,
    device: D,
    on: bool,
) -> (D, Result<u64, SwitchFault>)
    ensures { (D.state device).faithful → SwitchesFrom D.Device on result.1 device result.0 }
{
    turn(alloc, device, on)
}

// Turns the journal of a device on or off.
fn turn<D: JournalDevice>(alloc: Global, device: D, on: bool) -> (D, Result<u64, SwitchFault>)
    ensures { TurnsJournal D.Device on (D.state device) result.1 (D.state result.0) }
{
    if on {
        turn_on(alloc, device)
    } else {
        turn_off(alloc, device)
    }
}
