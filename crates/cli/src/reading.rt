//! The definitions of the database in a file, which is only read.

ghost use Rattle.store.specs.Readers.{HasRead};
ghost use Rattle.store.specs.Store.{StoreState, stored};
ghost use Rattle.cli.specs.Reading.{AreDefinitionsOf, ReadsFile, ReadsOn};

use crate::fault::CommandFault;
use catalogue::definitions::Catalogue;
use databases::DatabaseFault;
use journal_store::{DeviceStore, JournalDevice};
use recovery::{OpeningFault, migration_lists, read_under};
use sector_device::Device;
use std::alloc::Global;
use store::{Fault, Store};
use systems::{Access, System};

/// Reads the definitions of the database in the file at `path`, and checks all of its records. Not one
/// sector of the file is written, of a file of format 1 neither. Others may read it meanwhile. The
/// file is closed then.
///
/// The faults are those of `System::open`; and `WrongSize`, `NotADatabase`, `NewerFormat` and
/// `Damaged`, which name the first fault that stands in the file. `Full` and `Number` never come.
pub fn read_file<Y: System>(
    system: &mut Y,
    alloc: Global,
    path: &str,
) -> Result<Catalogue, CommandFault>
    ensures { ReadsFile Y.Device.Device (Y.state system.old) path.now result
        (Y.state system.new) }
{
    let device = match system.open(path, Access::Read) {
        Ok(device) => device,
        Err(fault) => return Err(CommandFault::from(fault)),
    };
    let (left, read) = read_definitions(alloc, device);
    system.close(path, left);
    match read {
        Ok(catalogue) => Ok(catalogue),
        Err(fault) => Err(CommandFault::from(fault)),
    }
}

/// The definitions of the database that a device holds, which is handed back. All of its records are
/// checked, and not one sector is written. The faults are those of `read_file`, but for those of opening
/// the file.
pub(crate) fn read_definitions<D: JournalDevice>(
    alloc: Global,
    device: D,
) -> (D, Result<Catalogue, DatabaseFault>)
    ensures { (D.state device).faithful → ReadsOn (D.state device) result.1 (D.state result.0) }
{
    let mut store = match DeviceStore::open(alloc, device) {
        Ok(store) => store,
        Err((device, fault)) => return (device, Err(DatabaseFault::Pages(fault))),
    };
    let read = read_store(alloc, &mut store);
    let left = store.into_device();
    match read {
        Ok(catalogue) => (left, Ok(catalogue)),
        Err(fault) => (left, Err(DatabaseFault::Records(OpeningFault::Read(fault)))),
    }
}

// The definitions of the database that the contents of a store stand for, which is only read.
fn read_store<S: Store>(alloc: Global, store: &mut S) -> Result<Catalogue, Fault>
    ensures preserved { S.preserved store.old store.new }
    ensures read { HasRead result (S.state store.old) (S.state store.new) }
    ensures found { (S.state store.old).sound
        → AreDefinitionsOf (stored (S.state store.old)) result }
{
    let lists = match migration_lists(alloc, store) {
        Ok(lists) => lists,
        Err(fault) => return Err(fault),
    };
    read_under(alloc, store, lists.as_slice())
}
