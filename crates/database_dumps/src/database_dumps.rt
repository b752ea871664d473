//! A dump of the database on a device, on another device.
ghost use Rattle.std.specs.Prelude.{◌≡◌, Err, IfErr, OnOk};
ghost use Rattle.sector_device.specs.Device.{KeepsHistory as DeviceHistory};
ghost use Rattle.store.specs.Store.{KeepsHistory, stored};
ghost use Rattle.store.specs.declared.fault.Fault.{Fault};
ghost use Rattle.cow_pages.specs.Held.{KeepsContent};
ghost use Rattle.cow_pages.specs.declared.open.OpenFault.{OpenFault};
ghost use Rattle.transactions.specs.Views.{applied_all};
ghost use Rattle.abstract_database.specs.Database.{Database};
ghost use Rattle.stored_database.specs.BothRecordFormats.{Stands};
ghost use Rattle.copies.specs.RecordCopies.{HasOutsized, behind_mark};
ghost use Rattle.copies.specs.declared.fault.CopyFault.TheVariants.{Pages, Read};
ghost use Rattle.dumps.specs.OnDevice.{BeginsWithZeros};
ghost use Rattle.database_dumps.specs.Dumping.{DumpsDatabase, HasDumpCause, HasDumpedRecords, IsDumpOfStore};

use crate::record_dumps::dump_records;
use copies::{CopyFault, copied_records_stand, read_source};
use journal_store::{DeviceStore, JournalDevice};
use sector_device::Device;
use std::alloc::Global;
use store::{Batch, Map, Store};
use transactions::View;

/// Writes a dump of the database on a device to another device of zeros, of exactly as many pages as `pages_of_dump` says, and
/// hands both back. The source may be of either record format, with a journal or without; the dump is of the second. It is only
/// read, and all its definitions and rows are checked before anything is written.
///
/// After `Ok` the device is the dump, also after a stop, and its lists make the records of the source.
///
/// `Pages`, `Read`: as `copy_database` has them; nothing was written where no database is there. `Write`: `Full`: the device has another number of pages than the dump; `Device`:
/// it failed; `Memory`: an allocation failed. No other fault comes.
pub fn dump_database<D: JournalDevice, E: Device>(
    alloc: Global,
    source: D,
    target: E,
) -> (D, E, Result<(), CopyFault>)
    ensures history { DeviceHistory (D.state source) (D.state result.0) }
    ensures unwritten { (D.state source).faithful → KeepsContent (D.state source) (D.state result.0) }
    ensures dumps { (D.state source).faithful
        → DumpsDatabase (D.state source) (D.state result.0) result.2 (E.state target)
        (E.state result.1) }
    ensures target { DeviceHistory (E.state target) (E.state result.1) }
    ensures unopened { (fault : OpenFault) → result.2 ≡ Err (Pages fault) → result.1 ≡ target }
    ensures refused { (D.state source).faithful → result.2 ≡ Err (Read Fault.Damaged)
        → result.1 ≡ target }
{
    let mut store = match DeviceStore::open(alloc, source) {
        Ok(store) => store,
        Err((source, fault)) => return (source, target, Err(CopyFault::Pages(fault))),
    };
    let mut target = target;
    let dumped = dump_store(alloc, &mut store, &mut target);
    (store.into_device(), target, dumped)
}

// Writes a dump of the database that the contents of a store stand for.
fn dump_store<S: Store, E: Device>(
    alloc: Global,
    store: &mut S,
    target: &mut E,
) -> Result<(), CopyFault>
    ensures preserved { S.preserved store.old store.new }
    ensures history { KeepsHistory (S.state store.old) (S.state store.new) }
    ensures target { DeviceHistory (E.state target.old) (E.state target.new) }
    ensures dumped { (S.state store.old).sound → (E.state target.old).faithful
        → BeginsWithZeros (E.state target.old)
        → OnOk result (IsDumpOfStore (S.state store.old) (E.state target.new)) }
    ensures cause { IfErr result (λ fault. HasDumpCause fault (S.state store.old)
        (S.state store.new) (E.state target.old) (E.state target.new)) }
    ensures damaged { (S.state store.old).sound → (db : Database)
        → Stands (stored (S.state store.old)) db
        → IfErr result (λ fault. fault ≡ Read Fault.Damaged → ⊥) }
    ensures refused { (S.state store.old).sound → result ≡ Err (Read Fault.Damaged)
        → target.new ≡ target.old }
{
    // For the proof: copied records stand for the same database.
    copied_records_stand();
    let lists = match read_source(alloc, store) {
        Ok(lists) => lists,
        Err(fault) => return Err(CopyFault::Read(fault)),
    };
    let number = store.number();
    dump_under(alloc, store, lists.as_slice(), number, target)
}

// Writes a dump of the records of a map under lists of changes.
fn dump_under<M: Map, E: Device>(
    alloc: Global,
    map: &mut M,
    lists: &[Batch],
    number: u64,
    target: &mut E,
) -> Result<(), CopyFault>
    ensures preserved { M.preserved map.old map.new }
    ensures history { KeepsHistory (M.state map.old) (M.state map.new) }
    ensures target { DeviceHistory (E.state target.old) (E.state target.new) }
    ensures dumped { (M.state map.old).sound → (E.state target.old).faithful
        → BeginsWithZeros (E.state target.old)
        → OnOk result (HasDumpedRecords (applied_all lists.now (M.state map.old).map) number
        (E.state target.new)) }
    ensures cause { IfErr result (λ fault. HasDumpCause fault (M.state map.old) (M.state map.new)
        (E.state target.old) (E.state target.new)) }
    ensures damaged { (M.state map.old).sound → IfErr result (λ fault. fault ≡ Read Fault.Damaged
        → HasOutsized (behind_mark (applied_all lists.now (M.state map.old).map))) }
{
    let mut view = View::new(alloc, map, lists);
    let dumped = dump_records(alloc, &mut view, number, target);
    view.into_map();
    dumped
}
