//! How many pages a dump has.
ghost use Rattle.std.specs.Prelude.{◌≡◌, IfErr};
ghost use Rattle.sector_device.specs.Device.{KeepsHistory as DeviceHistory};
ghost use Rattle.store.specs.Store.{KeepsHistory, OnlyReads, stored};
ghost use Rattle.store.specs.declared.fault.Fault.{Fault};
ghost use Rattle.cow_pages.specs.Held.{KeepsContent};
ghost use Rattle.transactions.specs.Views.{applied_all};
ghost use Rattle.abstract_database.specs.Database.{Database};
ghost use Rattle.stored_database.specs.BothRecordFormats.{Stands};
ghost use Rattle.copies.specs.RecordCopies.{HasOutsized, behind_mark};
ghost use Rattle.copies.specs.declared.fault.CopyFault.TheVariants.{Full, Read};
ghost use Rattle.database_dumps.specs.Counting.{CountsPages, HasCountCause, HasRecordsCause, HasPageCount};

use crate::record_dumps::MOST_LISTS;
use copies::{CopyFault, copied_records_stand, first_place, read_source, take_records};
use dumps::list_pages;
use journal_store::{DeviceStore, JournalDevice};
use sector_device::Device;
use std::alloc::Global;
use storage_sizes::MAX_PAGES;
use store::{Batch, Fault, Map, Store, StoreFault};
use transactions::View;

// The pages of the head and of the end.
const HEAD_AND_END: u64 = 2;

/// How many pages a dump of the database on a device has, which is handed back. All its definitions and rows are checked, and not
/// one sector is written.
///
/// `Pages`, `Read`: as `copy_database` has them. `Full`: a dump has more pages than a file may have, so many. `Write` with
/// `Memory`: an allocation failed.
pub fn pages_of_dump<D: JournalDevice>(alloc: Global, source: D) -> (D, Result<u32, CopyFault>)
    ensures history { DeviceHistory (D.state source) (D.state result.0) }
    ensures unwritten { (D.state source).faithful → KeepsContent (D.state source) (D.state result.0) }
    ensures counts { (D.state source).faithful
        → CountsPages (D.state source) (D.state result.0) result.1 }
    ensures most { HasPageCount result.1 }
{
    let mut store = match DeviceStore::open(alloc, source) {
        Ok(store) => store,
        Err((source, fault)) => return (source, Err(CopyFault::Pages(fault))),
    };
    let counted = pages_of_store(alloc, &mut store);
    (store.into_device(), counted)
}

// How many pages a dump has of the database that the contents of a store stand for.
fn pages_of_store<S: Store>(alloc: Global, store: &mut S) -> Result<u32, CopyFault>
    ensures preserved { S.preserved store.old store.new }
    ensures history { KeepsHistory (S.state store.old) (S.state store.new) }
    ensures most { HasPageCount result }
    ensures cause { IfErr result (λ fault. HasCountCause fault (S.state store.old)
        (S.state store.new)) }
    ensures damaged { (S.state store.old).sound → (db : Database)
        → Stands (stored (S.state store.old)) db
        → IfErr result (λ fault. fault ≡ Read Fault.Damaged → ⊥) }
{
    // For the proof: copied records stand for the same database.
    copied_records_stand();
    let lists = match read_source(alloc, store) {
        Ok(lists) => lists,
        Err(fault) => return Err(CopyFault::Read(fault)),
    };
    match count_under(alloc, store, lists.as_slice()) {
        Ok(pages) => within_a_file(pages),
        Err(fault) => Err(fault),
    }
}

// So many pages, where a file may have them.
fn within_a_file(pages: u64) -> Result<u32, CopyFault>
    ensures most { HasPageCount result }
    ensures cause { IfErr result (λ fault. fault ≡ Full pages) }
{
    if pages > u64::from(MAX_PAGES) {
        return Err(CopyFault::Full(pages));
    }
    Ok(pages as u32)
}

// The pages of a dump of the records of a map under lists of changes.
fn count_under<M: Map>(alloc: Global, map: &mut M, lists: &[Batch]) -> Result<u64, CopyFault>
    ensures preserved { M.preserved map.old map.new }
    ensures history { KeepsHistory (M.state map.old) (M.state map.new) }
    ensures cause { IfErr result (λ fault. HasRecordsCause fault (M.state map.old) (M.state map.new)) }
    ensures damaged { (M.state map.old).sound → IfErr result (λ fault. fault ≡ Read Fault.Damaged
        → HasOutsized (behind_mark (applied_all lists.now (M.state map.old).map))) }
{
    let mut view = View::new(alloc, map, lists);
    let counted = count_pages(alloc, &mut view);
    view.into_map();
    counted
}

// The pages of a dump of the records of a map, list by list as they are written.
fn count_pages<M: Map>(alloc: Global, source: &mut M) -> Result<u64, CopyFault>
    ensures preserved { M.preserved source.old source.new }
    ensures reads { OnlyReads (M.state source.old) (M.state source.new) }
    ensures cause { IfErr result (λ fault. HasRecordsCause fault (M.state source.old)
        (M.state source.new)) }
    ensures damaged { (M.state source.old).sound → IfErr result (λ fault. fault ≡ Read Fault.Damaged
        → HasOutsized (behind_mark (M.state source.old).map)) }
{
    let mut at = first_place(source)?;
    let mut bytes = 0;
    let mut pages = HEAD_AND_END;
    for _ in 0..MOST_LISTS {
        let mut batch = Batch::new(alloc);
        let more = take_records(source, &mut at, &mut batch, &mut bytes)?;
        let Some(count) = list_pages(alloc, &batch)? else {
            return Err(CopyFault::Write(StoreFault::Memory));
        };
        pages = pages.saturating_add(count);
        if !more {
            return Ok(pages);
        }
    }
    Err(CopyFault::Read(Fault::Memory))
}
