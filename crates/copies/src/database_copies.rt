//! A copy of the database on a device.

ghost use Rattle.std.specs.Prelude.{IfErr};
ghost use Rattle.sector_device.specs.Device.{KeepsHistory as DeviceHistory};
ghost use Rattle.store.specs.Store.{KeepsHistory, stored};
ghost use Rattle.cow_pages.specs.Held.{KeepsContent};
ghost use Rattle.copies.specs.DatabaseCopies.{CopiesDatabase, CopiesStore};
ghost use Rattle.copies.specs.DeviceCopies.{HasSourceCause};

use crate::fault::CopyFault;
use crate::marks::copied_records_stand;
use crate::source::read_source;
use crate::under::copy_under;
use journal_store::{DeviceStore, JournalDevice};
use sector_device::{CopyProgress, Device};
use std::alloc::Global;
use store::Store;

/// Copies the database on a device to another device, of 64 to 65,536 whole pages, in the current record format, and hands
/// both back. The source may be of either record format, with a journal or without; it is only read, and all its definitions
/// and rows are checked before anything is written. What was on the device of the copy before is lost.
///
/// After `Ok` each image that a stop leaves of the copy has exactly the source's records, and stands for the same
/// database. On a device that was blank, as a new one of zeros is, a stop at any moment leaves no contents, or records that
/// stand for no database, or the whole copy; and after each fault but `Device` it leaves no whole copy.
///
/// `Pages`, `Read`: no database is on the source, or its device failed, or an allocation did before anything was written.
/// `WrongSize`: the device of the copy has another size; nothing was written. `Full`: no room is left on it; it names how many
/// pages a copy wants at least. `Write` with `Device`: it failed; with `Memory`: an allocation failed in the copy. No other
/// fault of a commit comes.
///
/// The progress is told now and then how far a large copy is.
pub fn copy_database<D: JournalDevice, E: Device, W: CopyProgress>(
    alloc: Global,
    source: D,
    target: E,
    progress: &mut W,
) -> (D, E, Result<(), CopyFault>)
    ensures history { DeviceHistory (D.state source) (D.state result.0) }
    ensures unwritten { (D.state source).faithful → KeepsContent (D.state source) (D.state result.0) }
    ensures copies { (D.state source).faithful
        → CopiesDatabase (D.state source) (D.state result.0) E.state result.2 target result.1 }
{
    let mut store = match DeviceStore::open(alloc, source) {
        Ok(store) => store,
        Err((source, fault)) => return (source, target, Err(CopyFault::Pages(fault))),
    };
    let (target, copied) = copy_store(alloc, &mut store, target, progress);
    (store.into_device(), target, copied)
}

// Copies the database that the contents of a store stand for to a device.
fn copy_store<S: Store, E: Device, W: CopyProgress>(
    alloc: Global,
    store: &mut S,
    target: E,
    progress: &mut W,
) -> (E, Result<(), CopyFault>)
    ensures preserved { S.preserved store.old store.new }
    ensures history { KeepsHistory (S.state store.old) (S.state store.new) }
    ensures copies { (S.state store.old).sound
        → CopiesStore (stored (S.state store.old)) E.state result.1 target result.0 }
    ensures cause { IfErr result.1 (λ fault. HasSourceCause fault (S.state store.old) (S.state store.new)) }
{
    // For the proof: copied records stand for the same database.
    copied_records_stand();
    let lists = match read_source(alloc, store) {
        Ok(lists) => lists,
        Err(fault) => return (target, Err(CopyFault::Read(fault))),
    };
    copy_under(alloc, store, lists.as_slice(), target, progress)
}
