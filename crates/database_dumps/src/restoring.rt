//! A database made of the dump on a device, on another device.
ghost use Rattle.std.specs.Prelude.{◌≡◌, false, Err, IfErr, OnOk};
ghost use Rattle.sector_device.specs.Device.{KeepsHistory as DeviceHistory};
ghost use Rattle.cow_pages.specs.Held.{KeepsContent};
ghost use Rattle.store.specs.Store.{KeepsHistory, OnlyReads, stored};
ghost use Rattle.copies.specs.DeviceCopies.{marked};
ghost use Rattle.copies.specs.declared.fault.CopyFault.TheVariants.{WrongSize};
ghost use Rattle.database_dumps.specs.declared.fault.RestoreFault.TheVariants as restore;
ghost use Rattle.database_dumps.specs.Restoring.{FindsRoles, HasRestoreCause, IsReadCause, RestoresDump, RestoresIn, of_records};

use crate::fault::RestoreFault;
use crate::restored_lists::{commit_lists, unmark};
use crate::roles::{RestoredRoles, count_roles};
use copies::{CopyFault, marked_store};
use dumps::{DumpFault, read_head};
use kv_store::sound_images;
use recovery::read_under;
use sector_device::{CopyProgress, Device};
use std::alloc::Global;
use store::{Fault, Store, StoreFault};

/// Makes a database on a device, of 64 to 65,536 whole pages, of the dump on another, and hands both back. The dump is only read.
/// Each of its lists is one commit; then all definitions and rows are checked. What was on the device before is lost.
///
/// After `Ok` each image that a stop leaves of the device has exactly the records that the lists make, and stands for a database.
/// Until then it has the mark of a copy that is not whole, or its records are not checked yet.
///
/// `Dump`: no dump is there, or its records stand for no database; or its device failed, or an allocation did. `New` with
/// `WrongSize`: the device has another size, and nothing was written. `New` with `Write`: a commit found no room, its device
/// failed, or an allocation did. No other fault comes.
///
/// The progress is told how far a large dump is.
pub fn restore_database<D: Device, E: Device, W: CopyProgress>(
    alloc: Global,
    dump: D,
    target: E,
    progress: &mut W,
) -> (D, E, Result<RestoredRoles, RestoreFault>)
    ensures history { DeviceHistory (D.state dump) (D.state result.0) }
    ensures unwritten { (D.state dump).faithful → KeepsContent (D.state dump) (D.state result.0) }
    ensures restores { (D.state dump).faithful → (E.state target).faithful
        → RestoresDump (D.state dump) (D.state result.0) result.2 (E.state target)
        (E.state result.1) }
    ensures faithful { (E.state target).faithful → OnOk result.2 (E.state result.1).faithful }
    ensures wrong_size { result.2 ≡ Err (restore.New WrongSize) → result.1 ≡ target }
{
    let mut dump = dump;
    let mut store = match marked_store(alloc, target) {
        Ok(store) => store,
        Err((target, fault)) => return (dump, target, Err(RestoreFault::New(fault))),
    };
    let restored = restore_store(alloc, &mut dump, &mut store, progress);
    // For the proof: each image that a crash leaves has contents.
    sound_images(&store);
    (dump, store.into_device(), restored)
}

// Makes a database of the dump on a device, in a store that has the mark alone.
fn restore_store<D: Device, S: Store, W: CopyProgress>(
    alloc: Global,
    dump: &mut D,
    store: &mut S,
    progress: &mut W,
) -> Result<RestoredRoles, RestoreFault>
    ensures dump { DeviceHistory (D.state dump.old) (D.state dump.new) }
    ensures content { (D.state dump.old).faithful
        → KeepsContent (D.state dump.old) (D.state dump.new) }
    ensures history { KeepsHistory (S.state store.old) (S.state store.new) }
    ensures restored { (D.state dump.old).faithful → (S.state store.old).sound
        → (S.state store.old).has_failed ≡ false → stored (S.state store.old) ≡ marked
        → RestoresIn (D.state dump.old) result (S.state store.new) }
    ensures cause { IfErr result (λ fault. HasRestoreCause fault (D.state dump.old)
        (D.state dump.new) (S.state store.old) (S.state store.new)) }
{
    let (_number, mut place) = match read_head(alloc, dump) {
        Ok(begun) => begun,
        Err(fault) => return Err(RestoreFault::Dump(fault)),
    };
    commit_lists(alloc, dump, &mut place, store, progress)?;
    unmark(alloc, store)?;
    roles_in(alloc, store)
}

// How many roles are superusers or may log in, of the database that the records of a store stand for.
fn roles_in<S: Store>(alloc: Global, store: &mut S) -> Result<RestoredRoles, RestoreFault>
    ensures reads { OnlyReads (S.state store.old) (S.state store.new) }
    ensures failed { OnOk result ((S.state store.new).has_failed ≡ (S.state store.old).has_failed) }
    ensures found { (S.state store.old).sound → FindsRoles result (S.state store.old).map }
    ensures cause { IfErr result (λ fault. IsReadCause fault (S.state store.old)
        (S.state store.new)) }
{
    match read_under(alloc, store, &[]) {
        Ok(catalogue) => Ok(count_roles(&catalogue)),
        Err(fault) => Err(fault_of_records(fault)),
    }
}

// Why no database is read of the records that a dump made: they stand for none, or the store failed, or an allocation did.
fn fault_of_records(fault: Fault) -> RestoreFault
    ensures { result ≡ of_records fault }
{
    match fault {
        Fault::Memory => RestoreFault::Dump(DumpFault::Memory),
        Fault::Device => RestoreFault::New(CopyFault::Write(StoreFault::Device)),
        Fault::Damaged => RestoreFault::Dump(DumpFault::Damaged),
    }
}
