//! How the journal of a store is turned on.
ghost use Rattle.std.specs.Prelude.{◌≡◌, true, false};
ghost use Rattle.cow_pages.specs.Cow.{device_below};
ghost use Rattle.kv_store.specs.Contents.{is_journaled};
ghost use Rattle.kv_store.specs.TreeStore.{pages_of, store_state};
ghost use Rattle.kv_store.specs.Opening.{IsOpenedWith, CannotOpenWith};
ghost use Rattle.journal_store.specs.DeviceOpening.{is_damaged as damaged};
ghost use Rattle.journal_store.specs.TurningOn.{TurnsOn};

use crate::devices::JournalDevice;
use crate::on::begin_journal;
use crate::stores::JournalStore;
use crate::switch_fault::SwitchFault;
use kv_store::{DEFAULT_CACHE_PAGES, OpenFault, TreeStore};
use std::alloc::Global;
use store::{RecordFormat, Store};

// Makes a journal in a store that was opened from a device and has none, and hands the device back.
fn make_journal<D: JournalDevice>(store: TreeStore<D>) -> (D, Result<u64, SwitchFault>)
    requires works { (store_state store).has_failed ≡ false }
    requires kind { is_journaled (pages_of store) ≡ false }
    ensures { (device : D)
        → IsOpenedWith false (D.state device) (device_below (pages_of store)) (store_state store)
        → TurnsOn D.Device (D.state device) result.1 (D.state result.0) }
{
    match store.record_format() {
        RecordFormat::V1 => (store.into_device(), Err(SwitchFault::NotMigrated)),
        RecordFormat::V2 => {
            let mut store = store;
            match begin_journal(&mut store) {
                Ok(()) => {
                    let number = store.number();
                    (store.into_device(), Ok(number))
                }
                Err(fault) => (store.into_device(), Err(SwitchFault::Refused(fault))),
            }
        }
    }
}

// Looks for the journal of a device that was not opened as one without a journal.
fn find_journal<D: JournalDevice>(alloc: Global, device: D) -> (D, Result<u64, SwitchFault>)
    ensures { (before : D) (fault : OpenFault) → damaged fault ≡ true
        → CannotOpenWith false (D.state before) fault (D.state device)
        → TurnsOn D.Device (D.state before) result.1 (D.state result.0) }
{
    match JournalStore::open(alloc, device) {
        Ok(store) => {
            let number = store.number();
            (store.into_device(), Ok(number))
        }
        Err((device, fault)) => (device, Err(SwitchFault::Unopened(fault))),
    }
}

/// Turns the journal of a store on: zeros are written over the six sectors behind the root sectors, and synced, and then one
/// commit says that there is a journal. The device is handed back, with the number that the contents have now, which is that of
/// the new root: by one greater than before. Where there is a journal already, nothing is written, and the number is as it was.
///
/// The contents stay: a stop at any moment leaves them, with a journal or without; until the device was synced first, also
/// what it might have left before the call. After each error there is no journal, unless it is `Device`, or the device had
/// one that was not opened. `Unopened`: the device was not opened, as `DeviceStore::open` says, and nothing was written.
/// `NotMigrated`: the records are of record format 1, and nothing was written. `Refused(Full)`: no room is left for the map
/// pages that a commit has to write. `Refused(Number)`: no number is left. `Refused(Device)`: the device failed.
/// `Refused(Memory)` is never answered. All this of a faithful device; the size and the failures of any stay counted.
pub fn turn_on<D: JournalDevice>(alloc: Global, device: D) -> (D, Result<u64, SwitchFault>)
    ensures { TurnsOn D.Device (D.state device) result.1 (D.state result.0) }
{
    match TreeStore::open_with(alloc, device, false, DEFAULT_CACHE_PAGES) {
        Ok(store) => make_journal(store),
        Err((device, fault)) => {
            if is_damaged(fault) {
                find_journal(alloc, device)
            } else {
                (device, Err(SwitchFault::Unopened(fault)))
            }
        }
    }
}

// Whether the fault is that the content is damaged, or only that the root says that there is a journal.
fn is_damaged(fault: OpenFault) -> bool
    ensures { result ≡ damaged fault }
{
    match fault {
        OpenFault::Damaged => true,
        OpenFault::WrongSize
        | OpenFault::NotADatabase
        | OpenFault::NewerFormat(_)
        | OpenFault::Device
        | OpenFault::Memory => false,
    }
}
