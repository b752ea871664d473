//! How the journal of a store is turned off.
ghost use Rattle.std.specs.Prelude.{◌≡◌, false};
ghost use Rattle.journal_store.specs.Stores.{journal_state};
ghost use Rattle.journal_store.specs.DeviceOpening.{IsOpened};
ghost use Rattle.journal_store.specs.TurningOff.{TurnsOff};

use crate::device_stores::DeviceStore;
use crate::devices::JournalDevice;
use crate::emptying::rid_of_older;
use crate::stores::JournalStore;
use crate::switch_fault::SwitchFault;
use std::alloc::Global;
use store::{Batch, Store};

// Commits what waits to the pages, and then a root that says that there is no journal; and empties the other root sector, which
// says that there is one. The device is handed back.
fn end_journal<D: JournalDevice>(
    alloc: Global,
    store: JournalStore<D>,
) -> (D, Result<u64, SwitchFault>)
    requires { (journal_state store).has_failed ≡ false }
    ensures { (device : D) → IsOpened (D.state device) (DeviceStore.Journaled store)
        → TurnsOff D.Device (D.state device) result.1 (D.state result.0) }
{
    let mut store = store;
    let nothing = Batch::new(alloc);
    match store.checkpoint(&nothing) {
        Ok(()) => {
            let mut pages = store.into_pages();
            match pages.commit_kind(false) {
                Ok(()) => {
                    let number = pages.number();
                    rid_of_older(pages.into_device(), number)
                }
                Err(fault) => (pages.into_device(), Err(SwitchFault::Refused(fault))),
            }
        }
        Err(fault) => (store.into_device(), Err(SwitchFault::Refused(fault))),
    }
}

/// Turns the journal of a store off: all that waits in it is committed to the pages, and then one more commit says that there is
/// no journal. The other root sector, which still says that there is one, is emptied, so that a program that knows of no journal
/// opens the device. It is handed back, with the number that the contents have now: that of the new root, by two greater than
/// that of the root before, and maybe less than the number that they had. Where there is no journal, the other root sector alone
/// is emptied, and only if it says that there is one, as a stop in an earlier call may leave it; the number is as it was.
///
/// The contents stay: a stop at any moment leaves them, with a journal or without; until the device was synced first, also
/// what it might have left before the call. After each error but `Device` there is a journal as before, unless the device had
/// none. `Unopened`: the device was not opened, as `DeviceStore::open` says, and nothing was written. `Refused(Full)`: no room is
/// left in the pages for what waits. `Refused(Number)`: no two numbers are left. `Refused(Memory)`: an allocation failed.
/// `Refused(Device)`: the device failed. `NotMigrated` is never answered. All this of a faithful device; of any the sectors
/// beside are left alone, the size stays and the failures stay counted.
pub fn turn_off<D: JournalDevice>(alloc: Global, device: D) -> (D, Result<u64, SwitchFault>)
    ensures { TurnsOff D.Device (D.state device) result.1 (D.state result.0) }
{
    match DeviceStore::open(alloc, device) {
        Ok(DeviceStore::Pages(store)) => {
            let number = store.number();
            rid_of_older(store.into_device(), number)
        }
        Ok(DeviceStore::Journaled(store)) => end_journal(alloc, store),
        Err((device, fault)) => (device, Err(SwitchFault::Unopened(fault))),
    }
}
