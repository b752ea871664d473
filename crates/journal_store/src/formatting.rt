//! A new store with a journal on a device.
ghost use Rattle.std.specs.Prelude.{◌≡◌, ◌≤◌, true, length, OnOk, OnErr};
ghost use Rattle.storage_sizes.specs.Sizes.{max_value_length};
ghost use Rattle.sector_device.specs.Device.{KeepsSize, HasFailed};
ghost use Rattle.cow_pages.specs.Image.{is_size};
ghost use Rattle.store.specs.Records.{IsKeySize};
ghost use Rattle.journal_store.specs.Clearing.{ClearsSome, IsCleared};
ghost use Rattle.journal_store.specs.Formatting.{Formats};

use crate::devices::JournalDevice;
use crate::stores::{JOURNAL_ROOM, JOURNAL_START, JournalStore};
use cow_pages::{Format, OpenFault, PAGE_SIZE, format};
use kv_store::write_leaf_of;
use sector_device::{DeviceFault, SECTOR_SIZE};
use std::alloc::Global;
use store::Entry;

// Writes zeros over the six sectors behind the root sectors, with one sync.
pub(crate) fn clear_journal<D: JournalDevice>(device: &mut D) -> Result<(), DeviceFault>
    requires { 8 ≤ (D.state device.old).sectors }
    ensures size { KeepsSize (D.state device.old) (D.state device.new) }
    ensures clears { (D.state device.old).faithful
        → ClearsSome (D.state device.old) (D.state device.new) }
    ensures cleared { (D.state device.old).faithful → OnOk result (IsCleared (D.state device.new)) }
    ensures cause { OnErr result (HasFailed (D.state device.old) (D.state device.new)) }
{
    let sectors = [[0; SECTOR_SIZE]; JOURNAL_ROOM as usize];
    device.write_protected(JOURNAL_START, &sectors)
}

impl<D: JournalDevice> JournalStore<D> {
    /// Makes a new store on a device of 64 to 65,536 whole pages, with one record, under number 1, and a journal that has
    /// none. What was on the device before is lost, though only sectors 0 to 7 and those of pages 1 and 2 are written: zeros
    /// over the sectors of the journal first, and then the pages as `PageStore::format` writes them.
    ///
    /// On a device that is blank, as a new one of zeros is, a stop at any moment leaves no database or the new one whole,
    /// also where the device fails. `Memory`: an allocation failed, and nothing was written. `Device`: the device failed.
    pub fn format(alloc: Global, device: &mut D, first: &Entry) -> Result<(), OpenFault>
        requires size { is_size (D.state device.old).sectors ≡ true }
        requires key { IsKeySize first.now.0 }
        requires value { length first.now.1 ≤ max_value_length }
        ensures { Formats D.Device first.now result device.old device.new }
    {
        let mut page = [0; PAGE_SIZE];
        write_leaf_of(alloc, first, &mut page)?;
        let Ok(()) = clear_journal(device) else {
            return Err(OpenFault::Device);
        };
        match format(device, Format::Three, &page) {
            Ok(()) => Ok(()),
            Err(_) => Err(OpenFault::Device),
        }
    }
}
