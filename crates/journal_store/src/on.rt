//! How a journal is made behind the roots of a store in pages.
ghost use Rattle.std.specs.Prelude.{◌≡◌, ◌≤◌, ◌+◌, false, OnOk};
ghost use Rattle.storage_sizes.specs.declared.record_format.RecordFormat.TheVariants.{V2};
ghost use Rattle.sector_device.specs.Device.{KeepsSize};
ghost use Rattle.cow_pages.specs.Cow.{device_below, root_of};
ghost use Rattle.kv_store.specs.Contents.{contents_of, is_journaled};
ghost use Rattle.kv_store.specs.TreeStore.{pages_of, store_state, IsSoundStore};
ghost use Rattle.journal_store.specs.Beginning.{Begins};

use crate::devices::JournalDevice;
use kv_store::TreeStore;
use sector_device::SECTOR_SIZE;
use store::StoreFault;

/// Makes a journal behind the roots of a store in pages that has none: writes zeros over the six sectors behind the root sectors,
/// with one sync, and then commits a root that says that there is a journal. The root without one says nothing of these sectors.
///
/// The contents stay: a stop at any moment leaves them, without a journal under the old number, or with one under the next, and
/// from `Ok` on with a journal alone, in which nothing stands. After a fault that is not Device a stop leaves them without a
/// journal, under the old number. Full: no room is left for the map pages that a commit has to write. Number: no number is left.
/// Device: the device failed. Memory is never answered.
pub fn begin_journal<D: JournalDevice>(store: &mut TreeStore<D>) -> Result<(), StoreFault>
    requires works { (store_state store.old).has_failed ≡ false }
    requires room { 8 ≤ (device_below (pages_of store.old)).sectors }
    ensures size { KeepsSize
        (device_below (pages_of store.old)) (device_below (pages_of store.new)) }
    ensures begins { IsSoundStore store.old → is_journaled (pages_of store.old) ≡ false
        → (contents_of (pages_of store.old)).record_format ≡ V2
        → Begins D.Device (contents_of (pages_of store.old)) result (root_of (pages_of store.old))
        (device_below (pages_of store.old)) (device_below (pages_of store.new)) }
    ensures number { IsSoundStore store.old → (contents_of (pages_of store.old)).record_format ≡ V2
        → OnOk result ((root_of (pages_of store.new)).number
        ≡ (root_of (pages_of store.old)).number + 1) }
{
    let sectors = [[0; SECTOR_SIZE]; 6];
    let Ok(()) = store.write_protected(2, &sectors) else {
        return Err(StoreFault::Device);
    };
    store.commit_kind(true)
}
