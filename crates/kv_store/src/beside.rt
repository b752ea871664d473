//! Sectors that a device keeps beside the pages of a store.
ghost use Rattle.std.specs.Prelude.{◌≤◌, ◌+◌};
ghost use Rattle.store.specs.Store.{Contents};
ghost use Rattle.cow_pages.specs.Cow.{device_below};
ghost use Rattle.kv_store.specs.Contents.{HoldsContents};
ghost use Rattle.kv_store.specs.TreeStore.{pages_of, IsStill};

use crate::tree_store::TreeStore;
use sector_device::{ProtectedSectors, SECTOR_SIZE, SECTORS_PER_PAGE};
use store::StoreFault;

impl<D: ProtectedSectors> TreeStore<D> {
    ghost use Rattle.std.specs.Prelude.{◌<◌, ℕ, length};
    ghost use Rattle.cow_pages.specs.Calls.{WritesProtected};
    ghost use Rattle.kv_store.specs.Numbered.{LeavesBefore};
    ghost use Rattle.kv_store.specs.Beside.{KeepsStore, WritesBeside};

    /// Writes sectors that the device keeps beside the pages, one after the other, from `first` on, and makes them last
    /// with one sync. A stop during the call or after it leaves in each of them, by itself, what it might have left before
    /// or the bytes written to it; after `Ok` these alone. The contents stay, and a stop leaves them. Device: the device
    /// failed in this call or an earlier one.
    pub fn write_protected(
        &mut self,
        first: u32,
        sectors: &[[u8; SECTOR_SIZE]],
    ) -> Result<(), StoreFault>
        requires room { SECTORS_PER_PAGE ≤ (device_below (pages_of self.old)).sectors }
        requires beside { (i : ℕ) → i < length sectors.now
            → (device_below (pages_of self.old)).beside (first + i) }
        ensures device { WritesProtected first sectors.now result
            (device_below (pages_of self.old)) (device_below (pages_of self.new)) }
        ensures leaves { (contents : Contents) → HoldsContents contents (pages_of self.old)
            → LeavesBefore contents (pages_of self.old) (pages_of self.new) }
        ensures keeps { KeepsStore self.old self.new }
        ensures outcome { WritesBeside result self.old self.new }
        ensures still { IsStill result self.old self.new }
    {
        if self.has_failed {
            return Err(StoreFault::Device);
        }
        match self.pages.below.write_protected(first, sectors) {
            Ok(()) => Ok(()),
            Err(_) => {
                self.count(StoreFault::Device);
                Err(StoreFault::Device)
            }
        }
    }
}
