//! The first page of the device below a store, brought to the medium as it is read.
ghost use Rattle.std.specs.Prelude.{◌≡◌, ◌≢◌, ◌≤◌, ℕ, false, IfErr, OnOk};
ghost use Rattle.sector_device.specs.Device.{IsSynced};
ghost use Rattle.store.specs.Steps.{Goes};
ghost use Rattle.pages.specs.declared.array.PageFault.TheVariants as faults;
ghost use Rattle.cow_pages.specs.Cow.{device_below, has_failed, working_array};
ghost use Rattle.cow_pages.specs.Preserved.{FailedWith};
ghost use Rattle.page_tree.specs.Calls.{IsCaused};
ghost use Rattle.kv_store.specs.TreeStore.{pages_of, store_state, CountsRead, IsStill};
ghost use Rattle.kv_store.specs.Unwritten.{WritesNothing};

use crate::read_only::ReadOnlyPages;
use crate::tree_store::TreeStore;
use pages::PageFault;
use sector_device::{Device, ProtectedSectors, SECTORS_PER_PAGE};
use store::StoreFault;

impl<D: ProtectedSectors> ReadOnlyPages<D> {
    // Writes the first page again as it is read, and brings it to the medium. The fault is Device.
    fn renew(&mut self) -> Result<(), PageFault>
        requires room { SECTORS_PER_PAGE ≤ (device_below self.old.below).sectors }
        ensures preserved { WritesNothing self.old.below self.new.below }
        ensures array { (device_below self.old.below).faithful
            → (l : ℕ) → working_array self.new.below l ≡ working_array self.old.below l }
        ensures synced { (device_below self.old.below).faithful
            → OnOk result (IsSynced (device_below self.new.below)) }
        ensures works { OnOk result (has_failed self.new.below ≡ false) }
        ensures fault { IfErr result (λ fault. fault ≡ faults.Device) }
        ensures faults { IfErr result (λ fault. IsCaused
            (λ f. f ≢ faults.Full → FailedWith self.old.below self.new.below f) fault) }
    {
        // A write of no sector beside is one of the first page as it is read, and a sync.
        match self.below.write_protected(0, &[]) {
            Ok(()) => Ok(()),
            Err(_) => Err(PageFault::Device),
        }
    }
}

impl<D: ProtectedSectors> TreeStore<D> {
    /// Writes the first page of the device again as it is read, with the sectors that are kept beside, and brings it to the
    /// medium. To whoever reads the store or what a stop leaves of it, it is a read; after `Ok` a stop leaves each sector as it
    /// is read. `Device`: the device failed, in this call or an earlier one, or it has no page, which none has that is faithful.
    pub fn renew(&mut self) -> Result<(), StoreFault>
        ensures preserved { WritesNothing (pages_of self.old) (pages_of self.new) }
        ensures goes { Goes (λ _. Unit {0}) result (store_state self.old) (store_state self.new) }
        ensures still { IsStill result self.old self.new }
        ensures counts { CountsRead result self.old self.new }
        ensures fault { IfErr result (λ fault. fault ≡ StoreFault.Device) }
        ensures synced { (device_below (pages_of self.old)).faithful
            → OnOk result (IsSynced (device_below (pages_of self.new))) }
    {
        if self.has_failed {
            return Err(StoreFault::Device);
        }
        if self.device().sectors() < SECTORS_PER_PAGE {
            return Err(self.refuse_read(PageFault::Device));
        }
        match self.pages.renew() {
            Ok(()) => Ok(()),
            Err(fault) => Err(self.refuse_read(fault)),
        }
    }
}
