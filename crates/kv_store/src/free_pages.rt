//! How many pages of a store are free.
ghost use Rattle.cow_pages.specs.Free.{HasFreePages};
ghost use Rattle.kv_store.specs.TreeStore.{pages_of};

use crate::tree_store::TreeStore;
use sector_device::Device;

impl<D: Device> TreeStore<D> {
    /// How many pages of the device from 1 on are in neither reach: neither in that of the durable root nor, where a commit
    /// is under way, named by the map that it makes.
    pub fn free_pages(&self) -> u32
        ensures { HasFreePages result (pages_of self.now) }
    {
        self.pages.below.free_pages()
    }
}
