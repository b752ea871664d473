//! How many pages there are, are free, and are in use.

ghost use Rattle.std.specs.Prelude.{◌≡◌, ◌≤◌, ◌⊎◌, IsTrue};
ghost use Rattle.cow_pages.specs.Cow.{root_of, durable_map, working_map};
ghost use Rattle.cow_pages.specs.Free.{HasFreePages, HasOwn, HasMoreFree};
ghost use Rattle.cow_pages.specs.Used.{grown};

use crate::cow::CowPages;
use sector_device::Device;

impl<D: Device> CowPages<D> {
    /// How many pages the device has, page 0 among them: at least 64.
    pub fn pages(&self) -> u32
        ensures pages { result ≡ (root_of self.now).pages }
        ensures least { 64 ≤ result }
    {
        self.map.root.pages()
    }

    /// How many pages of the device from 1 on are neither in the reach of the durable root nor named by the working map. A
    /// page that gets one of its own takes one of these, and so does each map page that a commit writes.
    pub fn free_pages(&self) -> u32
        ensures { HasFreePages result self.now }
    {
        self.map.allocator.free_count()
    }

    /// Whether a write of a page leaves the last so many free pages alone: the page has one of its own, or more than so many
    /// are free.
    pub fn spares(&self, page: u32, last: u32) -> bool
        ensures { IsTrue result → HasOwn self.now page ⊎ HasMoreFree self.now last }
    {
        if self.map.has_own_page(page) {
            return true;
        }
        self.free_pages() > last
    }

    /// How many more logical pages are in use in the working array than in the durable one, 0 where they are not more: so many
    /// pages fewer are free once the working array is the durable one, map pages apart.
    pub fn grown_pages(&self) -> u32
        ensures { result ≡ grown (durable_map self.now) (working_map self.now) }
    {
        self.map.grown_pages()
    }
}
