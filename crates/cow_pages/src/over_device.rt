//! Pages over a device, as the crates above see them.

ghost use Rattle.std.specs.Prelude.{◌≡◌, false};
ghost use Rattle.cow_pages.specs.Cow.{has_failed, fetched_bytes, own_pages};
ghost use Rattle.cow_pages.specs.Preserved.{cow_state, IsPreserved, FailedWith};
ghost use Rattle.cow_pages.specs.Calls.{OnlyReadsPages};
ghost use Rattle.cow_pages.specs.ReadingLaws.{pages_read_none, pages_read_joined};
ghost use Rattle.cow_pages.specs.PreservedLaws.{preserved_same, preserved_joined, failed_with_later, few};

use crate::cow::CowPages;
use page_nodes::PageView;
use pages::{PAGE_SIZE, PageFault, Pages};
use sector_device::Device;

impl<D: Device> Pages for CowPages<D> {
    ghost state = { λ p. cow_state p };

    ghost fetched = { λ p. fetched_bytes p };

    ghost preserved = { λ p q. IsPreserved p q };

    ghost preserved_same = { λ p. preserved_same p };

    ghost preserved_joined = { λ p q r a b. preserved_joined p q r a b };

    ghost failed_with = { λ p q f. FailedWith p q f };

    ghost failed_with_later = { λ p q r f a b. failed_with_later p q r f a b };

    ghost own = { λ p. own_pages p };

    ghost works = { λ p. has_failed p ≡ false };

    ghost writes_nothing = { λ p q. OnlyReadsPages p q };

    ghost writes_nothing_same = { λ p. pages_read_none p (D.only_now p.device) };

    ghost writes_nothing_joined = { λ p q r preserved a b. pages_read_joined p q r preserved a b };

    ghost numbered = { λ p l sound some. few p l some };

    fn is_used(&self, page: u32) -> bool {
        CowPages::is_used(self, page)
    }

    fn fetch(&mut self, page: u32) -> Result<(), PageFault> {
        CowPages::fetch(self, page)
    }

    fn fetched(&self) -> PageView<'_> {
        CowPages::fetched(self)
    }

    fn read(&mut self, page: u32, bytes: &mut [u8; PAGE_SIZE]) -> Result<(), PageFault> {
        CowPages::read(self, page, bytes)
    }

    fn write(&mut self, page: u32, bytes: &[u8; PAGE_SIZE]) -> Result<(), PageFault> {
        CowPages::write(self, page, bytes)
    }

    fn new_page(&mut self, bytes: &[u8; PAGE_SIZE]) -> Result<u32, PageFault> {
        CowPages::new_page(self, bytes)
    }

    fn free_page(&mut self, page: u32) -> Result<(), PageFault> {
        CowPages::free_page(self, page)
    }

    fn spares(&self, page: u32, last: u32) -> bool {
        CowPages::spares(self, page, last)
    }
}
