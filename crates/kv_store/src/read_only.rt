//! The pages of a store as its reads see them.

ghost use Rattle.std.specs.Prelude.{◌≡◌, ◌≢◌, false};
ghost use Rattle.pages.specs.declared.array.PageFault.TheVariants as faults;
ghost use Rattle.cow_pages.specs.Cow.{has_failed, fetched_bytes};
ghost use Rattle.cow_pages.specs.Calls.{OnlyReadsPages};
ghost use Rattle.cow_pages.specs.Preserved.{cow_state, FailedWith};
ghost use Rattle.cow_pages.specs.PreservedLaws.{failed_with_later, few};
ghost use Rattle.cow_pages.specs.ReadingLaws.{pages_read_none, pages_read_joined};
ghost use Rattle.kv_store.specs.Unwritten.{WritesNothing};
ghost use Rattle.kv_store.specs.UnwrittenLaws.{nothing_written, nothing_written_joined};

use cow_pages::CowPages;
use page_nodes::PageView;
use pages::{PAGE_SIZE, PageFault, Pages};
use sector_device::Device;

/// Pages over a device on which no call writes: `write` and `new_page` answer Full. So whatever a
/// look-up or a scan of them answers, the device is as it was.
#[derive(Drop)]
pub(crate) struct ReadOnlyPages<D: Device> {
    pub(crate) below: CowPages<D>,
}

impl<D: Device> Pages for ReadOnlyPages<D> {
    ghost state = { λ p. cow_state p.below };

    ghost fetched = { λ p. fetched_bytes p.below };

    ghost preserved = { λ p q. WritesNothing p.below q.below };

    ghost preserved_same = { λ p. nothing_written p.below };

    ghost preserved_joined = { λ p q r a b. nothing_written_joined p.below q.below r.below a b };

    ghost failed_with = { λ p q f. f ≢ faults.Full → FailedWith p.below q.below f };

    ghost failed_with_later = { λ p q r f a b not.
        failed_with_later p.below q.below r.below f a.preserved (b not) };

    ghost own = { λ p l page. ⊥ };

    ghost works = { λ p. has_failed p.below ≡ false };

    ghost writes_nothing = { λ p q. OnlyReadsPages p.below q.below };

    ghost writes_nothing_same = { λ p. pages_read_none p.below (D.only_now p.below.device) };

    ghost writes_nothing_joined = { λ p q r preserved a b.
        pages_read_joined p.below q.below r.below preserved.preserved a b };

    ghost numbered = { λ p l sound some. few p.below l some };

    fn is_used(&self, page: u32) -> bool {
        self.below.is_used(page)
    }

    fn fetch(&mut self, page: u32) -> Result<(), PageFault> {
        Pages::fetch(&mut self.below, page)
    }

    fn fetched(&self) -> PageView<'_> {
        self.below.fetched()
    }

    fn read(&mut self, page: u32, bytes: &mut [u8; PAGE_SIZE]) -> Result<(), PageFault> {
        Pages::read(&mut self.below, page, bytes)
    }

    fn write(&mut self, _page: u32, _bytes: &[u8; PAGE_SIZE]) -> Result<(), PageFault> {
        Err(PageFault::Full)
    }

    fn new_page(&mut self, _bytes: &[u8; PAGE_SIZE]) -> Result<u32, PageFault> {
        Err(PageFault::Full)
    }

    fn free_page(&mut self, page: u32) -> Result<(), PageFault> {
        self.below.free_page(page)
    }

    fn spares(&self, _page: u32, _last: u32) -> bool {
        false
    }
}
