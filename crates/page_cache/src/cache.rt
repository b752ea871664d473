//! A cache of pages.

ghost use Rattle.std.specs.Prelude.{◌<◌, ◌≤◌, ◌≡◌, ◌↔◌, length, IfSome, IsSome, IsTrue, option_map};
ghost use Rattle.page_cache.specs.Slots.{AreFirst, AreApart, boxed_bytes};

use lru::LruCache;
use page_nodes::{IndexedPage, PageView};
use std::alloc::{AllocError, Global};
use std::num::NonZeroUsize;
use storage_sizes::PAGE_SIZE;

/// The bytes of some pages, by their numbers. What it holds of a page is what was put last, but no
/// page is promised to be held: where no slot is left, the least recently used page gives up its
/// own, and where memory is refused less is held.
pub struct PageCache {
    // Each page that has a slot, and the slot. A page that was forgotten keeps its empty slot until
    // it gives it up.
    pages: LruCache<u32, usize>,
    // The page in each slot. Memory for a page is taken once one is put into the slot.
    slots: Vec<Option<Box<IndexedPage>>>,
    alloc: Global,
    ghost capacity: { 0 < length slots.items → pages.cap ≡ length slots.items },
    ghost room: { length pages.entries ≤ length slots.items },
    ghost first: { AreFirst pages.entries },
    ghost apart: { AreApart pages.entries },
}

// Written and not derived: where a value is dropped this is one call, and not its parts one by one.
impl Drop for PageCache {
    fn drop(self) {
        let PageCache {
            pages: _,
            slots: _,
            alloc: _,
        } = self;
    }
}

// How many of so many pages are kept: the most, halved again and again, that leave as much memory for all else. Each
// time the memory is asked for, and given back untouched.
fn pages_with_room(alloc: Global, wanted: usize) -> usize
    ensures { result ≤ wanted }
{
    let mut pages = wanted;
    while pages > 0 && !has_room(alloc, pages) {
        pages /= 2;
    }
    pages
}

// Whether memory is granted for twice so many pages.
fn has_room(alloc: Global, pages: usize) -> bool {
    let Some(size) = pages.checked_mul(2 * size_of::<IndexedPage>()) else {
        return false;
    };
    take_room(alloc, size).is_ok()
}

// Takes so many bytes of memory. It is a call: in place, a compiler may leave out memory that is given back untouched.
#[inline(never)]
fn take_room(alloc: Global, size: usize) -> Result<Vec<u8>, AllocError> {
    Vec::with_capacity(alloc, size)
}

impl PageCache {
    ghost use Rattle.std.specs.Prelude.{◌-◌, ◌≢◌, ℕ, None, Some, MatchOption, IfOk, take};
    ghost use Rattle.page_nodes.specs.Views.{bytes_of};
    ghost use Rattle.page_cache.specs.Slots.{IsSpare};
    ghost use Rattle.page_cache.specs.Held.{slot_of, bytes_in, held_bytes, HoldsAsBefore, HoldsNoMore, IsSlotOf};

    /// A cache that holds no page, with as many slots of those wanted as memory is granted for twice,
    /// so that as much is left for all else; perhaps none. A page takes its memory when it is put. It
    /// fails where memory is refused for the table of the pages.
    pub fn new(alloc: Global, wanted: usize) -> Result<PageCache, AllocError>
        ensures { IfOk result (λ cache. (page : ℕ) → held_bytes cache page ≡ None) }
    {
        let mut slots = Vec::new(alloc);
        for _ in 0..pages_with_room(alloc, wanted) {
            if slots.push(None).is_err() {
                break;
            }
        }
        let capacity = NonZeroUsize::new(slots.len()).unwrap_or(NonZeroUsize::MIN);
        let pages = LruCache::new(alloc, capacity)?;
        Ok(PageCache {
            pages,
            slots,
            alloc,
        })
    }

    /// The slot with the bytes that are held of a page, which is then the most recently used; `lend` lends them. None: none
    /// are held. What is held of each page stays.
    pub fn find(&mut self, page: u32) -> Option<usize>
        ensures kept { HoldsAsBefore self.old self.new }
        ensures found { MatchOption result (held_bytes self.old page ≡ None)
            (λ slot. IsSlotOf page slot self.old self.new) }
    {
        let slot = self.slot(page)?;
        self.pages.promote(&page);
        if find_offsets(&mut self.slots[slot]) {
            return Some(slot);
        }
        None
    }

    /// The page in a slot, with the offsets of its cells. None: there is none in it, or there is no such slot.
    pub fn lend(&self, slot: usize) -> Option<PageView<'_>>
        ensures { MatchOption result (bytes_in self.now slot ≡ None)
            (λ page. bytes_in self.now slot ≡ Some (bytes_of page)) }
    {
        let page = self.slots.get(slot)?.as_ref()?;
        Some(page.view())
    }

    // The slot of a page.
    fn slot(&self, page: u32) -> Option<usize>
        ensures found { result ≡ slot_of self.now page }
        ensures inside { IfSome result (λ slot. slot < length self.now.slots.items) }
    {
        self.pages.peek(&page).copied()
    }

    /// Holds these bytes of a page, in place of those that were held, where it has a slot or gets
    /// one. The bytes of other pages stay, but for the page that gives up its slot; where memory is
    /// refused, the page is not held.
    pub fn put(&mut self, page: u32, bytes: &[u8; PAGE_SIZE])
        ensures here { IfSome (held_bytes self.new page) (λ there. there ≡ bytes.now) }
        ensures others { (other : ℕ) → other ≢ page
            → HoldsNoMore self.old self.new other }
    {
        if let Some(slot) = self.take_slot(page) {
            fill(self.alloc, &mut self.slots[slot], bytes);
        }
    }

    // The slot of a page, which is then the most recently used: its own, or a spare one. None where
    // no slot was granted or memory is refused.
    fn take_slot(&mut self, page: u32) -> Option<usize>
        ensures slots { self.new.slots.items ≡ self.old.slots.items }
        ensures inside { IfSome result (λ slot. slot < length self.new.slots.items) }
        ensures here { MatchOption result (slot_of self.new page ≡ None)
            (λ slot. slot_of self.new page ≡ Some slot) }
        ensures others { (other : ℕ) → other ≢ page
            → IfSome (slot_of self.new other) (λ slot. slot_of self.old other ≡ Some slot) }
    {
        match self.slot(page) {
            Some(slot) => {
                self.pages.promote(&page);
                Some(slot)
            }
            None => {
                let slot = self.spare_slot()?;
                match self.pages.push(page, slot) {
                    Ok(_) => Some(slot),
                    Err(_) => None,
                }
            }
        }
    }

    // The slot that the next new page takes: one of no page, or that of the least recently used
    // page.
    fn spare_slot(&self) -> Option<usize>
        ensures { IfSome result (IsSpare (take (self.now.pages.cap - 1) self.now.pages.entries)
            (length self.now.slots.items)) }
    {
        let used = self.pages.len();
        if used < self.slots.len() {
            return Some(used);
        }
        let (_, slot) = self.pages.peek_lru()?;
        Some(*slot)
    }

    /// Holds a page no more.
    pub fn invalidate(&mut self, page: u32)
        ensures here { held_bytes self.new page ≡ None }
        ensures others { (other : ℕ) → HoldsNoMore self.old self.new other }
    {
        if let Some(slot) = self.slot(page) {
            self.slots[slot] = None;
        }
    }
}

// The page of these bytes in memory of its own, or `None` where memory is refused.
fn boxed_page(alloc: Global, bytes: &[u8; PAGE_SIZE]) -> Option<Box<IndexedPage>>
    ensures { IfSome result (λ page. boxed_bytes page ≡ bytes.now) }
{
    Box::new(alloc, IndexedPage::new(bytes)).ok()
}

// Puts the bytes of a page into a slot, into memory that it has or gets. Where memory is refused, nothing is in it.
fn fill(alloc: Global, slot: &mut Option<Box<IndexedPage>>, bytes: &[u8; PAGE_SIZE])
    ensures { IfSome slot.new (λ page. boxed_bytes page ≡ bytes.now) }
{
    if let Some(page) = slot {
        page.replace(bytes);
        return;
    }
    *slot = boxed_page(alloc, bytes);
}

// Finds the offsets of the page in a slot, where none is known. Whether there is a page.
fn find_offsets(slot: &mut Option<Box<IndexedPage>>) -> bool
    ensures page { option_map boxed_bytes slot.new ≡ option_map boxed_bytes slot.old }
    ensures some { IsTrue result ↔ IsSome slot.old }
{
    if let Some(page) = slot {
        page.index();
        return true;
    }
    false
}
