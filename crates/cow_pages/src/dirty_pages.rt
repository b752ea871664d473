//! Dirty pages: pages that were written, whose bytes are in memory alone.

ghost use Rattle.std.specs.Prelude.{◌<◌, ◌≤◌, ◌+◌, length};
ghost use Rattle.indexmap.specs.IndexMap.{index_map_len, spare};

use indexmap::IndexMap;
use pages::PAGE_SIZE;
use std::alloc::{AllocError, Global};

/// The most dirty pages: 1,024 pages of 4,096 bytes, 4 MiB of memory.
pub const MAX_DIRTY_PAGES: usize = 1_024;

// The dirty pages, by their physical pages. All memory is taken when it is made. The bytes of a page have the index of its
// entry, and a page that was discarded keeps its entry until all are cleared.
#[derive(Drop)]
pub(crate) struct DirtyPages {
    // Each page with an entry, and whether it is dirty.
    pages: IndexMap<u32, bool>,
    // The bytes of each entry.
    bytes: Vec<[u8; PAGE_SIZE]>,
    ghost room: { length bytes.items ≤ index_map_len pages + spare pages },
    ghost inside: { index_map_len pages ≤ length bytes.items },
    ghost some: { 0 < length bytes.items },
}

impl DirtyPages {
    ghost use Rattle.std.specs.Prelude.{◌≡◌, ◌≢◌, ◌↔◌, ℕ, true, Some, None, IsSome, IsTrue, IfOk, IfSome, IfNone, MatchOption, nat_eq};
    ghost use Rattle.indexmap.specs.IndexMap.{get};
    ghost use Rattle.cow_pages.specs.DirtyPages.{index_of, dirty_bytes, IsIndexOf, HasBytesAt, HasSpace, HasRoom};

    // No dirty page, and room for those of a device of so many pages.
    pub(crate) fn new(alloc: Global, pages: u32) -> Result<DirtyPages, AllocError>
        requires some { 0 < pages }
        ensures empty { IfOk result (λ dirty. (page : ℕ) → dirty_bytes dirty page ≡ None) }
        ensures space { IfOk result (λ dirty. HasSpace dirty) }
    {
        let most = MAX_DIRTY_PAGES.min(pages as usize);
        let pages = IndexMap::with_capacity(alloc, most)?;
        let bytes = vec![in alloc; [0; PAGE_SIZE]; most]?;
        Ok(DirtyPages { pages, bytes })
    }

    // The bytes of a dirty page.
    pub(crate) fn get(&self, page: u32) -> Option<&[u8; PAGE_SIZE]>
        ensures some { IfSome result (λ bytes. dirty_bytes self.now page ≡ Some bytes.now) }
        ensures none { IfNone result (dirty_bytes self.now page ≡ None) }
    {
        match self.pages.get_full(&page) {
            Some((index, _, true)) => Some(&self.bytes[index]),
            _ => None,
        }
    }

    // The index of the bytes of a dirty page.
    pub(crate) fn find(&self, page: u32) -> Option<usize>
        ensures some { IfSome result (λ index. IsIndexOf self.now page index) }
        ensures none { IfNone result (dirty_bytes self.now page ≡ None) }
    {
        match self.pages.get_full(&page) {
            Some((index, _, true)) => Some(index),
            _ => None,
        }
    }

    // The bytes at an index.
    pub(crate) fn lend(&self, index: usize) -> Option<&[u8; PAGE_SIZE]>
        ensures { MatchOption result (length self.now.bytes.items ≤ index)
            (λ bytes. HasBytesAt self.now index bytes.now) }
    {
        self.bytes.get(index)
    }

    // Whether a page has room.
    pub(crate) fn has_room(&self, page: u32) -> bool
        ensures { IsTrue result ↔ HasRoom self.now page }
    {
        self.pages.contains_key(&page) || self.pages.len() < self.bytes.len()
    }

    // Gives a page these bytes, in place of earlier dirty ones. The page is dirty.
    pub(crate) fn put(&mut self, page: u32, bytes: &[u8; PAGE_SIZE])
        requires room { HasRoom self.old page }
        ensures here { dirty_bytes self.new page ≡ Some bytes.now }
        ensures others { (other : ℕ) → other ≢ page
            → dirty_bytes self.new other ≡ dirty_bytes self.old other }
    {
        self.mark_dirty(page);
        if let Some(index) = self.pages.get_index_of(&page) {
            self.bytes[index] = *bytes;
        }
    }

    // Notes that a page is dirty, in its entry or in a new one.
    fn mark_dirty(&mut self, page: u32)
        requires room { HasRoom self.old page }
        ensures here { get nat_eq self.new.pages page ≡ Some true }
        ensures others { (other : ℕ) → other ≢ page
            → get nat_eq self.new.pages other ≡ get nat_eq self.old.pages other }
        ensures pages { (other : ℕ) → IsSome (get nat_eq self.old.pages other)
            → index_of self.new other ≡ index_of self.old other }
        ensures bytes { self.new.bytes.items ≡ self.old.bytes.items }
    {
        if let Some(dirty) = self.pages.get_mut(&page) {
            *dirty = true;
            return;
        }
        self.pages.insert(page, true).unwrap();
    }

    // Discards the bytes of a page: it is not dirty.
    pub(crate) fn discard(&mut self, page: u32)
        ensures here { dirty_bytes self.new page ≡ None }
        ensures others { (other : ℕ) → other ≢ page
            → dirty_bytes self.new other ≡ dirty_bytes self.old other }
    {
        if let Some(dirty) = self.pages.get_mut(&page) {
            *dirty = false;
        }
    }

    // Discards all dirty pages.
    pub(crate) fn clear(&mut self)
        ensures empty { (page : ℕ) → dirty_bytes self.new page ≡ None }
        ensures space { HasSpace self.new }
    {
        self.pages.clear();
    }

    // How many entries there are.
    pub(crate) fn len(&self) -> usize
        ensures inside { (page : ℕ) → IsSome (dirty_bytes self.now page)
            → index_of self.now page < result }
    {
        self.pages.len()
    }

    // The dirty page of the entry at an index, and its bytes.
    pub(crate) fn page_at(&self, index: usize) -> Option<(u32, &[u8; PAGE_SIZE])>
        ensures dirty { IfSome result (λ entry. dirty_bytes self.now entry.0 ≡ Some entry.1.now) }
        ensures alone { IfSome result (λ entry. (page : ℕ) → IsSome (dirty_bytes self.now page)
            → index_of self.now page ≡ index → page ≡ entry.0) }
        ensures none { IfNone result ((page : ℕ) → IsSome (dirty_bytes self.now page)
            → index_of self.now page ≢ index) }
    {
        let (page, _) = self.pages.get_index(index)?;
        let bytes = self.get(*page)?;
        Some((*page, bytes))
    }
}
