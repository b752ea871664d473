//! The free pages of a device.
ghost use Rattle.std.specs.Prelude.{◌≡◌, ◌||◌, Bool, ◌<◌, ◌≤◌, ◌-◌, ◌↔◌, ℕ, ◌∷◌, length, replicate, true, false, IsTrue, IfOk, IsErr, OnErr};
ghost use Rattle.page_allocator.specs.TakenPages.{TakenPages, IsTaken, IsFree, IsFull, HasFree, AreReached, with_taken, with_free};
ghost use Rattle.page_allocator.specs.Order.{IsFreeFirst, taken_pages};

use crate::order::{descending, exchange};
use std::alloc::{AllocError, Global};
use std::marker::Model;
use storage_sizes::MAX_PAGES;

/// A page of a device, counted from 0.
pub type PageNo = u32;

/// Each page of the device is taken.
#[derive(Clone, Copy, PartialEq, Eq)]
pub struct Full;

/// The pages of a device, each taken or free. Contracts see for each page whether it is taken. Page
/// 0 holds the roots and is never free. Only `new` allocates, and each call after it takes the same
/// few steps.
#[derive(Drop)]
pub struct PageAllocator {
    // The pages, the free ones first.
    order: Vec<u32>,
    // Where each page stands in the order.
    places: Vec<u32>,
    // How many pages are free.
    free: u32,
}

impl Model for PageAllocator {
    ghost Value = { TakenPages };

    ghost view = { λ a. taken_pages a.free a.places.items };

    ghost invariant = { λ a. IsFreeFirst a.order.items a.places.items a.free };
}

impl PageAllocator {
    /// The pages of a device of `pages` pages, 1 to 65,536, where each page but page 0 is free.
    pub fn new(alloc: Global, pages: u32) -> Result<PageAllocator, AllocError>
        requires some { 1 ≤ pages }
        requires most { pages ≤ MAX_PAGES }
        ensures free { IfOk result (λ allocator. allocator ≡ true ∷ replicate (pages - 1) false) }
    {
        let order = descending(alloc, pages)?;
        let places = descending(alloc, pages)?;
        Ok(PageAllocator {
            order,
            places,
            free: pages - 1,
        })
    }

    /// How many pages the device has, page 0 among them.
    pub fn pages(&self) -> u32
        ensures { result ≡ length self.now }
    {
        self.order.len() as u32
    }

    /// Whether no page is free, so that `take` answers `Full`.
    pub fn is_full(&self) -> bool
        ensures { IsTrue result ↔ IsFull self.now }
    {
        self.free == 0
    }

    /// How many pages are free.
    pub fn free_count(&self) -> u32
        ensures { HasFree result self.now }
    {
        self.free
    }

    /// Takes a free page, any of them. `Full` comes exactly where each page from 1 on is taken, and
    /// then nothing has changed. So where the pages that are taken are those in the reach of two
    /// roots, the page is in neither reach, and `Full` comes exactly where each page from 1 on is in
    /// one of them.
    pub fn take(&mut self) -> Result<PageNo, Full>
        ensures inside { IfOk result (λ page. (1 ≤ page) × (page < length self.old)) }
        ensures free { IfOk result (λ page. IsFree self.old page) }
        ensures taken { IfOk result (λ page. self.new ≡ with_taken self.old page) }
        ensures full { IsErr result ↔ IsFull self.old }
        ensures refused { OnErr result (self.new ≡ self.old) }
        ensures apart { (durable working : ℕ → Bool) → AreReached self.old durable working
            → IfOk result (λ page. (durable page ≡ false) × (working page ≡ false)) }
        ensures full_reach { (durable working : ℕ → Bool) → AreReached self.old durable working
            → (IsErr result ↔ ((page : ℕ) → 1 ≤ page → page < length self.old
            → IsTrue (durable page || working page))) }
    {
        if self.is_full() {
            return Err(Full);
        }
        self.free -= 1;
        Ok(self.order[self.free as usize])
    }

    /// Gives a taken page back, so that it can be taken again.
    pub fn give(&mut self, page: PageNo)
        requires inside { 1 ≤ page }
        requires taken { IsTaken self.old page }
        ensures { self.new ≡ with_free self.old page }
    {
        exchange(&mut self.order, &mut self.places, page, self.free);
        self.free += 1;
    }

    /// Takes this page, which a root names where a device is opened. True exactly where it was free:
    /// false for a page that is taken already, for page 0 and for a number that is no page of the
    /// device, and then nothing has changed.
    pub fn protect(&mut self, page: PageNo) -> bool
        ensures free { IsTrue result ↔ IsFree self.old page }
        ensures taken { self.new ≡ with_taken self.old page }
    {
        if page as usize >= self.places.len() || self.places[page as usize] >= self.free {
            return false;
        }
        self.free -= 1;
        exchange(&mut self.order, &mut self.places, page, self.free);
        true
    }
}
