//! The maps of the durable and of the working root, and the free pages.

ghost use Rattle.std.specs.Prelude.{Ok, MatchResult, ◌≡◌, ◌≢◌, ◌⊎◌, ◌<◌, ◌≤◌, ◌*◌, ◌+◌, ◌-◌, ◌^◌, ℕ, true, false, OnOk, IsErrOf, IfOk, IfSome, IfNone, OnErr, IsErr, slice_index, slice_set, length};
ghost use Rattle.cow_pages.specs.PageMap.{IsConsistent, AreChangedParts, DiffersWithin, EndsWith, IsUsedBelow, IsOwn, IsUsedUp, IsIdle, IsChanged, HasMapPage, IsNeeded, IsNextRoot, AreReplaced, HasNoMapRoom};
ghost use Rattle.cow_pages.specs.Held.{part_of};
ghost use Rattle.cow_pages.specs.Used.{named, grown};

use crate::open::MAX_ENTRIES;
use crate::spans::Span;
use page_allocator::{Full, PageAllocator};
use page_roots::{ENTRIES_PER_MAP_PAGE, Format, MAX_MAP_PAGES, Root};
use std::mem::swap;

/// Why a commit was refused, or failed.
#[derive(Clone, Copy, Drop, PartialEq, Eq)]
pub enum CommitFault {
    /// No page is left for a map page.
    Full,
    /// The number of the durable root is the last one, `u64::MAX`.
    Number,
    /// Logical page 0 is not in use: without it an image means no array.
    NoFirstPage,
    /// The device failed, in this call or an earlier one.
    Device,
}

// One for an entry that names a page, and nothing for 0.
fn named_by(entry: u32) -> u32
    ensures { result ≡ named entry }
{
    if entry == 0 { 0 } else { 1 }
}

// The maps between two calls: the durable root with its map, and the map that the next commit makes
// durable. A page is free where neither needs it.
#[derive(Drop)]
pub(crate) struct PageMap {
    pub(crate) root: Root,
    // The physical page of each logical page, 0 where it is not in use.
    pub(crate) durable: Vec<u32>,
    pub(crate) working: Vec<u32>,
    // Which map pages' parts of the working map may differ from the durable one.
    pub(crate) changed_parts: [bool; MAX_MAP_PAGES],
    // Each entry of the working map that differs from the durable one is in this span.
    pub(crate) changed: Span,
    // Each logical page below it is in use in the working map.
    pub(crate) unused_from: u32,
    // The pages that the working root's new map pages are written to, by their indexes, 0 for none.
    pub(crate) reserved: [u32; MAX_MAP_PAGES],
    pub(crate) allocator: PageAllocator,
    ghost consistent: { IsConsistent root.pages root.maps durable.items reserved working.items allocator },
    ghost parts: { AreChangedParts durable.items working.items changed_parts },
    ghost within: { DiffersWithin changed durable.items working.items },
    ghost ended: { EndsWith root.maps durable.items },
    ghost used: { IsUsedBelow working.items unused_from },
}

impl PageMap {
    ghost use Rattle.cow_pages.specs.MapCalls.{ChangesWorkingMap, KeepsMaps, HasNoOwnPage, IsShared, IsUnmapped, GetsPage, FindsNoPage, IsNextOf, HasNextRoot, CannotPrepare, RestoresPart, KeepsOtherParts, IsUnusedPart, IsUsedFrom, IsChangedAt, IsNeededAt, HasMapPageIn, IsFullWith, IsNextMapPage, IsReplacedMapPage};

    // The physical page of a logical page, 0 where it is not in use.
    pub(crate) fn page(&self, logical: u32) -> u32
        ensures page { result ≡ slice_index self.now.working.items logical }
        ensures inside { result < self.now.root.pages }
    {
        if logical as usize >= MAX_ENTRIES {
            return 0;
        }
        self.working[logical as usize]
    }

    // Takes a free page for a logical page that has none of its own.
    fn take_for(&mut self, logical: u32) -> Result<u32, Full>
        requires inside { logical < 65536 }
        requires no_own_page { HasNoOwnPage self.old logical }
        ensures preserved { ChangesWorkingMap self.old self.new }
        ensures outcome { MatchResult result (λ page. GetsPage logical page self.old self.new)
            (λ _. FindsNoPage self.old self.new) }
    {
        let page = self.allocator.take()?;
        let at = logical as usize;
        self.working[at] = page;
        self.changed_parts[at / ENTRIES_PER_MAP_PAGE] = true;
        self.changed = self.changed.including(logical);
        Ok(page)
    }

    // The page to which a logical page that is in use is written: its own, or a free one where it has the durable one.
    pub(crate) fn own_page(&mut self, logical: u32) -> Result<u32, Full>
        requires used { 0 < slice_index self.old.working.items logical }
        ensures preserved { ChangesWorkingMap self.old self.new }
        ensures own { (IsShared self.old logical → ⊥)
            → result ≡ Ok (slice_index self.old.working.items logical) }
        ensures outcome { MatchResult result (λ page. GetsPage logical page self.old self.new)
            (λ _. FindsNoPage self.old self.new × IsShared self.old logical) }
    {
        let page = self.working[logical as usize];
        if page != self.durable[logical as usize] {
            return Ok(page);
        }
        self.take_for(logical)
    }

    // Whether a logical page has a page of its own, which is not the durable one.
    pub(crate) fn has_own_page(&self, logical: u32) -> bool
        ensures { result ≡ true → (0 < slice_index self.now.working.items logical)
            × (IsShared self.now logical → ⊥) }
    {
        let page = self.page(logical);
        page != 0 && page != self.durable[logical as usize]
    }

    // Leaves a logical page without a physical one. The page is given back where it is not the durable one.
    pub(crate) fn release(&mut self, logical: u32)
        requires inside { logical < 65536 }
        ensures preserved { ChangesWorkingMap self.old self.new }
        ensures working { self.new.working.items ≡ slice_set self.old.working.items logical 0 }
    {
        let page = self.working[logical as usize];
        self.working[logical as usize] = 0;
        self.changed_parts[logical as usize / ENTRIES_PER_MAP_PAGE] = true;
        self.changed = self.changed.including(logical);
        self.unused_from = self.unused_from.min(logical);
        if page != 0 && page != self.durable[logical as usize] {
            self.allocator.give(page);
        }
    }

    // Gives a logical page its durable page again. Where it has it, nothing is written.
    fn restore_page(&mut self, logical: u32)
        requires inside { logical < 65536 }
        ensures preserved { ChangesWorkingMap self.old self.new }
        ensures working { self.new.working.items ≡ slice_set self.old.working.items logical
            (slice_index self.old.durable.items logical) }
    {
        if self.working[logical as usize] == self.durable[logical as usize] {
            return;
        }
        let unused_from = self.unused_from;
        self.release(logical);
        let page = self.durable[logical as usize];
        self.working[logical as usize] = page;
        if page != 0 {
            self.unused_from = unused_from;
        }
    }

    // Gives the logical pages of a part their durable pages again. In an unchanged part each has it.
    fn restore_part(&mut self, index: usize)
        requires inside { index < 64 }
        ensures preserved { ChangesWorkingMap self.old self.new }
        ensures here { RestoresPart index self.old self.new }
        ensures others { KeepsOtherParts index self.old self.new }
    {
        if !self.changed_parts[index] {
            return;
        }
        let start = (ENTRIES_PER_MAP_PAGE * index) as u32;
        let from = start.max(self.changed.from);
        let to = (start + ENTRIES_PER_MAP_PAGE as u32).min(self.changed.to);
        for logical in from..to {
            self.restore_page(logical);
        }
        self.changed_parts[index] = false;
    }

    // Makes the durable map the working one again. The pages that only the working map named are given back.
    pub(crate) fn restore(&mut self)
        ensures preserved { ChangesWorkingMap self.old self.new }
        ensures working { self.new.working.items ≡ self.old.durable.items }
    {
        for index in 0..MAX_MAP_PAGES {
            self.restore_part(index);
        }
        self.changed = Span::none();
    }

    // The first logical page that is not in use.
    fn first_unused(&self) -> Option<u32>
        ensures some { IfSome result (λ logical. IsUnmapped self.now logical) }
        ensures below { IfSome result (λ logical. IsUsedBelow self.now.working.items logical) }
        ensures none { IfNone result (IsUsedBelow self.now.working.items 65536) }
    {
        for logical in self.unused_from..MAX_ENTRIES as u32 {
            if self.working[logical as usize] == 0 {
                return Some(logical);
            }
        }
        None
    }

    // Takes a logical page that is not in use, and a physical one for it.
    pub(crate) fn take_new(&mut self) -> Result<(u32, u32), Full>
        ensures preserved { ChangesWorkingMap self.old self.new }
        ensures outcome { MatchResult result
            (λ taken. IsUnmapped self.old taken.0 × GetsPage taken.0 taken.1 self.old self.new)
            (λ _. FindsNoPage self.old self.new) }
    {
        let Some(logical) = self.first_unused() else {
            return Err(Full);
        };
        self.unused_from = logical;
        let page = self.take_for(logical)?;
        Ok((logical, page))
    }

    // Whether one of the entries of a map page differs from the durable one. An unchanged part does not.
    fn differs(&self, index: usize) -> bool
        requires inside { index < 64 }
        ensures differ { result ≡ true
            → part_of self.now.working.items index ≢ part_of self.now.durable.items index }
        ensures same { result ≡ false
            → part_of self.now.working.items index ≡ part_of self.now.durable.items index }
    {
        if !self.changed_parts[index] {
            return false;
        }
        let start = ENTRIES_PER_MAP_PAGE * index;
        let from = start.max(self.changed.from as usize);
        let to = (start + ENTRIES_PER_MAP_PAGE).min(self.changed.to as usize);
        for entry in from..to {
            if self.working[entry] != self.durable[entry] {
                return true;
            }
        }
        false
    }

    // Whether a map page of the next root has to be written: it has other entries than the durable one, or there is none.
    fn is_changed(&self, index: usize) -> bool
        requires inside { index < 64 }
        ensures same { result ≡ false → (index < length self.now.root.maps)
            × (part_of self.now.working.items index ≡ part_of self.now.durable.items index) }
        ensures changed { result ≡ true → IsChangedAt self.now index }
    {
        index >= self.root.maps().len() || self.differs(index)
    }

    // Whether one of the entries of a part after the durable map pages is in use. In an unchanged part none is.
    fn is_used(&self, index: usize) -> bool
        requires inside { index < 64 }
        requires after { length self.now.root.maps ≤ index }
        ensures unused { result ≡ false → IsUnusedPart self.now index }
        ensures used { result ≡ true → IsUsedFrom self.now index }
    {
        if !self.changed_parts[index] {
            return false;
        }
        let start = ENTRIES_PER_MAP_PAGE * index;
        for entry in start..start + ENTRIES_PER_MAP_PAGE {
            if self.working[entry] != 0 {
                return true;
            }
        }
        false
    }

    // How many map pages the next root has: as many as the durable one, or more where entries after those are in use.
    pub(crate) fn maps_needed(&self) -> usize
        ensures least { length self.now.root.maps ≤ result }
        ensures most { result ≤ 64 }
        ensures beyond { (l : ℕ) → 1024 * result ≤ l → slice_index self.now.working.items l ≡ 0 }
        ensures needed { (j : ℕ) → j < result → IsNeededAt self.now j }
    {
        let mut count = self.root.maps().len();
        for index in count..MAX_MAP_PAGES {
            if self.is_used(index) {
                count = index + 1;
            }
        }
        count
    }

    // Takes a free page for a map page.
    fn reserve_map_page(&mut self, index: usize) -> Result<(), Full>
        requires inside { index < 64 }
        requires unreserved { slice_index self.old.reserved index ≡ 0 }
        ensures preserved { KeepsMaps self.old self.new }
        ensures reserved { OnOk result (0 < slice_index self.new.reserved index) }
        ensures others { (j : ℕ) → j ≢ index
            → slice_index self.new.reserved j ≡ slice_index self.old.reserved j }
        ensures full { OnErr result ((self.new.reserved ≡ self.old.reserved)
            × IsFullWith self.old self.old.reserved) }
    {
        let page = self.allocator.take()?;
        self.reserved[index] = page;
        Ok(())
    }

    // Gives a page back that was taken for a map page.
    fn unreserve_map_page(&mut self, index: usize)
        requires inside { index < 64 }
        ensures preserved { KeepsMaps self.old self.new }
        ensures reserved { self.new.reserved ≡ slice_set self.old.reserved index 0 }
    {
        let page = self.reserved[index];
        self.reserved[index] = 0;
        if page != 0 {
            self.allocator.give(page);
        }
    }

    // Gives all pages back that were taken for map pages.
    pub(crate) fn unreserve(&mut self)
        ensures preserved { KeepsMaps self.old self.new }
        ensures idle { IsIdle self.new.reserved }
    {
        for index in 0..MAX_MAP_PAGES {
            self.unreserve_map_page(index);
        }
    }

    // Takes a free page for each map page that the next root has to write. What was taken is not given back at `Full`.
    pub(crate) fn reserve_maps(&mut self, count: usize) -> Result<(), Full>
        requires most { count ≤ 64 }
        requires idle { IsIdle self.old.reserved }
        ensures preserved { KeepsMaps self.old self.new }
        ensures each { OnOk result ((j : ℕ) → j < count
            → HasMapPageIn self.old self.new.reserved j) }
        ensures beyond { (j : ℕ) → count ≤ j → slice_index self.new.reserved j ≡ 0 }
        ensures full { OnErr result (IsFullWith self.old self.new.reserved) }
        ensures some_left { OnErr result ((j : ℕ) × (j < count)
            × (slice_index self.new.reserved j ≡ 0) × IsChangedAt self.old j) }
        ensures only { (j : ℕ) → 0 < slice_index self.new.reserved j → IsChangedAt self.old j }
    {
        for index in 0..count {
            if self.is_changed(index) {
                self.reserve_map_page(index)?;
            }
        }
        Ok(())
    }

    // Whether the working map differs from the durable one.
    pub(crate) fn has_changes(&self) -> bool
        ensures none { result ≡ false → self.now.working.items ≡ self.now.durable.items }
        ensures some { result ≡ true → self.now.working.items ≢ self.now.durable.items }
    {
        for index in 0..MAX_MAP_PAGES {
            if self.differs(index) {
                return true;
            }
        }
        false
    }

    // How many more pages are in use in the working map than in the durable one, 0 where they are not more. Outside the span
    // of what changed they are the same.
    pub(crate) fn grown_pages(&self) -> u32
        ensures { result ≡ grown self.now.durable.items self.now.working.items }
    {
        let to = self.changed.to.min(MAX_ENTRIES as u32);
        let mut before = 0;
        let mut after = 0;
        for entry in self.changed.from..to {
            before += named_by(self.durable[entry as usize]);
            after += named_by(self.working[entry as usize]);
        }
        after.saturating_sub(before)
    }

    // The map page of the next root at an index: the reserved page, or the durable one.
    fn map_page(&self, index: usize) -> u32
        requires inside { index < 64 }
        requires has { HasMapPageIn self.now self.now.reserved index }
        ensures { IsNextMapPage self.now index result }
    {
        if self.reserved[index] != 0 {
            return self.reserved[index];
        }
        self.root.maps()[index]
    }

    // The map pages of the next root, and zeros after them.
    fn map_pages(&self, count: usize) -> [u32; MAX_MAP_PAGES]
        requires most { count ≤ 64 }
        requires each { (j : ℕ) → j < count → HasMapPageIn self.now self.now.reserved j }
        ensures { (j : ℕ) → j < count → IsNextMapPage self.now j (slice_index result j) }
    {
        let mut pages = [0; MAX_MAP_PAGES];
        for index in 0..count {
            pages[index] = self.map_page(index);
        }
        pages
    }

    // The next root, of this format and with so many map pages.
    fn next_root(&self, format: Format, count: usize) -> Root
        requires { HasNextRoot self.now count }
        ensures next { IsNextOf result self.now self.now }
        ensures format { result.format ≡ format }
    {
        let pages = self.map_pages(count);
        Root::new(
            format,
            self.root.number() + 1,
            self.root.pages(),
            &pages[..count],
        )
    }

    // Reserves the pages of the next root's map pages, and gives that root, of this format. Nothing stays reserved after an
    // error.
    pub(crate) fn prepare(&mut self, format: Format) -> Result<Root, CommitFault>
        requires idle { IsIdle self.old.reserved }
        ensures preserved { KeepsMaps self.old self.new }
        ensures outcome { MatchResult result (λ next. IsNextOf next self.old self.new)
            (λ fault. CannotPrepare fault self.old) }
        ensures format { IfOk result (λ next. next.format ≡ format) }
        ensures idle { OnErr result (IsIdle self.new.reserved) }
    {
        if self.page(0) == 0 {
            return Err(CommitFault::NoFirstPage);
        }
        if self.root.number() == u64::MAX {
            return Err(CommitFault::Number);
        }
        let count = self.maps_needed();
        match self.reserve_maps(count) {
            Ok(()) => Ok(self.next_root(format, count)),
            Err(_) => {
                self.unreserve();
                Err(CommitFault::Full)
            }
        }
    }

    // The durable map page at an index, where there is a new one, 0 for none.
    fn replaced_page(&self, index: usize) -> u32
        requires inside { index < 64 }
        ensures { IsReplacedMapPage self.now index result }
    {
        let maps = self.root.maps();
        if self.reserved[index] == 0 || index >= maps.len() {
            return 0;
        }
        maps[index]
    }

    // The durable map pages that new ones replace.
    fn replaced(&self) -> [u32; MAX_MAP_PAGES]
        ensures { AreReplaced self.now.root.maps self.now.reserved result }
    {
        let mut pages = [0; MAX_MAP_PAGES];
        for index in 0..MAX_MAP_PAGES {
            pages[index] = self.replaced_page(index);
        }
        pages
    }

    // Makes the next root the durable one. The durable map becomes the working one, and the old map pages are reserved.
    fn swap_roots(&mut self, next: Root)
        requires next { IsNextOf next self.old self.old }
        ensures root { self.new.root ≡ next }
        ensures durable { self.new.durable.items ≡ self.old.working.items }
    {
        self.reserved = self.replaced();
        swap(&mut self.durable, &mut self.working);
        self.unused_from = 0;
        self.root = next;
    }

    // Makes the next root the durable one, and gives back the pages that only the old one named.
    pub(crate) fn advance(&mut self, next: Root)
        requires next { IsNextOf next self.old self.old }
        ensures root { self.new.root ≡ next }
        ensures durable { self.new.durable.items ≡ self.old.working.items }
        ensures working { self.new.working.items ≡ self.old.working.items }
        ensures idle { IsIdle self.new.reserved }
    {
        let unused_from = self.unused_from;
        self.swap_roots(next);
        self.unreserve();
        self.restore();
        self.unused_from = unused_from;
    }
}
