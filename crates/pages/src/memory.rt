//! Pages in memory.
ghost use Rattle.std.specs.Prelude.{◌≡◌, ℕ, ◌<◌, ◌≤◌, IsSome, Some, None, Err, get_or, length, OnOk, IfErr};
ghost use Rattle.pages.specs.State.{Writes};
ghost use Rattle.pages.specs.Memory.{state_of, fetched_bytes, FailedWith, AreUsed};

use crate::array::{PageFault, Pages};
use page_nodes::PageView;
use std::alloc::{AllocError, Global};
use storage_sizes::{MAX_PAGES, PAGE_SIZE};

/// An array of at most 65,536 pages in memory.
pub struct MemPages {
    pages: Vec<Option<[u8; PAGE_SIZE]>>,
    // Each page below this one is in use, where the array is sound.
    used: usize,
    // The page that was fetched last, and what is lent where it is not in use.
    fetched: usize,
    blank: [u8; PAGE_SIZE],
}

// Written and not derived: where a value is dropped this is one call, and not its parts one by one.
impl Drop for MemPages {
    fn drop(self) {
        let MemPages {
            pages: _,
            used: _,
            fetched: _,
            blank: _,
        } = self;
    }
}

impl MemPages {
    /// No page is in use.
    pub fn new(alloc: Global) -> Self
        ensures sound { (state_of result).sound }
        ensures empty { (l : ℕ) → (state_of result).array l ≡ None }
    {
        MemPages {
            pages: Vec::new(alloc),
            used: 0,
            fetched: 0,
            blank: [0; PAGE_SIZE],
        }
    }

    /// The least page that is not in use.
    fn first_free(&self) -> usize
        ensures below { AreUsed self.now.used self.now.pages.items
            → AreUsed result self.now.pages.items }
        ensures free { get_or self.now.pages.items result None ≡ None }
        ensures inside { result ≤ length self.now.pages.items }
    {
        for page in self.used..self.pages.len() {
            if self.pages[page].is_none() {
                return page;
            }
        }
        self.pages.len()
    }
}

impl Pages for MemPages {
    ghost state = { λ p. state_of p };

    ghost fetched = { λ p. fetched_bytes p };

    ghost preserved = { λ p q. Unit {0} };

    ghost preserved_same = { λ p. tt };

    ghost preserved_joined = { λ p q r a b. tt };

    ghost failed_with = { λ p q f. FailedWith q.pages.items f };

    ghost failed_with_later = { λ p q r f a b. b };

    ghost own = { λ p l page. ⊥ };

    ghost works = { λ p. Unit {0} };

    ghost writes_nothing = { λ p q. Unit {0} };

    ghost writes_nothing_same = { λ p. tt };

    ghost writes_nothing_joined = { λ p q r preserved a b. tt };

    ghost numbered = { λ p l sound some. sound.few l some };

    fn is_used(&self, page: u32) -> bool {
        matches!(self.pages.get(page as usize), Some(Some(_)))
    }

    fn fetch(&mut self, page: u32) -> Result<(), PageFault> {
        if !self.is_used(page) {
            return Err(PageFault::Malformed);
        }
        self.fetched = page as usize;
        Ok(())
    }

    fn fetched(&self) -> PageView<'_> {
        match self.pages.get(self.fetched) {
            Some(Some(bytes)) => PageView::plain(bytes),
            _ => PageView::plain(&self.blank),
        }
    }

    fn read(&mut self, page: u32, bytes: &mut [u8; PAGE_SIZE]) -> Result<(), PageFault> {
        match self.pages.get(page as usize) {
            Some(Some(there)) => {
                *bytes = *there;
                Ok(())
            }
            _ => Err(PageFault::Malformed),
        }
    }

    /// Writes a page that is in use. Malformed: it is not. No other fault comes.
    fn write(&mut self, page: u32, bytes: &[u8; PAGE_SIZE]) -> Result<(), PageFault>
        ensures used { OnOk result (IsSome ((state_of self.old).array page)) }
        ensures written { (state_of self.old).sound → IsSome ((state_of self.old).array page)
            → OnOk result (Writes page bytes.now (state_of self.old) (state_of self.new)) }
        ensures malformed { result ≡ Err PageFault.Malformed
            → (state_of self.old).array page ≡ None }
        ensures faults { IfErr result (λ f. f ≡ PageFault.Malformed) }
    {
        let at = page as usize;
        if at >= self.pages.len() || self.pages[at].is_none() {
            return Err(PageFault::Malformed);
        }
        self.pages[at] = Some(*bytes);
        Ok(())
    }

    fn new_page(&mut self, bytes: &[u8; PAGE_SIZE]) -> Result<u32, PageFault> {
        let page = self.first_free();
        if page >= MAX_PAGES as usize {
            return Err(PageFault::Full);
        }
        if page < self.pages.len() {
            self.pages[page] = Some(*bytes);
        } else {
            self.pages.push(Some(*bytes)).map_err(AllocError::from)?;
        }
        self.used = page + 1;
        Ok(page as u32)
    }

    fn free_page(&mut self, page: u32) -> Result<(), PageFault> {
        let at = page as usize;
        if at >= self.pages.len() || self.pages[at].is_none() {
            return Err(PageFault::Malformed);
        }
        self.pages[at] = None;
        if at < self.used {
            self.used = at;
        }
        Ok(())
    }

    // No page is below, so that none is taken there.
    fn spares(&self, _page: u32, _last: u32) -> bool {
        true
    }
}
