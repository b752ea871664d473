//! Trees over pages in memory.

use crate::arrays::page_calls::{new_page, read};
use crate::stores::call::{CallWords, fill, number_in};
use crate::stores::callee::{Callee, make_calls};
use crate::stores::table::{Changeable, Table, add_change, make_on};
use crate::stores::tree_calls::{first, following, look_up};
use crate::transcript::Transcript;
use anyhow::{Result, bail};
use page_tree::{Scratch, TreeCursor, change_first};
use pages::{MemPages, PAGE_SIZE, Pages};
use std::alloc::Global;
use store::{Batch, Entry, StoreFault};

/// A tree over pages in memory.
struct MemoryTree {
    pages: MemPages,
    scratch: Scratch,
    cursor: TreeCursor,
    value: Vec<u8>,
}

// Written and not derived: where a value is dropped this is one call, and not its parts one by one.
impl Drop for MemoryTree {
    fn drop(self) {
        let MemoryTree {
            pages: _,
            scratch: _,
            cursor: _,
            value: _,
        } = self;
    }
}

/// Makes calls of a tree that has no page yet.
pub fn run_on_tree(first: &CallWords<'_>, calls: &str, out: &mut Transcript) -> Result<()> {
    let mut tree = MemoryTree::new(first.alloc);
    make_calls(first.alloc, &mut tree, calls, out)
}

impl MemoryTree {
    /// A tree that has no page yet.
    fn new(alloc: Global) -> MemoryTree {
        MemoryTree {
            pages: MemPages::new(alloc),
            scratch: Scratch::new(alloc),
            cursor: TreeCursor::new(alloc),
            value: Vec::new(alloc),
        }
    }

    /// Lays out the next page.
    fn lay(&mut self, call: &CallWords<'_>) -> Result<()> {
        let mut page = [0; PAGE_SIZE];
        fill(call.alloc, call.first, &mut page)?;
        match new_page(&mut self.pages, &page) {
            Ok(_) => Ok(()),
            Err(_) => bail!("a page is not laid out"),
        }
    }

    /// Makes the first changes of each piece of a batch, as many as belong into one leaf.
    fn make_first(&mut self, batch: &Batch) -> Result<()> {
        for piece in batch.pieces() {
            let changes = piece.as_slice();
            if changes.is_empty() {
                bail!("no change of a tree");
            }
            if change_first(&mut self.pages, &mut self.scratch, changes).is_err() {
                bail!("a tree is not changed");
            }
        }
        Ok(())
    }

    /// Tells the bytes of a page.
    fn answer_page(&mut self, call: &CallWords<'_>, out: &mut Transcript) {
        let mut page = [0; PAGE_SIZE];
        match read(&mut self.pages, number_in(call.first), &mut page) {
            Ok(()) => call.answer_bytes(out, &page),
            Err(_) => call.answer(out, "none"),
        }
    }
}

impl Changeable for MemoryTree {
    fn change(&mut self, key: &[u8], value: Option<&[u8]>) -> Result<()> {
        let mut batch = Batch::new(*self.value.allocator());
        add_change(&mut batch, key, value)?;
        self.make_first(&batch)
    }
}

impl Table for MemoryTree {
    fn get(&mut self, key: &[u8], out: &mut Entry) -> Result<bool, StoreFault> {
        match look_up(&mut self.pages, key, &mut self.value) {
            Ok(found) => {
                out.set(key, &self.value)?;
                Ok(found)
            }
            Err(_) => Err(StoreFault::Device),
        }
    }

    fn next(&mut self, from: &[u8], out: &mut Entry) -> Result<bool, StoreFault> {
        let found = if from.is_empty() {
            first(&mut self.pages, &mut self.cursor)
        } else {
            following(&mut self.pages, &mut self.cursor)
        };
        match found {
            Ok(found) => {
                out.set(self.cursor.key(), self.cursor.value())?;
                Ok(found)
            }
            Err(_) => Err(StoreFault::Device),
        }
    }
}

impl Callee for MemoryTree {
    fn make(&mut self, call: &CallWords<'_>, out: &mut Transcript) -> Result<()> {
        match call.name {
            "lay" => self.lay(call)?,
            "page" => self.answer_page(call, out),
            "pages" => answer_pages(&mut self.pages, call, out),
            _ => make_on(self, call, out)?,
        }
        Ok(())
    }
}

/// Tells whether so many pages are in use, or are leaves, as a call says; or else how many.
pub fn answer_pages<P: Pages>(pages: &mut P, call: &CallWords<'_>, out: &mut Transcript) {
    let count = count_pages(pages, call.first == "leaves");
    if number_in(call.second) <= count && count <= number_in(call.third) {
        call.answer(out, "yes");
    } else {
        call.answer_number(out, u64::from(count));
    }
}

/// How many pages are in use, or are leaves.
fn count_pages<P: Pages>(pages: &mut P, leaves_alone: bool) -> u32 {
    let mut count = 0u32;
    let mut bytes = [0; PAGE_SIZE];
    for page in 0..1_024u32 {
        if read(pages, page, &mut bytes).is_ok() && (bytes[0] == 1 || !leaves_alone) {
            count = count.wrapping_add(1);
        }
    }
    count
}
