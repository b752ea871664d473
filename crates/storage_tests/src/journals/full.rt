//! Devices that are full.

use crate::journals::script::BatchScript;
use crate::journals::test_stores::{TestStore, new_device, opened};
use crate::journals::wanted::ROOT;
use crate::stores::call::{CallWords, number_in};
use crate::stores::map_calls::commit;
use crate::stores::records::memory_of;
use crate::stores::table::add_change;
use crate::transcript::Transcript;
use anyhow::{Result, bail};
use kv_store::DEFAULT_CACHE_PAGES;
use sql_types::try_copy::TryCopy;
use std::alloc::Global;
use store::{Batch, MemStore, StoreFault};

/// How many rows are changed in a round.
const CHANGED: u32 = 7;

/// A store, and one in memory that has what it answered to have.
struct Filled {
    store: TestStore,
    memory: MemStore,
}

// Written and not derived: where a value is dropped this is one call, and not its parts one by one.
impl Drop for Filled {
    fn drop(self) {
        let Filled {
            store: _,
            memory: _,
        } = self;
    }
}

impl Filled {
    /// A new store, with a journal or without.
    fn new(script: &BatchScript, has_journal: bool) -> Result<Filled> {
        let store = opened(script, new_device(script.alloc, has_journal)?)?;
        Ok(Filled {
            store,
            memory: memory_of(script.alloc, ROOT)?,
        })
    }

    /// Whether all that was taken is there.
    fn is_same(&mut self) -> Result<bool, StoreFault> {
        self.store.has(&mut self.memory)
    }

    /// Makes a commit. Answers whether there was room for it.
    fn commit(&mut self, alloc: Global, batch: &Batch) -> Result<bool> {
        match self.store.commit(&mut batch.try_copy(alloc)?) {
            Ok(()) => {
                commit(&mut self.memory, &mut batch.try_copy(alloc)?)?;
                Ok(true)
            }
            Err(StoreFault::Full) => Ok(false),
            Err(fault) => bail!("another answer: {fault:?}"),
        }
    }
}

/// A store with a journal, and one without, whose rows have so many bytes.
struct StorePair {
    alloc: Global,
    journaled: Filled,
    plain: Filled,
    size: usize,
}

// Written and not derived: where a value is dropped this is one call, and not its parts one by one.
impl Drop for StorePair {
    fn drop(self) {
        let StorePair {
            alloc: _,
            journaled: _,
            plain: _,
            size: _,
        } = self;
    }
}

/// Fills the two stores that a line names, changes rows of them in so many rounds, and tells what came of it.
pub fn fill(call: &CallWords<'_>, out: &mut Transcript) -> Result<()> {
    let mut pair = StorePair::new(call.alloc, number_in(call.second) as usize)?;
    pair.fill_and_change(call, out)
}

impl StorePair {
    /// Two new stores, whose rows are to have so many bytes.
    fn new(alloc: Global, size: usize) -> Result<StorePair> {
        let script = BatchScript::new(alloc, DEFAULT_CACHE_PAGES, "")?;
        let journaled = Filled::new(&script, true)?;
        Ok(StorePair {
            alloc,
            journaled,
            plain: Filled::new(&script, false)?,
            size,
        })
    }

    /// Fills the stores, changes rows of them in so many rounds as a call says, and tells what came of it.
    fn fill_and_change(&mut self, call: &CallWords<'_>, out: &mut Transcript) -> Result<()> {
        let rows = self.fill()?;
        let alone = self.change(number_in(call.first), rows)?;
        let is_same = self.journaled.is_same()? && self.plain.is_same()?;
        out.put_all(&[call.word, ": full"]);
        out.put_after_blank(u64::from(alone));
        out.put(" times where the other is not, all that was taken is there: ");
        out.put(if is_same { "true\n" } else { "false\n" });
        Ok(())
    }

    /// Puts rows until one of the stores is full. How many both have.
    fn fill(&mut self) -> Result<u32> {
        for row in 0..u32::MAX {
            let (is_taken, is_journaled) = self.put(row, 7)?;
            if !is_taken || !is_journaled {
                return Ok(row);
            }
        }
        Ok(0)
    }

    /// Changes rows that lie apart in so many rounds, each row in a commit. How often the store with a journal was full where the
    /// other was not.
    fn change(&mut self, rounds: u32, rows: u32) -> Result<u32> {
        let mut alone = 0u32;
        for turn in 0..rounds.saturating_mul(CHANGED) {
            let (round, part) = (turn / CHANGED, turn % CHANGED);
            let apart = (rows / CHANGED).wrapping_mul(part);
            let row = apart.wrapping_add(round.wrapping_mul(13)) % rows.max(1);
            let (is_taken, is_journaled) = self.put(row, (round % 251) as u8)?;
            if is_taken && !is_journaled {
                alone = alone.saturating_add(1);
            }
        }
        Ok(alone)
    }

    /// Puts a row in both stores. Whether the one without a journal takes it, and whether the other does.
    fn put(&mut self, row: u32, byte: u8) -> Result<(bool, bool)> {
        let batch = self.row_batch(row, byte)?;
        let is_taken = self.plain.commit(self.alloc, &batch)?;
        Ok((is_taken, self.journaled.commit(self.alloc, &batch)?))
    }

    /// A batch that puts a row.
    fn row_batch(&self, row: u32, byte: u8) -> Result<Batch> {
        let value = vec![in self.alloc; byte; self.size]?;
        let mut batch = Batch::new(self.alloc);
        add_change(&mut batch, &key_of(row), Some(value.as_slice()))?;
        Ok(batch)
    }
}

/// The key of a row: they come in no order.
fn key_of(row: u32) -> [u8; 4] {
    row.wrapping_mul(2_654_435_769).to_be_bytes()
}
