//! Carries out calls of trees, stores and caches of pages, and tells what they answer.
//!
//! A line is about one thing: its first word begins it, and the others are calls of it, made in turn. A
//! line that begins with a blank goes on with the one before, and one that begins with `#` is printed as it is. For each call
//! that answers something a line is printed: the call and its answer. A word has a name and arguments, with colons before
//! them. Bytes are written in hexadecimal digits, and as `N*XX` for N times the byte XX, with pluses between such parts.
//!
//! - `tree`: a tree in memory that has no page yet. `lay:BYTES` lays out its next page, which begins so and is zero behind.
//!   `page:NUMBER` answers the bytes of a page, and `pages:all:LOW:HIGH` or `pages:leaves:LOW:HIGH` whether so many pages are
//!   in use, or are leaves.
//! - `memory:NAME`: the store in memory of a new database, whose administrator has this name.
//! - `device:PAGES`: a device of zeros, which takes the place of the one before. `device:PAGES:KEY:VALUE`: one with a new
//!   store of one record, and `journaled:PAGES:KEY:VALUE` one whose store has a journal.
//! - `turn:SECTOR:AT:BITS` turns bits of one byte of the device, and `sector:SECTOR:BYTES` writes a sector, which is zero behind
//!   the bytes. `restart:last` and `restart:synced` start it again after a
//!   stop, with the content of each sector that was written last or that was synced. `pages:all:LOW:HIGH` and
//!   `pages:leaves:LOW:HIGH` answer as for a tree.
//! - `open:PAGES`: the store on the device, with a cache of so many pages, or why it is not opened. `stop:WRITES` lets so many
//!   writes of the device pass and no call after them, `fail:CALLS` so many calls, and then one fails. `reads` answers how
//!   many sectors were read since it was asked last, or since the store was opened.
//! - `put:KEY:VALUE`, `remove:KEY` and `rise:FROM:TO:VALUE`, which puts a value at each number below TO, in four bytes,
//!   change a tree, or the next batch of a store. `commit` commits that, and `migrate` does so with record format 2.
//!   `spelling` answers which spelling there is, and `number` the number of the last commit, and how often no room was found
//!   and a failure met. `get:KEY` answers the value of a key, and `scan` how many entries there are, how many of them a look-up
//!   finds too, and a digest.
//! - `cache:PAGES`: a cache of so many pages. `put:PAGE:BYTES`, `forget:PAGE`, and `get:PAGE`, which answers the bytes.
//! - `faults`: the texts of the faults of stores and of reads.
//!
//! What the calls answer is proved where they succeed. Here they do, and stand beside `stores.py`, another program, which makes
//! the lines, keeps a dictionary for each tree and each store, and writes the same answers.

mod caches;
pub mod call;
mod callee;
pub mod devices;
pub mod map_calls;
pub mod records;
pub mod table;
mod tree_calls;
mod trees;

use crate::stores::caches::run_on_cache;
use crate::stores::call::CallWords;
use crate::stores::devices::run_on_device;
use crate::stores::records::run_in_memory;
use crate::stores::trees::run_on_tree;
use crate::transcript::Transcript;
use anyhow::Result;
use sector_device::MemDevice;
use std::alloc::Global;
use store::{Fault, StoreFault};

/// The device, and a line on which calls may still follow.
#[derive(Drop)]
pub struct Stores {
    alloc: Global,
    device: MemDevice,
    line: String,
}

impl Stores {
    /// A device of no pages, and no line.
    pub fn new(alloc: Global) -> Result<Stores> {
        Ok(Stores {
            alloc,
            device: MemDevice::new(alloc, 0)?,
            line: String::new(alloc),
        })
    }

    /// Goes on with the line that is there, or does what it says and begins another one. Tells what came of it.
    pub fn follow(&mut self, line: &str, out: &mut Transcript) -> Result<()> {
        if !line.starts_with(' ') {
            self.end(out)?;
        }
        self.line.push_str(line)?;
        Ok(())
    }

    /// Does what the line says, and tells what came of it. No line is left.
    pub fn end(&mut self, out: &mut Transcript) -> Result<()> {
        run(self.alloc, &mut self.device, self.line.as_str(), out)?;
        self.line.clear();
        Ok(())
    }
}

/// Does what a line says, and tells what came of it.
fn run(alloc: Global, device: &mut MemDevice, line: &str, out: &mut Transcript) -> Result<()> {
    let (word, calls) = line.split_once(' ').unwrap_or((line, ""));
    let first = CallWords::new(alloc, word);
    match first.name {
        "" => Ok(()),
        "#" => Ok(out.put_all(&[line, "\n"])),
        "faults" => Ok(tell_faults(out)),
        "tree" => run_on_tree(&first, calls, out),
        "memory" => run_in_memory(&first, calls, out),
        "cache" => run_on_cache(&first, calls, out),
        _ => run_on_device(device, &first, calls, out),
    }
}

/// Tells the text of each fault of a store, and the text of the fault of a read that it is.
fn tell_faults(out: &mut Transcript) {
    for fault in [
        StoreFault::Full,
        StoreFault::Memory,
        StoreFault::Device,
        StoreFault::Number,
    ] {
        out.put("of a store: ");
        out.put_display(fault);
        out.put("\nof a read: ");
        out.put_display(Fault::from(fault));
        out.put("\n");
    }
    out.put("of a read: ");
    out.put_display(Fault::Damaged);
    out.put("\n");
}
