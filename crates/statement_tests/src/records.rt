//! Reads cases, a line for each, and tells what comes of them: what records stand for, in words, or that they are damaged. Records are those of a store in memory, which begins as that of a new database with the role root.
//!
//! KEY and VALUE are bytes (`notation`), and a line begins with one of these words:
//!
//! - `-- `: a comment, which is told as it is
//! - `new`: the store is that of a new database again
//! - `put KEY / VALUE`, `remove KEY`: changes of the store
//! - `check`: `whole` where the records stand for a database, `damaged` where they define none, `damaged rows` where those of
//!   rows alone are not as they are to be
//! - `show`: all that is said of the database, a line for each item; behind a row stand its key and its value as they are
//!   written
//! - `try KEY / VALUE`: the lines that the database gains by one record more, which is not kept. What is damaged before has no
//!   line; a record of a size that no store takes is damaged
//! - `find NAME OTHER`: the role and the table of a name, and its member and its policy of the other name, or `none`
//! - `row TABLE KEY / VALUE`: the row of a table that a key without the number of the table and a value spell, or `no row`
//! - `vary`: a line for each record, with the outcomes of changes: for each byte of its key, and then of its value, of the byte
//!   made one greater, of the byte with another first bit, of a zero (255 where it was a zero), and of the byte left out; at
//!   the end that of the record left out. A changed key that is another record's replaces that record. An outcome is `.` for
//!   damaged, `,` for damaged rows, else a digest of what `show` tells: the first eight bytes of its MD5
//!
//! What is loaded is proved of each map, and so is what bytes spell; here both stand beside `records.py`, which was written from
//! the rules of the format alone and writes the same lines, and beside bytes with what they were meant to spell.

mod answer;
pub mod database;
mod expression;
pub mod loading;
mod notation;
mod rows;
mod variants;

use crate::records::answer::put_answer;
use crate::records::loading::{Condition, put, replace, store_with, tell, tell_other};
use crate::records::notation::record_of;
use crate::records::variants::put_variants;
use crate::told::Told;
use anyhow::{Result, bail};
use catalogue_loading::load;
use std::alloc::Global;
use store::{Batch, Entry, Fault, MemStore, Store};

/// The records of a new database with changes.
#[derive(Drop)]
pub struct StoredRecords {
    alloc: Global,
    changes: Batch,
}

impl StoredRecords {
    /// A new database.
    pub fn new(alloc: Global) -> StoredRecords {
        StoredRecords {
            alloc,
            changes: Batch::new(alloc),
        }
    }

    /// Does what a line says, and tells what comes of it.
    pub fn follow(&mut self, line: &str, out: &mut Told) -> Result<()> {
        let (word, rest) = line.split_once(' ').unwrap_or((line, ""));
        match word {
            "--" => out.put_line(&[line]),
            "new" => self.changes = Batch::new(self.alloc),
            "put" | "remove" => self.change(word, rest)?,
            "check" => self.check(out)?,
            "show" => self.show(out)?,
            "try" => self.try_record(rest, out)?,
            "vary" => put_variants(self.alloc, &self.changes, out)?,
            _ => self.answer(word, rest, out)?,
        }
        Ok(())
    }

    /// Puts a record, or removes one.
    fn change(&mut self, word: &str, text: &str) -> Result<()> {
        let record = record_of(self.alloc, text)?;
        let other = if word == "put" { Some(&record) } else { None };
        if !replace(&mut self.changes, record.key(), other)? {
            bail!("no store takes a record of this size");
        }
        Ok(())
    }

    /// Tells whether the records stand for a database.
    fn check(&self, out: &mut Told) -> Result<()> {
        let mut lines = Told::new(self.alloc);
        match tell(self.alloc, &self.changes, &mut lines)? {
            Condition::Whole => out.put("whole\n"),
            condition => out.put(condition.damage()),
        }
        Ok(())
    }

    /// Tells the database for which the records stand.
    fn show(&self, out: &mut Told) -> Result<()> {
        let condition = tell(self.alloc, &self.changes, out)?;
        out.put(condition.damage());
        Ok(())
    }

    /// Tells what the database gains by a record.
    fn try_record(&self, text: &str, out: &mut Told) -> Result<()> {
        let record = record_of(self.alloc, text)?;
        self.put_gained_by(&record, out)
    }

    /// Tells the lines of the database with a record that were not there before, and what is damaged.
    fn put_gained_by(&self, record: &Entry, out: &mut Told) -> Result<()> {
        let mut before = Told::new(self.alloc);
        let mut after = Told::new(self.alloc);
        tell(self.alloc, &self.changes, &mut before)?;
        let condition = tell_other(
            self.alloc,
            &self.changes,
            record.key(),
            Some(record),
            &mut after,
        )?;
        put_gained(out, before.text()?, after.text()?);
        out.put(condition.damage());
        Ok(())
    }

    /// Tells what the catalogue of the records answers.
    fn answer(&self, word: &str, text: &str, out: &mut Told) -> Result<()> {
        let mut store = store_with(self.alloc, &self.changes)?;
        match load(self.alloc, &mut store) {
            Ok(catalogue) => put_answer(self.alloc, &catalogue, word, text, out),
            Err(Fault::Damaged) => Ok(out.put(Condition::Damaged.damage())),
            Err(_) => bail!("no definitions were loaded"),
        }
    }
}

/// Puts the record of a text into a store.
pub fn put_record(alloc: Global, store: &mut MemStore, text: &str) -> Result<()> {
    let record = record_of(alloc, text)?;
    let mut changes = Batch::new(alloc);
    if !put(&mut changes, record.key(), record.value())? {
        bail!("no store takes a record of this size");
    }
    store.commit(&mut changes)?;
    Ok(())
}

/// Tells the lines of a text that another one does not have.
fn put_gained(out: &mut Told, before: &str, after: &str) {
    for line in after.lines() {
        if !has_line(before, line) {
            out.put_line(&[line]);
        }
    }
}

/// Whether a text has a line.
fn has_line(text: &str, wanted: &str) -> bool {
    for line in text.lines() {
        if line == wanted {
            return true;
        }
    }
    false
}
