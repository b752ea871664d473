//! Stores.

use crate::stores::call::CallWords;
use crate::stores::callee::{Callee, make_calls};
use crate::stores::map_calls::{commit, commit_migration, look_up, scan_from};
use crate::stores::table::{Changeable, Table, add_change, make_on};
use crate::transcript::Transcript;
use anyhow::{Result, bail};
use sql_types::name::Name;
use std::alloc::Global;
use store::{Batch, Entry, MemStore, RecordFormat, Store, StoreFault};

/// A store, and the changes that are to be committed next.
#[derive(Drop)]
pub struct Records<S: Store> {
    pub store: S,
    pub batch: Batch,
}

impl<S: Store> Records<S> {
    /// Begins the next changes, and tells whether those before were committed.
    fn begin_next(
        &mut self,
        answer: Result<(), StoreFault>,
        call: &CallWords<'_>,
        out: &mut Transcript,
    ) {
        self.batch = Batch::new(call.alloc);
        match answer {
            Ok(()) => call.answer(out, "ok"),
            Err(fault) => call.answer_fault(out, fault),
        }
    }

    /// Tells the number of the last commit, and how often no room was found and a failure met.
    fn answer_number(&self, call: &CallWords<'_>, out: &mut Transcript) {
        out.put(call.word);
        out.put_after_blank(self.store.number());
        out.put(",");
        out.put_after_blank(self.store.fulls());
        out.put(" full,");
        out.put_after_blank(self.store.failures());
        out.put(" failed\n");
    }
}

impl<S: Store> Changeable for Records<S> {
    fn change(&mut self, key: &[u8], value: Option<&[u8]>) -> Result<()> {
        add_change(&mut self.batch, key, value)
    }
}

impl<S: Store> Table for Records<S> {
    fn get(&mut self, key: &[u8], out: &mut Entry) -> Result<bool, StoreFault> {
        look_up(&mut self.store, key, out)
    }

    fn next(&mut self, from: &[u8], out: &mut Entry) -> Result<bool, StoreFault> {
        scan_from(&mut self.store, from, out)
    }
}

impl<S: Store> Callee for Records<S> {
    fn make(&mut self, call: &CallWords<'_>, out: &mut Transcript) -> Result<()> {
        match call.name {
            "commit" => {
                let answer = commit(&mut self.store, &mut self.batch);
                self.begin_next(answer, call, out);
            }
            "migrate" => {
                let answer = commit_migration(&mut self.store, &self.batch);
                self.begin_next(answer, call, out);
            }
            "record_format" => call.answer(out, word_of(self.store.record_format())),
            "number" => self.answer_number(call, out),
            _ => make_on(self, call, out)?,
        }
        Ok(())
    }
}

/// The word of a record format.
fn word_of(record_format: RecordFormat) -> &'static str {
    match record_format {
        RecordFormat::V1 => "first",
        RecordFormat::V2 => "second",
    }
}

/// Makes calls of the store in memory of a new database.
pub fn run_in_memory(first: &CallWords<'_>, calls: &str, out: &mut Transcript) -> Result<()> {
    let mut records = Records {
        store: memory_of(first.alloc, first.first)?,
        batch: Batch::new(first.alloc),
    };
    make_calls(first.alloc, &mut records, calls, out)
}

/// The store in memory of a new database, whose administrator has this name.
pub fn memory_of(alloc: Global, administrator: &str) -> Result<MemStore> {
    let Some(name) = Name::from_str(alloc, administrator)? else {
        bail!("no name");
    };
    Ok(MemStore::new(alloc, &name)?)
}
