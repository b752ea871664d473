//! What is loaded from the records of a store.

use crate::names::name_of;
use crate::records::database::put_database;
use crate::told::Told;
use anyhow::Result;
use catalogue::definitions::Catalogue;
use catalogue_loading::{check_rows, load};
use sql_types::try_copy::TryCopy;
use std::alloc::{AllocError, Global};
use store::{Batch, Entry, Fault, MAX_KEY_LENGTH, MAX_VALUE_LENGTH, MemStore, Store};

/// Whether records stand for a database.
#[derive(Clone, Copy)]
pub enum Condition {
    Whole,
    /// They define nothing.
    Damaged,
    /// They define tables, but those of rows are not all rows of these.
    DamagedRows,
}

impl Condition {
    /// A line for what is damaged; nothing for a whole database.
    pub fn damage(self) -> &'static str {
        match self {
            Condition::Whole => "",
            Condition::Damaged => "damaged\n",
            Condition::DamagedRows => "damaged rows\n",
        }
    }
}

/// The store of a new database with a superuser of this name.
pub fn new_store(alloc: Global, admin: &str) -> Result<MemStore> {
    let admin = name_of(alloc, admin)?;
    Ok(MemStore::new(alloc, &admin)?)
}

/// The store of a new database with the role root, with changes.
pub fn store_with(alloc: Global, changes: &Batch) -> Result<MemStore> {
    let mut store = new_store(alloc, "root")?;
    store.commit(&mut changes.try_copy(alloc)?)?;
    Ok(store)
}

/// Puts another record, or none, in place of the one of a key. Answers whether it has a size that a store takes.
pub fn replace(changes: &mut Batch, key: &[u8], other: Option<&Entry>) -> Result<bool, AllocError> {
    if !key.is_empty() && key.len() <= MAX_KEY_LENGTH {
        changes.remove(key)?;
    }
    match other {
        Some(record) => put(changes, record.key(), record.value()),
        None => Ok(true),
    }
}

/// Puts a record. Answers whether it has a size that a store takes.
pub fn put(changes: &mut Batch, key: &[u8], value: &[u8]) -> Result<bool, AllocError> {
    if key.is_empty() || key.len() > MAX_KEY_LENGTH || value.len() > MAX_VALUE_LENGTH {
        return Ok(false);
    }
    changes.put(key, value)?;
    Ok(true)
}

/// Tells the database of the records with changes, a line for each item, where they are whole.
pub fn tell(alloc: Global, changes: &Batch, out: &mut Told) -> Result<Condition> {
    let mut store = store_with(alloc, changes)?;
    Ok(tell_store(alloc, &mut store, out)?)
}

/// Tells the database of the records with changes, and with another record, or none, in place of the one of a key.
pub fn tell_other(
    alloc: Global,
    changes: &Batch,
    key: &[u8],
    other: Option<&Entry>,
    out: &mut Told,
) -> Result<Condition> {
    let mut changes = changes.try_copy(alloc)?;
    if !replace(&mut changes, key, other)? {
        return Ok(Condition::Damaged);
    }
    tell(alloc, &changes, out)
}

/// Tells the database that a store holds, where it holds one.
fn tell_store(alloc: Global, store: &mut MemStore, out: &mut Told) -> Result<Condition, Fault> {
    match load_twice(alloc, store) {
        Ok(catalogue) => tell_rows(alloc, store, &catalogue, out),
        Err(Fault::Damaged) => Ok(Condition::Damaged),
        Err(fault) => Err(fault),
    }
}

/// The catalogue of a store, loaded for the second time: it would show if the first had changed a record.
fn load_twice(alloc: Global, store: &mut MemStore) -> Result<Catalogue, Fault> {
    load(alloc, store)?;
    load(alloc, store)
}

/// Tells the database that a store holds, of which this is the catalogue, where its rows are whole.
fn tell_rows(
    alloc: Global,
    store: &mut MemStore,
    catalogue: &Catalogue,
    out: &mut Told,
) -> Result<Condition, Fault> {
    match check_rows(alloc, store, catalogue) {
        Ok(()) => {
            put_database(alloc, out, catalogue, store)?;
            Ok(Condition::Whole)
        }
        Err(Fault::Damaged) => Ok(Condition::DamagedRows),
        Err(fault) => Err(fault),
    }
}
