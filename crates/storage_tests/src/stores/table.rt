//! The calls that trees and stores have in common.

use crate::stores::call::{CallWords, bytes_in, number_in};
use crate::transcript::Transcript;
use anyhow::{Result, bail};
use std::alloc::Global;
use store::{Batch, Entry, MAX_KEY_LENGTH, MAX_VALUE_LENGTH, StoreFault};

/// What puts and removals change: a tree, or the next batch of a store.
pub trait Changeable {
    /// Puts a value at a key, or removes the key.
    fn change(&mut self, key: &[u8], value: Option<&[u8]>) -> Result<()>;
}

/// A map of keys and values, as a tree and a store are.
pub trait Table {
    /// Reads the entry of a key. Answers whether there is one.
    fn get(&mut self, key: &[u8], out: &mut Entry) -> Result<bool, StoreFault>;

    /// Reads the first entry from a key on, which is empty, or the key read last and a zero byte. Answers whether there is
    /// one.
    fn next(&mut self, from: &[u8], out: &mut Entry) -> Result<bool, StoreFault>;
}

/// Adds to a batch that a value is put at a key, or that the key is removed.
pub fn add_change(batch: &mut Batch, key: &[u8], value: Option<&[u8]>) -> Result<()> {
    if key.is_empty() || key.len() > MAX_KEY_LENGTH {
        bail!("no key of a store");
    }
    match value {
        None => batch.remove(key)?,
        Some(value) if value.len() <= MAX_VALUE_LENGTH => batch.put(key, value)?,
        Some(_) => bail!("no value of a store"),
    }
    Ok(())
}

/// What a scan has met so far.
struct Walk {
    from: Vec<u8>,
    entry: Entry,
    found: Entry,
    entries: u32,
    entries_found: u32,
    digest: u64,
}

// Written and not derived: where a value is dropped this is one call, and not its parts one by one.
impl Drop for Walk {
    fn drop(self) {
        let Walk {
            from: _,
            entry: _,
            found: _,
            entries: _,
            entries_found: _,
            digest: _,
        } = self;
    }
}

impl Walk {
    /// Nothing was met.
    fn new(alloc: Global) -> Walk {
        Walk {
            from: Vec::new(alloc),
            entry: Entry::new(alloc),
            found: Entry::new(alloc),
            entries: 0,
            entries_found: 0,
            digest: 1,
        }
    }

    /// Tells what was met, on a line.
    fn tell(&self, call: &CallWords<'_>, out: &mut Transcript) {
        out.put(call.word);
        out.put_after_blank(u64::from(self.entries));
        out.put(" entries,");
        out.put_after_blank(u64::from(self.entries_found));
        out.put(" found, ");
        out.put_hex(self.digest);
        out.put("\n");
    }
}

/// Makes a call of a table.
pub fn make_on<T: Changeable + Table>(
    table: &mut T,
    call: &CallWords<'_>,
    out: &mut Transcript,
) -> Result<()> {
    match call.name {
        "get" => Ok(get(table, call, &bytes_in(call.alloc, call.first)?, out)),
        "scan" => scan(table, call, out),
        _ => change_by(table, call),
    }
}

/// Makes the changes that a call writes.
pub fn change_by<C: Changeable>(changed: &mut C, call: &CallWords<'_>) -> Result<()> {
    match call.name {
        "put" => put(changed, call),
        "remove" => changed.change(&bytes_in(call.alloc, call.first)?, None),
        "rise" => rise(changed, call, &bytes_in(call.alloc, call.third)?),
        _ => bail!("no call of a tree or a store"),
    }
}

/// Puts a value at a key.
fn put<C: Changeable>(changed: &mut C, call: &CallWords<'_>) -> Result<()> {
    let key = bytes_in(call.alloc, call.first)?;
    changed.change(&key, Some(&bytes_in(call.alloc, call.second)?))
}

/// Puts a value at each number of a range.
fn rise<C: Changeable>(changed: &mut C, call: &CallWords<'_>, value: &[u8]) -> Result<()> {
    for number in number_in(call.first)..number_in(call.second) {
        changed.change(&number.to_be_bytes(), Some(value))?;
    }
    Ok(())
}

/// Tells the value of a key.
fn get<T: Table>(table: &mut T, call: &CallWords<'_>, key: &[u8], out: &mut Transcript) {
    let mut entry = Entry::new(call.alloc);
    match table.get(key, &mut entry) {
        Ok(true) => call.answer_bytes(out, entry.value()),
        Ok(false) => call.answer(out, "none"),
        Err(fault) => call.answer_fault(out, fault),
    }
}

/// Tells how many entries a scan meets, how many of them a look-up finds too, and their digest.
fn scan<T: Table>(table: &mut T, call: &CallWords<'_>, out: &mut Transcript) -> Result<()> {
    let mut scan = Walk::new(call.alloc);
    scan_all(table, &mut scan)?;
    scan.tell(call, out);
    Ok(())
}

/// Goes on to all entries, one after the other.
fn scan_all<T: Table>(table: &mut T, scan: &mut Walk) -> Result<(), StoreFault> {
    for _ in 0..u32::MAX {
        if !go_on(table, scan)? {
            return Ok(());
        }
    }
    Ok(())
}

/// Goes on to the next entry. Answers whether there is one.
fn go_on<T: Table>(table: &mut T, scan: &mut Walk) -> Result<bool, StoreFault> {
    if !table.next(&scan.from, &mut scan.entry)? {
        return Ok(false);
    }
    let (key, value) = (scan.entry.key(), scan.entry.value());
    scan.entries = scan.entries.wrapping_add(1);
    if table.get(key, &mut scan.found)? && scan.found.value() == value {
        scan.entries_found = scan.entries_found.wrapping_add(1);
    }
    scan.digest = digest_with_entry(scan.digest, key, value);
    scan.from.clear();
    scan.from.extend_from_slice(key)?;
    scan.from.push(0)?;
    Ok(true)
}

/// The Adler-32 digest (Adler's two sums) with an entry more: the length of its key and that of its value, in eight bytes, the key
/// and the value.
pub fn digest_with_entry(digest: u64, key: &[u8], value: &[u8]) -> u64 {
    let digest = digest_with(digest, &key.len().to_be_bytes());
    let digest = digest_with(digest, &value.len().to_be_bytes());
    digest_with(digest_with(digest, key), value)
}

/// The Adler-32 digest with bytes more.
fn digest_with(digest: u64, bytes: &[u8]) -> u64 {
    let mut sum = digest % 65_536;
    let mut sum_of_sums = digest / 65_536;
    for byte in bytes {
        sum = sum.wrapping_add(u64::from(*byte)) % 65_521;
        sum_of_sums = sum_of_sums.wrapping_add(sum) % 65_521;
    }
    sum_of_sums.wrapping_mul(65_536).wrapping_add(sum)
}
