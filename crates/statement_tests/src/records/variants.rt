//! Records of which one is changed at a byte.

use crate::records::loading::{Condition, store_with, tell_other};
use crate::told::Told;
use anyhow::Result;
use md5::{Digest, Md5};
use std::alloc::{AllocError, Global};
use store::{Batch, Cursor, Entry};

/// Tells for each record of a store with changes what comes of each change of it.
pub fn put_variants(alloc: Global, changes: &Batch, out: &mut Told) -> Result<()> {
    let mut store = store_with(alloc, changes)?;
    let mut cursor = Cursor::over(alloc, &[])?;
    for _ in 0..u64::MAX {
        if !cursor.advance(&mut store)? {
            return Ok(());
        }
        let variants = Variants {
            alloc,
            changes,
            record: cursor.entry(),
        };
        variants.put_line(out)?;
    }
    Ok(())
}

/// The changes of one record among others.
#[derive(Clone, Copy)]
struct Variants<'a> {
    alloc: Global,
    changes: &'a Batch,
    record: &'a Entry,
}

impl<'a> Variants<'a> {
    /// Tells the outcomes of the changes of the record: of its key, of its value, and of the record left out.
    fn put_line(&self, out: &mut Told) -> Result<()> {
        let (key, value) = (self.record.key(), self.record.value());
        out.put_bytes(key);
        out.put(":");
        self.put_part(key, 0, out)?;
        out.put(" /");
        self.put_part(value, key.len(), out)?;
        out.put(" - ");
        self.put_outcome(None, out)?;
        out.put("\n");
        Ok(())
    }

    /// Tells the outcomes of the changes of a part of the record, which begins at an index.
    fn put_part(&self, bytes: &[u8], start: usize, out: &mut Told) -> Result<()> {
        for (index, byte) in bytes.iter().enumerate() {
            self.put_byte(*byte, start.saturating_add(index), out)?;
        }
        Ok(())
    }

    /// Tells the outcomes of the record with another byte, or none, in place of the one at an index.
    fn put_byte(&self, byte: u8, at: usize, out: &mut Told) -> Result<()> {
        out.put(" ");
        for other in &others(byte) {
            let variant = variant(self.alloc, self.record, at, *other)?;
            self.put_outcome(Some(&variant), out)?;
        }
        Ok(())
    }

    /// Tells in short the outcome of the records with another one, or none, in place of the record.
    fn put_outcome(&self, other: Option<&Entry>, out: &mut Told) -> Result<()> {
        let mut lines = Told::new(self.alloc);
        let key = self.record.key();
        match tell_other(self.alloc, self.changes, key, other, &mut lines)? {
            Condition::Damaged => out.put("."),
            Condition::DamagedRows => out.put(","),
            Condition::Whole => out.put_bytes(&Md5::digest(lines.text()?.as_bytes())[..8]),
        }
        Ok(())
    }
}

/// What stands in place of a byte: one greater, another first bit, a zero (255 in place of a zero), and nothing.
fn others(byte: u8) -> [Option<u8>; 4] {
    let next = byte.wrapping_add(1);
    let first_bit = byte.wrapping_add(128);
    let zero = if byte == 0 { 255 } else { 0 };
    [Some(next), Some(first_bit), Some(zero), None]
}

/// A record with another byte, or none, in place of the one at an index, which counts on from its key to its value.
fn variant(
    alloc: Global,
    record: &Entry,
    at: usize,
    other: Option<u8>,
) -> Result<Entry, AllocError> {
    let key = changed(alloc, record.key(), at, other)?;
    let in_value = at.wrapping_sub(record.key().len());
    let value = changed(alloc, record.value(), in_value, other)?;
    Ok(Entry::from_parts(key, value))
}

/// Bytes with another one, or none, in place of the one at an index, if they have one there.
fn changed(
    alloc: Global,
    bytes: &[u8],
    at: usize,
    other: Option<u8>,
) -> Result<Vec<u8>, AllocError> {
    let mut out = Vec::new(alloc);
    for (index, byte) in bytes.iter().enumerate() {
        if index != at {
            out.push(*byte)?;
        } else if let Some(other) = other {
            out.push(other)?;
        }
    }
    Ok(out)
}
