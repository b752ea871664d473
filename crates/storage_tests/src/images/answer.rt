//! What the store says of an image.

use crate::images::change::{ImageChange, changed};
use crate::stores::map_calls::advance;
use crate::stores::table::digest_with_entry;
use crate::transcript::Transcript;
use kv_store::{OpenFault, PageStore, StoreFault};
use sector_device::{FileDevice, MemFile};
use std::alloc::Global;
use store::{Cursor, Map};

/// How many records there are, and the digest of all of them in turn.
#[derive(Clone, Copy)]
pub struct Contents {
    pub records: u64,
    pub digest: u64,
}

/// What it finds on the image, or why it does not open it; `Device` also where a read fails.
pub type ImageAnswer = Result<Contents, OpenFault>;

/// What the store says of an image with a change.
pub fn answer_to(alloc: Global, image: &[u8], change: ImageChange) -> ImageAnswer {
    let image = changed(alloc, image, change)?;
    answer_over(alloc, image.as_slice())
}

/// What the store says of an image.
fn answer_over(alloc: Global, image: &[u8]) -> ImageAnswer {
    let Ok(device) = FileDevice::stand_over(MemFile::new(alloc, image)?) else {
        return Err(OpenFault::Device);
    };
    match PageStore::open(alloc, device) {
        Ok(store) => contents_of(alloc, store),
        Err((_, fault)) => Err(fault),
    }
}

/// The records of a store that a cursor comes to.
fn contents_of<M: Map + Drop>(alloc: Global, store: M) -> ImageAnswer {
    let mut store = store;
    let mut cursor = Cursor::over(alloc, &[])?;
    match contents_from(&mut cursor, &mut store) {
        Ok(contents) => Ok(contents),
        Err(StoreFault::Memory) => Err(OpenFault::Memory),
        Err(_) => Err(OpenFault::Device),
    }
}

/// The records of a store that are left to a cursor.
fn contents_from<M: Map>(cursor: &mut Cursor, store: &mut M) -> Result<Contents, StoreFault> {
    let mut contents = Contents {
        records: 0,
        digest: 1,
    };
    for _ in 0..u32::MAX {
        if !advance(cursor, store)? {
            return Ok(contents);
        }
        add(&mut contents, cursor.entry().key(), cursor.entry().value());
    }
    Err(StoreFault::Device)
}

/// Adds a record.
fn add(contents: &mut Contents, key: &[u8], value: &[u8]) {
    contents.records = contents.records.wrapping_add(1);
    contents.digest = digest_with_entry(contents.digest, key, value);
}

/// Tells an answer to an image of this name, on a line.
pub fn tell_line(out: &mut Transcript, name: &str, answer: &ImageAnswer) {
    out.put(name);
    match answer {
        Ok(contents) => {
            out.put(": opened, ");
            out.put_number(contents.records);
            out.put(" records, ");
            out.put_hex(contents.digest);
        }
        Err(fault) => {
            out.put(": ");
            out.put_debug(*fault);
        }
    }
    out.put("\n");
}

/// Tells an answer in short.
pub fn tell_short(out: &mut Transcript, answer: &ImageAnswer) {
    match answer {
        Ok(contents) => out.put_hex(contents.digest),
        Err(OpenFault::WrongSize) => out.put("S"),
        Err(OpenFault::NotADatabase) => out.put("N"),
        Err(OpenFault::NewerFormat(_)) => out.put("L"),
        Err(OpenFault::Damaged) => out.put("."),
        Err(OpenFault::Device | OpenFault::Memory) => out.put("F"),
    }
}
