//! A batch and a sector by the byte, and bytes that are neither.
use crate::checks::require::Findings;
use crate::stores::table::add_change;
use anyhow::Result;
use journal::{
    JournalSector, PART_SIZE, SectorTag, batch_bytes, one_batch, one_part, part_bytes, read_batch,
    read_sector, write_sectors,
};
use sector_device::SECTOR_SIZE;
use std::alloc::{AllocError, Global};
use store::Batch;

// Whether bytes spell a batch.
fn is_batch(alloc: Global, bytes: &[u8]) -> Result<bool, AllocError> {
    Ok(read_batch(alloc, bytes)?.is_some())
}

pub fn a_batch_by_the_byte(alloc: Global, findings: &mut Findings) -> Result<()> {
    let bytes = bytes_of(alloc, &two_changes(alloc)?)?;
    let front = b"\x01\x00\x01\x00\x02kv1\x02\x00\x01z\x00\x00";
    findings.require(bytes.len() == PART_SIZE, "it has one part");
    findings.require(bytes.starts_with(front), "a put, a removal, and zeros");
    findings.require(is_batch(alloc, &bytes)?, "it is read again");
    one_batch();
    Ok(())
}

// The bytes of a batch.
fn bytes_of(alloc: Global, batch: &Batch) -> Result<Vec<u8>, AllocError> {
    batch_bytes(alloc, batch)
}

// A batch that puts a value and removes a key.
fn two_changes(alloc: Global) -> Result<Batch> {
    let mut batch = Batch::new(alloc);
    add_change(&mut batch, b"k", Some(b"v1"))?;
    add_change(&mut batch, b"z", None)?;
    Ok(batch)
}

// What the bytes of a part begin with, whether they spell a batch, and what they are.
const FRONTS: [(&[u8], bool, &str); 7] = [
    (b"\x02\x00\x01a", true, "a removal of a"),
    (b"", false, "a part of zeros alone"),
    (b"\x02\x00\x00", false, "a key of 0 bytes"),
    (b"\x02\x00\xCE", false, "a key of 206 bytes"),
    (b"\x03\x00\x01a", false, "no kind"),
    (b"\x02\x00\x01b\x02\x00\x01a", false, "keys that fall"),
    (b"\x02\x00\x01a\x00\x01", false, "a byte behind the end"),
];

pub fn bytes_that_spell_no_batch(alloc: Global, findings: &mut Findings) -> Result<()> {
    for (front, is_one, what) in FRONTS {
        findings.require(begins_batch(alloc, front)? == is_one, what);
    }
    Ok(())
}

// Whether these bytes, and zeros to the end of a part, spell a batch.
fn begins_batch(alloc: Global, front: &[u8]) -> Result<bool, AllocError> {
    let mut bytes = Vec::from_slice(alloc, front)?;
    bytes.resize(PART_SIZE, 0)?;
    is_batch(alloc, &bytes)
}

pub fn a_sector_by_the_byte(alloc: Global, findings: &mut Findings) -> Result<()> {
    let sectors = write_sectors(alloc, 7, 258, &[5; PART_SIZE])?;
    one_part();
    match sectors.first() {
        Some(sector) => check_sector(sector, findings),
        None => findings.require(false, "no sector"),
    }
    Ok(())
}

// Sees what a sector says that is full of fives.
fn check_sector(sector: &[u8; SECTOR_SIZE], findings: &mut Findings) {
    findings.require(
        sector.starts_with(b"GDBJ\0\0\0\0\0\0\0\x07\0\0\0\0\0\0\x01\x02\0\0\0\x01\x05"),
        "magic, root, number, index, count",
    );
    let tag = SectorTag {
        root: 7,
        number: 258,
        index: 0,
        count: 1,
    };
    let is_tag = read_sector(1, sector) == JournalSector::Part(tag);
    findings.require(is_tag, "it is read again");
    let is_part = part_bytes(sector) == [5; PART_SIZE].as_slice();
    findings.require(is_part, "so are its bytes");
    let is_malformed = read_sector(0, sector) == JournalSector::Malformed;
    findings.require(is_malformed, "there is no room for it");
}
