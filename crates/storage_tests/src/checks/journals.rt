//! A record is appended and read, and sectors that are no journal.
use crate::checks::require::Findings;
use anyhow::Result;
use journal::{PART_SIZE, append, read_journal, write_sectors};
use sector_device::{Device, MemDevice, SECTOR_SIZE};
use std::alloc::{AllocError, Global};
use store::Fault;

// What the journal of a root has: how many records, the greatest number, and how many sectors its records take.
#[derive(Clone, Copy)]
enum FoundJournal {
    Records(usize, u64, u16),
    Damaged,
    Failed,
}

// What the journal of a root has on a device of one page.
fn found(alloc: Global, device: &mut MemDevice, root: u64) -> FoundJournal {
    if device.sectors() < 8 {
        return FoundJournal::Failed;
    }
    match read_journal(device, alloc, 2, 6, root) {
        Ok(journal) => FoundJournal::Records(journal.records.len(), journal.top, journal.end),
        Err(Fault::Damaged) => FoundJournal::Damaged,
        Err(_) => FoundJournal::Failed,
    }
}

// Appends sectors to the journal of a device of one page. Whether they are appended.
fn is_appended(device: &mut MemDevice, first: u32, sectors: &[[u8; SECTOR_SIZE]]) -> bool {
    if device.sectors() < 8 || first > 6 || sectors.len() > 2 {
        return false;
    }
    append(device, first, sectors).is_ok()
}

// The two sectors of a record of the root 7 and of the number 9.
fn two_sectors(alloc: Global) -> Result<Vec<[u8; SECTOR_SIZE]>, AllocError> {
    write_sectors(alloc, 7, 9, &[5; 2 * PART_SIZE])
}

pub fn a_record_is_read_again(alloc: Global, findings: &mut Findings) -> Result<()> {
    let mut device = MemDevice::new(alloc, 1)?;
    let is_appended = is_appended(&mut device, 2, &two_sectors(alloc)?);
    findings.require(is_appended, "it is appended");
    check_roots(alloc, &mut device, findings);
    Ok(())
}

// Sees which records three roots have.
fn check_roots(alloc: Global, device: &mut MemDevice, findings: &mut Findings) {
    let is_one = matches!(found(alloc, device, 7), FoundJournal::Records(1, 9, 2));
    findings.require(is_one, "one record of two sectors");
    let is_none = matches!(found(alloc, device, 8), FoundJournal::Records(0, 9, 0));
    findings.require(is_none, "none behind the next root");
    let is_damaged = matches!(found(alloc, device, 6), FoundJournal::Damaged);
    findings.require(is_damaged, "a tag of a later root is a fault");
}

pub fn sectors_that_are_no_journal(alloc: Global, findings: &mut Findings) -> Result<()> {
    let mut device = MemDevice::new(alloc, 1)?;
    let mut sectors = two_sectors(alloc)?;
    sectors.truncate(1);
    check_cut_off(alloc, &mut device, &sectors, findings);
    Ok(())
}

// Sees that a record that was cut off is none, and that one behind the end is a fault.
fn check_cut_off(
    alloc: Global,
    device: &mut MemDevice,
    front: &[[u8; SECTOR_SIZE]],
    findings: &mut Findings,
) {
    let is_cut = is_appended(device, 2, front);
    findings.require(is_cut, "its first sector");
    let is_none = matches!(found(alloc, device, 7), FoundJournal::Records(0, 9, _));
    findings.require(is_none, "no record, and its number");
    let is_behind = is_appended(device, 4, front);
    findings.require(is_behind, "the same behind the end");
    let is_damaged = matches!(found(alloc, device, 7), FoundJournal::Damaged);
    findings.require(is_damaged, "a record behind the end is a fault");
}
