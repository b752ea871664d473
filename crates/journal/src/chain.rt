//! The journal that sectors hold.
ghost use Rattle.std.specs.Prelude.{◌≡◌, ◌↔◌, ◌≤◌, ◌<◌, ◌+◌, ◌-◌, ◌*◌, [], ℕ, List, Err, IsTrue, length, take, drop, map, get_or, IsSome, IfSome, IfNone, IfOk};
ghost use Rattle.journal.specs.Chain.{Part, Entry, Holds, IsWhole, Chains, end_of};
ghost use Rattle.journal.specs.Journal.{IsSound, IsJournal, IsGreatest};
ghost use Rattle.journal.specs.Sectors.{sector_at};
ghost use Rattle.journal.specs.Records.{parts_of};
ghost use Rattle.store.specs.declared.fault.Fault.TheVariants as faults;
ghost use Rattle.journal.specs.Reading.{region_of, part_under, entries_of, BeginsWith, AreWhole, IsNumberIn, IsRecordAt, IsReadAs};

use crate::journal::{Journal, JournalRecord};
use crate::record::part_bytes;
use crate::sector::{JournalSector, PART_SIZE, SectorTag, read_sector};
use sector_device::SECTOR_SIZE;
use std::alloc::{AllocError, Global};
use store::Fault;

// Whether a tag is that of the part of this index of the record of another.
fn is_part_of(found: SectorTag, tag: SectorTag, index: usize) -> bool
    ensures { IsTrue result ↔ ((found.root ≡ tag.root) × (found.number ≡ tag.number)
        × (found.index ≡ index) × (found.count ≡ tag.count)) }
{
    found.root == tag.root
        && found.number == tag.number
        && found.index as usize == index
        && found.count == tag.count
}

// Whether a sector holds the part of this index of the record of a tag.
fn holds_part(room: u16, tag: SectorTag, index: usize, sector: &[u8; SECTOR_SIZE]) -> bool
    ensures { IsTrue result
        ↔ (sector_at room sector.now ≡ Holds (part_under tag index (drop 24 sector.now))) }
{
    match read_sector(room, sector) {
        JournalSector::Blank => false,
        JournalSector::Part(found) => is_part_of(found, tag, index),
        JournalSector::Malformed => false,
    }
}

// The tag of the sector, where a record of this root begins in it.
fn first_tag(root: u64, room: u16, sector: &[u8; SECTOR_SIZE]) -> Option<SectorTag>
    ensures found { IfSome result (λ tag. BeginsWith root room tag sector.now) }
    ensures only { (part : Part) → sector_at room sector.now ≡ Holds part → part.root ≡ root → part.index ≡ 0
        → IsSome result }
{
    match read_sector(room, sector) {
        JournalSector::Blank => None,
        JournalSector::Part(tag) => {
            if tag.root != root || tag.index != 0 {
                return None;
            }
            Some(tag)
        }
        JournalSector::Malformed => None,
    }
}

// Whether the sectors hold the parts of the record of a tag, from the first on.
fn holds_parts(room: u16, tag: SectorTag, sectors: &[[u8; SECTOR_SIZE]]) -> bool
    ensures { IsTrue result ↔ ((i : ℕ) → i < length sectors.now → sector_at room (get_or sectors.now i [])
        ≡ Holds (part_under tag i (drop 24 (get_or sectors.now i [])))) }
{
    for index in 0..sectors.len() {
        if !holds_part(room, tag, index, &sectors[index]) {
            return false;
        }
    }
    true
}

// The tag of the whole record of this root that begins at a place and has a number above the last one.
fn record_at(
    root: u64,
    last: u64,
    room: u16,
    sectors: &[[u8; SECTOR_SIZE]],
    place: usize,
) -> Option<SectorTag>
    requires count { length sectors.now ≡ room }
    requires inside { place ≤ room }
    ensures found { IfSome result (λ tag. IsRecordAt root last room sectors.now place tag) }
    ensures none { IfNone result ((e : Entry)
        → IsWhole (region_of room sectors.now) root last place (room - place) e → ⊥) }
{
    if place >= sectors.len() {
        return None;
    }
    let tag = first_tag(root, room, &sectors[place])?;
    let count = tag.count as usize;
    if tag.number <= last || count > sectors.len() - place {
        return None;
    }
    if !holds_parts(room, tag, &sectors[place..place + count]) {
        return None;
    }
    Some(tag)
}

// The bytes of the parts in these sectors, one after the other.
fn join_parts(alloc: Global, sectors: &[[u8; SECTOR_SIZE]]) -> Result<Vec<u8>, AllocError>
    ensures parts { IfOk result (λ bytes. parts_of (length sectors.now) bytes.items
        ≡ map (λ sector. drop 24 sector) sectors.now) }
    ensures long { IfOk result (λ bytes. length bytes.items ≡ PART_SIZE * length sectors.now) }
{
    let mut bytes = Vec::new(alloc);
    for sector in sectors {
        bytes.extend_from_slice(part_bytes(sector))?;
    }
    Ok(bytes)
}

// The records of a root, and how many sectors they take.
#[derive(Drop)]
struct Chain {
    records: Vec<JournalRecord>,
    end: usize,
}

// Reads the records of a root.
fn read_chain(
    alloc: Global,
    root: u64,
    room: u16,
    sectors: &[[u8; SECTOR_SIZE]],
) -> Result<Chain, AllocError>
    requires { length sectors.now ≡ room }
    ensures chain { IfOk result (λ chain. Chains (region_of room sectors.now) root 0 0 room
        (entries_of chain.records.items)) }
    ensures end { IfOk result (λ chain. end_of 0 (entries_of chain.records.items) ≡ chain.end) }
    ensures inside { IfOk result (λ chain. chain.end ≤ room) }
    ensures whole { IfOk result (λ chain. AreWhole chain.records.items) }
{
    let mut records = Vec::new(alloc);
    let mut last = 0;
    let mut end = 0;
    while let Some(tag) = record_at(root, last, room, sectors, end) {
        let next = end + tag.count as usize;
        let bytes = join_parts(alloc, &sectors[end..next])?;
        records.push(JournalRecord {
            number: tag.number,
            bytes,
        })?;
        last = tag.number;
        end = next;
    }
    Ok(Chain { records, end })
}

// Whether a part with this tag may stand at its place, where the records of the root end at another.
fn may_stand(root: u64, end: usize, place: usize, tag: SectorTag) -> bool
    ensures { IsTrue result ↔ ((tag.root ≤ root) × (end < place → tag.root ≡ root → 1 ≤ tag.index)) }
{
    if tag.root > root {
        return false;
    }
    if place <= end || tag.root < root {
        return true;
    }
    tag.index > 0
}

// Whether a sector has no fault at its place, where the records of the root end at another.
fn is_sound(root: u64, room: u16, end: usize, place: usize, sector: &[u8; SECTOR_SIZE]) -> bool
    ensures { IsTrue result ↔ IsSound root room end place (sector_at room sector.now) }
{
    match read_sector(room, sector) {
        JournalSector::Blank => true,
        JournalSector::Part(tag) => may_stand(root, end, place, tag),
        JournalSector::Malformed => false,
    }
}

// Whether no sector has a fault.
fn are_sound(root: u64, room: u16, end: usize, sectors: &[[u8; SECTOR_SIZE]]) -> bool
    ensures { IsTrue result ↔ ((q : ℕ) → q < length sectors.now
        → IsSound root room end q (sector_at room (get_or sectors.now q []))) }
{
    for place in 0..sectors.len() {
        if !is_sound(root, room, end, place, &sectors[place]) {
            return false;
        }
    }
    true
}

// The number of the part in a sector, of whatever root, or 0 where there is none.
fn part_number(room: u16, sector: &[u8; SECTOR_SIZE]) -> u64
    ensures { IsNumberIn result (sector_at room sector.now) }
{
    match read_sector(room, sector) {
        JournalSector::Blank => 0,
        JournalSector::Part(tag) => tag.number,
        JournalSector::Malformed => 0,
    }
}

// The greatest number of a part in these sectors, of whatever root, or 0 where there is none.
fn greatest_number(room: u16, sectors: &[[u8; SECTOR_SIZE]]) -> u64
    requires { length sectors.now ≡ room }
    ensures { IsGreatest result (region_of room sectors.now) }
{
    let mut top = 0;
    for place in 0..sectors.len() {
        top = top.max(part_number(room, &sectors[place]));
    }
    top
}

/// The journal of a root that these sectors are, so many of them.
///
/// `Damaged`: a sector is neither blank nor a part of a record, or one that no stop leaves, so that
/// the sectors are no journal of this root.
pub fn find_journal(
    alloc: Global,
    root: u64,
    room: u16,
    sectors: &[[u8; SECTOR_SIZE]],
) -> Result<Journal, Fault>
    requires { length sectors.now ≡ room }
    ensures read { IfOk result (λ journal. IsReadAs journal root room (region_of room sectors.now)) }
    ensures damaged { result ≡ Err faults.Damaged → (es : List Entry)
        → IsJournal (region_of room sectors.now) root room es → ⊥ }
    ensures device { result ≡ Err faults.Device → ⊥ }
{
    let chain = read_chain(alloc, root, room, sectors)?;
    if !are_sound(root, room, chain.end, sectors) {
        return Err(Fault::Damaged);
    }
    Ok(Journal {
        records: chain.records,
        top: greatest_number(room, sectors),
        end: chain.end as u16,
    })
}
