//! A dump on a device, read.
ghost use Rattle.std.specs.Prelude.{◌≡◌, ◌≤◌, ◌+◌, ◌-◌, ◌*◌, ◌/◌, ◌%◌, ◌↔◌, IsTrue, ◌<◌, ◌^◌, ◌∷◌, ◌⊎◌, List, ℕ, length, drop, slice_index, IfOk, IfErr, IfSome, IfNone, OnOk};
ghost use Rattle.byteorder.specs.Endian.{big_number};
ghost use Rattle.sha2.specs.Hashers.{Holds256};
ghost use Rattle.sector_device.specs.Device.{KeepsHistory, HasFailed};
ghost use Rattle.cow_pages.specs.Held.{KeepsContent};
ghost use Rattle.store.specs.Records.{Changes};
ghost use Rattle.dumps.specs.Form.{TheDump, ending};
ghost use Rattle.dumps.specs.OnDevice.{DumpGoesOn, HasList, HoldsDump, IsNextPart, LeavesToRead, bytes_from};
ghost use Rattle.dumps.specs.Reading.{HasHead, IsUnread};

use crate::bytes::{BLOCK, LIST_BYTES, MAGIC, VERSION, end_bytes, head_bytes};
use crate::device_pages::read_pages;
use crate::fault::DumpFault;
use crate::lists::{SPELLED, are_equal, list_in, spelled_length};
use crate::place::DumpPlace;
use byteorder::{BigEndian, ByteOrder};
use journal::one_batch;
use sector_device::Device;
use sha2::{Digest, Sha256};
use std::alloc::Global;
use std::mem;
use storage_sizes::{PAGE_SIZE, SECTORS_PER_PAGE};
use store::{Batch, Fault};

// Where the version and the commit number stand in the head.
const VERSION_AT: usize = 12;

const NUMBER_AT: usize = 20;

// Whether a device has whole pages, one at least.
fn has_pages<D: Device>(device: &D) -> bool
    ensures { IsTrue result
        ↔ ((8 ≤ (D.state device.now).sectors) × ((D.state device.now).sectors % 8 ≡ 0)) }
{
    let sectors = device.sectors();
    sectors >= SECTORS_PER_PAGE && sectors % SECTORS_PER_PAGE == 0
}

/// Reads the head of the dump on a device: the number of the last commit, and the place behind it. The device is only read.
///
/// `NotADump`: it does not begin as a dump. `OtherVersion`: the form is of another version. `Damaged`: no dump begins so. Each of
/// them comes only where no dump is there. `Device`: the device failed.
pub fn read_head<D: Device>(alloc: Global, device: &mut D) -> Result<(u64, DumpPlace), DumpFault>
    ensures history { KeepsHistory (D.state device.old) (D.state device.new) }
    ensures content { (D.state device.old).faithful
        → KeepsContent (D.state device.old) (D.state device.new) }
    ensures begun { (D.state device.old).faithful
        → IfOk result (λ it. HasHead (D.state device.old) it.0 it.1) }
    ensures unread { (D.state device.old).faithful → (dump : TheDump)
        → HoldsDump (D.state device.old) dump
        → IfErr result (λ fault. IsUnread fault (D.state device.old) (D.state device.new)) }
    ensures cause { IfErr result (λ fault. fault ≡ DumpFault.Device
        → HasFailed (D.state device.old) (D.state device.new)) }
{
    if !has_pages(device) {
        return Err(DumpFault::NotADump);
    }
    let page = read_pages(alloc, device, 0, 1)?;
    let number = number_in(page.as_slice());
    let expected = head_bytes(alloc, number)?;
    if !are_equal(page.as_slice(), expected.as_slice()) {
        return Err(fault_of_head(page.as_slice()));
    }
    Ok((number, DumpPlace::behind_head(page.as_slice())))
}

// The number of the last commit that a head has.
fn number_in(page: &[u8]) -> u64
    requires { 28 ≤ length page.now }
    ensures { result ≡ big_number 8 (drop 20 page.now) }
{
    BigEndian::read_u64(&page[NUMBER_AT..])
}

// Why a page is no head of a dump.
fn fault_of_head(page: &[u8]) -> DumpFault
    requires { 16 ≤ length page.now }
    ensures { result ≡ DumpFault.Device → ⊥ }
{
    if !page.starts_with(MAGIC) {
        return DumpFault::NotADump;
    }
    let version = BigEndian::read_u32(&page[VERSION_AT..]);
    if version == VERSION {
        DumpFault::Damaged
    } else {
        DumpFault::OtherVersion(version)
    }
}

/// Reads the next list of the dump on a device, or `None` at its end. The device is only read.
///
/// Damaged: no list and no end that fits what comes before is there. Device: the device failed.
pub fn read_list<D: Device>(
    alloc: Global,
    device: &mut D,
    place: &mut DumpPlace,
) -> Result<Option<Batch>, Fault>
    ensures history { KeepsHistory (D.state device.old) (D.state device.new) }
    ensures content { (D.state device.old).faithful
        → KeepsContent (D.state device.old) (D.state device.new) }
    ensures next { (D.state device.old).faithful → (before : List ℕ)
        → Holds256 place.old.hasher before → IfOk result (λ found. IsNextPart
        (D.state device.old).sectors (D.state device.old).content before place.old found place.new) }
    ensures goes_on { (D.state device.old).faithful → (before : List ℕ) (lists : List Changes)
        → Holds256 place.old.hasher before → DumpGoesOn (D.state device.old).sectors
        (D.state device.old).content place.old.page before place.old.lists lists
        → IfOk result (λ found. LeavesToRead (D.state device.old).sectors
        (D.state device.old).content before lists found place.new) }
    ensures damaged { (D.state device.old).faithful → (before : List ℕ) (lists : List Changes)
        → Holds256 place.old.hasher before → DumpGoesOn (D.state device.old).sectors
        (D.state device.old).content place.old.page before place.old.lists lists
        → IfErr result (λ fault. fault ≡ Fault.Damaged → ⊥) }
    ensures cause { IfErr result (λ fault. fault ≡ Fault.Device
        → HasFailed (D.state device.old) (D.state device.new)) }
{
    let pages = device.sectors() / SECTORS_PER_PAGE;
    if place.page >= pages {
        return Err(Fault::Damaged);
    }
    let first = read_pages(alloc, device, place.page, 1)?;
    read_part(alloc, device, place, first.as_slice())
}

// What a page begins with.
fn kind_of(page: &[u8]) -> u8
    requires { 1 ≤ length page.now }
    ensures { result ≡ slice_index page.now 0 }
{
    page[0]
}

// Reads the part that begins with this page, as `read_list` does.
fn read_part<D: Device>(
    alloc: Global,
    device: &mut D,
    place: &mut DumpPlace,
    first: &[u8],
) -> Result<Option<Batch>, Fault>
    requires long { length first.now ≡ 4096 }
    requires inside { 8 * (place.old.page + 1) ≤ (D.state device.old).sectors }
    ensures history { KeepsHistory (D.state device.old) (D.state device.new) }
    ensures content { (D.state device.old).faithful
        → KeepsContent (D.state device.old) (D.state device.new) }
    ensures next { (D.state device.old).faithful
        → first.now ≡ bytes_from (D.state device.old).content (8 * place.old.page) 8
        → (before : List ℕ) → Holds256 place.old.hasher before → IfOk result (λ found. IsNextPart
        (D.state device.old).sectors (D.state device.old).content before place.old found place.new) }
    ensures goes_on { (D.state device.old).faithful
        → first.now ≡ bytes_from (D.state device.old).content (8 * place.old.page) 8
        → (before : List ℕ) (lists : List Changes) → Holds256 place.old.hasher before
        → DumpGoesOn (D.state device.old).sectors (D.state device.old).content place.old.page before
        place.old.lists lists → IfOk result (λ found. LeavesToRead (D.state device.old).sectors
        (D.state device.old).content before lists found place.new) }
    ensures damaged { (D.state device.old).faithful
        → first.now ≡ bytes_from (D.state device.old).content (8 * place.old.page) 8
        → (before : List ℕ) (lists : List Changes) → Holds256 place.old.hasher before
        → DumpGoesOn (D.state device.old).sectors (D.state device.old).content place.old.page before
        place.old.lists lists → IfErr result (λ fault. fault ≡ Fault.Damaged → ⊥) }
    ensures cause { IfErr result (λ fault. fault ≡ Fault.Device
        → HasFailed (D.state device.old) (D.state device.new)) }
{
    // For the proof: bytes spell one list at most.
    one_batch();
    if kind_of(first) == BLOCK {
        return match read_block(alloc, device, place, spelled_length(first)) {
            Ok(batch) => Ok(Some(batch)),
            Err(fault) => Err(fault),
        };
    }
    let pages = device.sectors() / SECTORS_PER_PAGE;
    match read_end(alloc, first, place, pages) {
        Ok(()) => Ok(None),
        Err(fault) => Err(fault),
    }
}

// How many pages the block of a list has that so many bytes spell, at a page of so many. `None`: no list is so long, or it ends
// behind them.
fn pages_of_block(page: u32, length: u32, pages: u32) -> Option<u32>
    ensures found { IfSome result (λ count. (count ≡ (length + 4100) / 4096) × (1 ≤ count)
        × (page + count ≤ pages) × (length < 2 ^ 26)) }
    ensures none { IfNone result ((2 ^ 26 ≤ length) ⊎ (pages < page + (length + 4100) / 4096)) }
{
    if length >= LIST_BYTES {
        return None;
    }
    let count = (length + (SPELLED + PAGE_SIZE - 1) as u32) / PAGE_SIZE as u32;
    if page > pages || count > pages - page {
        return None;
    }
    Some(count)
}

// Reads the block of a list that so many bytes spell, if it is one. The faults are those of a list.
fn read_block<D: Device>(
    alloc: Global,
    device: &mut D,
    place: &mut DumpPlace,
    length: u32,
) -> Result<Batch, Fault>
    ensures history { KeepsHistory (D.state device.old) (D.state device.new) }
    ensures content { (D.state device.old).faithful
        → KeepsContent (D.state device.old) (D.state device.new) }
    ensures read { (D.state device.old).faithful → (before : List ℕ)
        → Holds256 place.old.hasher before → IfOk result (λ batch. HasList
        (D.state device.old).sectors (D.state device.old).content before batch place.old place.new) }
    ensures damaged { (D.state device.old).faithful → (before : List ℕ) (list : Changes)
        (lists : List Changes) → Holds256 place.old.hasher before
        → DumpGoesOn (D.state device.old).sectors (D.state device.old).content place.old.page before
        place.old.lists (list ∷ lists)
        → big_number 4 (drop 1 (bytes_from (D.state device.old).content (8 * place.old.page)
        ((D.state device.old).sectors - 8 * place.old.page))) ≡ length
        → IfErr result (λ fault. fault ≡ Fault.Damaged → ⊥) }
    ensures cause { IfErr result (λ fault. fault ≡ Fault.Device
        → HasFailed (D.state device.old) (D.state device.new)) }
{
    let pages = device.sectors() / SECTORS_PER_PAGE;
    let Some(count) = pages_of_block(place.page, length, pages) else {
        return Err(Fault::Damaged);
    };
    let block = read_pages(alloc, device, place.page, count)?;
    let Some(batch) = list_in(alloc, block.as_slice())? else {
        return Err(Fault::Damaged);
    };
    place.go_on(block.as_slice(), count);
    Ok(batch)
}

// Whether a page is the end of a dump of so many pages, at this place. The place has no hasher any more.
fn read_end(alloc: Global, page: &[u8], place: &mut DumpPlace, pages: u32) -> Result<(), Fault>
    ensures read { (before : List ℕ) → Holds256 place.old.hasher before
        → OnOk result ((page.now ≡ ending place.old.lists before) × (place.old.page + 1 ≡ pages)) }
    ensures damaged { (before : List ℕ) → Holds256 place.old.hasher before
        → page.now ≡ ending place.old.lists before → place.old.page + 1 ≡ pages
        → IfErr result (λ fault. fault ≡ Fault.Damaged → ⊥) }
    ensures no_device { IfErr result (λ fault. fault ≡ Fault.Device → ⊥) }
{
    let hasher = mem::replace(&mut place.hasher, Sha256::new());
    let expected = end_bytes(alloc, place.lists, &hasher.finalize())?;
    if pages == 0 || place.page != pages - 1 {
        return Err(Fault::Damaged);
    }
    if !are_equal(page, expected.as_slice()) {
        return Err(Fault::Damaged);
    }
    Ok(())
}
