//! A dump on a device, written.
ghost use Rattle.std.specs.Prelude.{◌≡◌, ◌≤◌, ◌+◌, ◌*◌, ◌/◌, ◌<◌, List, ℕ, length, take, IfOk, IfSome, OnOk};
ghost use Rattle.sha2.specs.Hashers.{Holds256};
ghost use Rattle.sector_device.specs.Device.{KeepsHistory, IsSynced};
ghost use Rattle.dumps.specs.OnDevice.{BeginsWithZeros, HasEnd, HasList};
ghost use Rattle.dumps.specs.Reading.{HasHead};
ghost use Rattle.dumps.specs.Writing.{HasPages, HasPartCause};

use crate::bytes::{block_bytes, end_bytes, head_bytes};
use crate::device_pages::write_pages;
use crate::place::DumpPlace;
use sector_device::{Device, DeviceFault};
use sha2::Digest;
use std::alloc::{AllocError, Global};
use storage_sizes::{PAGE_SIZE, SECTOR_SIZE, SECTORS_PER_PAGE};
use store::{Batch, StoreFault};

/// Begins a dump on a device whose first page has zeros alone: writes its head, with the number of the last commit. Gives the place
/// behind it.
///
/// Full: the device does not have two whole pages at least. Device: the device failed.
pub fn begin_dump<E: Device>(
    alloc: Global,
    device: &mut E,
    number: u64,
) -> Result<DumpPlace, StoreFault>
    ensures history { KeepsHistory (E.state device.old) (E.state device.new) }
    ensures begun { (E.state device.old).faithful → BeginsWithZeros (E.state device.old)
        → IfOk result (λ place. HasHead (E.state device.new) number place) }
    ensures cause { HasPartCause result (E.state device.old) (E.state device.new) }
{
    let sectors = device.sectors();
    if sectors < 2 * SECTORS_PER_PAGE || sectors % SECTORS_PER_PAGE != 0 {
        return Err(StoreFault::Full);
    }
    let head = head_bytes(alloc, number)?;
    let sector = first_sector_of(head.as_slice());
    match device.write(0, &sector) {
        Ok(()) => {}
        Err(DeviceFault) => return Err(StoreFault::Device),
    }
    Ok(DumpPlace::behind_head(head.as_slice()))
}

// The first sector of bytes.
fn first_sector_of(bytes: &[u8]) -> [u8; SECTOR_SIZE]
    requires { 512 ≤ length bytes.now }
    ensures { result ≡ take 512 bytes.now }
{
    let mut sector = [0; SECTOR_SIZE];
    let (first, _) = bytes.split_at(SECTOR_SIZE);
    sector.copy_from_slice(first);
    sector
}

/// Writes one list behind those that were written. What is before the place stays.
///
/// Full: no room is left for it and the end, or the list is none that a dump has. Device: the device failed.
pub fn put_list<E: Device>(
    alloc: Global,
    device: &mut E,
    place: &mut DumpPlace,
    batch: &Batch,
) -> Result<(), StoreFault>
    ensures history { KeepsHistory (E.state device.old) (E.state device.new) }
    ensures before { (E.state device.old).faithful → (s : ℕ) → s < 8 * place.old.page
        → (E.state device.new).content s ≡ (E.state device.old).content s }
    ensures later { place.old.page ≤ place.new.page }
    ensures written { (E.state device.old).faithful → (before : List ℕ)
        → Holds256 place.old.hasher before → OnOk result (HasList (E.state device.new).sectors
        (E.state device.new).content before batch.now place.old place.new) }
    ensures cause { HasPartCause result (E.state device.old) (E.state device.new) }
{
    let pages = device.sectors() / SECTORS_PER_PAGE;
    let Some(block) = block_bytes(alloc, batch)? else {
        return Err(StoreFault::Full);
    };
    let Some(count) = pages_that_fit(place.page, block.len(), pages) else {
        return Err(StoreFault::Full);
    };
    match write_pages(device, place.page, block.as_slice()) {
        Ok(()) => {}
        Err(DeviceFault) => return Err(StoreFault::Device),
    }
    place.go_on(block.as_slice(), count);
    Ok(())
}

// How many pages so many bytes have, where they fit from a page on among so many. `None`: they do not, or they are no page.
fn pages_that_fit(page: u32, length: usize, pages: u32) -> Option<u32>
    ensures { IfSome result (λ count. (count ≡ length / 4096) × (1 ≤ count) × (page + count ≤ pages)) }
{
    let count = length / PAGE_SIZE;
    if count == 0 || page > pages || count > (pages - page) as usize {
        return None;
    }
    Some(count as u32)
}

/// Writes the end of a dump to the last page of a device, and makes all of it last.
///
/// Full: the place is not the last page. Device: the device failed.
pub fn end_dump<E: Device>(
    alloc: Global,
    device: &mut E,
    place: DumpPlace,
) -> Result<(), StoreFault>
    ensures history { KeepsHistory (E.state device.old) (E.state device.new) }
    ensures before { (E.state device.old).faithful → (s : ℕ) → s < 8 * place.page
        → (E.state device.new).content s ≡ (E.state device.old).content s }
    ensures written { (E.state device.old).faithful → (before : List ℕ)
        → Holds256 place.hasher before → OnOk result (HasEnd (E.state device.new).sectors
        (E.state device.new).content before place) }
    ensures synced { (E.state device.old).faithful → OnOk result (IsSynced (E.state device.new)) }
    ensures cause { HasPartCause result (E.state device.old) (E.state device.new) }
{
    let pages = device.sectors() / SECTORS_PER_PAGE;
    let DumpPlace {
        page,
        lists,
        hasher,
    } = place;
    let end = end_bytes(alloc, lists, &hasher.finalize())?;
    if page >= pages || page + 1 != pages {
        return Err(StoreFault::Full);
    }
    match write_pages(device, page, end.as_slice()) {
        Ok(()) => {}
        Err(DeviceFault) => return Err(StoreFault::Device),
    }
    match device.sync() {
        Ok(()) => Ok(()),
        Err(DeviceFault) => Err(StoreFault::Device),
    }
}

/// How many pages the block of a list has, or `None` where a dump has none of it.
pub fn list_pages(alloc: Global, batch: &Batch) -> Result<Option<u64>, AllocError>
    ensures { IfOk result (λ found. IfSome found (λ pages. HasPages batch.now pages)) }
{
    match block_bytes(alloc, batch)? {
        Some(block) => Ok(Some((block.len() / PAGE_SIZE) as u64)),
        None => Ok(None),
    }
}
