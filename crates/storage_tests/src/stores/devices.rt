//! Stores on a device in memory.

use crate::checks::require::require;
use crate::sectors::{content_of, put};
use crate::stores::call::{CallWords, bytes_in, number_in};
use crate::stores::callee::{Callee, make_calls};
use crate::stores::records::Records;
use crate::stores::trees::answer_pages;
use crate::transcript::Transcript;
use anyhow::{Result, bail};
use cow_pages::CowPages;
use journal_store::{DeviceStore, JournalStore};
use kv_store::{MAX_CACHE_PAGES, PageStore};
use sector_device::{Device, MAX_MEMORY_PAGES, MemDevice, SECTOR_SIZE, WriteProtected};
use std::alloc::{AllocError, Global};
use std::mem;
use store::{Batch, Entry, MAX_KEY_LENGTH, MAX_VALUE_LENGTH};

/// A store on a device in memory, with a journal or without.
type MemoryDeviceStore = DeviceStore<WriteProtected<MemDevice>>;

/// An open store on a device.
#[derive(Drop)]
struct OpenStore {
    records: Records<MemoryDeviceStore>,
    /// How many sectors had been read when that was asked last.
    reads: u64,
}

/// Does what a line says that is about the device, which it changes, or puts another one in its place.
pub fn run_on_device(
    device: &mut MemDevice,
    first: &CallWords<'_>,
    calls: &str,
    out: &mut Transcript,
) -> Result<()> {
    match first.name {
        "device" | "journaled" => make_new(device, first),
        "turn" => turn(device, first),
        "sector" => put_sector(device, first),
        "restart" => restart(device, first),
        "pages" => tell_pages(device, first, out),
        "open" => open(device, first, calls, out),
        _ => bail!("a line begins with no word"),
    }
}

/// Puts a new device in the place of one.
fn make_new(device: &mut MemDevice, call: &CallWords<'_>) -> Result<()> {
    *device = new_device(call)?;
    Ok(())
}

/// A new device, with a store of one record where a key is named.
fn new_device(call: &CallWords<'_>) -> Result<MemDevice> {
    let pages = number_in(call.first);
    if pages > MAX_MEMORY_PAGES {
        bail!("no device has so many pages");
    }
    let device = MemDevice::new(call.alloc, pages)?;
    if call.second.is_empty() {
        return Ok(device);
    }
    let mut device = WriteProtected::new(device);
    format_as_called(&mut device, call)?;
    Ok(device.into_device())
}

/// Makes a new store of the record that a call writes.
fn format_as_called(device: &mut WriteProtected<MemDevice>, call: &CallWords<'_>) -> Result<()> {
    format(
        call.alloc,
        device,
        call.name == "journaled",
        &bytes_in(call.alloc, call.second)?,
        &bytes_in(call.alloc, call.third)?,
    )
}

/// Makes a new store of one record on a device of 64 pages, with a journal or without.
pub fn format<D: Device>(
    alloc: Global,
    device: &mut WriteProtected<D>,
    has_journal: bool,
    key: &[u8],
    value: &[u8],
) -> Result<()> {
    let mut first = Entry::new(alloc);
    first.set(key, value)?;
    require(
        is_formatted(alloc, device, has_journal, &first),
        "not formatted",
    )
}

/// Makes a new store of one record, where it is one and the device has 64 pages. Answers whether it is made.
fn is_formatted<D: Device>(
    alloc: Global,
    device: &mut WriteProtected<D>,
    has_journal: bool,
    first: &Entry,
) -> bool {
    let (key, value) = (first.key(), first.value());
    if key.is_empty() || key.len() > MAX_KEY_LENGTH || value.len() > MAX_VALUE_LENGTH {
        return false;
    }
    if device.sectors() != 512 {
        return false;
    }
    if has_journal {
        return JournalStore::format(alloc, device, first).is_ok();
    }
    PageStore::format(alloc, device, first).is_ok()
}

/// Writes bytes to a sector of a device, and zeros behind them.
fn put_sector(device: &mut MemDevice, call: &CallWords<'_>) -> Result<()> {
    let mut written = bytes_in(call.alloc, call.second)?;
    written.resize(SECTOR_SIZE, 0)?;
    let mut bytes = [0; SECTOR_SIZE];
    bytes.copy_from_slice(written.as_slice());
    put(device, number_in(call.first), &bytes)?;
    Ok(())
}

/// Turns bits of one byte of a device.
fn turn(device: &mut MemDevice, call: &CallWords<'_>) -> Result<()> {
    let sector = number_in(call.first);
    let mut bytes = content_of(device, sector)?;
    match bytes.get_mut(number_in(call.second) as usize) {
        Some(byte) => *byte ^= u8::try_from(number_in(call.third)).unwrap_or(0),
        None => bail!("no byte of the device"),
    }
    put(device, sector, &bytes)?;
    Ok(())
}

/// Starts a device of 64 pages again after a stop.
fn restart(device: &mut MemDevice, call: &CallWords<'_>) -> Result<()> {
    if device.sectors() != 512 {
        bail!("not 64 pages");
    }
    device.restart(&[call.first == "last"; 512]);
    Ok(())
}

/// Takes a device, and leaves one of no pages.
fn taken(device: &mut MemDevice, alloc: Global) -> Result<MemDevice, AllocError> {
    Ok(mem::replace(device, MemDevice::new(alloc, 0)?))
}

/// Tells how many pages of the tree on a device there are.
fn tell_pages(device: &mut MemDevice, call: &CallWords<'_>, out: &mut Transcript) -> Result<()> {
    match CowPages::open(call.alloc, taken(device, call.alloc)?) {
        Ok(pages) => {
            *device = told_pages(pages, call, out);
            Ok(())
        }
        Err(_) => bail!("no pages on the device"),
    }
}

/// Tells how many pages of the tree in an array there are. Gives the device back.
fn told_pages(pages: CowPages<MemDevice>, call: &CallWords<'_>, out: &mut Transcript) -> MemDevice {
    let mut pages = pages;
    answer_pages(&mut pages, call, out);
    pages.into_device()
}

/// Opens the store on a device and makes calls of it, or tells why it is not opened.
fn open(
    device: &mut MemDevice,
    first: &CallWords<'_>,
    calls: &str,
    out: &mut Transcript,
) -> Result<()> {
    let cache = number_in(first.first) as usize;
    if cache == 0 || cache > MAX_CACHE_PAGES {
        bail!("no cache has so many pages");
    }
    let taken = taken(device, first.alloc)?;
    match DeviceStore::open_with(first.alloc, WriteProtected::new(taken), cache) {
        Ok(store) => {
            let (left, answer) = run_on_store(store, first, calls, out);
            *device = left;
            answer
        }
        Err((left, fault)) => {
            *device = left.into_device();
            Ok(first.answer_fault(out, fault))
        }
    }
}

/// Makes calls of a store on a device. Gives the device back, and what came of the calls.
fn run_on_store(
    store: MemoryDeviceStore,
    first: &CallWords<'_>,
    calls: &str,
    out: &mut Transcript,
) -> (MemDevice, Result<()>) {
    let mut open = OpenStore {
        reads: store.device().device().reads(),
        records: Records {
            store,
            batch: Batch::new(first.alloc),
        },
    };
    let answer = make_calls(first.alloc, &mut open, calls, out);
    (open.into_device(), answer)
}

impl OpenStore {
    /// Its device.
    fn into_device(self) -> MemDevice {
        let records = self.records;
        let store = records.store;
        store.into_device().into_device()
    }
}

impl Callee for OpenStore {
    fn make(&mut self, call: &CallWords<'_>, out: &mut Transcript) -> Result<()> {
        let device = self.records.store.device().device();
        match call.name {
            "stop" => device.stop_after(u64::from(number_in(call.first))),
            "fail" => device.fail_call(u64::from(number_in(call.first))),
            "reads" => {
                let reads = device.reads();
                call.answer_number(out, reads.saturating_sub(self.reads));
                self.reads = reads;
            }
            _ => self.records.make(call, out)?,
        }
        Ok(())
    }
}
