//! Servers on devices of 64 pages, of whose calls some fail, opened as the program opens them: whether there is a journal, the root
//! says. The functions that open servers and call them have no contract, so that the tests are checked without those of a server.

use crate::servers::{ServerOver, open_server, try_server};
use crate::stops::answered_events::AnsweredEvents;
use crate::stops::fault::TestFault;
use crate::stops::kinds::Kind;
use crate::stops::work::Attempt;
use crate::stores::{SMALL_PAGES, new_device};
use journal_store::{DeviceStore, MAX_CACHE_PAGES};
use sector_device::{MemDevice, WriteProtected};
use server::server::ONLY_CLIENT;
use sql_types::answer::Answer;
use sql_types::event::Event;
use std::alloc::{AllocError, Global};
use store::{Cursor, Entry, Map, RecordFormat, Store};

/// How many pages the program keeps.
pub const CACHE_PAGES: usize = MAX_CACHE_PAGES;

/// A store on a device, with a journal or without.
type StoreOnDevice = DeviceStore<WriteProtected<MemDevice>>;

/// A server over a store on a device.
pub type OnDevice = ServerOver<StoreOnDevice>;

/// A server, of which nothing is known but that it answers events.
pub trait Answering {
    /// The answer to an event.
    fn answer_to(&mut self, event: &Event) -> Answer;
}

impl<S: Store> Answering for ServerOver<S> {
    fn answer_to(&mut self, event: &Event) -> Answer {
        self.step(ONLY_CLIENT, event)
    }
}

/// A server on a device, of which nothing is known but that it has the device.
pub trait DeviceServer {
    /// The device.
    fn device(&self) -> &MemDevice;

    /// The device, where the server is ended.
    fn end(self) -> MemDevice;
}

impl DeviceServer for OnDevice {
    fn device(&self) -> &MemDevice {
        self.store().device().device()
    }

    fn end(self) -> MemDevice {
        device_of(self.into_store())
    }
}

/// The device of a store.
fn device_of(store: StoreOnDevice) -> MemDevice {
    store.into_device().into_device()
}

/// Opens a server on a device, with a cache of so many pages, or hands the device back and tells why none is.
fn open_or_hand_back(
    alloc: Global,
    device: MemDevice,
    cache: usize,
) -> Result<OnDevice, (MemDevice, TestFault)> {
    if cache == 0 || cache > MAX_CACHE_PAGES {
        return Err((device, TestFault::NoSuchCache));
    }
    match DeviceStore::open_with(alloc, WriteProtected::new(device), cache) {
        Ok(store) => server_or_device(alloc, store),
        Err((device, fault)) => Err((device.into_device(), TestFault::NoStore(fault))),
    }
}

/// Opens a server over a store on a device, or hands the device back and tells why none is.
fn server_or_device(
    alloc: Global,
    store: StoreOnDevice,
) -> Result<OnDevice, (MemDevice, TestFault)> {
    match try_server(alloc, store) {
        Ok(server) => Ok(server),
        Err((store, fault)) => Err((device_of(store), TestFault::NoServer(fault))),
    }
}

/// The device after a server was opened on it and ended, and why none was, if so.
pub fn open_and_end(
    alloc: Global,
    device: MemDevice,
    cache: usize,
) -> (MemDevice, Option<TestFault>) {
    match open_or_hand_back(alloc, device, cache) {
        Ok(server) => (server.end(), None),
        Err((device, fault)) => (device, Some(fault)),
    }
}

/// Opens a server on a device no call of which fails, with a cache of so many pages.
pub fn open_device(alloc: Global, device: MemDevice, cache: usize) -> Result<OnDevice, TestFault> {
    match open_or_hand_back(alloc, device, cache) {
        Ok(server) => Ok(server),
        Err((_, fault)) => Err(fault),
    }
}

/// Opens a server over a new database on a device, with a cache of so many pages.
pub fn open_new(alloc: Global, cache: usize) -> Result<OnDevice, TestFault> {
    open_device(alloc, new_device(alloc, SMALL_PAGES)?, cache)
}

/// Opens a server on a device that is hindered after a count, with a cache of so many pages. A refusal other than that the device
/// failed is an error.
pub fn attempt_opening(
    alloc: Global,
    device: MemDevice,
    cache: usize,
    kind: Kind,
    count: u64,
) -> Result<Attempt, TestFault> {
    kind.hinder(&device, count);
    let (device, fault) = open_and_end(alloc, device, cache);
    let is_opened = is_opened(fault)?;
    Attempt::of(alloc, device, kind, is_opened, 0)
}

/// Whether a server was opened, where it was refused since the device failed if it was. Another refusal is an error.
fn is_opened(fault: Option<TestFault>) -> Result<bool, TestFault> {
    match fault {
        None => Ok(true),
        Some(fault) if fault.is_device() => Ok(false),
        Some(fault) => Err(fault),
    }
}

/// What a server found on a device: the records, the number of the last commit, and the format.
#[derive(Drop)]
pub struct FoundDatabase {
    pub records: Vec<u8>,
    pub number: u64,
    pub format: u32,
}

/// Opens a server on a device, and tells what it found.
pub fn find_on(alloc: Global, device: MemDevice) -> Result<FoundDatabase, TestFault> {
    let (found, _) = find_and_end(alloc, device)?;
    Ok(found)
}

/// Opens a server on a device and ends it, and tells what it found.
pub fn find_and_end(
    alloc: Global,
    device: MemDevice,
) -> Result<(FoundDatabase, MemDevice), TestFault> {
    let mut store = open_device(alloc, device, CACHE_PAGES)?.into_store();
    let scanned = scan(alloc, &mut store);
    let (number, format) = (store.number(), format_of(&store));
    // a device is dropped by one call, and a store is not
    let device = device_of(store);
    let records = scanned?;
    let found = FoundDatabase {
        records,
        number,
        format,
    };
    Ok((found, device))
}

/// The format of the store on a device.
fn format_of(store: &StoreOnDevice) -> u32 {
    match (store, store.record_format()) {
        (DeviceStore::Journaled(_), _) => 3,
        (DeviceStore::Pages(_), RecordFormat::V1) => 1,
        (DeviceStore::Pages(_), RecordFormat::V2) => 2,
    }
}

/// The records that a server finds, and the server, which is ended and opened again, after one more commit.
pub fn find_and_commit<S: Store + Drop>(
    alloc: Global,
    server: ServerOver<S>,
    commit: &AnsweredEvents,
) -> Result<(Vec<u8>, ServerOver<S>), TestFault> {
    let mut store = server.into_store();
    let records = scan(alloc, &mut store)?;
    let mut server = open_server(alloc, store)?;
    commit.give_first(alloc, commit.events.len(), &mut server)?;
    Ok((records, server))
}

/// The records that a server leaves.
pub fn records_of<S: Store + Drop>(
    alloc: Global,
    server: ServerOver<S>,
) -> Result<Vec<u8>, TestFault> {
    let mut store = server.into_store();
    scan(alloc, &mut store)
}

/// The records of a map in the order of their keys: of each the key and the value, each of them after its length.
fn scan<M: Map>(alloc: Global, map: &mut M) -> Result<Vec<u8>, TestFault> {
    let mut records = Vec::new(alloc);
    let mut cursor = Cursor::over(alloc, &[])?;
    for _ in 0..u64::MAX {
        if !cursor.advance(map)? {
            break;
        }
        add_record(cursor.entry(), &mut records)?;
    }
    Ok(records)
}

/// Adds a record.
fn add_record(entry: &Entry, records: &mut Vec<u8>) -> Result<(), AllocError> {
    for part in [entry.key(), entry.value()] {
        records.extend_from_slice(&part.len().to_be_bytes())?;
        records.extend_from_slice(part)?;
    }
    Ok(())
}
