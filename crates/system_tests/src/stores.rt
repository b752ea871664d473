//! New databases, in a store in memory and on a device in memory.

use cow_pages::page_count;
use kv_store::PageStore;
use sector_device::{Device, MemDevice};
use sql_types::name::Name;
use std::alloc::Global;
use std::io;
use store::{Entry, MemStore};

/// The name of the superuser of each new database.
pub const ADMIN: &str = "root";

/// How many pages a device in memory has, and how many a small one.
pub const PAGES: u32 = 256;

pub const SMALL_PAGES: u32 = 64;

/// A new database in memory.
pub fn new_in_memory(alloc: Global) -> io::Result<MemStore> {
    match Name::from_str(alloc, ADMIN)? {
        Some(admin) => Ok(MemStore::new(alloc, &admin)?),
        None => Err(io::Error::from(io::ErrorKind::InvalidData)),
    }
}

/// A device of so many pages with a new database: the record of its one role, which is a superuser (1) and may log in (2).
pub fn new_device(alloc: Global, pages: u32) -> io::Result<MemDevice> {
    let mut first = Entry::new(alloc);
    first.set(b"\x01root", &[3])?;
    let mut device = MemDevice::new(alloc, pages.min(PAGES))?;
    format_with(alloc, &mut device, &first)?;
    Ok(device)
}

/// Formats a device, where a record is its first.
fn format_with(alloc: Global, device: &mut MemDevice, first: &Entry) -> io::Result<()> {
    let has_size = page_count(device.sectors()).is_some();
    let (key, value) = (first.key(), first.value());
    if !has_size || key.is_empty() || key.len() > 64 || value.len() > 1 {
        return Err(io::Error::from(io::ErrorKind::InvalidData));
    }
    match PageStore::format(alloc, device, first) {
        Ok(()) => Ok(()),
        Err(_) => Err(io::Error::from(io::ErrorKind::Other)),
    }
}
