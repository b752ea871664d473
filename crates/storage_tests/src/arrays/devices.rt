//! What words do to a device.

use crate::arrays::bytes::{filled, tell_bytes};
use crate::arrays::restarts::restart;
use crate::arrays::roots::root_of;
use crate::arrays::words::{Word, byte_of};
use crate::sectors::{content_of, put};
use crate::transcript::Transcript;
use cow_pages::{Format, format, page_count};
use sector_device::{Device, DeviceFault, MemDevice, SECTOR_SIZE};
use std::alloc::Global;

/// Does a word to a device, and tells what came of it.
pub fn do_word(alloc: Global, device: &mut MemDevice, word: Word<'_>, out: &mut Transcript) {
    match word.name {
        "format" => tell_done(out, format_first(device, byte_of(word.first))),
        "put" => tell_done(
            out,
            put(device, word.first, &[byte_of(word.second); SECTOR_SIZE]),
        ),
        "byte" => tell_done(out, change_byte(device, word)),
        "root" => tell_done(out, put_root(device, word.first)),
        "sector" => tell_sector(device, word.first, out),
        "sync" => tell_done(out, device.sync()),
        "old" | "new" | "even" | "odd" | "only" | "but" | "drawn" => {
            out.note(restart(alloc, device, word))
        }
        _ => count_or_fail(device, word, out),
    }
}

/// Does a word that needs no call of the device: it makes the device fail later, or tells a count.
pub fn count_or_fail(device: &MemDevice, word: Word<'_>, out: &mut Transcript) {
    match word.name {
        "stop" => device.stop_after(u64::from(word.first)),
        "fail" => device.fail_call(u64::from(word.first)),
        "late" => device.fail_call_late(u64::from(word.first)),
        "failures" => out.put_after_blank(device.failures()),
        "reads" => out.put_after_blank(device.reads()),
        _ => out.put(" ?"),
    }
}

/// Tells whether a call of a device succeeded.
fn tell_done(out: &mut Transcript, answer: Result<(), DeviceFault>) {
    out.put(if answer.is_ok() { " ." } else { " D" })
}

/// Makes an array of one page of a tag, where the device has a size of a database.
fn format_first(device: &mut MemDevice, tag: u8) -> Result<(), DeviceFault> {
    if page_count(device.sectors()).is_none() {
        return Err(DeviceFault);
    }
    format(device, Format::Two, &filled(tag))
}

/// Writes a root of a number for a device of 64 pages, with the map page 2, to its sector.
fn put_root(device: &mut MemDevice, number: u32) -> Result<(), DeviceFault> {
    match root_of(number, 64, &[2]) {
        Some(root) => put(device, root.sector(), &root.bytes()),
        None => Err(DeviceFault),
    }
}

/// Changes one byte of a sector.
fn change_byte(device: &mut MemDevice, word: Word<'_>) -> Result<(), DeviceFault> {
    let mut bytes = content_of(device, word.first)?;
    if let Some(byte) = bytes.get_mut(word.second as usize) {
        *byte = byte_of(word.third);
    }
    put(device, word.first, &bytes)
}

/// Reads a sector, and tells its bytes.
fn tell_sector(device: &mut MemDevice, sector: u32, out: &mut Transcript) {
    match content_of(device, sector) {
        Ok(bytes) => {
            out.put(" .");
            tell_bytes(out, &bytes)
        }
        Err(_) => out.put(" D"),
    }
}
