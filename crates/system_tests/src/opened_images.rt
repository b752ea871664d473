//! Openings of devices of which files tell what they hold, among them devices whose records are of record format 1.
//!
//! In a file `NAME.image`, `from OTHER` begins with the bytes that `OTHER.image` tells, `put TIMES BYTES` appends bytes so many
//! times, and `at OFFSET BYTES` puts bytes in the place of others; up to 64 pages the rest is zero. The lines `ask LINE` are a
//! script for the server that is opened at last, and with a line `stop` the openings are stopped and fail, too, as `stops`
//! tells. `NAME.opened` holds what is printed: a line for each of two openings, one after the other, of what it came to and of
//! whether the device then holds other bytes; and where a server was opened a line of what the device then holds, and the
//! answers to the script. `images.py` makes both files, and shares nothing with the code.

use crate::device_images::DeviceImage;
use crate::events::events_of;
use crate::stops::answered_events::text_answered;
use crate::stops::fault::TestFault;
use crate::stops::images::Image;
use crate::stops::servers::{CACHE_PAGES, find_on, open_and_end, open_device};
use std::alloc::{AllocError, Global};
use std::io;

/// What is printed of the device of which the file `NAME.image` tells.
pub fn printed_of(rt: &HostRuntime, alloc: Global, name: &str) -> io::Result<String> {
    let image = DeviceImage::read(rt, alloc, name)?;
    let mut out = String::new(alloc);
    match tell_openings(alloc, &image, &mut out) {
        Ok(()) => Ok(out),
        Err(fault) => Ok(format!(in alloc; "{fault:?}\n")?),
    }
}

/// Opens a device twice, and tells of it and of what it then holds.
fn tell_openings(alloc: Global, told: &DeviceImage, out: &mut String) -> Result<(), TestFault> {
    let mut image = Image::of_bytes(alloc, told.bytes.as_slice())?;
    let _was_opened = open_once(alloc, &mut image, out)?;
    if open_once(alloc, &mut image, out)? {
        tell_contents(alloc, &image, out)?;
        tell_answers(alloc, &image, told.script.as_str(), out)?;
    }
    Ok(())
}

/// Opens a server on a device that holds this, and tells of it. The image is then what the device holds. Answers whether a server
/// was opened.
fn open_once(alloc: Global, image: &mut Image, out: &mut String) -> Result<bool, TestFault> {
    let (device, refusal) = open_and_end(alloc, image.running(alloc)?, CACHE_PAGES);
    let after = Image::of(alloc, device)?;
    tell_opening(refusal, after.has_content_of(image), out)?;
    *image = after;
    Ok(refusal.is_none())
}

/// Tells what an opening came to, and whether it left the same bytes.
fn tell_opening(
    refusal: Option<TestFault>,
    is_same: bool,
    out: &mut String,
) -> Result<(), AllocError> {
    match refusal {
        None => out.push_str("opened")?,
        Some(fault) => fault.tell(out)?,
    }
    out.push_str(if is_same {
        ", the same bytes\n"
    } else {
        ", other bytes\n"
    })
}

/// Tells what a device holds: the number of the last commit, the format, and the bytes of the records with their digest.
fn tell_contents(alloc: Global, image: &Image, out: &mut String) -> Result<(), TestFault> {
    let found = find_on(alloc, image.running(alloc)?)?;
    let (number, format, length) = (found.number, found.format, found.records.len());
    let digest = digest_of(found.records.as_slice());
    writeln!(
        out,
        "number {number}, format {format}, {length} bytes of records, {digest:08x}"
    )?;
    Ok(())
}

/// The Adler-32 digest (Adler's two sums) of bytes.
fn digest_of(bytes: &[u8]) -> u64 {
    let mut sum: u64 = 1;
    let mut sum_of_sums: u64 = 0;
    for byte in bytes {
        sum = sum.wrapping_add(u64::from(*byte)) % 65_521;
        sum_of_sums = sum_of_sums.wrapping_add(sum) % 65_521;
    }
    sum_of_sums.wrapping_mul(65_536).wrapping_add(sum)
}

/// Tells the answers of a server on a device that holds this to the lines of a script.
fn tell_answers(
    alloc: Global,
    image: &Image,
    script: &str,
    out: &mut String,
) -> Result<(), TestFault> {
    let events = events_of(alloc, script)?;
    let mut server = open_device(alloc, image.running(alloc)?, CACHE_PAGES)?;
    for event in &events {
        out.push_str(text_answered(alloc, &mut server, event)?.as_str())?;
    }
    Ok(())
}
