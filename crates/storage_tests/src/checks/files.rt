//! Devices over real files.
use crate::arrays::page_calls::{commit, new_page, open, read};
use crate::checks::require::Findings;
use crate::sectors::content_of;
use anyhow::Result;
use cow_pages::{CowPages, Format, PAGE_SIZE, format};
use sector_device::{
    Device, DeviceFault, FileDevice, FileFault, SECTOR_SIZE, SystemCause, SystemFile,
};
use std::alloc::Global;
use std::fs::{self, File, OpenOptions};

/// Removes a file, where there is one.
pub fn remove(rt: &HostRuntime, path: &str) {
    let _ = fs::remove_file(rt, path);
}

/// Makes an array of a page of sevens on a new file, and commits a page of eights. Both are there where the file is opened again.
pub fn keeps_commits(rt: &HostRuntime, path: &str, findings: &mut Findings) -> Result<()> {
    let mut device = FileDevice::make(rt, path, 64)?;
    format_64(&mut device)?;
    commit_on(rt.alloc(), device, findings);
    check_on(rt.alloc(), FileDevice::open(rt, path)?, findings);
    Ok(())
}

// Commits a second page on a device, of eights.
fn commit_on<D: Device + Drop>(alloc: Global, device: D, findings: &mut Findings) {
    let Ok(mut pages) = open(alloc, device) else {
        return findings.require(false, "not opened");
    };
    let is_made = new_page(&mut pages, &[8; PAGE_SIZE]).is_ok();
    findings.require(is_made, "no new page");
    let is_committed = commit(&mut pages, Format::Two).is_ok();
    findings.require(is_committed, "no commit");
}

// Sees whether a device has both pages, after one commit.
fn check_on<D: Device + Drop>(alloc: Global, device: D, findings: &mut Findings) {
    let Ok(mut pages) = open(alloc, device) else {
        return findings.require(false, "not opened again");
    };
    let has_first = is_full_of(&mut pages, 0, 7);
    findings.require(has_first, "another first page");
    let has_second = is_full_of(&mut pages, 1, 8);
    findings.require(has_second, "another second page");
    findings.require(pages.number() == 2, "another number");
}

// Makes an array of a page of sevens, where the device has 64 pages.
fn format_64<D: Device>(device: &mut D) -> Result<(), DeviceFault> {
    if device.sectors() != 512 {
        return Err(DeviceFault);
    }
    format(device, Format::Two, &[7; PAGE_SIZE])
}

// Whether a page is full of this byte.
fn is_full_of<D: Device>(pages: &mut CowPages<D>, page: u32, byte: u8) -> bool {
    let mut bytes = [0; PAGE_SIZE];
    read(pages, page, &mut bytes).is_ok() && bytes == [byte; PAGE_SIZE]
}

/// Fills sector 3 of a new file of three pages with eights. No second file is made there, and a device that is opened reads them.
pub fn lie_in_order(rt: &HostRuntime, path: &str, findings: &mut Findings) -> Result<()> {
    fill_sector_3(&mut FileDevice::make(rt, path, 3)?)?;
    let bytes = fs::read(rt, path)?;
    findings.require(has_sector_3(bytes.as_slice()), "other bytes");
    findings.require(is_there(FileDevice::make(rt, path, 3)), "made again");
    let is_read = has_content(&mut FileDevice::open(rt, path)?, 3, 8);
    findings.require(is_read, "another content");
    Ok(())
}

// Whether a device was not made, since the file exists.
fn is_there(made: Result<FileDevice, FileFault>) -> bool {
    matches!(made, Err(FileFault::Exists))
}

// Whether a sector of a device is read, and full of this byte.
fn has_content(device: &mut FileDevice, sector: u32, byte: u8) -> bool {
    match content_of(device, sector) {
        Ok(content) => content == [byte; SECTOR_SIZE],
        Err(_) => false,
    }
}

// Fills sector 3 of a device with eights.
fn fill_sector_3(device: &mut FileDevice) -> Result<(), DeviceFault> {
    put(device, 3, 8)?;
    device.sync()
}

// Fills a sector with this byte, where the device has it.
fn put(device: &mut FileDevice, sector: u32, byte: u8) -> Result<(), DeviceFault> {
    if sector >= device.sectors() {
        return Err(DeviceFault);
    }
    device.write(sector, &[byte; SECTOR_SIZE])
}

// Whether the bytes of a file are those of three pages, of which sector 3 is full of eights and the others of zeros.
fn has_sector_3(bytes: &[u8]) -> bool {
    for (at, byte) in bytes.iter().enumerate() {
        let expected = if at / SECTOR_SIZE == 3 { 8 } else { 0 };
        if *byte != expected {
            return false;
        }
    }
    bytes.len() == 12_288
}

/// Cuts the file of a device of two pages in the middle of its last sector. The system gives the first half of it and no more: the
/// whole read fails.
pub fn fails_cut_short(rt: &HostRuntime, path: &str, findings: &mut Findings) -> Result<()> {
    let mut device = FileDevice::make(rt, path, 2)?;
    set_length(rt, path, 8_192 - 256)?;
    let is_whole = has_content(&mut device, 14, 0);
    findings.require(is_whole, "other bytes");
    let is_cut = content_of(&mut device, 15).is_err();
    findings.require(is_cut, "half a sector");
    findings.require(device.failures() == 1, "other failures");
    Ok(())
}

// Cuts a file to a length, or grows it.
fn set_length(rt: &HostRuntime, path: &str, length: u64) -> Result<()> {
    let file = OpenOptions::new().write(true).open(rt, path)?;
    Ok(file.set_len(length)?)
}

// Lengths of files that are made of holes, and how many sectors they have.
const LENGTHS: [(u64, u32); 5] = [
    (0, 0),
    (4_096, 8),
    (8_191, 0),
    (65_536 * 4_096, 524_288),
    (65_537 * 4_096, 0),
];

/// Gives a file each of these lengths, and opens it.
pub fn has_whole_pages(rt: &HostRuntime, path: &str, findings: &mut Findings) -> Result<()> {
    drop(FileDevice::make(rt, path, 2)?);
    for (length, sectors) in LENGTHS {
        set_length(rt, path, length)?;
        let found = FileDevice::open(rt, path)?.sectors();
        findings.require(found == sectors, "other sectors");
    }
    Ok(())
}

/// A device over a file that is opened to be read alone refuses to be written, and is read.
pub fn is_only_read(rt: &HostRuntime, path: &str, findings: &mut Findings) -> Result<()> {
    drop(FileDevice::make(rt, path, 1)?);
    let file = SystemFile::opened(File::open(rt, path)?);
    let mut device = FileDevice::stand_over(file)?;
    let is_refused = put(&mut device, 0, 1).is_err();
    findings.require(is_refused, "written");
    findings.require(device.failures() == 1, "other failures");
    let is_read = has_content(&mut device, 0, 0);
    findings.require(is_read, "other bytes");
    Ok(())
}

/// No file is made in a folder that is not there, and none is opened that is not.
pub fn finds_none(rt: &HostRuntime, findings: &mut Findings) {
    let made = FileDevice::make(rt, "no_such_folder.test/db", 1);
    findings.require(is_not_found(made), "made");
    let found = FileDevice::open(rt, "no_such_file.test");
    findings.require(is_not_found(found), "opened");
}

// Whether there is no device, since there is no file.
fn is_not_found(answer: Result<FileDevice, FileFault>) -> bool {
    matches!(answer, Err(FileFault::Device(SystemCause::NotFound)))
}
