//! Copies of databases, of which the device that the copy is made on is stopped after counts of sector writes.

use crate::stops::fault::TestFault;
use crate::stops::images::Image;
use crate::stops::kinds::Kind;
use crate::stops::servers::find_on;
use crate::stops::tallies::Tests;
use crate::stops::work::{Attempt, Work, hinder_each};
use crate::stores::SMALL_PAGES;
use copies::{CopyFault, copy_database};
use sector_device::{MemDevice, Unwatched, WriteProtected};
use std::alloc::Global;
use store::StoreFault;

/// Copies the database that a device holds to a new device, which stops after each count of sector writes, or one of `every`
/// of them. Whatever its unsynced sectors are then, it holds nothing or the whole database, and that alone once the copy was
/// answered. The device that is copied has the content that it had.
pub fn stop_copies(
    alloc: Global,
    source: &Image,
    every: u64,
    tests: &mut Tests,
) -> Result<(), TestFault> {
    let found = find_on(alloc, source.running(alloc)?)?;
    let records = found.records.as_slice();
    let copying = Copying {
        source,
        records,
        every,
    };
    hinder_each(alloc, &copying, Kind::Copies, tests);
    Ok(())
}

/// Copies the database of a device that holds this to another, and tells whether that was done, or the other stopped.
fn copied_to(
    alloc: Global,
    source: &Image,
    target: MemDevice,
) -> Result<(MemDevice, bool), TestFault> {
    let device = WriteProtected::new(source.running(alloc)?);
    let (device, target, copied) = copy_database(alloc, device, target, &mut Unwatched);
    let is_done = was_copied(alloc, source, device.into_device(), copied)?;
    Ok((target, is_done))
}

/// Whether a copy was done, or the device that it was made on stopped. The device that was copied has the content that it had.
fn was_copied(
    alloc: Global,
    source: &Image,
    device: MemDevice,
    copied: Result<(), CopyFault>,
) -> Result<bool, TestFault> {
    if !Image::of(alloc, device)?.has_content_of(source) {
        return Err(TestFault::AnotherContent);
    }
    match copied {
        Ok(()) => Ok(true),
        Err(CopyFault::Write(StoreFault::Device)) => Ok(false),
        Err(_) => Err(TestFault::CopyRefused),
    }
}

/// A copy of a device that holds this, and has these records. It is stopped after so many times a count.
#[derive(Clone, Copy)]
struct Copying<'a> {
    source: &'a Image,
    records: &'a [u8],
    every: u64,
}

impl Work for Copying<'_> {
    fn attempt(&self, alloc: Global, kind: Kind, count: u64) -> Result<Attempt, TestFault> {
        let target = MemDevice::new(alloc, SMALL_PAGES)?;
        kind.hinder(&target, count.saturating_mul(self.every));
        let (target, is_done) = copied_to(alloc, self.source, target)?;
        Attempt::of(alloc, target, kind, is_done, 0)
    }

    /// It has these records; or, where the copy was not answered, no database is there.
    fn check(&self, alloc: Global, device: MemDevice, is_done: bool) -> Result<usize, TestFault> {
        match find_on(alloc, device) {
            Ok(found) => {
                if found.records.as_slice() == self.records {
                    Ok(0)
                } else {
                    Err(TestFault::AnotherMap)
                }
            }
            Err(fault) => {
                if fault.is_no_database() && !is_done {
                    Ok(0)
                } else {
                    Err(fault)
                }
            }
        }
    }
}
