//! Openings that are stopped or of which a call fails, among them those that migrate.

use crate::stops::choices::Choice;
use crate::stops::fault::TestFault;
use crate::stops::images::Image;
use crate::stops::kinds::Kind;
use crate::stops::places::PlaceStep;
use crate::stops::scripts::Script;
use crate::stops::servers::{CACHE_PAGES, FoundDatabase, attempt_opening, find_and_end, find_on};
use crate::stops::tallies::Tests;
use crate::stops::work::{Attempt, Work, hinder_each};
use sector_device::MemDevice;
use std::alloc::Global;

/// An opening of a device that holds this, its unsynced sectors unsynced still, with a cache of so many pages. Its map is that of
/// the last or the first of two moments.
#[derive(Clone, Copy)]
pub struct Opening<'a> {
    pub script: &'a Script,
    pub image: &'a Image,
    pub first: usize,
    pub last: usize,
    pub cache: usize,
}

impl Work for Opening<'_> {
    fn attempt(&self, alloc: Global, kind: Kind, count: u64) -> Result<Attempt, TestFault> {
        let device = self.image.running(alloc)?;
        let attempt = attempt_opening(alloc, device, self.cache, kind, count)?;
        if attempt.is_done || attempt.image.has_content_of(self.image) {
            Ok(attempt)
        } else {
            Err(TestFault::AnotherContent)
        }
    }

    fn check(&self, alloc: Global, device: MemDevice, _is_done: bool) -> Result<usize, TestFault> {
        let found = find_on(alloc, device)?;
        self.script
            .moment_of(found.records.as_slice(), self.first, self.last)
    }

    /// Opens the device as it is, and once more after a stop. Each time the same map is found.
    fn try_more(
        &self,
        alloc: Global,
        kind: Kind,
        attempt: &Attempt,
        tests: &mut Tests,
    ) -> Result<(), TestFault> {
        tests.count_opened(kind);
        let (found, device) = find_and_end(alloc, attempt.image.running(alloc)?)?;
        let records = found.records.as_slice();
        let _moment = self.script.moment_of(records, self.first, self.last)?;
        find_again(alloc, records, &Image::of(alloc, device)?, kind, tests)
    }
}

/// Opens what an opening left after a stop, by each choice of the sectors that it left unsynced. Each time it has these records.
fn find_again(
    alloc: Global,
    records: &[u8],
    image: &Image,
    kind: Kind,
    tests: &mut Tests,
) -> Result<(), TestFault> {
    for choice in &image.choices(alloc)? {
        tests.enter(PlaceStep::Restart(*choice));
        tests.count_opened(kind);
        let found = check_records(alloc, image, *choice, records);
        tests.leave(kind, found);
    }
    Ok(())
}

/// Opens what an opening left, by a choice of the sectors that it left unsynced. It has these records.
fn check_records(
    alloc: Global,
    image: &Image,
    choice: Choice,
    records: &[u8],
) -> Result<(), TestFault> {
    let found = find_on(alloc, image.restarted(alloc, choice)?)?;
    if found.records.as_slice() == records {
        Ok(())
    } else {
        Err(TestFault::AnotherMap)
    }
}

/// An opening that migrates a device, which holds this. The records and their number are those that are there after it.
#[derive(Clone, Copy)]
struct Migrating<'a> {
    image: &'a Image,
    migrated: &'a FoundDatabase,
}

impl Work for Migrating<'_> {
    fn attempt(&self, alloc: Global, kind: Kind, count: u64) -> Result<Attempt, TestFault> {
        let device = self.image.running(alloc)?;
        attempt_opening(alloc, device, CACHE_PAGES, kind, count)
    }

    fn check(&self, alloc: Global, device: MemDevice, _is_done: bool) -> Result<usize, TestFault> {
        check_migrated(alloc, device, self.migrated)
    }

    /// Opens the device as it is, where a call failed.
    fn try_more(
        &self,
        alloc: Global,
        kind: Kind,
        attempt: &Attempt,
        tests: &mut Tests,
    ) -> Result<(), TestFault> {
        if kind.fails_once() {
            tests.count_opened(kind);
            let _first = check_migrated(alloc, attempt.image.running(alloc)?, self.migrated)?;
        }
        Ok(())
    }

    fn stop_again(
        &self,
        alloc: Global,
        image: &Image,
        choice: Choice,
        _moment: usize,
        tests: &mut Tests,
    ) {
        let again = MigratingAgain {
            image,
            choice,
            migrated: self.migrated,
        };
        hinder_each(alloc, &again, Kind::SecondStops, tests);
    }
}

/// The same of a device that a stop left and that is started again by a choice.
#[derive(Clone, Copy)]
struct MigratingAgain<'a> {
    image: &'a Image,
    choice: Choice,
    migrated: &'a FoundDatabase,
}

impl Work for MigratingAgain<'_> {
    fn attempt(&self, alloc: Global, kind: Kind, count: u64) -> Result<Attempt, TestFault> {
        let device = self.image.restarted(alloc, self.choice)?;
        attempt_opening(alloc, device, CACHE_PAGES, kind, count)
    }

    fn check(&self, alloc: Global, device: MemDevice, _is_done: bool) -> Result<usize, TestFault> {
        check_migrated(alloc, device, self.migrated)
    }
}

/// Opens a server on a device. Its records are of record format 2, and they and their number are those after a migration.
fn check_migrated(
    alloc: Global,
    device: MemDevice,
    migrated: &FoundDatabase,
) -> Result<usize, TestFault> {
    let found = find_on(alloc, device)?;
    let is_next = found.format == 2 && found.number == migrated.number;
    if is_next && found.records.as_slice() == migrated.records.as_slice() {
        Ok(0)
    } else {
        Err(TestFault::AnotherMap)
    }
}

/// Stops the opening of a device that is migrated, after each count of its sector writes, and fails each call of it in turn.
pub fn hinder_migration(alloc: Global, image: &Image, tests: &mut Tests) -> Result<(), TestFault> {
    let migrated = find_on(alloc, image.running(alloc)?)?;
    let opening = Migrating {
        image,
        migrated: &migrated,
    };
    for kind in [Kind::Stops, Kind::Openings, Kind::LateOpenings] {
        hinder_each(alloc, &opening, kind, tests);
    }
    Ok(())
}
