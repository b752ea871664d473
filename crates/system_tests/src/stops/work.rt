//! Work on a device that is hindered after each count of writes or calls, and what is found on it after that.

use crate::stops::choices::Choice;
use crate::stops::fault::TestFault;
use crate::stops::images::Image;
use crate::stops::kinds::Kind;
use crate::stops::places::PlaceStep;
use crate::stops::tallies::Tests;
use sector_device::{Device, MemDevice};
use std::alloc::Global;

/// More writes or calls than a commit, an opening or a copy makes.
const MAX_COUNT: u64 = 100_000;

/// What came of work on a device that was hindered: what the device then holds, whether the work was done all the same, and how
/// many reads it made.
#[derive(Drop)]
pub struct Attempt {
    pub image: Image,
    pub is_done: bool,
    pub reads: u64,
}

impl Attempt {
    /// What came of work on a device, which had made so many reads before. Where a call was to fail, that is an error where none
    /// failed and the work was not done, where one failed and it was done, and where several failed.
    pub fn of(
        alloc: Global,
        device: MemDevice,
        kind: Kind,
        is_done: bool,
        reads_before: u64,
    ) -> Result<Attempt, TestFault> {
        let (failures, reads) = (device.failures(), device.reads());
        let expected = if is_done { 0 } else { 1 };
        if failures != expected && kind.fails_once() {
            return Err(TestFault::Calls(failures));
        }
        Ok(Attempt {
            image: Image::of(alloc, device)?,
            is_done,
            reads: reads.saturating_sub(reads_before),
        })
    }
}

/// Work on a device of its own.
pub trait Work {
    /// Does the work, while its device is hindered after a count.
    fn attempt(&self, alloc: Global, kind: Kind, count: u64) -> Result<Attempt, TestFault>;

    /// Checks what is found on a device that was started again, where the work was done or not. Tells of which moment its map is.
    fn check(&self, alloc: Global, device: MemDevice, is_done: bool) -> Result<usize, TestFault>;

    /// Tries what else is to be tried with what an attempt left: nothing, where that is not said.
    fn try_more(
        &self,
        _alloc: Global,
        _kind: Kind,
        _attempt: &Attempt,
        _tests: &mut Tests,
    ) -> Result<(), TestFault> {
        Ok(())
    }

    /// Stops what is done next on a device that was started again by a choice, and whose map is that of a moment: nothing, where
    /// that is not said.
    fn stop_again(
        &self,
        _alloc: Global,
        _image: &Image,
        _choice: Choice,
        _moment: usize,
        _tests: &mut Tests,
    ) {}
}

/// Hinders work after each count, until it is done all the same.
pub fn hinder_each<W: Work>(alloc: Global, work: &W, kind: Kind, tests: &mut Tests) {
    for count in 0..MAX_COUNT {
        tests.enter(PlaceStep::Count(count));
        let (is_done, tried) = try_after(alloc, work, kind, count, tests);
        tests.leave(kind, tried);
        if is_done {
            return;
        }
    }
    tests.disagree(kind, TestFault::NoEnd);
}

/// Hinders work after a count, and tries what that left. Answers whether the work was done, or went otherwise than expected.
fn try_after<W: Work>(
    alloc: Global,
    work: &W,
    kind: Kind,
    count: u64,
    tests: &mut Tests,
) -> (bool, Result<(), TestFault>) {
    match work.attempt(alloc, kind, count) {
        Ok(attempt) => {
            if attempt.is_done && kind.fails_once() {
                tests.count_reads(kind, attempt.reads);
                return (true, Ok(()));
            }
            tests.count_tried(kind);
            let tried = try_left(alloc, work, kind, &attempt, tests);
            (attempt.is_done, tried)
        }
        Err(fault) => (true, Err(fault)),
    }
}

/// Starts what an attempt left again by each choice of its unsynced sectors, and tries what else is to be tried with it.
fn try_left<W: Work>(
    alloc: Global,
    work: &W,
    kind: Kind,
    attempt: &Attempt,
    tests: &mut Tests,
) -> Result<(), TestFault> {
    for choice in &attempt.image.choices(alloc)? {
        tests.enter(PlaceStep::Restart(*choice));
        let checked = check_restart(alloc, work, kind, attempt, *choice, tests);
        tests.leave(kind, checked);
    }
    work.try_more(alloc, kind, attempt, tests)
}

/// Starts a device again by a choice, and checks what is found on it. Where it is taken for that, what is done next is stopped.
fn check_restart<W: Work>(
    alloc: Global,
    work: &W,
    kind: Kind,
    attempt: &Attempt,
    choice: Choice,
    tests: &mut Tests,
) -> Result<(), TestFault> {
    let is_taken = matches!(kind, Kind::Stops) && tests.parts.second_stops.takes_next();
    tests.count_opened(kind);
    let device = attempt.image.restarted(alloc, choice)?;
    let moment = work.check(alloc, device, attempt.is_done)?;
    if is_taken {
        work.stop_again(alloc, &attempt.image, choice, moment, tests);
    }
    Ok(())
}
