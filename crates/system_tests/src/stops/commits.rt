//! Events of a script, during which the device is hindered, and one more commit after a stop.

use crate::stops::choices::Choice;
use crate::stops::fault::TestFault;
use crate::stops::images::Image;
use crate::stops::kinds::Kind;
use crate::stops::openings::Opening;
use crate::stops::scripts::Script;
use crate::stops::servers::{CACHE_PAGES, open_device, open_new};
use crate::stops::tallies::Tests;
use crate::stops::work::{Attempt, Work, hinder_each};
use sector_device::MemDevice;
use std::alloc::Global;

/// The event of a script at an index, over a new database, and how many pages the server keeps.
#[derive(Clone, Copy)]
pub struct ScriptEvent<'a> {
    pub script: &'a Script,
    pub index: usize,
    pub cache: usize,
}

impl ScriptEvent<'_> {
    /// The moments of which one must be found: that after the event, or where it was not answered that before it.
    fn moments(&self, is_answered: bool) -> (usize, usize) {
        let last = self.index.saturating_add(1);
        let first = if is_answered { last } else { self.index };
        (first, last)
    }
}

impl Work for ScriptEvent<'_> {
    fn attempt(&self, alloc: Global, kind: Kind, count: u64) -> Result<Attempt, TestFault> {
        let server = open_new(alloc, self.cache)?;
        self.script
            .talk
            .attempt(alloc, self.index, server, kind, count)
    }

    fn check(&self, alloc: Global, device: MemDevice, is_done: bool) -> Result<usize, TestFault> {
        let (first, last) = self.moments(is_done);
        self.script.check_device(alloc, device, first, last)
    }

    /// Fails each call of an opening after a part of the stops.
    fn try_more(
        &self,
        alloc: Global,
        kind: Kind,
        attempt: &Attempt,
        tests: &mut Tests,
    ) -> Result<(), TestFault> {
        if matches!(kind, Kind::Stops) && tests.parts.openings.takes_next() {
            let (first, last) = self.moments(attempt.is_done);
            let opening = Opening {
                script: self.script,
                image: &attempt.image,
                first,
                last,
                cache: self.cache,
            };
            hinder_each(alloc, &opening, Kind::Openings, tests);
        }
        Ok(())
    }

    fn stop_again(
        &self,
        alloc: Global,
        image: &Image,
        choice: Choice,
        moment: usize,
        tests: &mut Tests,
    ) {
        let commit = OneMoreCommit {
            script: self.script,
            image,
            choice,
            moment,
        };
        hinder_each(alloc, &commit, Kind::SecondStops, tests);
    }
}

/// One more commit on a device that holds this, is started again by a choice, and then has the map of a moment.
#[derive(Clone, Copy)]
struct OneMoreCommit<'a> {
    script: &'a Script,
    image: &'a Image,
    choice: Choice,
    moment: usize,
}

impl Work for OneMoreCommit<'_> {
    fn attempt(&self, alloc: Global, kind: Kind, count: u64) -> Result<Attempt, TestFault> {
        let device = self.image.restarted(alloc, self.choice)?;
        let server = open_device(alloc, device, CACHE_PAGES)?;
        self.script.commit.attempt(alloc, 1, server, kind, count)
    }

    fn check(&self, alloc: Global, device: MemDevice, is_done: bool) -> Result<usize, TestFault> {
        self.script
            .check_again(alloc, device, self.moment, is_done)?;
        Ok(self.moment)
    }
}
