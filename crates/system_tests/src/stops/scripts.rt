//! Scripts: their events, what a server in memory answers to them, and what it then holds.

use crate::servers::open_server;
use crate::stops::answered_events::AnsweredEvents;
use crate::stops::fault::TestFault;
use crate::stops::servers::{
    CACHE_PAGES, DeviceServer, find_and_commit, find_on, open_device, records_of,
};
use crate::stores::new_in_memory;
use sector_device::MemDevice;
use std::alloc::Global;

/// One more commit, which is made after a stop.
const COMMIT: &str = "open again root\nagain: CREATE ROLE again\n";

/// The records of the map between two events, and those where one more commit is then made.
pub struct Moment {
    records: Vec<u8>,
    again: Vec<u8>,
}

// Written and not derived: where a value is dropped this is one call, and not its parts one by one.
impl Drop for Moment {
    fn drop(self) {
        let Moment {
            records: _,
            again: _,
        } = self;
    }
}

/// The events of a script and their answers, one more commit, and the moments before the first event and after each.
pub struct Script {
    pub talk: AnsweredEvents,
    pub commit: AnsweredEvents,
    moments: Vec<Moment>,
}

// Written and not derived: where a value is dropped this is one call, and not its parts one by one.
impl Drop for Script {
    fn drop(self) {
        let Script {
            talk: _,
            commit: _,
            moments: _,
        } = self;
    }
}

/// The moment after so many events, in memory.
fn moment_after(
    alloc: Global,
    talk: &AnsweredEvents,
    count: usize,
    commit: &AnsweredEvents,
) -> Result<Moment, TestFault> {
    let mut server = open_server(alloc, new_in_memory(alloc)?)?;
    talk.give_first(alloc, count, &mut server)?;
    let (records, server) = find_and_commit(alloc, server, commit)?;
    let again = records_of(alloc, server)?;
    Ok(Moment { records, again })
}

/// The moments before the first event and after each, in memory.
fn moments_of(
    alloc: Global,
    talk: &AnsweredEvents,
    commit: &AnsweredEvents,
) -> Result<Vec<Moment>, TestFault> {
    let mut moments = Vec::new(alloc);
    for count in 0..=talk.events.len() {
        moments.push(moment_after(alloc, talk, count, commit)?)?;
    }
    Ok(moments)
}

impl Script {
    /// Runs a script of this text in memory.
    pub fn from_text(alloc: Global, text: &str) -> Result<Script, TestFault> {
        let talk = AnsweredEvents::of_script(alloc, text)?;
        let commit = AnsweredEvents::of_script(alloc, COMMIT)?;
        let moments = moments_of(alloc, &talk, &commit)?;
        Ok(Script {
            talk,
            commit,
            moments,
        })
    }

    /// Whether the event at an index changes the map.
    pub fn changes_map(&self, index: usize) -> Result<bool, TestFault> {
        let before = self.moment(index)?.records.as_slice();
        let after = self.moment(index.saturating_add(1))?.records.as_slice();
        Ok(before != after)
    }

    /// The moment of a number.
    fn moment(&self, number: usize) -> Result<&Moment, TestFault> {
        match self.moments.get(number) {
            Some(moment) => Ok(moment),
            None => Err(TestFault::FewerEvents),
        }
    }

    /// The number of the moment that has these records, which must be the last or the first of two.
    pub fn moment_of(&self, records: &[u8], first: usize, last: usize) -> Result<usize, TestFault> {
        if self.moment(last)?.records.as_slice() == records {
            Ok(last)
        } else if self.moment(first)?.records.as_slice() == records {
            Ok(first)
        } else {
            Err(TestFault::AnotherMap)
        }
    }

    /// Opens a server on a device whose map is that of the last or the first of two moments, makes one more commit, and opens the
    /// device once more. Answers which moment was found first.
    pub fn check_device(
        &self,
        alloc: Global,
        device: MemDevice,
        first: usize,
        last: usize,
    ) -> Result<usize, TestFault> {
        let server = open_device(alloc, device, CACHE_PAGES)?;
        let (records, server) = find_and_commit(alloc, server, &self.commit)?;
        let moment = self.moment_of(records.as_slice(), first, last)?;
        self.check_again(alloc, server.end(), moment, true)?;
        Ok(moment)
    }

    /// Opens a server on a device on which one more commit after a moment was under way. Its map must be that after the
    /// commit, or where it was not answered that of the moment.
    pub fn check_again(
        &self,
        alloc: Global,
        device: MemDevice,
        moment: usize,
        is_answered: bool,
    ) -> Result<(), TestFault> {
        let found = find_on(alloc, device)?;
        let expected = self.moment(moment)?;
        let stands = !is_answered && found.records.as_slice() == expected.records.as_slice();
        if stands || found.records.as_slice() == expected.again.as_slice() {
            Ok(())
        } else {
            Err(TestFault::AnotherMapAgain)
        }
    }
}
