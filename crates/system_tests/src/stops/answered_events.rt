//! Events that a server is given in turn, and the texts of the answers that a server in memory gives to them.

use crate::answers::text_of_answers;
use crate::events::events_of;
use crate::servers::open_server;
use crate::stops::fault::TestFault;
use crate::stops::kinds::Kind;
use crate::stops::servers::{Answering, DeviceServer};
use crate::stops::work::Attempt;
use crate::stores::new_in_memory;
use sql_types::event::Event;
use std::alloc::Global;
use std::io;
use std::slice::from_ref;

/// What is answered where the device failed.
const DEVICE_FAILED: &str = "refused 58030\n";

/// Events, and the texts of the answers to them.
pub struct AnsweredEvents {
    pub events: Vec<Event>,
    answers: Vec<String>,
}

// Written and not derived: where a value is dropped this is one call, and not its parts one by one.
impl Drop for AnsweredEvents {
    fn drop(self) {
        let AnsweredEvents {
            events: _,
            answers: _,
        } = self;
    }
}

/// The text of the answer of a server to an event.
pub fn text_answered<S: Answering>(
    alloc: Global,
    server: &mut S,
    event: &Event,
) -> io::Result<String> {
    let answer = server.answer_to(event);
    text_of_answers(alloc, from_ref(&answer))
}

impl AnsweredEvents {
    /// The events of a script, and the answers of a server in memory.
    pub fn of_script(alloc: Global, script: &str) -> Result<AnsweredEvents, TestFault> {
        let events = events_of(alloc, script)?;
        let mut server = open_server(alloc, new_in_memory(alloc)?)?;
        let mut answers = Vec::new(alloc);
        for event in &events {
            answers.push(text_answered(alloc, &mut server, event)?)?;
        }
        Ok(AnsweredEvents { events, answers })
    }

    /// Gives a server the event at an index, and tells whether it was answered, which it was where the answer is not 58030. It
    /// is an error where the answer is another than in memory.
    fn is_answered_by<S: Answering>(
        &self,
        alloc: Global,
        index: usize,
        server: &mut S,
    ) -> Result<bool, TestFault> {
        let (Some(event), Some(expected)) = (self.events.get(index), self.answers.get(index)) else {
            return Err(TestFault::FewerEvents);
        };
        let text = text_answered(alloc, server, event)?;
        if text.as_str() == expected.as_str() {
            Ok(true)
        } else if text.as_str() == DEVICE_FAILED {
            Ok(false)
        } else {
            Err(TestFault::AnotherAnswer)
        }
    }

    /// Gives a server the first events, as many as this, which are answered as in memory.
    pub fn give_first<S: Answering>(
        &self,
        alloc: Global,
        count: usize,
        server: &mut S,
    ) -> Result<(), TestFault> {
        for index in 0..count {
            if !self.is_answered_by(alloc, index, server)? {
                return Err(TestFault::EarlyFailure);
            }
        }
        Ok(())
    }

    /// Gives a server the events after the one at an index, which are answered by 58030.
    fn give_refused<S: Answering>(
        &self,
        alloc: Global,
        index: usize,
        server: &mut S,
    ) -> Result<(), TestFault> {
        for later in index.saturating_add(1)..self.events.len() {
            if self.is_answered_by(alloc, later, server)? {
                return Err(TestFault::LaterAnswer);
            }
        }
        Ok(())
    }

    /// Gives a server the events up to the one at an index. While that is answered, the device is hindered after a count. Where it
    /// is not answered, no later one is.
    pub fn attempt<S: Answering + DeviceServer + Drop>(
        &self,
        alloc: Global,
        index: usize,
        server: S,
        kind: Kind,
        count: u64,
    ) -> Result<Attempt, TestFault> {
        let mut server = server;
        self.give_first(alloc, index, &mut server)?;
        let reads_before = server.device().reads();
        kind.hinder(server.device(), count);
        let is_answered = self.is_answered_by(alloc, index, &mut server)?;
        if !is_answered {
            self.give_refused(alloc, index, &mut server)?;
        }
        Attempt::of(alloc, server.end(), kind, is_answered, reads_before)
    }
}
