//! Scripts whose events are given all at once: to a server, and to one life of a database on a device.

use crate::answers::text_of_answers;
use crate::events::events_of;
use crate::servers::{answered_by, open_server};
use crate::stores::{new_device, new_in_memory};
use databases::live;
use sector_device::{MemDevice, WriteProtected};
use sessions::SessionHandler;
use sql_types::answer::Answer;
use sql_types::event::Event;
use statements::Statements;
use std::alloc::Global;
use std::io;

/// What is given all events of a script.
#[derive(Clone, Copy)]
pub enum Taker {
    /// A server over a new database in memory.
    Server,
    /// A life of a new database on a device of so many pages. A life without events follows it.
    Life(u32),
}

/// Whether one of the lines is a message of the program: a script that is to be printed so does not end well.
pub fn has_message(expected: &str) -> bool {
    expected.starts_with("guarddb: ") || expected.contains("\nguarddb: ")
}

/// What is answered to the events of a script that ends well.
pub fn answers_of(alloc: Global, taker: Taker, script: &str) -> io::Result<String> {
    let events = events_of(alloc, script)?;
    match taker {
        Taker::Server => answered_in_memory(alloc, events.as_slice()),
        Taker::Life(pages) => answered_in_lives(alloc, pages, events.as_slice()),
    }
}

/// The answers of a server in memory to events.
fn answered_in_memory(alloc: Global, events: &[Event]) -> io::Result<String> {
    let mut server = open_server(alloc, new_in_memory(alloc)?)?;
    answered_by(alloc, &mut server, events)
}

/// The answers to events in a life on a device, and those of a second life without events.
fn answered_in_lives(alloc: Global, pages: u32, events: &[Event]) -> io::Result<String> {
    let mut answers = Vec::new(alloc);
    let device = WriteProtected::new(new_device(alloc, pages)?);
    let device = lived(alloc, device, events, &mut answers)?;
    let _left = lived(alloc, device, &[], &mut answers)?;
    text_of_answers(alloc, answers.as_slice())
}

/// What a life on a device leaves, which adds its answers to events.
fn lived(
    alloc: Global,
    device: WriteProtected<MemDevice>,
    events: &[Event],
    answers: &mut Vec<Answer>,
) -> io::Result<WriteProtected<MemDevice>> {
    match live(
        alloc,
        device,
        SessionHandler::new(Statements),
        events,
        answers,
    ) {
        (device, Ok(())) => Ok(device),
        (_, Err(_)) => Err(io::Error::from(io::ErrorKind::Other)),
    }
}
