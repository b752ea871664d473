//! The events that scripts request.

use sql_types::event::Event;
use sql_types::text::Text;
use std::alloc::{AllocError, Global};
use std::io;
use wire::script_line::{Line, read_line};

/// The events that the lines of a script request, all of which are valid. Its sessions have the numbers 1, 2 and so on, in the
/// order in which they are named.
pub fn events_of(alloc: Global, script: &str) -> io::Result<Vec<Event>> {
    let mut names: Vec<&str> = Vec::new(alloc);
    let mut events = Vec::new(alloc);
    for line in script.split('\n') {
        add_event(alloc, line, &mut names, &mut events)?;
    }
    Ok(events)
}

/// Adds the event that a line requests, if it requests one.
fn add_event<'a>(
    alloc: Global,
    line: &'a str,
    names: &mut Vec<&'a str>,
    events: &mut Vec<Event>,
) -> io::Result<()> {
    let event = match read_line(line) {
        Some(Line::Skipped) => return Ok(()),
        Some(Line::Open { name, login }) => opening_of(alloc, number_of(names, name)?, login)?,
        Some(Line::Statement { name, text }) => statement_of(alloc, number_of(names, name)?, text)?,
        Some(Line::Close { name }) => Event::Close {
            session: number_of(names, name)?,
        },
        None => return Err(io::Error::from(io::ErrorKind::InvalidData)),
    };
    events.push(event)?;
    Ok(())
}

/// The number of the session of a name; a new name gets the next one.
fn number_of<'a>(names: &mut Vec<&'a str>, name: &'a str) -> Result<u32, AllocError> {
    let mut number: u32 = 1;
    for known in names.iter() {
        if *known == name {
            return Ok(number);
        }
        number = number.saturating_add(1);
    }
    names.push(name)?;
    Ok(number)
}

/// The event that a login opens a session.
pub fn opening_of(alloc: Global, session: u32, login: &str) -> Result<Event, AllocError> {
    let login = Text::from_str(alloc, login)?;
    Ok(Event::Open { session, login })
}

/// The event that a session gives a statement.
pub fn statement_of(alloc: Global, session: u32, text: &str) -> Result<Event, AllocError> {
    let text = Text::from_str(alloc, text)?;
    Ok(Event::Statement { session, text })
}
