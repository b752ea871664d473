//! What no script can show: the numbers of sessions, a text of comments and nothing else, in which newlines end the comments,
//! and the largest count.

use crate::answers::text_of_answers;
use crate::events::{opening_of, statement_of};
use crate::long_scripts::expanded;
use crate::reports::report;
use crate::servers::{ServerOver, answered_by, open_server};
use crate::stores::{ADMIN, new_in_memory};
use server::server::ONLY_CLIENT;
use sql_types::answer::Answer;
use sql_types::event::Event;
use sql_types::tag::Tag;
use std::alloc::{AllocError, Global};
use std::io;
use store::Store;

/// What the events are answered, and which sessions they leave.
const ANSWERED: &str = "\
ok OPEN
ok OPEN
refused 42601
ok CLOSE
sessions: Some(3), None
stopped: false
";

/// Gives events that no script requests, and writes an answer that none is given. Prints a line for each, and counts those of
/// which something else comes than is expected.
pub fn check_unscripted(rt: &HostRuntime, alloc: Global, differing: &mut u64) -> io::Result<()> {
    let given = given_to_listed(alloc)?;
    report(
        rt,
        "at once",
        "sessions_7_and_3",
        ANSWERED,
        given.as_str(),
        differing,
    )?;
    let counted = text_of_answers(alloc, &[inserted(u64::MAX)])?;
    let expected = "ok INSERT 18446744073709551615\n";
    report(
        rt,
        "text",
        "largest_count",
        expected,
        counted.as_str(),
        differing,
    )
}

/// The answer that so many rows are inserted.
fn inserted(count: u64) -> Answer {
    Answer::Done {
        tag: Tag::Insert,
        count: Some(count),
        warning: None,
    }
}

/// What a server over a new database answers the events, and which sessions they leave.
fn given_to_listed(alloc: Global) -> io::Result<String> {
    let mut events = Vec::new(alloc);
    add_listed(alloc, &mut events)?;
    let mut server = open_server(alloc, new_in_memory(alloc)?)?;
    let mut text = answered_by(alloc, &mut server, events.as_slice())?;
    tell_sessions(&server, &mut text)?;
    Ok(text)
}

/// Tells the sessions of a server, and whether it has stopped.
fn tell_sessions<S: Store>(server: &ServerOver<S>, text: &mut String) -> Result<(), AllocError> {
    let first = server.session_at(ONLY_CLIENT, 0);
    let second = server.session_at(ONLY_CLIENT, 1);
    let stopped = server.has_stopped();
    writeln!(text, "sessions: {first:?}, {second:?}\nstopped: {stopped}")
}

/// Adds the events that open the sessions 7 and 3, ask nothing in session 3 but in the longest text of comments, and close session 7.
fn add_listed(alloc: Global, events: &mut Vec<Event>) -> Result<(), AllocError> {
    events.push(opening_of(alloc, 7, ADMIN)?)?;
    events.push(opening_of(alloc, 3, ADMIN)?)?;
    events.push(comments_of(alloc, 3)?)?;
    events.push(Event::Close { session: 7 })?;
    Ok(())
}

/// The event that a session gives the longest text of comments.
fn comments_of(alloc: Global, session: u32) -> Result<Event, AllocError> {
    let comments = expanded(alloc, "{21845*--\n}")?;
    statement_of(alloc, session, comments.as_str())
}
