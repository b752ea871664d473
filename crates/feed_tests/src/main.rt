//! Frames that come in pieces, where memory is refused.
//!
//! The same bytes are fed to `Frames` in pieces of 1, 7 and 100 bytes. A feed for which memory is refused changes nothing, so
//! that piece is fed again, and the events that are printed are the same ones: each once, in the order of its frame.
//!
//! `feed_tests: again` on standard error tells each refusal. Where a piece is refused three times, `feed_tests: Memory` follows,
//! and the status is 1. `tests/memory_tests.py feeds` refuses each request for memory of this program in turn.
#![tactic(auto)]

ghost use Rattle.std.specs.Prelude.{◌<◌};

use sql_types::event::Event;
use std::alloc::Global;
use std::io;
use std::process::ExitCode;
use wire::frames::{Fed, Frames};

/// The frames of twelve events of the sessions 7, 66,051 and 4,275,878,552, one in a line here, and a frame that is bad, since it
/// names a length of 4.
static STREAM: &[u8] = b"\0\0\0\x09\x01\0\0\0\x07root\
    \0\0\0\x08\x01\0\x01\x02\x03ann\
    \0\0\0\x0a\x02\0\0\0\x07BEGIN\
    \0\0\0\x09\x01\xfe\xdc\xba\x98zo\xc3\xab\
    \0\0\0\x69\x02\0\x01\x02\x03INSERT INTO notes VALUES (1, 'ann', 'one'), (2, 'ann', 'two'), (3, 'bob', 'three'), (4, 'ann', NULL)\
    \0\0\0\x0d\x02\0\0\0\x07ROLLBACK\
    \0\0\0\x05\x03\0\x01\x02\x03\
    \0\0\0\x17\x02\xfe\xdc\xba\x98SELECT '\xc3\xa9\xe2\x82\xac\xf0\x9f\x98\x80'\
    \0\0\0\x0d\x02\0\0\0\x07SELECT 1\
    \0\0\0\x05\x03\xfe\xdc\xba\x98\
    \0\0\0\x06\x02\0\0\0\x07;\
    \0\0\0\x05\x03\0\0\0\x07\
    \0\0\0\x04";

/// Why the program ends early.
#[derive(Debug, Drop)]
enum FeedFault {
    /// Memory was refused at each try.
    Memory,
    /// What was to be printed was not taken.
    Output,
}

impl From<io::Error> for FeedFault {
    fn from(_error: io::Error) -> FeedFault {
        FeedFault::Output
    }
}

fn main(rt: HostRuntime) -> ExitCode {
    for size in [1, 7, 100] {
        if let Err(fault) = print_events(&rt, rt.alloc(), size) {
            let _ = eprintln!(rt; "feed_tests: {fault:?}");
            return ExitCode::FAILURE;
        }
    }
    ExitCode::SUCCESS
}

/// Prints the events of the stream that comes in pieces of so many bytes, up to its bad frame.
fn print_events<R: Print + Eprint>(rt: &R, alloc: Global, size: usize) -> Result<(), FeedFault>
    requires { 0 < size }
{
    let mut frames = Frames::new(alloc);
    for piece in STREAM.chunks(size) {
        let Fed { events, bad } = feed(rt, &mut frames, piece)?;
        for event in &events {
            print_event(rt, event)?;
        }
        if bad {
            println!(rt; "bad frame")?;
        }
    }
    Ok(())
}

/// Feeds a piece, again where memory is refused, and three times at most.
fn feed<R: Eprint>(rt: &R, frames: &mut Frames, piece: &[u8]) -> Result<Fed, FeedFault> {
    for _ in 0..3 {
        match frames.feed(piece) {
            Ok(fed) => return Ok(fed),
            Err(_refused) => eprintln!(rt; "feed_tests: again")?,
        }
    }
    Err(FeedFault::Memory)
}

/// Prints a line of an event.
fn print_event<R: Print>(rt: &R, event: &Event) -> io::Result<()> {
    match event {
        Event::Open { session, login } => println!(rt; "{session} open {}", login.as_str()),
        Event::Statement { session, text } => println!(rt; "{session} run {}", text.as_str()),
        Event::Close { session } => println!(rt; "{session} close"),
    }
}
