//! The run of a script: its lines in order, each event answered by the server, each answer told.

ghost use Rattle.std.specs.Prelude.{◌≡◌, ◌≢◌};
ghost use Rattle.sql_types.specs.declared.answer.Answer.{Answer};
ghost use Rattle.store.specs.Store.{KeepsHistory};
ghost use Rattle.server.specs.Runs.{Steps};
ghost use Rattle.wire.specs.SessionNames.{names_of, texts_of};
ghost use Rattle.wire.specs.Closing.{StandsWithinLimit, Closes, LeavesNoSession};
ghost use Rattle.wire.specs.ScriptRun.{lines_of, IsScriptRun, RunsLines};
ghost use Rattle.wire.specs.ScriptRun.{progress_of, RunsLine, RunsEvent};

use crate::script_line::read_line;
use crate::session_numbers::{SessionNumbers, event_of};
use crate::telling::answer_event;
use crate::text_sink::TakesText;
use server::decide::EventHandler;
use server::server::{ONLY_CLIENT, Server};
use sql_types::event::Event;
use std::alloc::Global;
use store::Store;

/// How many sessions of a client are open at most: the session machine refuses to open one more.
const MAX_SESSIONS: usize = 256;

/// How a script ended. The lines before that at which it ended were run, and whichever way it
/// ended, the sessions were closed, unless the server has stopped.
#[derive(Clone, Copy, PartialEq, Eq)]
pub enum ScriptEnd {
    /// Every line was run, and every answer told.
    Done,
    /// The line of this number, counted from 1, is invalid. It was not run, and every answer so
    /// far was told.
    BadLine(u64),
    /// The server has stopped, or had before: it refused the last event with 58030, which was
    /// told.
    Stopped,
    /// The sink failed, which it has counted. How much of the last answer it has taken is not said.
    Writer,
    /// An allocation for the lines or for the event of a line failed, or the line names one session
    /// more than there are numbers. That line was not run, and every answer so far was told.
    Memory,
}

/// Runs the lines of a script in order: each event that a line requests is answered by a step of
/// the server, and the answer is told after that step and before the next line is read. The script
/// ends at the first invalid line, and where the server stops, the sink fails or an allocation does.
///
/// However it ends, the sessions that are still open are then closed in the order of their opening,
/// and these answers are not told. A server that has stopped closes none. Then all that the sink has
/// taken goes out, unless it fails.
pub fn run_script<S: Store, X: EventHandler, K: TakesText>(
    alloc: Global,
    server: &mut Server<S, X>,
    script: &str,
    sink: &mut K,
) -> ScriptEnd
    ensures history { KeepsHistory (S.state server.old.store) (S.state server.new.store) }
    ensures runs { IsScriptRun X.Reads S.state K.Sink server.old (lines_of script.now)
        sink.old result server.new sink.new }
    ensures left { StandsWithinLimit S.state server.old → LeavesNoSession S.state server.new }
    ensures finished { result ≢ ScriptEnd.Writer → K.finished sink.new }
{
    let end = run_text(alloc, server, script, sink);
    close_sessions(server);
    let Ok(()) = sink.finish() else {
        return ScriptEnd::Writer;
    };
    end
}

/// Runs the lines of a script, which newlines separate.
fn run_text<S: Store, X: EventHandler, K: TakesText>(
    alloc: Global,
    server: &mut Server<S, X>,
    script: &str,
    sink: &mut K,
) -> ScriptEnd
    ensures history { KeepsHistory (S.state server.old.store) (S.state server.new.store) }
    ensures runs { RunsLines X.Reads S.state K.Sink server.old (lines_of script.now)
        sink.old result server.new sink.new }
{
    let Ok(lines) = script.split('\n').collect(alloc) else {
        return ScriptEnd::Memory;
    };
    let lines: Vec<&str> = lines;
    run_lines(alloc, server, lines.as_slice(), sink)
}

/// Runs the lines in their order, until one ends the script.
fn run_lines<S: Store, X: EventHandler, K: TakesText>(
    alloc: Global,
    server: &mut Server<S, X>,
    lines: &[&str],
    sink: &mut K,
) -> ScriptEnd
    ensures history { KeepsHistory (S.state server.old.store) (S.state server.new.store) }
    ensures runs { RunsLines X.Reads S.state K.Sink server.old (texts_of lines.now)
        sink.old result server.new sink.new }
{
    let mut numbers = SessionNumbers::new(alloc);
    let mut number: u64 = 0;
    for text in lines {
        number += 1;
        if let Some(end) = run_line(alloc, server, *text, number, &mut numbers, sink) {
            return end;
        }
    }
    ScriptEnd::Done
}

/// Runs one line, which has this number in the script, and answers why the script ends there, if it
/// does.
fn run_line<'a, S: Store, X: EventHandler, K: TakesText>(
    alloc: Global,
    server: &mut Server<S, X>,
    text: &'a str,
    number: u64,
    numbers: &mut SessionNumbers<'a>,
    sink: &mut K,
) -> Option<ScriptEnd>
    ensures history { KeepsHistory (S.state server.old.store) (S.state server.new.store) }
    ensures runs { RunsLine X.Reads S.state K.Sink
        (progress_of (names_of numbers.old) server.old sink.old) text.now number result
        (progress_of (names_of numbers.new) server.new sink.new) }
{
    let Some(line) = read_line(text) else {
        return Some(ScriptEnd::BadLine(number));
    };
    match event_of(alloc, line, numbers) {
        Ok(None) => None,
        Ok(Some(event)) => run_event(server, &event, sink),
        Err(_) => Some(ScriptEnd::Memory),
    }
}

/// Runs one event, tells its answer, and answers why the script ends there, if it does.
fn run_event<S: Store, X: EventHandler, K: TakesText>(
    server: &mut Server<S, X>,
    event: &Event,
    sink: &mut K,
) -> Option<ScriptEnd>
    ensures history { KeepsHistory (S.state server.old.store) (S.state server.new.store) }
    ensures runs { RunsEvent X.Reads S.state K.Sink server.old event.now sink.old
        result server.new sink.new }
{
    let Ok(()) = answer_event(server, event, sink) else {
        return Some(ScriptEnd::Writer);
    };
    if server.has_stopped() {
        return Some(ScriptEnd::Stopped);
    }
    None
}

/// Closes the open sessions of the one client, the first opened first. A server that has stopped keeps
/// them.
pub fn close_sessions<S: Store, X: EventHandler>(server: &mut Server<S, X>)
    ensures history { KeepsHistory (S.state server.old.store) (S.state server.new.store) }
    ensures closes { StandsWithinLimit S.state server.old
        → Closes X.Reads S.state server.old server.new }
{
    if server.has_stopped() {
        return;
    }
    for _ in 0..MAX_SESSIONS {
        let Some(session) = server.session_at(ONLY_CLIENT, 0) else {
            return;
        };
        close_session(server, session);
    }
}

/// Closes a session, and lets the answer go.
fn close_session<S: Store, X: EventHandler>(server: &mut Server<S, X>, session: u32)
    ensures history { KeepsHistory (S.state server.old.store) (S.state server.new.store) }
    ensures steps { (answer : Answer)
        × Steps X.Reads S.state 0 server.old (Event.Close session) answer server.new }
{
    // Nobody is told.
    let _answer = server.step(ONLY_CLIENT, &Event::Close { session });
}
