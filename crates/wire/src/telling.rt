//! An event, carried out and then answered.

ghost use Rattle.std.specs.Prelude.{◌≡◌, OnOk, OnErr};
ghost use Rattle.sql_types.specs.declared.answer.Answer.{Answer as TheAnswer};
ghost use Rattle.store.specs.Store.{KeepsHistory};
ghost use Rattle.wire.specs.Telling.{session_of, Told, Tells, Breaks};

use crate::sink::Sink;
use server::decide::EventHandler;
use server::server::{ONLY_CLIENT, Server};
use sql_types::event::Event;
use std::io;
use store::Store;

/// Carries an event out by a step of the server, and then tells its answer. An error: the event was
/// carried out, and its answer was not taken whole.
pub fn answer_event<S: Store, X: EventHandler, K: Sink>(
    server: &mut Server<S, X>,
    event: &Event,
    sink: &mut K,
) -> io::Result<()>
    ensures history { KeepsHistory (S.state server.old.store) (S.state server.new.store) }
    ensures told { OnOk result ((t : Told) × Tells X.Reads S.state K.Sink server.old sink.old
        event.now t server.new sink.new) }
    ensures broken { OnErr result ((answer : TheAnswer) × Breaks X.Reads S.state K.Sink server.old
        sink.old event.now answer server.new sink.new) }
{
    let answer = server.step(ONLY_CLIENT, event);
    sink.tell(server.store(), session_of(event), &answer)
}

/// The session that an event names.
pub fn session_of(event: &Event) -> u32
    ensures { result ≡ session_of event.now }
{
    match event {
        Event::Open { session, login: _ } => *session,
        Event::Statement { session, text: _ } => *session,
        Event::Close { session } => *session,
    }
}
