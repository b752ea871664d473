//! Events, answered in their order, each answer told once its event is carried out. The answers go out together.

ghost use Rattle.std.specs.Prelude.{OnOk, OnErr};
ghost use Rattle.store.specs.Store.{KeepsHistory};
ghost use Rattle.wire.specs.Answers.{AnswersAll, AnswersSome};
ghost use Rattle.wire.specs.Connection.{AnswersBadFrame, BreaksBadFrame};

use crate::frame_sink::TakesFrames;
use crate::telling::{answer_event, session_of};
use server::decide::EventHandler;
use server::server::{ONLY_CLIENT, Server};
use sql_types::answer::Answer;
use sql_types::event::Event;
use sql_types::state::SqlState;
use std::io;
use store::Store;

/// Answers events in their order: each by a step of the server, whose answer is told before the next
/// event is taken, and not before the step. Once all are told the answers go out. After an error the
/// events carried out are a beginning of these, and all their answers but the last were told; how
/// much has gone out is not said.
pub fn answer_events<S: Store, X: EventHandler, K: TakesFrames>(
    server: &mut Server<S, X>,
    events: &[Event],
    sink: &mut K,
) -> io::Result<()>
    ensures history { KeepsHistory (S.state server.old.store) (S.state server.new.store) }
    ensures ok { OnOk result (AnswersAll X.Reads S.state K.Sink server.old events.now sink.old
        server.new sink.new) }
    ensures finished { OnOk result (K.finished sink.old → K.finished sink.new) }
    ensures err { OnErr result (AnswersSome X.Reads S.state K.Sink server.old events.now sink.old
        server.new sink.new) }
{
    let Some(last) = events.len().checked_sub(1) else {
        return Ok(());
    };
    for index in 0..last {
        answer_event(server, &events[index], sink)?;
    }
    let event = &events[last];
    let answer = server.step(ONLY_CLIENT, event);
    sink.tell_last(server.store(), session_of(event), &answer)
}

// Answers a bad frame, which no session sent, and lets the answer go out.
pub(crate) fn answer_bad_frame<S: Store, X: EventHandler, K: TakesFrames>(
    server: &Server<S, X>,
    sink: &mut K,
) -> io::Result<()>
    ensures told { OnOk result (AnswersBadFrame S.state K.Sink server.now sink.old sink.new) }
    ensures finished { OnOk result (K.finished sink.new) }
    ensures broken { OnErr result (BreaksBadFrame S.state K.Sink server.now sink.old sink.new) }
{
    let answer = Answer::Refused(SqlState::ProtocolViolation);
    sink.tell_last(server.store(), 0, &answer)
}
