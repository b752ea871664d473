//! A connection: the frames that a reader gives, answered in frames to a sink.

ghost use Rattle.std.specs.Prelude.{◌≢◌, Some};
ghost use Rattle.store.specs.Store.{KeepsHistory};
ghost use Rattle.wire.specs.Frame.{next_frame, bad};
ghost use Rattle.wire.specs.Closing.{StandsWithinLimit, LeavesNoSession};
ghost use Rattle.wire.specs.Connection.{input_of, IsServed, IsConnection, ServesPiece};

use crate::answering::{answer_bad_frame, answer_events};
use crate::frame_sink::TakesFrames;
use crate::frames::{Fed, Frames};
use crate::input::Input;
use crate::script_run::close_sessions;
use server::decide::EventHandler;
use server::server::Server;
use std::alloc::Global;
use store::Store;

/// How many bytes are read at once, at most.
const READ_SIZE: usize = 8_192;

/// Why a connection ended. Whichever way it did, the sessions were closed, unless the server has
/// stopped.
#[derive(Clone, Copy, PartialEq, Eq)]
pub enum End {
    /// The input is at its end. Every event that it spells was answered; bytes of a frame that is
    /// not there to its end were not.
    Input,
    /// A bad frame came. The events before it were answered, and then the bad frame, under session
    /// 0 with the state 08P01; nothing that follows it was read as an event.
    BadFrame,
    /// A read failed, which the reader has counted. Every event read was answered.
    Reader,
    /// 2^64 - 1 reads were made, each of which gave bytes. Every event read was answered.
    ReadLimit,
    /// The sink failed, which it has counted. The events run are a beginning of those read, and all their answers but the
    /// last were told; how much has gone out of the answers to the piece read last is not said.
    Writer,
    /// The sink was not ready, and nothing was read; or an allocation failed for the piece read last.
    /// None of that piece's events was run, and every event of the pieces before it was answered.
    Memory,
}

/// Serves a connection: each event that the bytes of the reader spell, in their order, is answered
/// by a step of the server, and the sink is told the answer, in frames of the event's session, after
/// that step and before the next event is taken. The answers to the events of one piece that is read
/// go out together, before the next piece is. The connection ends with its input, at a bad frame,
/// and where the reader, the sink or an allocation fails. A server that has stopped refuses the
/// events that still come.
///
/// However it ends, the sessions that are still open are then closed in the order of their opening,
/// and these answers are not told. A server that has stopped closes none.
pub fn serve_connection<S: Store, X: EventHandler, R: Input, K: TakesFrames>(
    alloc: Global,
    server: &mut Server<S, X>,
    reader: &mut R,
    sink: &mut K,
) -> End
    ensures history { KeepsHistory (S.state server.old.store) (S.state server.new.store) }
    ensures served { IsConnection X.Reads S.state K.Sink server.old
        (input_of (R.remaining reader.old) (R.failures reader.old)) sink.old result server.new
        (input_of (R.remaining reader.new) (R.failures reader.new)) sink.new }
    ensures finished { K.finished sink.old → result ≢ End.Writer → K.finished sink.new }
    ensures left { StandsWithinLimit S.state server.old → LeavesNoSession S.state server.new }
{
    let end = serve_events(alloc, server, reader, sink);
    close_sessions(server);
    end
}

// Answers the events that the bytes of the reader spell.
fn serve_events<S: Store, X: EventHandler, R: Input, K: TakesFrames>(
    alloc: Global,
    server: &mut Server<S, X>,
    reader: &mut R,
    sink: &mut K,
) -> End
    ensures history { KeepsHistory (S.state server.old.store) (S.state server.new.store) }
    ensures served { IsServed X.Reads S.state K.Sink server.old
        (input_of (R.remaining reader.old) (R.failures reader.old)) sink.old result server.new
        (input_of (R.remaining reader.new) (R.failures reader.new)) sink.new }
    ensures finished { K.finished sink.old → result ≢ End.Writer → K.finished sink.new }
{
    let mut frames = Frames::new(alloc);
    if !sink.is_ready() {
        return End::Memory;
    }
    let mut bytes = [0; READ_SIZE];
    for _ in 0..u64::MAX {
        let Ok(count) = reader.read(&mut bytes) else {
            return End::Reader;
        };
        if count == 0 {
            return End::Input;
        }
        let piece = &bytes[..count];
        if let Some(end) = serve_piece(server, piece, &mut frames, sink) {
            return end;
        }
    }
    End::ReadLimit
}

// Answers the events whose frames a piece completes, lets the answers go out, and answers why the
// connection ends there, if it does.
fn serve_piece<S: Store, X: EventHandler, K: TakesFrames>(
    server: &mut Server<S, X>,
    piece: &[u8],
    frames: &mut Frames,
    sink: &mut K,
) -> Option<End>
    ensures history { KeepsHistory (S.state server.old.store) (S.state server.new.store) }
    ensures served { next_frame frames.old ≢ bad → ServesPiece X.Reads S.state K.Sink frames.old
        piece.now server.old sink.old result frames.new server.new sink.new }
    ensures finished { K.finished sink.old → result ≢ Some End.Writer → K.finished sink.new }
{
    let Ok(Fed { events, bad }) = frames.feed(piece) else {
        return Some(End::Memory);
    };
    let Ok(()) = answer_events(server, events.as_slice(), sink) else {
        return Some(End::Writer);
    };
    if !bad {
        return None;
    }
    let Ok(()) = answer_bad_frame(server, sink) else {
        return Some(End::Writer);
    };
    Some(End::BadFrame)
}
