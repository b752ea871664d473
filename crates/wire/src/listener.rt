//! The connections of a listener, one after the other.

ghost use Rattle.std.specs.Prelude.{◌≡◌, ◌↔◌, true};
ghost use Rattle.store.specs.Store.{KeepsHistory};
ghost use Rattle.wire.specs.Counts.{Rose};
ghost use Rattle.wire.specs.Closing.{StandsWithinLimit, LeavesNoSession};
ghost use Rattle.wire.specs.Connection.{HasRun};
ghost use Rattle.wire.specs.Listener.{ServesAtMost};

use crate::connection::serve_connection;
use crate::listen::Listen;
use server::decide::EventHandler;
use server::server::Server;
use std::alloc::Global;
use store::Store;

/// How the connections of a listener were served.
#[derive(Clone, Copy, Debug, PartialEq, Eq)]
pub enum Served {
    /// As many connections as were asked for were served.
    Done,
    /// The server has stopped, or had before. No further connection was taken.
    Stopped,
    /// The connection that came next could not be taken, which the listener has counted. Those
    /// before it were served.
    Net,
}

/// Serves the connections that come to a listener, so many at most, in their order, each to its end
/// before the next is taken, and does nothing else to the server: every event that is run is one
/// that the bytes of a connection spell, or closes a session that a connection has left open. Each
/// connection gets the answers to its own events, as `serve_connection` promises, and nothing
/// besides, and is then closed. An error of a connection ends that connection and nothing else.
/// Between two connections no session is open. Once the server has stopped, no further connection
/// is taken, and where it had stopped before, none at all.
pub fn serve_listener<S: Store, X: EventHandler, L: Listen>(
    alloc: Global,
    server: &mut Server<S, X>,
    listener: &mut L,
    connections: u32,
) -> Served
    ensures history { KeepsHistory (S.state server.old.store) (S.state server.new.store) }
    ensures serves { ServesAtMost X.Reads S.state L.Sink.Sink connections server.old
        (L.listening listener.old) result server.new (L.listening listener.new) }
    ensures cause { result ≡ Served.Net → Rose (L.failures listener.old) (L.failures listener.new) }
    ensures stopped { (result ≡ Served.Stopped) ↔ (server.new.stopped ≡ true) }
    ensures refused { server.old.stopped ≡ true → server.new ≡ server.old }
    ensures runs { StandsWithinLimit S.state server.old
        → HasRun X.Reads S.state server.old server.new }
    ensures left { (S.state server.old.store).sound → LeavesNoSession S.state server.old
        → LeavesNoSession S.state server.new }
{
    if server.has_stopped() {
        return Served::Stopped;
    }
    for _ in 0..connections {
        let Ok((mut reader, mut sink)) = listener.take() else {
            return Served::Net;
        };
        // However it ended, the next one is taken.
        let _end = serve_connection(alloc, server, &mut reader, &mut sink);
        listener.close(reader, sink);
        if server.has_stopped() {
            return Served::Stopped;
        }
    }
    Served::Done
}
