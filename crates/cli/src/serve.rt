//! A server at a place of a system, over a database in a file.

ghost use Rattle.std.specs.Prelude.{OnOk};
ghost use Rattle.std.specs.Io.KnownBytes.{Appends};
ghost use Rattle.cli.specs.Serving.{ServesFile, ServesAt, ServesOn, listening_line, listening_lines, listening_text};

use crate::fault::CommandFault;
use crate::opened::{CommandEnd, open_database_in, tell_migration};
use databases::serve_database;
use journal_store::{DeviceStore, JournalDevice};
use sector_device::Device;
use server::decide::EventHandler;
use server::server::Server;
use std::alloc::Global;
use std::io;
use std::io::Write;
use std::time::Duration;
use systems::{ListenPlace, OnePlace, SocketAccess, System};
use wire::listen::Listen;
use wire::listener::Served;
use wire::sink::Sink;

/// How much a server serves.
#[derive(Clone, Copy)]
pub struct Limits {
    /// How many connections, at most.
    pub connections: u32,
    /// How long a connection may send nothing, or take nothing of an answer. `None`: for ever.
    pub idle: Option<Duration>,
}

/// Serves connections at a place of the system over the database in the file at `path`, whose
/// events `handler` decides: so many at most, one after the other. `err` is told first that the file
/// was migrated, where it was, as at `check_file`, and then, before the first connection, where the
/// server listens, as `guarddb: listening on 127.0.0.1:P`, which names the port that was
/// bound, or `guarddb: listening on PATH`. By then a stop leaves each sector of the file as it was
/// read. Connections come as the system's listener takes them,
/// with the limit that `limits` has. However it ends, the place is given up and the file is closed.
///
/// The faults are first those of `check_file`, and then `Net`, where the place is not bound, and
/// `Output`, where `err` fails; no connection was taken then. That a connection could not be taken
/// later is none of them, but an end that `Served` names.
pub fn serve_file<Y: System, X: EventHandler + Drop, E: Write>(
    system: &mut Y,
    alloc: Global,
    handler: X,
    path: &str,
    place: ListenPlace<'_>,
    limits: Limits,
    err: &mut E,
) -> CommandEnd<Served>
    ensures { ServesFile X Y.Device.Device Y.Listener.Sink.Sink X.Reads Y.Listener.listening
        (Y.state system.old) path.entry.now place.entry limits.connections (E.contents err.old)
        result (Y.state system.new) (E.contents err.new) }
{
    let opened = match open_database_in(system, alloc, handler, path) {
        Ok(opened) => opened,
        Err(fault) => return CommandEnd::unopened(fault),
    };
    let told = tell_migration(opened.was_migrated, path, err);
    let (left, outcome) = serve_at(system, alloc, opened.server, place, limits, err);
    system.close(path, left);
    CommandEnd { outcome, told }
}

// Serves connections at a place, and hands the device back.
fn serve_at<Y: System, X: EventHandler + Drop, E: Write>(
    system: &mut Y,
    alloc: Global,
    server: Server<DeviceStore<Y::Device>, X>,
    place: ListenPlace<'_>,
    limits: Limits,
    err: &mut E,
) -> (Y::Device, Result<Served, CommandFault>)
    ensures { ServesAt Y.Device.Device Y.Listener.Sink.Sink X.Reads Y.Listener.listening
        (Y.state system.old) place.entry limits.connections server (E.contents err.old) result.1
        result.0 (Y.state system.new) (E.contents err.new) }
{
    let (mut listener, bound) = match system.bind(place, SocketAccess::Owner, limits.idle) {
        Ok(bound) => bound,
        Err(cause) => {
            let left = server.into_store().into_device();
            return (left, Err(CommandFault::Net(cause)));
        }
    };
    let (left, outcome) = serve_on(alloc, server, &mut listener, bound, limits.connections, err);
    system.unbind(bound, listener);
    (left, outcome)
}

/// Serves the connections that come to a listener over a database that was opened on a device, as
/// `serve_database` does, and hands the device back. Before the first, `err` is told where the
/// server listens.
///
/// The fault is `Output`, where `err` fails; no connection was taken then.
pub fn serve_on<D: JournalDevice + Drop, X: EventHandler + Drop, L: Listen, E: Write>(
    alloc: Global,
    server: Server<DeviceStore<D>, X>,
    listener: &mut L,
    place: ListenPlace<'_>,
    connections: u32,
    err: &mut E,
) -> (D, Result<Served, CommandFault>)
    ensures { ServesOn D.Device L.Sink.Sink X.Reads place.entry connections server
        (L.listening listener.old) (E.contents err.old) result.1 result.0
        (L.listening listener.new) (E.contents err.new) }
{
    let Ok(()) = tell_place(place, err) else {
        let left = server.into_store().into_device();
        return (left, Err(CommandFault::Output));
    };
    let (left, served) = serve_database(alloc, server, listener, connections);
    (left, Ok(served))
}

// Tells where the server listens.
pub(crate) fn tell_place<E: Write>(place: ListenPlace<'_>, err: &mut E) -> io::Result<()>
    ensures { OnOk result (Appends (E.contents err.old) (E.contents err.new)
        (listening_text place.entry)) }
{
    match place {
        ListenPlace::Port(port) => writeln!(err, "guarddb: listening on 127.0.0.1:{port}"),
        ListenPlace::Socket(path) => writeln!(err, "guarddb: listening on {path}"),
        ListenPlace::PostgresFolder(folder) => {
            writeln!(err, "guarddb: listening on {folder}/.s.PGSQL.5432")
        }
        ListenPlace::Each(places) => tell_each(places, err),
    }
}

// Tells of each of several places that the server listens there, in their order.
fn tell_each<E: Write>(places: &[OnePlace<'_>], err: &mut E) -> io::Result<()>
    ensures { OnOk result (Appends (E.contents err.old) (E.contents err.new)
        (listening_lines places.now)) }
{
    let mut rest = places;
    while let [place, after @ ..] = rest {
        tell_one(*place, err)?;
        rest = after;
    }
    Ok(())
}

// Tells of one of several places that the server listens there.
fn tell_one<E: Write>(place: OnePlace<'_>, err: &mut E) -> io::Result<()>
    ensures { OnOk result (Appends (E.contents err.old) (E.contents err.new)
        (listening_line place.entry)) }
{
    match place {
        OnePlace::Port(port) => writeln!(err, "guarddb: listening on 127.0.0.1:{port}"),
        OnePlace::Socket(path, _) => writeln!(err, "guarddb: listening on {path}"),
        OnePlace::PostgresFolder(folder, _) => {
            writeln!(err, "guarddb: listening on {folder}/.s.PGSQL.5432")
        }
    }
}
