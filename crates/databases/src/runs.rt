//! Runs over a database on a device: of a script, of the connections of a listener, and of many
//! clients.

ghost use Rattle.databases.specs.Runs.{RunsScriptFrom, ServesFrom, ServesClientsFrom};

use journal_store::{DeviceStore, JournalDevice};
use sector_device::Device;
use served_machine::ServedMachine;
use server::decide::EventHandler;
use server::server::Server;
use std::alloc::Global;
use stored_database::one_database;
use talks::clients::ServedClients;
use talks::serving::{ServeEnd, serve_clients};
use talks::talk::Talk;
use wire::listen::Listen;
use wire::listener::{Served, serve_listener};
use wire::script_run::{ScriptEnd, run_script};
use wire::text_sink::TakesText;

/// Runs a script over a database that was opened on a device: each answer is told once its event is
/// carried out, before the next line is read. However the script ends, the sessions that are still open are then closed,
/// unless the server has stopped, and the device is handed back.
pub fn run_script_on<D: JournalDevice, X: EventHandler + Drop, K: TakesText>(
    alloc: Global,
    server: Server<DeviceStore<D>, X>,
    script: &str,
    sink: &mut K,
) -> (D, ScriptEnd)
    ensures { RunsScriptFrom D.Device K.Sink X.Reads server script.now sink.old result.1 result.0
        sink.new }
{
    // For the proof: records stand for one database.
    one_database();
    let mut server = server;
    let end = run_script(alloc, &mut server, script, sink);
    (server.into_store().into_device(), end)
}

/// Serves the connections that come to a listener over a database that was opened on a device, so
/// many at most, in their order, each to its end before the next is taken, and hands the device
/// back: each event that is run is one that the bytes of a connection spell, or closes a session
/// that a connection has left open. Between two connections no session is open. Once the server has
/// stopped, no further connection is taken, and where it had stopped before, none at all.
pub fn serve_database<D: JournalDevice, X: EventHandler + Drop, L: Listen>(
    alloc: Global,
    server: Server<DeviceStore<D>, X>,
    listener: &mut L,
    connections: u32,
) -> (D, Served)
    ensures { ServesFrom D.Device L.Sink.Sink X.Reads connections server
        (L.listening listener.old) result.1 result.0 (L.listening listener.new) }
{
    // For the proof: records stand for one database.
    one_database();
    let mut server = server;
    let served = serve_listener(alloc, &mut server, listener, connections);
    (server.into_store().into_device(), served)
}

/// Serves clients over a database that was opened on a device, in 2^64 - 1 turns at most, until nobody
/// comes any more, and hands the device back. What is done for them is one order of turns, in which
/// each client is told its own. Each event that the server takes is one that a client wanted, or
/// closes a session that a client has left open. Where nobody is there any more no session is open,
/// unless the server has stopped; where it had stopped before, nothing is done to it.
pub fn serve_clients_on<D: JournalDevice, X: EventHandler + Drop, T: Talk, C: ServedClients<T>>(
    alloc: Global,
    server: Server<DeviceStore<D>, X>,
    clients: &mut C,
) -> (D, ServeEnd)
    ensures { ServesClientsFrom D.Device T.Talk C.ServedClients X.Reads server clients.old result.1
        result.0 clients.new }
{
    // For the proof: records stand for one database.
    one_database();
    let mut machine = ServedMachine::new(alloc, server);
    let end = serve_clients(&mut machine, clients, u64::MAX);
    (machine.into_server().into_store().into_device(), end)
}
