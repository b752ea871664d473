//! A server of many clients at once at a place of a system, over a database in a file.

ghost use Rattle.std.specs.Prelude.{◌≡◌, ◌++◌, OnOk};
ghost use Rattle.std.specs.Io.KnownBytes.{Appends};
ghost use Rattle.cli.specs.OpenPlaces.{open_lines};
ghost use Rattle.cli.specs.Serving.{listening_text};
ghost use Rattle.cli.specs.ServingClients.{asked_wait, AreLimits, IsLimitOf, ServesClientsAt, ServesClientsFile, ServesClientsOn};

use crate::client_talks::Speaker;
use crate::fault::CommandFault;
use crate::open_places::tell_open;
use crate::opened::{CommandEnd, open_database_in, tell_migration};
use crate::serve::tell_place;
use crate::served_place::{NamedPlace, ServedPlace};
use channels::attend::Attend;
use channels::channel::Channel;
use databases::serve_clients_on;
use journal_store::{DeviceStore, JournalDevice};
use polled_clients::clients::{ClientLimits, PolledClients, TalkMaker};
use sector_device::Device;
use server::decide::EventHandler;
use server::server::Server;
use std::alloc::Global;
use std::io;
use std::io::Write;
use std::time::Duration;
use systems::{ListenPlace, System};
use talks::clients::ServedClients;
use talks::serving::ServeEnd;
use talks::talk::Talk;

/// What a server of many clients at once serves.
#[derive(Clone, Copy, PartialEq, Eq)]
pub struct ManyClients {
    /// How many are served at once, 1 to 1,000.
    pub at_once: u32,
    /// How many are served in all, 1 to 65,535. `None`: until the server is ended.
    pub connections: Option<u32>,
    /// How many seconds a statement may wait for the writer lock, up to 86,400. 0: it does not wait.
    pub wait: u32,
    /// After how many seconds one ends that sends nothing, or takes nothing of an answer, 1 to 86,400.
    /// `None`: for ever.
    pub idle: Option<u32>,
    /// For how many seconds one may hold the writer lock once another's statement waits for it or was
    /// refused since it does, 1 to 86,400.
    pub block: u32,
}

impl ManyClients {
    // The same, as the clients take it. One may be there for so long before a session is opened for it,
    // where it has to show a password, and so many of these may be there at once.
    fn limits(self, login: Option<Duration>, guests: u32) -> ClientLimits
        ensures limits { AreLimits self result }
        ensures login { result.login ≡ login }
        ensures guests { result.guests ≡ guests }
    {
        ClientLimits {
            connections: self.connections.unwrap_or(u32::MAX),
            at_once: self.at_once as usize,
            guests: guests as usize,
            wait: limit_of(asked_wait(self.wait)),
            idle: limit_of(self.idle),
            block: limit_of(Some(self.block)),
            login,
        }
    }
}

// How many seconds one may wait: for 0 it does not.
fn asked_wait(seconds: u32) -> Option<u32>
    ensures { result ≡ asked_wait seconds }
{
    if seconds == 0 { None } else { Some(seconds) }
}

// A limit of so many seconds, where there is one.
fn limit_of(seconds: Option<u32>) -> Option<Duration>
    ensures { IsLimitOf seconds result }
{
    match seconds {
        Some(seconds) => Some(Duration::from_secs(u64::from(seconds))),
        None => None,
    }
}

/// Serves many clients at once, which come to a place of the system, over the database in the file at
/// `path`, whose events `handler` decides. `maker` makes the conversation with each, which is told its own
/// answers alone. Of `place` its door is not looked at: who may come in is for the conversations to say.
/// Who comes while as many are served at once as may be is told so, and closed.
/// `err` is told as at `serve_file`, and then of each of the places `told` that is a port which lets in
/// anyone that no passwords are asked for there. However it ends, the place is given up and the file is closed.
///
/// It ends once as many clients came as are served in all, and each of them has gone; once the server
/// has stopped and each has gone; and where none can be taken any more.
///
/// The faults are first those of `check_file`, and then `Net`, where the place is not bound or the
/// system does not tell who comes there; `Memory`; and `Output`, where `err` fails. Nobody was taken
/// then.
pub fn serve_clients_file<
    Y: System,
    X: EventHandler + Drop,
    T: Talk + Drop,
    F: TalkMaker<T> + Speaker + Drop,
    E: Write,
>(
    system: &mut Y,
    alloc: Global,
    handler: X,
    path: &str,
    place: ServedPlace<'_>,
    told: &[NamedPlace<'_>],
    maker: F,
    many: ManyClients,
    err: &mut E,
) -> CommandEnd<ServeEnd>
    ensures { ServesClientsFile X Y.Device.Device Y.Listener.Attend T.Talk
        ⟦<PolledClients<T, Y::Channel, Y::Listener, F> as ServedClients<T>>⟧
        X.Reads (Y.state system.old) path.entry.now place.entry.place (open_lines told.entry.now) (F.makes maker) many
        (E.contents err.old) result (Y.state system.new) (E.contents err.new) }
{
    let opened = match open_database_in(system, alloc, handler, path) {
        Ok(opened) => opened,
        Err(fault) => return CommandEnd::unopened(fault),
    };
    let migration_told = tell_migration(opened.was_migrated, path, err);
    let (left, outcome) = serve_clients_at(
        system,
        alloc,
        opened.server,
        place,
        told,
        maker,
        many,
        err,
    );
    system.close(path, left);
    CommandEnd {
        outcome,
        told: migration_told,
    }
}

// Serves clients at a place, and hands the device back.
fn serve_clients_at<
    Y: System,
    X: EventHandler + Drop,
    T: Talk + Drop,
    F: TalkMaker<T> + Speaker + Drop,
    E: Write,
>(
    system: &mut Y,
    alloc: Global,
    server: Server<DeviceStore<Y::Device>, X>,
    place: ServedPlace<'_>,
    told: &[NamedPlace<'_>],
    maker: F,
    many: ManyClients,
    err: &mut E,
) -> (Y::Device, Result<ServeEnd, CommandFault>)
    ensures { ServesClientsAt Y.Device.Device Y.Listener.Attend T.Talk
        ⟦<PolledClients<T, Y::Channel, Y::Listener, F> as ServedClients<T>>⟧
        X.Reads (Y.state system.old) place.entry.place (open_lines told.entry.now) (F.makes maker) many server
        (E.contents err.old) result.1 result.0 (Y.state system.new) (E.contents err.new) }
{
    let (mut listener, bound) = match system.bind(place.place, place.access, None) {
        Ok(bound) => bound,
        Err(cause) => {
            let left = server.into_store().into_device();
            return (left, Err(CommandFault::Net(cause)));
        }
    };
    match system.poll(&mut listener) {
        Ok(()) => {
            let (left, outcome, listener) = serve_clients_on_place(
                alloc, server, listener, bound, told, maker, many, err,
            );
            system.unbind(bound, listener);
            (left, outcome)
        }
        Err(cause) => {
            system.unbind(bound, listener);
            let left = server.into_store().into_device();
            (left, Err(CommandFault::Net(cause)))
        }
    }
}

// Serves the clients that come to a listener that is polled, and hands the device and the listener
// back. Before the first, `err` is told where the server listens.
fn serve_clients_on_place<
    D: JournalDevice + Drop,
    X: EventHandler + Drop,
    C: Channel + Drop,
    L: Attend<C> + Drop,
    T: Talk + Drop,
    F: TalkMaker<T> + Speaker + Drop,
    E: Write,
>(
    alloc: Global,
    server: Server<DeviceStore<D>, X>,
    listener: L,
    place: ListenPlace<'_>,
    told: &[NamedPlace<'_>],
    maker: F,
    many: ManyClients,
    err: &mut E,
) -> (D, Result<ServeEnd, CommandFault>, L)
    ensures { ServesClientsOn D.Device L.Attend T.Talk
        ⟦<PolledClients<T, C, L, F> as ServedClients<T>>⟧
        X.Reads place.entry (open_lines told.entry.now) (F.makes maker) many server listener (E.contents err.old) result.1
        result.0 result.2 (E.contents err.new) }
{
    let Ok(refusal) = maker.crowded_refusals(alloc) else {
        let left = server.into_store().into_device();
        return (left, Err(CommandFault::Memory), listener);
    };
    let Ok(()) = tell_places(place, told, err) else {
        let left = server.into_store().into_device();
        return (left, Err(CommandFault::Output), listener);
    };
    let limits = many.limits(maker.login_limit(), maker.guests(many.at_once));
    let mut clients = PolledClients::new(alloc, listener, maker, limits, refusal);
    let (left, end) = serve_clients_on(alloc, server, &mut clients);
    (left, Ok(end), clients.into_attend())
}

// Tells where the server listens, and at which of these places no passwords are asked for.
fn tell_places<E: Write>(
    place: ListenPlace<'_>,
    told: &[NamedPlace<'_>],
    err: &mut E,
) -> io::Result<()>
    ensures { OnOk result (Appends (E.contents err.old) (E.contents err.new)
        (listening_text place.entry ++ open_lines told.now)) }
{
    tell_place(place, err)?;
    tell_open(told, err)
}
