//! What the program does for the words of its command line.

ghost use Rattle.cli.specs.CarryingOut.{IsCarriedOut};

use crate::client_talks::{
    DoorTalks, FrameTalks, FramedTalk, PasswordTalks, PostgresLogins, PostgresTalks,
};
use crate::command::Invocation;
use crate::ending::Performed;
use crate::explained_runs::explain;
use crate::program::perform;
use crate::refusals::explained_run;
use crate::several_talks::{SeveralTalks, SomeTalk};
use channels::attend::Attend;
use doors::door_talk::DoorTalk;
use doors::entry_talk::EntryTalk;
use password_talks::password_talk::PasswordTalk;
use polled_clients::clients::PolledClients;
use postgres_logins::postgres_login_talk::PostgresLoginTalk;
use postgres_talks::postgres_talk::PostgresTalk;
use sector_device::Device;
use server::decide::EventHandler;
use std::alloc::Global;
use std::io::Write;
use systems::System;
use talks::clients::ServedClients;
use talks::talk::Talk;
use wire::listen::Listen;
use wire::sink::Sink;
use wire::text_sink::TakesText;

/// Does what a command asks for: a run whose refusals are to be told of as `explain` does, and any other order
/// as `perform` does. With `--explain` or `--stop` `err` is told of each refusal of a script, after `out` has
/// taken it as ever. With `--stop` the script ends at the first, and the exit status is 3.
pub fn carry_out<'a, Y: System, X: EventHandler + Drop, K: TakesText + Drop, E: Write + Drop>(
    system: &mut Y,
    alloc: Global,
    handler: X,
    order: &Invocation<'a>,
    out: K,
    err: E,
) -> Performed<K, E>
    ensures { IsCarriedOut X Y.Device.Device K.Sink Y.Listener.Sink.Sink Y.Listener.Attend
        ⟦<DoorTalk<FramedTalk> as Talk>⟧
        ⟦<PolledClients<DoorTalk<FramedTalk>, Y::Channel, Y::Listener, DoorTalks<'a, FrameTalks>> as ServedClients<DoorTalk<FramedTalk>>>⟧
        ⟦<DoorTalk<PostgresTalk> as Talk>⟧
        ⟦<PolledClients<DoorTalk<PostgresTalk>, Y::Channel, Y::Listener, DoorTalks<'a, PostgresTalks>> as ServedClients<DoorTalk<PostgresTalk>>>⟧
        ⟦<PasswordTalk<FramedTalk> as Talk>⟧
        ⟦<PolledClients<PasswordTalk<FramedTalk>, Y::Channel, Y::Listener, PasswordTalks<'a, FrameTalks, Y::Draw>> as ServedClients<PasswordTalk<FramedTalk>>>⟧
        ⟦<PostgresLoginTalk<PostgresTalk> as Talk>⟧
        ⟦<PolledClients<PostgresLoginTalk<PostgresTalk>, Y::Channel, Y::Listener, PostgresLogins<'a, PostgresTalks, Y::Draw>> as ServedClients<PostgresLoginTalk<PostgresTalk>>>⟧
        ⟦<EntryTalk<SomeTalk> as Talk>⟧
        ⟦<PolledClients<EntryTalk<SomeTalk>, Y::Channel, Y::Listener, SeveralTalks<'a, Y::Draw>> as ServedClients<EntryTalk<SomeTalk>>>⟧
        E.contents Y.Draw.draws X.Reads
        Y.Listener.listening Y.state (Y.state system.old) order.now out err (Y.state system.new)
        result }
{
    match explained_run(order) {
        Some(run) => explain(system, alloc, handler, run, out, err),
        None => {
            let (mut out, mut err) = (out, err);
            let exit = perform(system, alloc, handler, order, &mut out, &mut err);
            Performed { exit, out, err }
        }
    }
}
