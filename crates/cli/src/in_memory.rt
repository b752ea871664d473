//! The program over a system in memory.

ghost use Rattle.systems.specs.MemSystem.{system_state};
ghost use Rattle.cli.specs.CarryingOut.{IsCarriedOut};

use crate::carrying_out::carry_out;
use crate::client_talks::{
    DoorTalks, FrameTalks, FramedTalk, PasswordTalks, PostgresLogins, PostgresTalks,
};
use crate::command::Invocation;
use crate::ending::Performed;
use crate::several_talks::{SeveralTalks, SomeTalk};
use channels::attend::Attend;
use channels::memory::MemChannel;
use doors::door_talk::DoorTalk;
use doors::entry_talk::EntryTalk;
use password_talks::password_talk::PasswordTalk;
use polled_clients::clients::PolledClients;
use postgres_logins::postgres_login_talk::PostgresLoginTalk;
use postgres_talks::postgres_talk::PostgresTalk;
use sector_device::{Device, HistoryDevice, WriteProtected};
use server::decide::EventHandler;
use std::alloc::Global;
use std::io::Write;
use systems::{Draw, MemListener, MemSystem, ZeroDraw};
use talks::clients::ServedClients;
use talks::talk::Talk;
use wire::frame_sink::FrameSink;
use wire::listen::Listen;
use wire::sink::Sink;
use wire::text_sink::TakesText;

/// Does what an order asks for over a system in memory, as `carry_out` does. That system is faithful,
/// so what `carry_out` promises of a faithful system is promised here with no premise.
pub fn carry_out_in_memory<'a, X: EventHandler + Drop, K: TakesText + Drop, E: Write + Drop>(
    system: &mut MemSystem<WriteProtected<HistoryDevice>>,
    alloc: Global,
    handler: X,
    order: &Invocation<'a>,
    out: K,
    err: E,
) -> Performed<K, E>
    ensures faithful { (system_state system.old).faithful }
    ensures carried_out { IsCarriedOut X ⟦<WriteProtected<HistoryDevice> as Device>⟧ K.Sink
        ⟦<FrameSink<Vec<u8>> as Sink>⟧ ⟦<MemListener as Attend<MemChannel>>⟧ ⟦<DoorTalk<FramedTalk> as Talk>⟧
        ⟦<PolledClients<DoorTalk<FramedTalk>, MemChannel, MemListener, DoorTalks<'a, FrameTalks>> as ServedClients<DoorTalk<FramedTalk>>>⟧
        ⟦<DoorTalk<PostgresTalk> as Talk>⟧
        ⟦<PolledClients<DoorTalk<PostgresTalk>, MemChannel, MemListener, DoorTalks<'a, PostgresTalks>> as ServedClients<DoorTalk<PostgresTalk>>>⟧
        ⟦<PasswordTalk<FramedTalk> as Talk>⟧
        ⟦<PolledClients<PasswordTalk<FramedTalk>, MemChannel, MemListener, PasswordTalks<'a, FrameTalks, ZeroDraw>> as ServedClients<PasswordTalk<FramedTalk>>>⟧
        ⟦<PostgresLoginTalk<PostgresTalk> as Talk>⟧
        ⟦<PolledClients<PostgresLoginTalk<PostgresTalk>, MemChannel, MemListener, PostgresLogins<'a, PostgresTalks, ZeroDraw>> as ServedClients<PostgresLoginTalk<PostgresTalk>>>⟧
        ⟦<EntryTalk<SomeTalk> as Talk>⟧
        ⟦<PolledClients<EntryTalk<SomeTalk>, MemChannel, MemListener, SeveralTalks<'a, ZeroDraw>> as ServedClients<EntryTalk<SomeTalk>>>⟧
        E.contents ⟦<ZeroDraw as Draw>⟧.draws X.Reads ⟦<MemListener as Listen>⟧.listening
        system_state (system_state system.old) order.now out err (system_state system.new) result }
{
    carry_out(system, alloc, handler, order, out, err)
}
