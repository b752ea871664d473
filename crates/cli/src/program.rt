//! What the program does for a command: its output, its messages and its exit status.

ghost use Rattle.std.specs.Prelude.{◌≡◌};
ghost use Rattle.cli.specs.OpenPlaces.{open_lines};
ghost use Rattle.cli.specs.Program.{Checks, DoesFormat, Formats, IsAnswered, IsPerformed, Serves, ServesMany, ServesManyAt, ServesManyBy, ServesPlaces};

use crate::client_talks::{
    DoorTalks, FrameTalks, FramedTalk, PasswordDoor, PasswordTalks, PostgresLogins, PostgresTalks,
    Speaker,
};
use crate::command::{Invocation, UsageFault, is_name};
use crate::command_name::CommandName;
use crate::copy_command::copy;
use crate::describing::describe;
use crate::dump_commands::{dump, restore};
use crate::ending::{Ending, Exit, Subject, exit_after, exit_with};
use crate::explain_command::explain_statement;
use crate::fault::CommandFault;
use crate::file_restores::check_as_dump;
use crate::format::format_file;
use crate::journal_command::switch;
use crate::opened::CommandEnd;
use crate::password_command::make_verifier;
use crate::places_bound::{bound_places, by_itself, each_of};
use crate::printing::{print_for, print_text};
use crate::run::check_file;
use crate::runs::{run_over_file, run_read_in_memory};
use crate::serve::{Limits, serve_file};
use crate::serve_clients::{ManyClients, serve_clients_file};
use crate::served_place::{NamedPlace, PlaceDoor, Protocol, ServedPlace};
use crate::server_ends::{end_of_server, outcome_of_clients, place_told, subject_of_server};
use crate::several_talks::{SeveralTalks, SomeTalk};
use crate::texts::{HELP, VERSION};
use crate::usage::report_usage;
use channels::attend::Attend;
use doors::door_talk::DoorTalk;
use doors::entry_talk::EntryTalk;
use password_talks::password_talk::PasswordTalk;
use polled_clients::clients::{PolledClients, TalkMaker};
use postgres_logins::postgres_login_talk::PostgresLoginTalk;
use postgres_talks::postgres_talk::PostgresTalk;
use sector_device::Device;
use server::decide::EventHandler;
use sql_types::name::Name;
use std::alloc::Global;
use std::io::Write;
use std::time::Duration;
use systems::{ListenPlace, SocketAccess, System};
use talks::clients::ServedClients;
use talks::talk::Talk;
use wire::listen::Listen;
use wire::sink::Sink;
use wire::text_sink::TakesText;

/// What `format` prints where it has made a database.
const FORMATTED: &str = "ok FORMAT\n";

/// What `check` prints where a database is whole.
const CHECKED: &str = "ok CHECK\n";

/// Does what a command asks for, with a server whose events `handler` decides, and answers the exit
/// status: 0 where it was done; 1 after a fault, which is named on `err`, and after the server
/// stopped; 2 after an invalid line of the script, whose number is on `err`. After the name of a
/// fault `err` is told which file or place it is about, and why it came.
///
/// Where `out` fails, the fault is `Output`. A database that `format` made stays then, whole: it is
/// made before `out` is told. Of a script that is run over a file, the answers that `out` took were
/// given, and no line after them is run.
///
/// A script is read before the file of a database is opened, and that before a port or a socket is
/// bound: so the first of them that fails is the one that is named. Where the file was of format 1
/// and is of format 2 now, `err` is told so once it is opened; that `err` does not take this line is
/// no fault. `serve` also tells on `err` where it listens, and how it ended.
///
/// `copy` writes nothing to the file either, and a copy is there only once it is whole. A copy that was
/// made stays where `out` fails, and where it is not given the journal that was asked for.
///
/// `dump` writes nothing to the file, and a dump is there only once it is whole; so is the database that `restore` makes.
///
/// `journal` gives a database a journal or takes it away, and the database stays the same at every
/// moment. A file of format 1 cannot have one: the fault is `FirstFormat`.
///
/// `password` opens no file: it reads standard input, and prints a verifier of a password. Where none stands there the fault is
/// `NoPassword` or `ManyLines`.
///
/// `describe` writes nothing to the file. Where the database has no role of the name that is asked
/// for, the fault is `NoRole`, and of a table `Statement`. With `--since` it reads the old file first, and the
/// exit status is 3 where there is a difference. So it is of `explain`, which writes nothing either; where the statement is
/// refused before it reads a row, or is none over rows, the fault is `Statement`.
///
/// A script is run without a word on its refusals, whatever is asked for: `explain` tells of them.
///
/// On a system that is faithful, the script and the database are those that the words name, and the
/// connections are those that come to the place. However it ends, a file that was opened is closed
/// and there as it was left, a place that was bound is given up, and nothing else of the system has
/// changed.
pub fn perform<'a, Y: System, X: EventHandler + Drop, K: TakesText, E: Write>(
    system: &mut Y,
    alloc: Global,
    handler: X,
    order: &Invocation<'a>,
    out: &mut K,
    err: &mut E,
) -> Exit
    ensures { IsPerformed X Y.Device.Device K.Sink Y.Listener.Sink.Sink Y.Listener.Attend
        ⟦<DoorTalk<FramedTalk> as Talk>⟧
        ⟦<PolledClients<DoorTalk<FramedTalk>, Y::Channel, Y::Listener, DoorTalks<'a, FrameTalks>> as ServedClients<DoorTalk<FramedTalk>>>⟧
        ⟦<DoorTalk<PostgresTalk> as Talk>⟧
        ⟦<PolledClients<DoorTalk<PostgresTalk>, Y::Channel, Y::Listener, DoorTalks<'a, PostgresTalks>> as ServedClients<DoorTalk<PostgresTalk>>>⟧
        ⟦<PasswordTalk<FramedTalk> as Talk>⟧
        ⟦<PolledClients<PasswordTalk<FramedTalk>, Y::Channel, Y::Listener, PasswordTalks<'a, FrameTalks, Y::Draw>> as ServedClients<PasswordTalk<FramedTalk>>>⟧
        ⟦<PostgresLoginTalk<PostgresTalk> as Talk>⟧
        ⟦<PolledClients<PostgresLoginTalk<PostgresTalk>, Y::Channel, Y::Listener, PostgresLogins<'a, PostgresTalks, Y::Draw>> as ServedClients<PostgresLoginTalk<PostgresTalk>>>⟧
        ⟦<EntryTalk<SomeTalk> as Talk>⟧
        ⟦<PolledClients<EntryTalk<SomeTalk>, Y::Channel, Y::Listener, SeveralTalks<'a, Y::Draw>> as ServedClients<EntryTalk<SomeTalk>>>⟧
        Y.Draw.draws X.Reads Y.Listener.listening Y.state (Y.state system.old) order.now result (Y.state system.new) out.old out.new
        (E.contents err.old) (E.contents err.new) }
{
    match order {
        Invocation::Format {
            file,
            pages,
            admin,
            journal,
        } => format_for(system, alloc, *file, *pages, *admin, *journal, out, err),
        Invocation::Copy {
            file,
            new,
            pages,
            journal,
        } => copy(system, alloc, *file, *new, *pages, *journal, out, err),
        Invocation::Dump { file, out: new } => dump(system, alloc, *file, *new, out, err),
        Invocation::Restore {
            dump,
            new,
            pages,
            journal,
        } => restore(system, alloc, *dump, *new, *pages, *journal, out, err),
        Invocation::Journal { file, on } => switch(system, alloc, *file, *on, out, err),
        Invocation::Password { whose } => make_verifier(system, alloc, *whose, out, err),
        Invocation::Run {
            file,
            script,
            on_refusal: _,
        } => run_over_file(system, alloc, handler, *file, *script, out, err),
        Invocation::RunMemory {
            admin,
            script,
            on_refusal: _,
        } => run_read_in_memory(system, alloc, handler, *admin, *script, out, err),
        Invocation::Serve {
            file,
            port,
            connections,
            idle,
        } => serve(
            system,
            alloc,
            handler,
            *file,
            ListenPlace::Port(*port),
            limits(*connections, *idle),
            err,
        ),
        Invocation::ServeSocket {
            file,
            socket,
            connections,
            idle,
        } => serve(
            system,
            alloc,
            handler,
            *file,
            ListenPlace::Socket(*socket),
            limits(*connections, *idle),
            err,
        ),
        Invocation::ServeClients { file, place, many } => {
            serve_at(system, alloc, handler, *file, *place, *many, err)
        }
        Invocation::ServePlaces { file, places, many } => {
            serve_places(system, alloc, handler, *file, places.as_slice(), *many, err)
        }
        Invocation::Check { file } => check(system, alloc, handler, *file, out, err),
        Invocation::Describe { file, asked, json } => {
            describe(system, alloc, *file, *asked, *json, out, err)
        }
        Invocation::Explain { file, asked } => {
            explain_statement(system, alloc, *file, *asked, out, err)
        }
        Invocation::Help => print_for(HELP, out, err),
        Invocation::Version => print_for(VERSION, out, err),
    }
}

// Makes a database in a new file, whose one role is the superuser `admin`, with a journal or without. A
// name that no role can have is a fault of usage, and no file is made.
fn format_for<Y: System, K: TakesText, E: Write>(
    system: &mut Y,
    alloc: Global,
    file: &str,
    pages: u32,
    admin: &str,
    journal: bool,
    out: &mut K,
    err: &mut E,
) -> Exit
    ensures { DoesFormat Y.Device.Device K.Sink (Y.state system.old) (Subject.Named file.entry)
        file.now pages admin.now journal result (Y.state system.new) out.old out.new
        (E.contents err.old) (E.contents err.new) }
{
    if !is_name(admin) {
        return report_usage(UsageFault::Name(admin), Some(CommandName::Format), err);
    }
    let about = Subject::Named(file);
    let Ok(Some(admin)) = Name::from_str(alloc, admin) else {
        return exit_with(Ending::Fault(CommandFault::Memory), about, err);
    };
    exit_with(
        format(system, alloc, file, pages, &admin, journal, out),
        about,
        err,
    )
}

// Makes a database in a new file, and says so.
fn format<Y: System, K: TakesText>(
    system: &mut Y,
    alloc: Global,
    file: &str,
    pages: u32,
    admin: &Name,
    journal: bool,
    out: &mut K,
) -> Ending
    ensures { Formats Y.Device.Device (Y.state system.old) file.now pages admin.now journal
        (K.held out.old) result (Y.state system.new) (K.held out.new) }
{
    let formatted = format_file(system, alloc, file, pages, admin, journal);
    answer(formatted, FORMATTED, out)
}

// Checks the database or the dump in a file, and says that it is whole.
fn check<Y: System, X: EventHandler + Drop, K: TakesText, E: Write>(
    system: &mut Y,
    alloc: Global,
    handler: X,
    file: &str,
    out: &mut K,
    err: &mut E,
) -> Exit
    ensures { Checks X Y.Device.Device Y.state (Y.state system.old) (Subject.Named file.entry) file.now
        result (Y.state system.new) (K.held out.old) (K.held out.new) (E.contents err.old)
        (E.contents err.new) }
{
    let CommandEnd { outcome, told } = check_file(system, alloc, handler, file, err);
    let outcome = check_as_dump(system, alloc, file, outcome);
    let ending = answer(outcome, CHECKED, out);
    exit_after(told, ending, Subject::Named(file), err)
}

// Writes the text that says that a command over a file was carried out, or answers its fault.
fn answer<K: TakesText>(outcome: Result<(), CommandFault>, text: &str, out: &mut K) -> Ending
    ensures { IsAnswered outcome text.now (K.held out.old) result (K.held out.new) }
{
    match outcome {
        Ok(()) => print_text(text, out),
        Err(fault) => Ending::Fault(fault),
    }
}

// Serves connections at a place over the database in a file, and tells how that ended.
fn serve<Y: System, X: EventHandler + Drop, E: Write>(
    system: &mut Y,
    alloc: Global,
    handler: X,
    file: &str,
    place: ListenPlace<'_>,
    limits: Limits,
    err: &mut E,
) -> Exit
    ensures { Serves X Y.Device.Device Y.Listener.Sink.Sink X.Reads Y.Listener.listening
        (Y.state system.old) (Subject.Named file.entry) file.now place.entry limits.connections
        result (Y.state system.new) (E.contents err.old) (E.contents err.new) }
{
    let CommandEnd { outcome, told } = serve_file(system, alloc, handler, file, place, limits, err);
    let about = subject_of_server(outcome, file, place);
    exit_after(told, end_of_server(outcome), about, err)
}

// Serves many clients at once at a place, each by the protocol of that, over the database in a file, and
// tells how that ended.
fn serve_at<'a, Y: System, X: EventHandler + Drop, E: Write>(
    system: &mut Y,
    alloc: Global,
    handler: X,
    file: &str,
    place: ServedPlace<'a>,
    many: ManyClients,
    err: &mut E,
) -> Exit
    ensures { ServesManyAt X Y.Device.Device Y.Listener.Attend ⟦<DoorTalk<FramedTalk> as Talk>⟧
        ⟦<PolledClients<DoorTalk<FramedTalk>, Y::Channel, Y::Listener, DoorTalks<'a, FrameTalks>> as ServedClients<DoorTalk<FramedTalk>>>⟧
        ⟦<DoorTalk<PostgresTalk> as Talk>⟧
        ⟦<PolledClients<DoorTalk<PostgresTalk>, Y::Channel, Y::Listener, DoorTalks<'a, PostgresTalks>> as ServedClients<DoorTalk<PostgresTalk>>>⟧
        ⟦<PasswordTalk<FramedTalk> as Talk>⟧
        ⟦<PolledClients<PasswordTalk<FramedTalk>, Y::Channel, Y::Listener, PasswordTalks<'a, FrameTalks, Y::Draw>> as ServedClients<PasswordTalk<FramedTalk>>>⟧
        ⟦<PostgresLoginTalk<PostgresTalk> as Talk>⟧
        ⟦<PolledClients<PostgresLoginTalk<PostgresTalk>, Y::Channel, Y::Listener, PostgresLogins<'a, PostgresTalks, Y::Draw>> as ServedClients<PostgresLoginTalk<PostgresTalk>>>⟧
        Y.Draw.draws X.Reads (Y.state system.old) (Subject.Named file.entry) file.now place.entry many
        result (Y.state system.new) (E.contents err.old) (E.contents err.new) }
{
    match place.protocol {
        Protocol::Frames => serve_in_frames(system, alloc, handler, file, place, many, err),
        Protocol::Postgres => serve_by_postgres(system, alloc, handler, file, place, many, err),
    }
}

// The same in frames, by whom the place lets in.
fn serve_in_frames<'a, Y: System, X: EventHandler + Drop, E: Write>(
    system: &mut Y,
    alloc: Global,
    handler: X,
    file: &str,
    place: ServedPlace<'a>,
    many: ManyClients,
    err: &mut E,
) -> Exit
    ensures { ServesManyBy X Y.Device.Device Y.Listener.Attend ⟦<DoorTalk<FramedTalk> as Talk>⟧
        ⟦<PolledClients<DoorTalk<FramedTalk>, Y::Channel, Y::Listener, DoorTalks<'a, FrameTalks>> as ServedClients<DoorTalk<FramedTalk>>>⟧
        ⟦<PasswordTalk<FramedTalk> as Talk>⟧
        ⟦<PolledClients<PasswordTalk<FramedTalk>, Y::Channel, Y::Listener, PasswordTalks<'a, FrameTalks, Y::Draw>> as ServedClients<PasswordTalk<FramedTalk>>>⟧
        (λ talk. talk.login.place) (λ talk. talk.login.drawn)
        Y.Draw.draws X.Reads (Y.state system.old) (Subject.Named file.entry) file.now place.entry many
        result (Y.state system.new) (E.contents err.old) (E.contents err.new) }
{
    let speaker = FrameTalks::new(alloc, place.tells_open);
    let alone = [by_itself(place)];
    match place.door {
        PlaceDoor::Anyone | PlaceDoor::Only(_) => {
            let maker = DoorTalks::new(alloc, place.door, speaker);
            serve_many(
                system, alloc, handler, file, place, &alone, maker, many, err,
            )
        }
        PlaceDoor::Passwords { table, mock } => {
            let door = PasswordDoor::new(alloc, table, mock, system.drawing());
            let maker = PasswordTalks::new(door, speaker);
            serve_many(
                system, alloc, handler, file, place, &alone, maker, many, err,
            )
        }
    }
}

// The same by PostgreSQL's protocol.
fn serve_by_postgres<'a, Y: System, X: EventHandler + Drop, E: Write>(
    system: &mut Y,
    alloc: Global,
    handler: X,
    file: &str,
    place: ServedPlace<'a>,
    many: ManyClients,
    err: &mut E,
) -> Exit
    ensures { ServesManyBy X Y.Device.Device Y.Listener.Attend ⟦<DoorTalk<PostgresTalk> as Talk>⟧
        ⟦<PolledClients<DoorTalk<PostgresTalk>, Y::Channel, Y::Listener, DoorTalks<'a, PostgresTalks>> as ServedClients<DoorTalk<PostgresTalk>>>⟧
        ⟦<PostgresLoginTalk<PostgresTalk> as Talk>⟧
        ⟦<PolledClients<PostgresLoginTalk<PostgresTalk>, Y::Channel, Y::Listener, PostgresLogins<'a, PostgresTalks, Y::Draw>> as ServedClients<PostgresLoginTalk<PostgresTalk>>>⟧
        (λ talk. talk.login.place) (λ talk. talk.login.drawn)
        Y.Draw.draws X.Reads (Y.state system.old) (Subject.Named file.entry) file.now place.entry many
        result (Y.state system.new) (E.contents err.old) (E.contents err.new) }
{
    let speaker = PostgresTalks::new(alloc);
    let alone = [by_itself(place)];
    match place.door {
        PlaceDoor::Anyone | PlaceDoor::Only(_) => {
            let maker = DoorTalks::new(alloc, place.door, speaker);
            serve_many(
                system, alloc, handler, file, place, &alone, maker, many, err,
            )
        }
        PlaceDoor::Passwords { table, mock } => {
            let door = PasswordDoor::new(alloc, table, mock, system.drawing());
            let maker = PostgresLogins::new(door, speaker);
            serve_many(
                system, alloc, handler, file, place, &alone, maker, many, err,
            )
        }
    }
}

// Serves many clients at once at a place over the database in a file, tells of these places which are open, and
// tells how that ended.
fn serve_many<
    Y: System,
    X: EventHandler + Drop,
    T: Talk + Drop,
    F: TalkMaker<T> + Speaker + Drop,
    E: Write,
>(
    system: &mut Y,
    alloc: Global,
    handler: X,
    file: &str,
    place: ServedPlace<'_>,
    told: &[NamedPlace<'_>],
    maker: F,
    many: ManyClients,
    err: &mut E,
) -> Exit
    ensures { ServesMany X Y.Device.Device Y.Listener.Attend T.Talk
        ⟦<PolledClients<T, Y::Channel, Y::Listener, F> as ServedClients<T>>⟧
        X.Reads (Y.state system.old) (Subject.Named file.entry) file.now place.entry.place (open_lines told.now) (F.makes maker) many
        result (Y.state system.new) (E.contents err.old) (E.contents err.new) }
{
    let end = serve_clients_file(system, alloc, handler, file, place, told, maker, many, err);
    let outcome = outcome_of_clients(end.outcome);
    let told_of = place_told(place.place, system.refused_place());
    let about = subject_of_server(outcome, file, told_of);
    exit_after(end.told, end_of_server(outcome), about, err)
}

// Serves many clients at once at several places, each by the words of the place where it comes, over the
// database in a file, and tells how that ended.
fn serve_places<'a, Y: System, X: EventHandler + Drop, E: Write>(
    system: &mut Y,
    alloc: Global,
    handler: X,
    file: &str,
    places: &[NamedPlace<'a>],
    many: ManyClients,
    err: &mut E,
) -> Exit
    ensures { ServesPlaces X Y.Device.Device Y.Listener.Attend ⟦<EntryTalk<SomeTalk> as Talk>⟧
        ⟦<PolledClients<EntryTalk<SomeTalk>, Y::Channel, Y::Listener, SeveralTalks<'a, Y::Draw>> as ServedClients<EntryTalk<SomeTalk>>>⟧
        Y.Draw.draws X.Reads (Y.state system.old) (Subject.Named file.entry) file.now places.now many
        result (Y.state system.new) (E.contents err.old) (E.contents err.new) }
{
    let about = Subject::Named(file);
    let Ok(bound) = bound_places(alloc, places) else {
        return exit_with(Ending::Fault(CommandFault::Memory), about, err);
    };
    let Ok(named) = Vec::from_slice(alloc, places) else {
        return exit_with(Ending::Fault(CommandFault::Memory), about, err);
    };
    let place = ServedPlace {
        place: each_of(bound.as_slice()),
        protocol: Protocol::Frames,
        door: PlaceDoor::Anyone,
        access: SocketAccess::Owner,
        tells_open: false,
    };
    let maker = SeveralTalks::new(alloc, named, system.drawing());
    serve_many(
        system, alloc, handler, file, place, places, maker, many, err,
    )
}

// So many connections, each of which may be idle for so many seconds.
fn limits(connections: u32, idle: Option<u32>) -> Limits
    ensures { result.connections ≡ connections }
{
    let idle = match idle {
        Some(seconds) => Some(Duration::from_secs(u64::from(seconds))),
        None => None,
    };
    Limits { connections, idle }
}
