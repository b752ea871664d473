//! Laws of commands over a device that follow each other, each stopped at any moment.

ghost use Rattle.std.specs.Prelude.{List};
ghost use Rattle.abstract_database.specs.Database.{Database};
ghost use Rattle.abstract_database.specs.Runs.{Standing, IsFoundAt};
ghost use Rattle.databases.specs.Lives.{LeavesFound};
ghost use Rattle.databases.specs.OnDevice.{records_on};
ghost use Rattle.durability_laws.specs.Commands.{StoppedCommand, AreStoppedInTurn, LeadTo, ComeTo, AllAnsweredNothing};

use sector_device::Device;
use server::decide::EventHandler;
use stored_database::one_database;
use talks::clients::ServedClients;
use talks::talk::Talk;
use wire::listen::Listen;
use wire::text_sink::TakesText;

/// Commands over the database of a device follow each other without end, in any order. Scripts are run,
/// connections and clients are served, and openings are refused, as in `runs_follow_stops` of `databases`.
/// And the database is checked, read or copied, or its journal is turned on or off. A stop may come at any
/// moment of each. Where the first device holds what some server may leave, and each later one what the
/// stop of the command before it may have left, each command goes on from where the one before it was
/// stopped. What an opening finds then is the database after all that was answered, or after this and
/// the event that was under way.
pub fn commands_follow_stops<
    D: Device,
    X: EventHandler,
    K: TakesText,
    L: Listen,
    T: Talk,
    C: ServedClients<T>,
>(first: &D)
    ensures { (commands : List (StoppedCommand D.Device X K.Sink L.Sink.Sink T.Talk C.ServedClients X.Reads))
        (here : Standing) → LeavesFound here (records_on (D.state first.now))
        → AreStoppedInTurn (records_on (D.state first.now)).left commands
        → ComeTo here (records_on (D.state first.now)).left commands }
{
    // For the proof: records stand for one database.
    one_database();
}

/// Checks, readings, copies, journals that are turned on or off, and openings that are refused bring
/// nothing, in any order and however they are stopped: what is found after them might have been found
/// before.
pub fn eventless_commands_bring_nothing<
    D: Device,
    X: EventHandler,
    K: TakesText,
    L: Listen,
    T: Talk,
    C: ServedClients<T>,
>()
    ensures { (commands : List (StoppedCommand D.Device X K.Sink L.Sink.Sink T.Talk C.ServedClients X.Reads))
        (here next : Standing) → AllAnsweredNothing commands → LeadTo here commands next
        → (db : Database) → IsFoundAt next db → IsFoundAt here db }
{}
