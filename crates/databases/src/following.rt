//! Lives that follow each other, each stopped at any moment.

ghost use Rattle.std.specs.Prelude.{List};
ghost use Rattle.abstract_database.specs.Runs.{Standing};
ghost use Rattle.databases.specs.Lives.{LeavesFound};
ghost use Rattle.databases.specs.OnDevice.{records_on};
ghost use Rattle.databases.specs.Following.{Life, ArePromised, AreStopped, GoOn};

use sector_device::Device;
use server::decide::EventHandler;

/// Runs, stops and openings follow each other without end, and a stop may come at any moment: while a
/// life opens its database, between two events, within one, or after all that it did. Where the first
/// device holds what some server may leave, and each later one what the stop of the life before it may
/// have left, each life is over the database after the events that were done then, or over the one that
/// the event under way would bring, and over no other.
pub fn lives_follow_stops<D: Device, X: EventHandler>(first: &D)
    ensures { (lives : List (Life D)) (s : Standing) → LeavesFound s (records_on (D.state first.now))
        → ArePromised D.Device X X.Reads lives
        → AreStopped D.state (records_on (D.state first.now)).left lives
        → GoOn D.Device X X.Reads s lives }
{}
