//! Laws of moments and stops: which events are done, and what a stop within one may leave.

ghost use Rattle.std.specs.Prelude.{◌≡◌, ◌≤◌, ◌<◌, ℕ, List, Some, length, slice_get};
ghost use Rattle.sql_types.specs.declared.answer.Answer.{Answer};
ghost use Rattle.sector_device.specs.HistoryDevice.{history_device_state};
ghost use Rattle.abstract_database.specs.Machine.{Event as MachineEvent};
ghost use Rattle.abstract_database.specs.Runs.{Standing, At, TheText};
ghost use Rattle.server.specs.declared.server.Server.{Server};
ghost use Rattle.server.specs.Standing.{Represents};
ghost use Rattle.databases.specs.Lives.{ClientEvent, StepsAt, RunsAt};
ghost use Rattle.databases.specs.OnDevice.{records_on, IsLifeOn};
ghost use Rattle.databases.specs.Stopping.{StopsAt, StopsIn, IsDoneAt, Changes, LeavesOneAtEach};
ghost use Rattle.databases.specs.Following.{Life};

use sector_device::{Device, HistoryDevice};
use server::decide::EventHandler;
use store::Store;
use stored_database::one_database;

/// Steps of a server from where it stands are a run of the session machine, and the moment of each
/// answer is the one at which the store's clock stood after the step.
pub fn steps_run_at_moments<S: Store, X: EventHandler>()
    ensures { (first last : Server S X) (events : List ClientEvent) (told : List Answer)
        (moments : List ℕ) (w : At) → StepsAt X.Reads S.state first events told moments last
        → (S.state first.store).sound → Represents S.state first w
        → RunsAt X.Reads S.state first w events told moments last }
{}

/// An answer that was told at a moment up to the stop is of an event that was done then: the next
/// life goes on from what the event led to. An answer that was told after it is of one that was not.
pub fn told_answers_are_done<D: Device, X: EventHandler>()
    ensures done { (last : Standing) (life : Life D) (told : List Answer) (moments : List ℕ)
        (is : IsLifeOn X.Reads last life.events told moments
        (D.state life.begin) (D.state life.end)) (stop : ℕ) (next : Standing)
        → StopsAt last is.0 (Some stop) next
        → (index moment : ℕ) → slice_get moments index ≡ Some moment
        → moment ≤ stop → IsDoneAt is.0 stop index next }
    ensures others { (last : Standing) (life : Life D) (told : List Answer) (moments : List ℕ)
        (is : IsLifeOn X.Reads last life.events told moments
        (D.state life.begin) (D.state life.end)) (stop : ℕ) (next : Standing)
        (stops : StopsIn X.Reads (records_on (D.state life.end)) is.0.begin stop
        life.events told moments next)
        → (index moment : ℕ) → slice_get moments index ≡ Some moment
        → stop < moment → length stops.done ≤ index }
{}

/// On a device that keeps its history, a stop within an event may leave either: where another
/// database is committed after the event than before it, it cannot be that a stop leaves but one of
/// them at each moment between. So a life that such a stop ends has two next lives that may be.
pub fn either_may_be_left<X: EventHandler>(device: &HistoryDevice)
    ensures { (w next : At) (event : MachineEvent TheText) (answer : Answer)
        → Changes X.Reads (records_on (history_device_state device.now)) w event answer next
        → LeavesOneAtEach (records_on (history_device_state device.now)) w next → ⊥ }
{
    // For the proof: records stand for one database.
    one_database();
}
