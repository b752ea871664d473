//! Runs over a device that follow each other, each stopped at any moment.

ghost use Rattle.std.specs.Prelude.{◌≡◌, ◌≤◌, ℕ, List, Option, Some, take};
ghost use Rattle.sector_device.specs.Device.{Image, IsLeft};
ghost use Rattle.sector_device.specs.History.{MayLeave};
ghost use Rattle.sector_device.specs.HistoryDevice.{calls_of, history_device_state};
ghost use Rattle.store.specs.Store.{Contents};
ghost use Rattle.wire.specs.Telling.{Told};
ghost use Rattle.abstract_database.specs.Runs.{Standing};
ghost use Rattle.databases.specs.Lives.{LeavesFound};
ghost use Rattle.databases.specs.OnDevice.{records_on};
ghost use Rattle.databases.specs.Stopping.{StopsAt, IsDoneAt, is_left_by};
ghost use Rattle.databases.specs.Answered.{Answered, IsLived};
ghost use Rattle.databases.specs.DeviceFollowing.{Run, AreStopped, GoOn, IsAnsweredIn};
ghost use Rattle.databases.specs.Told.{IsTold, IsToldToClient, IsOwnAnswer};
ghost use Rattle.databases.specs.declared.database.Opened.{Opened};
ghost use Rattle.databases.specs.Openings.{IsOpenedOn};
ghost use Rattle.databases.specs.Clients.{IsOfTurns};
ghost use Rattle.databases.specs.Runs.{ServesClientsFrom};
ghost use Rattle.talks.specs.declared.serving.ServeEnd.{ServeEnd};
ghost use Rattle.journal_store.specs.DeviceStores.{store_state};

use sector_device::{Device, HistoryDevice};
use server::decide::EventHandler;
use talks::clients::ServedClients;
use talks::talk::Talk;
use wire::listen::Listen;
use wire::text_sink::TakesText;

/// Scripts that are run, and connections and many clients that are served over the databases of
/// devices, are lives that follow each other without end, in any order, and so are openings that
/// migrate or are refused. A stop may come at any moment of each, as in `lives_follow_stops`: where
/// the first device holds what some server may leave, and each later one what the stop of the run
/// before it may have left, each run is over the database after the events that were done then, or
/// over the one that the event under way would bring, and over no other.
pub fn runs_follow_stops<
    D: Device,
    X: EventHandler,
    K: TakesText,
    L: Listen,
    T: Talk,
    C: ServedClients<T>,
>(first: &D)
    ensures { (runs : List (Run D.Device X K.Sink L.Sink.Sink T.Talk C.ServedClients X.Reads)) (s : Standing)
        → LeavesFound s (records_on (D.state first.now))
        → AreStopped (records_on (D.state first.now)).left runs → GoOn s runs }
{}

/// What was told is there afterwards: an answer that a script, a connection or one of many clients was
/// told at a moment up to the stop of the run is of an event that was done then, so that the next run
/// goes on from what the event led to.
pub fn told_answers_stay<
    D: Device,
    X: EventHandler,
    K: TakesText,
    L: Listen,
    T: Talk,
    C: ServedClients<T>,
>()
    ensures { (run : Run D.Device X K.Sink L.Sink.Sink T.Talk C.ServedClients X.Reads) (last : Standing) (it : Answered)
        (answered : IsAnsweredIn run.did it)
        (life : IsLived X.Reads last it (D.state run.begin) (D.state run.end))
        (stop : ℕ) (next : Standing) → StopsAt last life.0 (Some stop) next
        → (place : ℕ) (t : Told) → IsTold run.did it answered place t
        → t.moment ≤ stop → IsDoneAt life.0 stop place next }
{}

/// Where clients were served, each was told the answers to its own events: at the place of what it was
/// told, among all that was answered in the run, stand an event of that client and that answer.
pub fn clients_are_told_their_own<D: Device, X: EventHandler, T: Talk, C: ServedClients<T>>()
    ensures { (begin left : D) (opened : Opened D X D.Device) → IsOpenedOn (D.state begin) opened
        → (before : C) (end : ServeEnd) (after : C)
        (serves : ServesClientsFrom D.Device T.Talk C.ServedClients X.Reads opened.server before end left after)
        (it : Answered) → IsOfTurns X.Reads store_state T.Talk C.ServedClients serves.first before
        serves.serves.turns serves.last after serves.serves.took it
        → (client place : ℕ) (told : Told) → IsToldToClient X.Reads store_state T.Talk C.ServedClients
        serves.first before serves.serves.turns serves.last after serves.serves.took client place told
        → IsOwnAnswer it client place told.answer }
{}

/// On a device that keeps its history each call may be the last before a stop. Where the next device
/// has only images that may be left after so many calls, the records that it may hold are among what
/// a stop at that moment leaves, as `runs_follow_stops` asks.
pub fn each_call_may_be_the_last(device: &HistoryDevice, next: &HistoryDevice)
    ensures { (stop : ℕ) → stop ≤ (history_device_state device.now).moment
        → (history_device_state next.now).sectors ≡ (history_device_state device.now).sectors
        → ((image : Image) → IsLeft (history_device_state next.now) image
        → MayLeave (history_device_state device.now).sectors
        (take stop (calls_of device.now)) image)
        → (x : Option Contents) → (records_on (history_device_state next.now)).left x
        → is_left_by (Some stop) (records_on (history_device_state device.now)) x }
{}
