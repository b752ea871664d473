//! Laws of turns and steps: the order of what was done for clients is an order of the server's events.

ghost use Rattle.std.specs.Prelude.{◌≡◌, ℕ, List};
ghost use Rattle.abstract_database.specs.Runs.{At, RanBy, Happens};
ghost use Rattle.server.specs.declared.server.Server.{Server};
ghost use Rattle.server.specs.Standing.{Represents, stops_of};
ghost use Rattle.talks.specs.Turns.{Turn, Exchange, TakesTurns};
ghost use Rattle.served_machine.specs.declared.machine.ServedMachine.{ServedMachine};
ghost use Rattle.served_machine.specs.Machines.{machine_of};
ghost use Rattle.served_clients.specs.Taken.{Taken, TakesEach, RunsEach, RanEach, events_taken, answers_taken};
ghost use Rattle.served_clients.specs.Spelled.{of_turns};
ghost use Rattle.served_clients.specs.Told.{IsTold, IsPlacedAt};

use server::decide::EventHandler;
use store::Store;
use talks::clients::ServedClients;
use talks::talk::Talk;

/// Turns that were taken for clients are steps of the server, one after the other: each step that a
/// client wanted is one event of it, unless the opening of a session was refused before the server was
/// asked, and so is each end of a session that a client has left open. A look-up is events of the
/// client of look-ups. Nothing else was done to it.
pub fn turns_are_steps<S: Store, X: EventHandler, T: Talk, C: ServedClients<T>>()
    ensures { (old : ServedMachine S X) (before : C) (turns : List Turn) (new : ServedMachine S X) (after : C)
        (took : TakesTurns (machine_of X.Reads S.state) T.Talk C.ServedClients old before turns new after)
        → TakesEach X.Reads S.state old.server
        (of_turns X.Reads S.state T.Talk C.ServedClients old before turns new after took) new.server }
{}

/// Steps of a server on events of many clients are a run of the session machine from where it stands,
/// and the moment of each answer is the one at which the store's clock stood after the step. So a stop
/// leaves during each what the event says, and after it what was committed.
pub fn steps_of_clients_run<S: Store, X: EventHandler>()
    ensures moments { (first last : Server S X) (ts : List Taken) (w : At)
        → TakesEach X.Reads S.state first ts last
        → (S.state first.store).sound → Represents S.state first w
        → RunsEach X.Reads S.state first w ts last }
    ensures events { (first last : Server S X) (ts : List Taken) (w end : At)
        → RanEach X.Reads (stops_of (S.state last.store).time) w ts end
        → RanBy (Happens X.Reads (stops_of (S.state last.store).time)) w (events_taken ts) (answers_taken ts) end }
{}

/// What a client was told of a step stands among the answers of the server, at its place, and was
/// answered by the moment at which the client was told.
pub fn told_answers_have_places<S: Store, X: EventHandler, T: Talk, C: ServedClients<T>>()
    ensures { (old : ServedMachine S X) (before : C) (turns : List Turn) (new : ServedMachine S X) (after : C) (w : At)
        (took : TakesTurns (machine_of X.Reads S.state) T.Talk C.ServedClients old before turns new after)
        → (S.state old.server.store).sound → Represents S.state old.server w
        → (told : Exchange) (moment place : ℕ)
        → IsTold X.Reads S.state T.Talk C.ServedClients old before turns new after took told moment place
        → IsPlacedAt (of_turns X.Reads S.state T.Talk C.ServedClients old before turns new after took) told moment place }
{}
