//! Laws of a server that many clients talk to.

ghost use Rattle.std.specs.Prelude.{◌≡◌, ◌⊎◌, ℕ, List, ◌∷◌, true};
ghost use Rattle.sql_ast.specs.declared.description.StatementDescription.{StatementDescription};
ghost use Rattle.abstract_database.specs.Descriptions.{description, IsDescription};
ghost use Rattle.abstract_database.specs.Machine.{Machine, Reading};
ghost use Rattle.abstract_database.specs.Runs.{TheText};
ghost use Rattle.abstract_database.specs.Lists.{TheName};
ghost use Rattle.talks.specs.Turns.{Turn, Exchange, steps, TakesTurns, ServesSomebody, OpenedIn, AreOfClients};
ghost use Rattle.served_machine.specs.declared.machine.ServedMachine.{ServedMachine};
ghost use Rattle.served_machine.specs.Sessions.{HasOwnSession, IsSoundServer};
ghost use Rattle.served_machine.specs.Roles.{IsCommittedRole, IsNoCommittedRole};
ghost use Rattle.served_machine.specs.Machines.{machine_of};
ghost use Rattle.served_machine.specs.Admitted.{AdmittedIn};
ghost use Rattle.served_machine.specs.RowsApart.{AgreeButForRows};

use server::decide::EventHandler;
use store::Store;
use talks::clients::ServedClients;
use talks::talk::Talk;

/// Each session that a client has after some turns, and had not before them, was opened in one of them,
/// by a step that its own client's conversation wanted, for the role that it is of, whose place admitted
/// that role where the server stood. It was not there before that step, which was answered as one that
/// opened it, and has been open since.
pub fn sessions_are_admitted<S: Store, X: EventHandler, T: Talk, C: ServedClients<T>>()
    ensures { (old : ServedMachine S X) (before : C) (turns : List Turn) (new : ServedMachine S X)
        (after : C) → IsSoundServer S.state old.server
        → (took : TakesTurns (machine_of X.Reads S.state) T.Talk C.ServedClients old before turns new after)
        (c n : ℕ) (login : List ℕ) → (HasOwnSession S.state old.server c n login → ⊥)
        → HasOwnSession S.state new.server c n login
        → AdmittedIn X.Reads S.state T.Talk C.ServedClients old before turns new after took c n login }
{}

/// No session outlives its role: where a step has dropped a role of the committed database, each session
/// for that role that is open once anybody was served after that step was opened since, as `sessions_are_opened`
/// of `talks` says it, or the server has stopped.
/// This is said of courses in which each session was of a client that was there, as where none is open.
pub fn no_session_outlives_its_role<S: Store, X: EventHandler, T: Talk, C: ServedClients<T>>()
    ensures { (old : ServedMachine S X) (before : C) (d : Exchange) (ds : List Exchange)
        (turns : List Turn) (new : ServedMachine S X) (after : C) (role : TheName)
        → IsSoundServer S.state old.server
        → AreOfClients (machine_of X.Reads S.state) T.Talk C.ServedClients old before
        → (took : TakesTurns (machine_of X.Reads S.state) T.Talk C.ServedClients old before (steps d ds ∷ turns) new after)
        → IsCommittedRole S.state old.server role → IsNoCommittedRole S.state took.1.server role → ServesSomebody turns
        → (c n : ℕ) → HasOwnSession S.state new.server c n role → (new.server.stopped ≡ true)
        ⊎ OpenedIn (machine_of X.Reads S.state) T.Talk C.ServedClients took.1 took.2 turns new after took.6 c n role }
{}

/// What is told of a text depends on no row: two machines tell the same where they agree in whether they
/// have stopped, in the session that asks, and in all but the rows of the databases that it sees.
pub fn descriptions_depend_on_no_row<X: EventHandler>()
    ensures same { (number : ℕ) (m k : Machine) → AgreeButForRows number m k
        → (reading : Reading) → description m number reading ≡ description k number reading }
    ensures told { (number : ℕ) (m k : Machine) → AgreeButForRows number m k
        → (text : TheText) (d : StatementDescription)
        → IsDescription X.Reads m number text d → IsDescription X.Reads k number text d }
{}
