//! Laws of conversations, and of what was done for clients.

ghost use Rattle.std.specs.Prelude.{◌≡◌, ◌⊎◌, ◌++◌, ℕ, List, ◌∷◌, None, true};
ghost use Rattle.talks.specs.Wants.{Learnt};
ghost use Rattle.talks.specs.Conversations.{Heard};
ghost use Rattle.talks.specs.Turns.{Turn, Exchange, steps, TakesTurns, OpenedIn, HolderWasLetGo, WasCutOff, AreOfClients, ServesSomebody};

use crate::clients::ServedClients;
use crate::machine::Machine;
use crate::talk::Talk;

/// What is heard of some bytes is heard of them with any bytes behind them, and then goes on: so the
/// pieces in which bytes come make no difference.
pub fn pieces_make_no_difference<T: Talk>()
    ensures more { (t u : T) (bytes said rest more : List ℕ) (xs : List Learnt)
        → Heard T.Talk t bytes xs said rest u → Heard T.Talk t (bytes ++ more) xs said (rest ++ more) u }
    ensures on { (t u v : T) (bytes said rest piece also left : List ℕ) (xs ys : List Learnt)
        → Heard T.Talk t bytes xs said rest u → Heard T.Talk u (rest ++ piece) ys also left v
        → Heard T.Talk t (bytes ++ piece) (xs ++ ys) (said ++ also) left v }
{}

/// Each session that a client has after some turns, and had not before them, was opened in one of them,
/// by a step of the machine as it stood then, which that client's conversation wanted. It was not there
/// before that step, which was answered as one that opened it, and has been open since.
pub fn sessions_are_opened<M: Machine, T: Talk, C: ServedClients<T>>()
    ensures { (old : M) (before : C) (turns : List Turn) (new : M) (after : C) → M.IsSound old
        → (took : TakesTurns M.Machine T.Talk C.ServedClients old before turns new after) (c n : ℕ) (login : List ℕ)
        → (M.Has old c n login → ⊥) → M.Has new c n login
        → OpenedIn M.Machine T.Talk C.ServedClients old before turns new after took c n login }
{}

/// A client that was let go since it held the writer lock had been cut off, which is done only where that
/// is limited. It held the lock then, and after each turn since a step of another was held back or refused
/// for it, but for turns that only end sessions which others left open.
pub fn holders_are_cut_off<M: Machine, T: Talk, C: ServedClients<T>>()
    ensures { (old : M) (before : C) (turns : List Turn) (new : M) (after : C)
        → (C.contention before).holder ≡ None → (C.contention before).cut_off ≡ None
        → (took : TakesTurns M.Machine T.Talk C.ServedClients old before turns new after) (c : ℕ)
        → HolderWasLetGo c turns
        → ((C.contention before).is_limited ≡ true)
        × WasCutOff M.Machine T.Talk C.ServedClients ⊥ c old before turns new after took }
{}

/// Each session that is open is of a client that is there, in every course of turns in which that was so
/// at first, as it is where no session is open. A machine that has stopped keeps sessions.
pub fn sessions_are_of_clients_there<M: Machine, T: Talk, C: ServedClients<T>>()
    ensures { (old : M) (before : C) (turns : List Turn) (new : M) (after : C) → M.IsSound old
        → TakesTurns M.Machine T.Talk C.ServedClients old before turns new after
        → AreOfClients M.Machine T.Talk C.ServedClients old before
        → AreOfClients M.Machine T.Talk C.ServedClients new after }
{}

/// No session outlives its role: of a role that a step has dropped, each session that is open once anybody
/// was served after that step was opened since, as `sessions_are_opened` says it, or the machine has stopped.
pub fn no_session_outlives_its_role<M: Machine, T: Talk, C: ServedClients<T>>()
    ensures { (old : M) (before : C) (d : Exchange) (ds : List Exchange) (turns : List Turn) (new : M)
        (after : C) (role : List ℕ) → M.IsSound old
        → AreOfClients M.Machine T.Talk C.ServedClients old before
        → (took : TakesTurns M.Machine T.Talk C.ServedClients old before (steps d ds ∷ turns) new after)
        → (M.LacksRole old role → ⊥) → M.LacksRole took.1 role → ServesSomebody turns
        → (c n : ℕ) → M.Has new c n role → (M.stopped new ≡ true)
        ⊎ OpenedIn M.Machine T.Talk C.ServedClients took.1 took.2 turns new after took.6 c n role }
{}
