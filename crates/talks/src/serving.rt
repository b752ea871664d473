//! Clients, served by a machine.

ghost use Rattle.std.specs.Prelude.{◌≡◌, ◌≢◌, true, false, Option, Some, None, IfSome};
ghost use Rattle.talks.specs.Wants.{WantsStep, WantsQuestion, TellsWhether};
ghost use Rattle.talks.specs.Conversations.{wanted, ending};
ghost use Rattle.talks.specs.Clients.{IsLeaving, IsStillServed};
ghost use Rattle.talks.specs.Turns.{Turn, TakesTurn, Moves, Goes, MayGo, MustWait, Wants, HaveTheirRoles};
ghost use Rattle.talks.specs.Serving.{ServesClients, EndedAs};
ghost use Rattle.talks.specs.declared.want.Want.{Want as TheWant};

use crate::clients::{EndCause, Finish, Next, ServedClients};
use crate::machine::Machine;
use crate::talk::Talk;
use std::alloc::AllocError;

/// Why serving clients ended.
#[derive(Clone, Copy, PartialEq, Eq)]
pub enum ServeEnd {
    /// No client comes any more, and the connection of each that came has ended.
    Ended(Finish),
    /// As many turns were taken as were to be taken at most.
    TurnLimit,
}

/// Serves clients, in so many turns at most, until nobody comes any more.
pub fn serve_clients<M: Machine, T: Talk, C: ServedClients<T>>(
    machine: &mut M,
    clients: &mut C,
    most: u64,
) -> ServeEnd
    ensures { ServesClients M.Machine T.Talk C.ServedClients most machine.old clients.old result machine.new clients.new }
{
    for _ in 0..most {
        let next = clients.next(&*machine);
        match next {
            Next::Step { client } => take_step(machine, clients, client),
            Next::Question { client } => answer_question(machine, clients, client),
            Next::Left { client, end_cause } => leave(machine, clients, client, end_cause),
            Next::Ended(ending) => return ServeEnd::Ended(ending),
        }
    }
    ServeEnd::TurnLimit
}

// Makes the step that a client wants and tells it, or lets the client wait. Where an allocation fails
// before it is known which, the step is refused for that.
fn take_step<M: Machine, T: Talk, C: ServedClients<T>>(
    machine: &mut M,
    clients: &mut C,
    client: u32,
)
    requires { (w : TheWant) × Wants M.Machine T.Talk C.ServedClients clients.old client w × WantsStep w × IsStillServed client (C.contention clients.old) × HaveTheirRoles M.Machine T.Talk C.ServedClients machine.old clients.old }
    ensures { (turn : Turn) × TakesTurn M.Machine T.Talk C.ServedClients machine.old clients.old turn machine.new clients.new
        × Moves M.Machine T.Talk C.ServedClients machine.new turn clients.old clients.new }
{
    match may_go(&*machine, &*clients, client) {
        Ok(true) => make_step(machine, clients, client),
        Ok(false) => clients.hold_back(&*machine, client),
        Err(_) => refuse_step(machine, clients, client),
    }
}

// Makes the step that a client wants and may have, and tells it.
fn make_step<M: Machine, T: Talk, C: ServedClients<T>>(
    machine: &mut M,
    clients: &mut C,
    client: u32,
)
    requires { (w : TheWant) × Wants M.Machine T.Talk C.ServedClients clients.old client w × WantsStep w × MayGo M.Machine T.Talk C.ServedClients machine.old clients.old client w × IsStillServed client (C.contention clients.old) × HaveTheirRoles M.Machine T.Talk C.ServedClients machine.old clients.old }
    ensures { (turn : Turn) × TakesTurn M.Machine T.Talk C.ServedClients machine.old clients.old turn machine.new clients.new
        × Moves M.Machine T.Talk C.ServedClients machine.new turn clients.old clients.new }
{
    let reply = machine.step(client, clients.want(client));
    clients.learn(&*machine, client, reply);
}

// Refuses the step that a client wants, for memory, and tells it.
fn refuse_step<M: Machine, T: Talk, C: ServedClients<T>>(
    machine: &mut M,
    clients: &mut C,
    client: u32,
)
    requires { (w : TheWant) × Wants M.Machine T.Talk C.ServedClients clients.old client w × WantsStep w × M.MayLackMemory machine.old client w × IsStillServed client (C.contention clients.old) × HaveTheirRoles M.Machine T.Talk C.ServedClients machine.old clients.old }
    ensures { (turn : Turn) × TakesTurn M.Machine T.Talk C.ServedClients machine.old clients.old turn machine.new clients.new
        × Moves M.Machine T.Talk C.ServedClients machine.new turn clients.old clients.new }
{
    let refusal = machine.refuse_for_memory(client, clients.want(client));
    clients.learn(&*machine, client, refusal);
}

// Whether a step may be made for a client. The only error is that an allocation failed.
fn may_go<M: Machine, T: Talk, C: ServedClients<T>>(
    machine: &M,
    clients: &C,
    client: u32,
) -> Result<bool, AllocError>
    requires { (w : TheWant) × Wants M.Machine T.Talk C.ServedClients clients.now client w × WantsStep w }
    ensures { (w : TheWant) → Wants M.Machine T.Talk C.ServedClients clients.now client w
        → TellsWhether (MayGo M.Machine T.Talk C.ServedClients machine.now clients.now client w)
        (MustWait M.Machine T.Talk C.ServedClients machine.now clients.now client w)
        (M.MayLackMemory machine.now client w) result }
{
    if clients.may_wait_no_more(client) {
        return Ok(true);
    }
    if machine.is_locked_out(client, clients.want(client))? {
        return Ok(false);
    }
    if !clients.is_behind(client) {
        return Ok(true);
    }
    let asks = machine.asks_for_lock(client, clients.want(client))?;
    Ok(!asks)
}

// Tells a client what its question is told.
fn answer_question<M: Machine, T: Talk, C: ServedClients<T>>(
    machine: &mut M,
    clients: &mut C,
    client: u32,
)
    requires { (w : TheWant) × Wants M.Machine T.Talk C.ServedClients clients.old client w × WantsQuestion w × IsStillServed client (C.contention clients.old) × HaveTheirRoles M.Machine T.Talk C.ServedClients machine.old clients.old }
    ensures { (turn : Turn) × TakesTurn M.Machine T.Talk C.ServedClients machine.old clients.old turn machine.new clients.new
        × Moves M.Machine T.Talk C.ServedClients machine.new turn clients.old clients.new }
{
    let told = machine.ask(client, clients.want(client));
    clients.learn(&*machine, client, told);
}

// Closes a session of a client whose connection has ended, or lets it go where none is open.
fn leave<M: Machine, T: Talk, C: ServedClients<T>>(
    machine: &mut M,
    clients: &mut C,
    client: u32,
    end_cause: EndCause,
)
    requires ending { ending (C.at clients.old client) ≡ Some end_cause }
    requires leaving { IsLeaving T.Talk (C.at clients.old client) }
    requires stopped { end_cause ≡ EndCause.Stopped → M.stopped machine.old ≡ true }
    requires cut_off { end_cause ≡ EndCause.HeldTheLock → (C.contention clients.old).cut_off ≡ Some client }
    requires expelled { end_cause ≡ EndCause.RoleDropped → (C.contention clients.old).expelled ≡ Some client }
    ensures { (turn : Turn) × TakesTurn M.Machine T.Talk C.ServedClients machine.old clients.old turn machine.new clients.new
        × Moves M.Machine T.Talk C.ServedClients machine.new turn clients.old clients.new }
{
    if !machine.close_next(client) {
        clients.close(client);
    }
}
