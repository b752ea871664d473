//! The clients of a machine: the conversation with each, who waits, and why their connections end.

ghost use Rattle.std.specs.Prelude.{◌≡◌, ◌≢◌, true, ℕ, List, [], Option, Some, Bool};
ghost use Rattle.talks.specs.Wants.{FitsWant, learnt, own, refuses_lock};
ghost use Rattle.talks.specs.Conversations.{ClientState, wanted, ending, IsGone, Passes};
ghost use Rattle.talks.specs.Clients.{Contention, CutsOffOrExpels, contended, forgotten, IsNext, ExpelsLost, NoneGoes, GoesAlone, IsPutLast, without, is_behind, EndsAs, IsLeaving, Moved};
ghost use Rattle.talks.specs.declared.want.Want.{Want as TheWant};
ghost use Rattle.talks.specs.declared.want.Reply.{Reply as TheReply};

use crate::machine::Machine;
use crate::talk::Talk;
use crate::want::{Reply, Want};

/// Why the connection of a client ended.
#[derive(Clone, Copy, PartialEq, Eq)]
pub enum EndCause {
    /// Its input is at its end: no whole message is left, and all that was said has gone out.
    Input,
    /// Its conversation wanted that, as after a bad message, and all that was said has gone out.
    Finished,
    /// Its connection failed.
    Failed,
    /// It has passed a limit that was set.
    Limit,
    /// It held the writer lock for as long as one may for which another's step was held back or refused.
    HeldTheLock,
    /// Its role was dropped: that of a session that it had open, or the one that it had shown to come as.
    RoleDropped,
    /// An allocation failed.
    Memory,
    /// The machine has stopped.
    Stopped,
}

/// Why nothing more is to be done. But for the last, the connection of each client that came has ended.
#[derive(Clone, Copy, PartialEq, Eq)]
pub enum Finish {
    /// As many came as were to come.
    Done,
    /// The machine has stopped.
    Stopped,
    /// No further one could be taken.
    Net,
    /// It was looked 2^64 - 1 times for something to do. Clients may be there.
    LookLimit,
}

/// What is to be done next.
#[derive(Clone, Copy, PartialEq, Eq)]
pub enum Next {
    /// The conversation with a client wants a step.
    Step { client: u32 },
    /// It wants a question answered.
    Question { client: u32 },
    /// The connection of a client has ended.
    Left { client: u32, end_cause: EndCause },
    /// Nobody comes any more.
    Ended(Finish),
}

/// Clients, which are numbered in the order of their coming.
pub trait ServedClients<T: Talk> {
    /// What makes the conversations.
    ghost Maker: { Type 0 };

    /// By which they are made here.
    ghost maker: { Self → Maker };

    /// The conversations that it makes.
    ghost makes: { Maker → T → Type 0 };

    /// Where each client is, and the conversation with it.
    ghost at: { Self → ℕ → ClientState T };

    /// Who waits for the writer lock, the first that came first.
    ghost waiting: { Self → List ℕ };

    /// Who holds the writer lock that others want, and who was cut off for that; and who goes since its role
    /// was dropped.
    ghost contention: { Self → Contention };

    /// How many are to come, where that was said.
    ghost expected: { Self → Option ℕ };

    /// How often one could not be taken.
    ghost refusals: { Self → ℕ };

    /// How often it was looked for something to do.
    ghost looks: { Self → ℕ };

    /// What a conversation's learning does, at this moment of the machine.
    ghost learns: { Self → ℕ → ℕ → TheReply → Self → Type 0 };

    /// A client has waited as long as it may.
    ghost has_waited: { Self → ℕ → Type 0 };

    /// Waits until something is to be done, and gives it: clients come, are heard and sent to. Where the
    /// machine's last step may have dropped a role, who has lost its role goes before anything is served. Of
    /// several one goes first.
    fn next<M: Machine>(&mut self, machine: &M) -> Next
        ensures next { IsNext T.Talk (M.stopped machine.now) (M.MayHaveDropped machine.now) (M.Has machine.now) (M.LacksRole machine.now) (at self.new) (waiting self.new) (contention self.new) (expected self.new) (refusals self.new) (looks self.new) result }
        ensures moved { Moved T.Talk (makes (maker self.old)) (at self.old) (at self.new) }
        ensures waiting { waiting self.new ≡ waiting self.old }
        ensures contention { CutsOffOrExpels (contention self.old) (contention self.new) }
        ensures expels { M.IsSound machine.now → ExpelsLost T.Talk (makes (maker self.old)) (M.Has machine.now) (M.LacksRole machine.now) (at self.old) (at self.new) (contention self.old).expelled (contention self.new).expelled }
        ensures maker { maker self.new ≡ maker self.old }
        ensures expected { expected self.new ≡ expected self.old };

    /// What the conversation with a client wants.
    fn want(&self, client: u32) -> &Want
        requires { (w : TheWant) × (wanted T.Talk (at self.now client) ≡ Some w) }
        ensures { wanted T.Talk (at self.now client) ≡ Some result.now };

    /// Tells the conversation with a client what it wanted.
    fn learn<M: Machine>(&mut self, machine: &M, client: u32, reply: Reply)
        requires { (w : TheWant) × (wanted T.Talk (at self.old client) ≡ Some w) × FitsWant w reply }
        ensures learnt { learns self.old (M.moment machine.now) client reply self.new }
        ensures passed { (w : TheWant) → wanted T.Talk (at self.old client) ≡ Some w
            → (c : ℕ) → Passes T.Talk (makes (maker self.old)) (at self.old c) (own client c (learnt w reply)) (at self.new c) }
        ensures gone { NoneGoes (at self.old) (at self.new) }
        ensures waiting { waiting self.new ≡ without client (waiting self.old) }
        ensures contention { (holder : Option ℕ) × M.IsHeldBy machine.now holder
            × (contention self.new ≡ contended holder client (refuses_lock reply) (contention self.old)) }
        ensures maker { maker self.new ≡ maker self.old }
        ensures expected { expected self.new ≡ expected self.old };

    /// Lets a client wait, behind those that do. Where an allocation fails its conversation gives up.
    fn hold_back<M: Machine>(&mut self, machine: &M, client: u32)
        requires { (w : TheWant) × (wanted T.Talk (at self.old client) ≡ Some w) }
        ensures moved { Moved T.Talk (makes (maker self.old)) (at self.old) (at self.new) }
        ensures waiting { IsPutLast T.Talk (at self.new) client (waiting self.old) (waiting self.new) }
        ensures contention { (holder : Option ℕ) × M.IsHeldBy machine.now holder
            × (contention self.new ≡ contended holder client true (contention self.old)) }
        ensures maker { maker self.new ≡ maker self.old }
        ensures expected { expected self.new ≡ expected self.old };

    /// Whether another waits before a client.
    fn is_behind(&self, client: u32) -> bool
        ensures { result ≡ is_behind client (waiting self.now) };

    /// Whether a client has waited as long as it may.
    fn may_wait_no_more(&self, client: u32) -> bool
        ensures { result ≡ true → has_waited self.now client };

    /// Lets a client go whose connection has ended.
    fn close(&mut self, client: u32)
        requires { IsLeaving T.Talk (at self.old client) }
        ensures passed { (c : ℕ) → Passes T.Talk (makes (maker self.old)) (at self.old c) [] (at self.new c) }
        ensures gone { IsGone (at self.new client) }
        ensures alone { GoesAlone client (at self.old) (at self.new) }
        ensures waiting { waiting self.new ≡ without client (waiting self.old) }
        ensures contention { contention self.new ≡ forgotten client (contention self.old) }
        ensures maker { maker self.new ≡ maker self.old }
        ensures expected { expected self.new ≡ expected self.old };
}
