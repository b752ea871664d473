//! Two clients in memory, which take turns.

ghost use Rattle.std.specs.Prelude.{◌≡◌, ◌<◌, ◌+◌, ◌-◌, ◌^◌, ◌==◌, not, ℕ, List, [], ◌∷◌, Some, None, IfSome, true, false};
ghost use Rattle.talks.specs.Wants.{FitsWant, learnt, refuses_lock};
ghost use Rattle.talks.specs.Conversations.{Passes, IsGone, wanted};
ghost use Rattle.talks.specs.Clients.{without, put_last, is_behind, is_client, contending, unless_client, IsNext, Moved};
ghost use Rattle.talks.specs.declared.want.Want.{Want as TheWant};
ghost use Rattle.talks_tests.specs.Memory.{any_talk, state_of};
ghost use Rattle.talks_tests.specs.TwoClients.{waiting_of, contention_of, states, NextOf};

use crate::line::{BeginsAnew, MemoryClient, Stage, Wish};
use sql_types::answer::Answer;
use sql_types::state::SqlState;
use talks::clients::{Finish, Next, ServedClients};
use talks::machine::Machine;
use talks::want::{Reply, Want};

/// Who waits, the first that came first.
#[derive(Clone, Copy, PartialEq, Eq)]
pub enum Queue {
    Nobody,
    First,
    Second,
    FirstSecond,
    SecondFirst,
}

impl Queue {
    fn without_first(self) -> Queue
        ensures { waiting_of result ≡ without 0 (waiting_of self) }
    {
        match self {
            Queue::Nobody | Queue::First => Queue::Nobody,
            Queue::Second | Queue::FirstSecond | Queue::SecondFirst => Queue::Second,
        }
    }

    fn without_second(self) -> Queue
        ensures { waiting_of result ≡ without 1 (waiting_of self) }
    {
        match self {
            Queue::Nobody | Queue::Second => Queue::Nobody,
            Queue::First | Queue::FirstSecond | Queue::SecondFirst => Queue::First,
        }
    }

    fn with_first(self) -> Queue
        ensures { waiting_of result ≡ put_last 0 (waiting_of self) }
    {
        match self {
            Queue::Nobody => Queue::First,
            Queue::Second => Queue::SecondFirst,
            Queue::First | Queue::FirstSecond | Queue::SecondFirst => self,
        }
    }

    fn with_second(self) -> Queue
        ensures { waiting_of result ≡ put_last 1 (waiting_of self) }
    {
        match self {
            Queue::Nobody => Queue::Second,
            Queue::First => Queue::FirstSecond,
            Queue::Second | Queue::FirstSecond | Queue::SecondFirst => self,
        }
    }

    fn is_before(self, client: u32) -> bool
        ensures { result ≡ is_behind client (waiting_of self) }
    {
        match self {
            Queue::Nobody => false,
            Queue::First | Queue::FirstSecond => !is_same(0, client),
            Queue::Second | Queue::SecondFirst => !is_same(1, client),
        }
    }
}

fn is_same(a: u32, b: u32) -> bool
    ensures { result ≡ (a == b) }
{
    a == b
}

/// Two clients, which take turns.
#[derive(Drop)]
pub struct TwoClients<T> {
    pub first: MemoryClient<T>,
    pub second: MemoryClient<T>,
    pub queue: Queue,
    /// Who holds the lock that the other wants.
    pub contended: Option<u32>,
    /// The second was looked at last.
    pub second_was_last: bool,
    pub looks: u64,
}

impl<T> TwoClients<T> {
    /// Two clients that are to come.
    pub fn new(first: MemoryClient<T>, second: MemoryClient<T>) -> TwoClients<T> {
        TwoClients {
            first,
            second,
            queue: Queue::Nobody,
            contended: None,
            second_was_last: true,
            looks: 0,
        }
    }

    // Whether both have gone, and nobody waits.
    fn is_done(&self) -> bool
        ensures first { result ≡ true → self.now.first.stage ≡ Stage.Gone }
        ensures second { result ≡ true → self.now.second.stage ≡ Stage.Gone }
        ensures waiting { result ≡ true → waiting_of self.now.queue ≡ [] }
    {
        if !self.first.has_gone() || !self.second.has_gone() {
            return false;
        }
        matches!(self.queue, Queue::Nobody)
    }
}

// Whether it is this client.
fn is_client(client: u32, other: Option<u32>) -> bool
    ensures { result ≡ is_client client other }
{
    match other {
        Some(other) => is_same(other, client),
        None => false,
    }
}

// Who holds the lock that another wants, once it is held so.
fn contending(old: Option<u32>, holder: Option<u32>, client: u32, wants: bool) -> Option<u32>
    ensures { result ≡ contending holder client wants old }
{
    let holder = holder?;
    if is_client(holder, old) || (wants && !is_same(holder, client)) {
        return Some(holder);
    }
    None
}

// It is not this client.
fn unless(other: Option<u32>, client: u32) -> Option<u32>
    ensures { result ≡ unless_client client other }
{
    if is_client(client, other) {
        return None;
    }
    other
}

// Whether a step was refused for the lock.
fn refuses_lock(reply: &Reply) -> bool
    ensures { result ≡ refuses_lock reply.now }
{
    match reply {
        Reply::Answer(Answer::Refused(state)) => matches!(state, SqlState::LockNotAvailable),
        _ => false,
    }
}

// What is to be done next for a client that has this wish.
fn next_of(client: u32, wish: Wish) -> Option<Next>
    ensures { NextOf client wish result }
{
    match wish {
        Wish::Nothing => None,
        Wish::Step => Some(Next::Step { client }),
        Wish::Question => Some(Next::Question { client }),
        Wish::Left(end_cause) => Some(Next::Left { client, end_cause }),
    }
}

impl<T: BeginsAnew> TwoClients<T> {
    // Looks at the one that was not looked at last.
    fn look(&mut self, stopped: bool) -> Option<Next>
        ensures moved { Moved T.Talk any_talk (states self.old) (states self.new) }
        ensures waiting { self.new.queue ≡ self.old.queue }
        ensures contended { self.new.contended ≡ self.old.contended }
        ensures looks { self.new.looks ≡ self.old.looks }
        ensures next { IfSome result (λ n. IsNext T.Talk stopped ⊥ (λ c n login. ⊥) (λ role. ⊥) (states self.new) (waiting_of self.new.queue) (contention_of self.new.contended) (Some 2) 0 self.new.looks n) }
    {
        if self.is_done() {
            return Some(Next::Ended(Finish::Done));
        }
        if self.second_was_last {
            self.look_at_first(stopped)
        } else {
            self.look_at_second(stopped)
        }
    }

    fn look_at_first(&mut self, stopped: bool) -> Option<Next>
        ensures moved { Moved T.Talk any_talk (states self.old) (states self.new) }
        ensures waiting { self.new.queue ≡ self.old.queue }
        ensures contended { self.new.contended ≡ self.old.contended }
        ensures looks { self.new.looks ≡ self.old.looks }
        ensures next { IfSome result (λ n. IsNext T.Talk stopped ⊥ (λ c n login. ⊥) (λ role. ⊥) (states self.new) (waiting_of self.new.queue) (contention_of self.new.contended) (Some 2) 0 self.new.looks n) }
    {
        self.second_was_last = false;
        next_of(0, self.first.attend())
    }

    fn look_at_second(&mut self, stopped: bool) -> Option<Next>
        ensures moved { Moved T.Talk any_talk (states self.old) (states self.new) }
        ensures waiting { self.new.queue ≡ self.old.queue }
        ensures contended { self.new.contended ≡ self.old.contended }
        ensures looks { self.new.looks ≡ self.old.looks }
        ensures next { IfSome result (λ n. IsNext T.Talk stopped ⊥ (λ c n login. ⊥) (λ role. ⊥) (states self.new) (waiting_of self.new.queue) (contention_of self.new.contended) (Some 2) 0 self.new.looks n) }
    {
        self.second_was_last = true;
        next_of(1, self.second.attend())
    }
}

impl<T: BeginsAnew> ServedClients<T> for TwoClients<T> {
    ghost use Rattle.std.specs.Prelude.{◌≡◌, ℕ, [], ◌∷◌, Some};

    ghost Maker = { Unit {0} };

    ghost maker = { λ x. tt };

    ghost makes = { λ maker talk. any_talk talk };

    ghost at = { states };

    ghost waiting = { λ x. waiting_of x.queue };

    ghost contention = { λ x. contention_of x.contended };

    ghost expected = { λ x. Some 2 };

    ghost refusals = { λ x. 0 };

    ghost looks = { λ x. x.looks };

    ghost learns = { λ x moment c r y. (w : TheWant) × (wanted T.Talk (states x c) ≡ Some w) × FitsWant w r × Passes T.Talk any_talk (states x c) (learnt w r ∷ []) (states y c) };

    ghost has_waited = { λ x c. ⊥ };

    fn next<M: Machine>(&mut self, machine: &M) -> Next {
        'looking: while self.looks < u64::MAX {
            self.looks += 1;
            // Nobody is ended here for a role that was dropped: then nothing more is done.
            if machine.may_have_dropped() {
                continue 'looking;
            }
            if let Some(next) = self.look(machine.has_stopped()) {
                return next;
            }
        }
        Next::Ended(Finish::LookLimit)
    }

    fn want(&self, client: u32) -> &Want {
        if client == 0 {
            self.first.want()
        } else {
            self.second.want()
        }
    }

    fn learn<M: Machine>(&mut self, machine: &M, client: u32, reply: Reply) {
        let refused = refuses_lock(&reply);
        self.contended = contending(self.contended, machine.holder(), client, refused);
        if client == 0 {
            self.queue = self.queue.without_first();
            self.first.learn(reply);
        } else {
            self.queue = self.queue.without_second();
            self.second.learn(reply);
        }
    }

    fn hold_back<M: Machine>(&mut self, machine: &M, client: u32) {
        self.contended = contending(self.contended, machine.holder(), client, true);
        if client == 0 {
            self.queue = self.queue.with_first();
        } else {
            self.queue = self.queue.with_second();
        }
    }

    fn is_behind(&self, client: u32) -> bool {
        self.queue.is_before(client)
    }

    fn may_wait_no_more(&self, _client: u32) -> bool {
        false
    }

    fn close(&mut self, client: u32) {
        self.contended = unless(self.contended, client);
        if client == 0 {
            self.queue = self.queue.without_first();
            self.first.close();
        } else {
            self.queue = self.queue.without_second();
            self.second.close();
        }
    }
}
