//! Clients of a machine over connections of which no call waits: whose turn it is, and who waits.

ghost use Rattle.std.specs.Prelude.{◌≡◌, ◌≢◌, ℕ, Bool, List, [], ◌∷◌, Option, Some, None, IfSome, IfOk, is_some, nat_eq, true};
ghost use Rattle.channels.specs.Channels.{NamedBytes};
ghost use Rattle.talks.specs.Wants.{FitsWant, learnt, own};
ghost use Rattle.talks.specs.Conversations.{Passes, IsGone, awaited, gone, wanted};
ghost use Rattle.talks.specs.Clients.{CutsOff, CutsOffOrExpels, is_client, IsNext, ExpelsLost, IsLeaving, Moved, NoneGoes, EndsAs};
ghost use Rattle.talks.specs.declared.want.Want.{Want as TheWant};
ghost use Rattle.indexmap.specs.IndexMap.{get};
ghost use Rattle.polled_clients.specs.ClientStates.{states, HasNeedAt, HasWaited, IsLooked};
ghost use Rattle.polled_clients.specs.LockWatches.{contention_of};

use crate::arrivals::count_without;
use crate::lock_watch::{LockWatch, is_lock_refusal, note_holder_look};
use crate::need::{EndOrder, Need, Pick};
use crate::peer::Peer;
use crate::peers::{any, give_up, has_waited, hold, is_nobody, list_owed, rouse, take_turn, teach};
use crate::strangers::{Strangers, note_session};
use crate::turns::Turns;
use crate::waiting::{first, is_behind, put_last, take_out};
use channels::attend::Attend;
use channels::channel::Channel;
use indexmap::IndexMap;
use std::alloc::{AllocError, Global};
use std::time::Duration;
use talks::clients::{Finish, Next, ServedClients};
use talks::machine::Machine;
use talks::talk::Talk;
use talks::want::{Reply, Want};

/// What makes a conversation for each client that comes, by the place where it comes.
pub trait TalkMaker<T: Talk> {
    /// The conversations that it makes for the place of each number.
    ghost makes_at: { Self → ℕ → T → Type 0 };

    /// The conversations that it makes.
    ghost makes: { Self → T → Type 0 };

    /// At the place of each number one is a stranger until a session is opened for it.
    ghost has_strangers: { Self → ℕ → Bool };

    /// A conversation for this place that has heard nothing.
    fn make(&self, place: usize) -> Result<T, AllocError>
        ensures starts { IfOk result (λ talk. T.starts talk) }
        ensures made { IfOk result (λ talk. makes_at self.now place talk) };

    /// Whether one who comes to this place is a stranger there until a session is opened for it.
    fn has_strangers(&self, place: usize) -> bool
        ensures { result ≡ has_strangers self.now place };

    /// Each is made for some place.
    ghost made_at: { (maker : Self) (place : ℕ) (talk : T) → makes_at maker place talk → makes maker talk };
}

/// How many clients are served, and how long they may take.
#[derive(Clone, Copy)]
pub struct ClientLimits {
    /// How many are to come.
    pub connections: u32,
    /// How many are there at once, at most. One more is told so, and closed.
    pub at_once: usize,
    /// How many of them came to places that have strangers, at most. So others find room whoever comes there.
    pub guests: usize,
    /// How long an event may wait for the writer lock. Without it none does.
    pub wait: Option<Duration>,
    /// How long one may be silent while it is waited for, a second at least. Without it for ever.
    pub idle: Option<Duration>,
    /// How long one may hold the writer lock once a step of another was held back or refused for it, a
    /// second at least. Without it for ever.
    pub block: Option<Duration>,
    /// How long one may be there before a session was opened for it. Without it for ever.
    pub login: Option<Duration>,
}

/// Clients over connections of which no call waits.
///
/// A client is listed where something can be done for it at once, and a round gives each that is
/// listed one turn: one read and up to 16 messages, or one thing that it wants of the machine. Before
/// each round it is asked who may have something to do; where nobody is listed, that waits.
#[derive(Drop)]
pub struct PolledClients<T, C, A, F> {
    pub(crate) alloc: Global,
    pub(crate) attend: A,
    pub(crate) maker: F,
    pub(crate) limits: ClientLimits,
    // What one is told who comes to the place of each number while as many are there as may be.
    pub(crate) refusal: Vec<Vec<u8>>,
    pub(crate) peers: IndexMap<u32, Peer<T, C>>,
    // What comes of a client is read into it, whichever that is: made at the first read, and kept.
    buffer: Vec<u8>,
    pub(crate) came: u32,
    waiting: Vec<u32>,
    pub(crate) lock: LockWatch,
    pub(crate) strangers: Strangers,
    // How many are there that came to places that have strangers.
    pub(crate) guests: usize,
    pub(crate) turns: Turns,
    pub(crate) time: Duration,
    pub(crate) refusals: u64,
    looks: u64,
}

impl<T: Talk + Drop, C: Channel + Drop, A: Attend<C>, F: TalkMaker<T>> PolledClients<T, C, A, F> {
    /// Nobody has come. `refusal` is what one is told who comes to the place of each number while as many
    /// are there as may be.
    pub fn new(
        alloc: Global,
        attend: A,
        maker: F,
        limits: ClientLimits,
        refusal: Vec<Vec<u8>>,
    ) -> PolledClients<T, C, A, F>
        ensures maker { result.maker ≡ maker }
        ensures at { (c : ℕ) → states C.Channel A.Attend result c ≡ awaited (A.coming attend c) }
        ensures waiting { result.waiting.items ≡ [] }
        ensures contention { contention_of result.lock ≡ record { holder = None; cut_off = None; is_limited = is_some limits.block; expelled = None } }
        ensures expected { result.limits.connections ≡ limits.connections }
        ensures strangers { (result.strangers.queue.items ≡ []) × (result.strangers.limit ≡ limits.login) }
        ensures guests { result.guests ≡ 0 }
        ensures refusals { result.refusals ≡ 0 }
        ensures looks { result.looks ≡ 0 }
    {
        PolledClients {
            alloc,
            attend,
            maker,
            limits,
            refusal,
            peers: IndexMap::new(alloc),
            buffer: Vec::new(alloc),
            came: 0,
            waiting: Vec::new(alloc),
            lock: LockWatch::new(limits.block),
            strangers: Strangers::new(alloc, limits.login),
            guests: 0,
            turns: Turns::new(alloc),
            time: Duration::ZERO,
            refusals: 0,
            looks: 0,
        }
    }

    /// What tells who comes. It knows what had gone out to each that was let go, where that is known.
    pub fn into_attend(self) -> A
    where
        F: Drop,
        ensures { (c : ℕ) (sent : NamedBytes) → states C.Channel A.Attend self c ≡ gone sent → A.closed result c ≡ sent }
    {
        self.attend
    }

    // Looks for something to do, and does one thing. Who has lost its role goes before anything is served,
    // and before it is waited for others.
    fn look_for<M: Machine>(&mut self, machine: &M) -> Option<Next>
        ensures moved { Moved T.Talk (F.makes self.old.maker) (states C.Channel A.Attend self.old) (states C.Channel A.Attend self.new) }
        ensures maker { self.new.maker ≡ self.old.maker }
        ensures waiting { self.new.waiting.items ≡ self.old.waiting.items }
        ensures limits { self.new.limits ≡ self.old.limits }
        ensures looks { self.new.looks ≡ self.old.looks }
        ensures contention { CutsOffOrExpels (contention_of self.old.lock) (contention_of self.new.lock) }
        ensures expels { M.IsSound machine.now → ExpelsLost T.Talk (F.makes self.old.maker) (M.Has machine.now) (M.LacksRole machine.now) (states C.Channel A.Attend self.old) (states C.Channel A.Attend self.new) self.old.lock.expelled self.new.lock.expelled }
        ensures next { IfSome result (λ n. IsNext T.Talk (M.stopped machine.now) (M.MayHaveDropped machine.now) (M.Has machine.now) (M.LacksRole machine.now) (states C.Channel A.Attend self.new) self.new.waiting.items (contention_of self.new.lock) (Some self.new.limits.connections) self.new.refusals self.new.looks n) }
    {
        self.expel_lost(machine);
        let next = self.look(machine.has_stopped())?;
        self.unless_lost(machine, next)
    }

    // Looks for something to do, and does one thing.
    fn look(&mut self, stopped: bool) -> Option<Next>
        ensures moved { Moved T.Talk (F.makes self.old.maker) (states C.Channel A.Attend self.old) (states C.Channel A.Attend self.new) }
        ensures maker { self.new.maker ≡ self.old.maker }
        ensures waiting { self.new.waiting.items ≡ self.old.waiting.items }
        ensures limits { self.new.limits ≡ self.old.limits }
        ensures looks { self.new.looks ≡ self.old.looks }
        ensures contention { CutsOff (contention_of self.old.lock) (contention_of self.new.lock) }
        ensures next { IfSome result (λ n. IsLooked T.Talk stopped (states C.Channel A.Attend self.new) self.new.waiting.items (contention_of self.new.lock) (Some self.new.limits.connections) self.new.refusals self.new.looks n) }
    {
        if let Some(finish) = self.finish(stopped) {
            return Some(Next::Ended(finish));
        }
        let there = any(&self.peers);
        let waits = first(&self.waiting);
        match self.turns.pick(there, waits, stopped) {
            Some(pick) => self.serve(pick, stopped),
            None => {
                self.gather();
                None
            }
        }
    }

    // Why nothing more is to be done, if that is so.
    fn finish(&self, stopped: bool) -> Option<Finish>
        ensures ends { IfSome result (λ e. EndsAs stopped (states C.Channel A.Attend self.now) (Some self.now.limits.connections) self.now.refusals self.now.looks e) }
        ensures waiting { IfSome result (λ e. self.now.waiting.items ≡ []) }
    {
        if !self.is_deserted() {
            return None;
        }
        if stopped {
            return Some(Finish::Stopped);
        }
        if self.came == self.limits.connections {
            return Some(Finish::Done);
        }
        if self.refusals > 0 {
            return Some(Finish::Net);
        }
        None
    }

    // Whether nobody is there, and nobody waits.
    fn is_deserted(&self) -> bool
        ensures nobody { result ≡ true → (c : ℕ) → get nat_eq self.now.peers c ≡ None }
        ensures waiting { result ≡ true → self.now.waiting.items ≡ [] }
    {
        is_nobody(&self.peers) && self.waiting.is_empty()
    }

    // Gives a client its turn.
    fn serve(&mut self, pick: Pick, stopped: bool) -> Option<Next>
        ensures moved { Moved T.Talk (F.makes self.old.maker) (states C.Channel A.Attend self.old) (states C.Channel A.Attend self.new) }
        ensures maker { self.new.maker ≡ self.old.maker }
        ensures waiting { self.new.waiting.items ≡ self.old.waiting.items }
        ensures limits { self.new.limits ≡ self.old.limits }
        ensures looks { self.new.looks ≡ self.old.looks }
        ensures lock { self.new.lock ≡ self.old.lock }
        ensures next { IfSome result (λ n. IsLooked T.Talk stopped (states C.Channel A.Attend self.new) self.new.waiting.items (contention_of self.new.lock) (Some self.new.limits.connections) self.new.refusals self.new.looks n) }
    {
        let client = pick.client;
        match self.turn(pick, stopped) {
            Need::Nothing => {
                list_owed(&mut self.turns, &self.peers, client);
                None
            }
            Need::Step => Some(Next::Step { client }),
            Need::Question => Some(Next::Question { client }),
            Need::Left(end_cause) => {
                self.turns.note_leaving(client);
                Some(Next::Left { client, end_cause })
            }
        }
    }

    // Does one thing for a client, and tells what it has to do with the machine.
    fn turn(&mut self, pick: Pick, stopped: bool) -> Need
        ensures moved { Moved T.Talk (F.makes self.old.maker) (states C.Channel A.Attend self.old) (states C.Channel A.Attend self.new) }
        ensures maker { self.new.maker ≡ self.old.maker }
        ensures waiting { self.new.waiting.items ≡ self.old.waiting.items }
        ensures limits { self.new.limits ≡ self.old.limits }
        ensures looks { self.new.looks ≡ self.old.looks }
        ensures lock { self.new.lock ≡ self.old.lock }
        ensures need { HasNeedAt T.Talk (record { stopped = stopped; cut_off = is_client pick.client self.new.lock.cut_off; expelled = is_client pick.client self.new.lock.expelled }) result (states C.Channel A.Attend self.new pick.client) }
    {
        if pick.client >= self.came {
            return Need::Nothing;
        }
        let order = EndOrder {
            stopped,
            cut_off: self.lock.is_cut_off(pick.client),
            expelled: self.lock.is_expelled(pick.client),
        };
        take_turn(&mut self.peers, pick, order, self.time, &mut self.buffer)
    }

    // Before a round: wakes one to whom something may have come, or takes one that comes, or asks
    // who may have something to do.
    fn gather(&mut self)
        ensures moved { Moved T.Talk (F.makes self.old.maker) (states C.Channel A.Attend self.old) (states C.Channel A.Attend self.new) }
        ensures maker { self.new.maker ≡ self.old.maker }
        ensures waiting { self.new.waiting.items ≡ self.old.waiting.items }
        ensures limits { self.new.limits ≡ self.old.limits }
        ensures looks { self.new.looks ≡ self.old.looks }
        ensures contention { CutsOff (contention_of self.old.lock) (contention_of self.new.lock) }
    {
        if let Some(client) = self.turns.woken.pop() {
            self.wake(client);
        } else if self.turns.may_greet() {
            self.greet();
        } else {
            self.end_round();
        }
    }

    /// Looks at the clock.
    pub(crate) fn note_time(&mut self)
        ensures moved { Moved T.Talk (F.makes self.old.maker) (states C.Channel A.Attend self.old) (states C.Channel A.Attend self.new) }
        ensures maker { self.new.maker ≡ self.old.maker }
        ensures waiting { self.new.waiting.items ≡ self.old.waiting.items }
        ensures limits { self.new.limits ≡ self.old.limits }
        ensures looks { self.new.looks ≡ self.old.looks }
        ensures lock { self.new.lock ≡ self.old.lock }
    {
        self.time = self.attend.now();
    }

    // Something may have come to a client.
    fn wake(&mut self, client: u32)
        ensures moved { Moved T.Talk (F.makes self.old.maker) (states C.Channel A.Attend self.old) (states C.Channel A.Attend self.new) }
        ensures maker { self.new.maker ≡ self.old.maker }
        ensures waiting { self.new.waiting.items ≡ self.old.waiting.items }
        ensures limits { self.new.limits ≡ self.old.limits }
        ensures looks { self.new.looks ≡ self.old.looks }
        ensures lock { self.new.lock ≡ self.old.lock }
    {
        rouse(&mut self.peers, client);
        list_owed(&mut self.turns, &self.peers, client);
    }

    /// Asks who may have something to do, and begins a round.
    pub(crate) fn poll(&mut self)
        ensures moved { Moved T.Talk (F.makes self.old.maker) (states C.Channel A.Attend self.old) (states C.Channel A.Attend self.new) }
        ensures maker { self.new.maker ≡ self.old.maker }
        ensures waiting { self.new.waiting.items ≡ self.old.waiting.items }
        ensures limits { self.new.limits ≡ self.old.limits }
        ensures looks { self.new.looks ≡ self.old.looks }
        ensures lock { self.new.lock ≡ self.old.lock }
    {
        self.note_time();
        self.ask();
        self.note_time();
    }

    // Asks who may have something to do, and waits for it where nobody has something at once.
    fn ask(&mut self)
        ensures moved { Moved T.Talk (F.makes self.old.maker) (states C.Channel A.Attend self.old) (states C.Channel A.Attend self.new) }
        ensures maker { self.new.maker ≡ self.old.maker }
        ensures waiting { self.new.waiting.items ≡ self.old.waiting.items }
        ensures limits { self.new.limits ≡ self.old.limits }
        ensures looks { self.new.looks ≡ self.old.looks }
        ensures lock { self.new.lock ≡ self.old.lock }
    {
        self.turns.looks.note_asked(self.time);
        let until = self.first_waits_until();
        let within = self.turns.within(until, self.time);
        let comes = self.attend.wait(&mut self.turns.woken, within);
        self.turns.begin(comes, until, self.time);
    }

    // A client waits from now on for so long as it may.
    fn hold(&mut self, client: u32)
        ensures moved { Moved T.Talk (F.makes self.old.maker) (states C.Channel A.Attend self.old) (states C.Channel A.Attend self.new) }
        ensures maker { self.new.maker ≡ self.old.maker }
        ensures waiting { self.new.waiting.items ≡ self.old.waiting.items }
        ensures limits { self.new.limits ≡ self.old.limits }
        ensures looks { self.new.looks ≡ self.old.looks }
        ensures lock { self.new.lock ≡ self.old.lock }
    {
        self.note_time();
        self.hold_until(client);
    }

    // A client waits for so long as it may, if it does not wait yet.
    fn hold_until(&mut self, client: u32)
        ensures moved { Moved T.Talk (F.makes self.old.maker) (states C.Channel A.Attend self.old) (states C.Channel A.Attend self.new) }
        ensures maker { self.new.maker ≡ self.old.maker }
        ensures waiting { self.new.waiting.items ≡ self.old.waiting.items }
        ensures limits { self.new.limits ≡ self.old.limits }
        ensures looks { self.new.looks ≡ self.old.looks }
        ensures lock { self.new.lock ≡ self.old.lock }
    {
        let wait = self.limits.wait.unwrap_or(Duration::ZERO);
        hold(&mut self.peers, client, self.time.saturating_add(wait));
        list_owed(&mut self.turns, &self.peers, client);
    }

    // The conversation with a client wants its end, since an allocation has failed.
    fn give_up(&mut self, client: u32)
        requires { (w : TheWant) × (wanted T.Talk (states C.Channel A.Attend self.old client) ≡ Some w) }
        ensures moved { Moved T.Talk (F.makes self.old.maker) (states C.Channel A.Attend self.old) (states C.Channel A.Attend self.new) }
        ensures maker { self.new.maker ≡ self.old.maker }
        ensures waiting { self.new.waiting.items ≡ self.old.waiting.items }
        ensures limits { self.new.limits ≡ self.old.limits }
        ensures looks { self.new.looks ≡ self.old.looks }
        ensures lock { self.new.lock ≡ self.old.lock }
        ensures wants { wanted T.Talk (states C.Channel A.Attend self.new client) ≡ Some TheWant.OutOfMemory }
    {
        give_up(&mut self.peers, client);
        list_owed(&mut self.turns, &self.peers, client);
    }

    // Until when the first waits that does.
    fn first_waits_until(&self) -> Option<Duration> {
        let client = first(&self.waiting)?;
        self.peers.get(&client)?.waits_until()
    }
}

impl<T: Talk + Drop, C: Channel + Drop, A: Attend<C>, F: TalkMaker<T>> ServedClients<T>
    for PolledClients<T, C, A, F> {
    ghost use Rattle.std.specs.Prelude.{◌≡◌, ℕ, [], ◌∷◌, Some};

    ghost Maker = { F };

    ghost maker = { λ x. x.maker };

    ghost makes = { λ maker talk. F.makes maker talk };

    ghost at = { λ x c. states C.Channel A.Attend x c };

    ghost waiting = { λ x. x.waiting.items };

    ghost contention = { λ x. contention_of x.lock };

    ghost expected = { λ x. Some x.limits.connections };

    ghost refusals = { λ x. x.refusals };

    ghost looks = { λ x. x.looks };

    ghost learns = { λ x moment c r y. (w : TheWant) × (wanted T.Talk (states C.Channel A.Attend x c) ≡ Some w) × FitsWant w r
        × Passes T.Talk (F.makes x.maker) (states C.Channel A.Attend x c) (learnt w r ∷ []) (states C.Channel A.Attend y c) };

    ghost has_waited = { λ x c. HasWaited x.limits.wait (get nat_eq x.peers c) };

    fn next<M: Machine>(&mut self, machine: &M) -> Next {
        'looking: while self.looks < u64::MAX {
            self.looks += 1;
            if let Some(next) = self.look_for(machine) {
                return next;
            }
        }
        Next::Ended(Finish::LookLimit)
    }

    fn want(&self, client: u32) -> &Want {
        self.peers.get(&client).unwrap().want()
    }

    fn learn<M: Machine>(&mut self, machine: &M, client: u32, reply: Reply) {
        take_out(&mut self.waiting, client);
        self.turns.note_change();
        self.lock
            .note(machine.holder(), client, is_lock_refusal(&reply));
        note_holder_look(&mut self.turns, &self.lock, self.time);
        teach(&mut self.peers, client, reply);
        note_session(&mut self.strangers, &self.peers, client);
        list_owed(&mut self.turns, &self.peers, client);
    }

    fn hold_back<M: Machine>(&mut self, machine: &M, client: u32) {
        self.lock.note(machine.holder(), client, true);
        note_holder_look(&mut self.turns, &self.lock, self.time);
        match put_last(&mut self.waiting, client) {
            Ok(()) => self.hold(client),
            Err(_) => self.give_up(client),
        }
    }

    fn is_behind(&self, client: u32) -> bool {
        is_behind(&self.waiting, client)
    }

    fn may_wait_no_more(&self, client: u32) -> bool {
        match self.limits.wait {
            None => true,
            Some(_) => has_waited(&self.peers, client),
        }
    }

    fn close(&mut self, client: u32) {
        take_out(&mut self.waiting, client);
        self.lock.forget(client);
        self.strangers.take_out(client);
        self.turns.note_change();
        let peer = self.peers.swap_remove(&client).unwrap();
        self.guests = count_without(self.guests, peer.is_guest);
        self.attend.close(client, peer.into_channel());
    }
}
