//! Those who come, and are taken or turned away.

ghost use Rattle.std.specs.Prelude.{◌≡◌, ◌≢◌, ◌||◌, ◌+◌, ◌-◌, ◌^◌, if◌then◌else◌, ℕ, IfSome, length, nat_eq, nat_lt, true};
ghost use Rattle.channels.specs.Comings.{HasJustCome};
ghost use Rattle.talks.specs.Clients.{Moved};
ghost use Rattle.indexmap.specs.IndexMap.{get};
ghost use Rattle.polled_clients.specs.ClientStates.{states, IsTurnedOut};
ghost use Rattle.polled_clients.specs.Strangers.{who_ends};

use crate::clients::{PolledClients, TalkMaker};
use crate::limits::note_look;
use crate::peer::Peer;
use crate::peers::turn_out;
use crate::strangers::note_stranger_look;
use crate::turns::prepare;
use channels::attend::{Attend, Taken};
use channels::channel::Channel;
use talks::talk::Talk;

impl<T: Talk + Drop, C: Channel + Drop, A: Attend<C>, F: TalkMaker<T>> PolledClients<T, C, A, F> {
    /// Takes one that comes, or turns it away where as many are there as may be and none is a stranger.
    pub(crate) fn greet(&mut self)
        ensures moved { Moved T.Talk (F.makes self.old.maker) (states C.Channel A.Attend self.old) (states C.Channel A.Attend self.new) }
        ensures maker { self.new.maker ≡ self.old.maker }
        ensures waiting { self.new.waiting.items ≡ self.old.waiting.items }
        ensures limits { self.new.limits ≡ self.old.limits }
        ensures looks { self.new.looks ≡ self.old.looks }
        ensures lock { self.new.lock ≡ self.old.lock }
    {
        if self.came >= self.limits.connections || self.refusals > 0 {
            self.turns.note_nobody();
        } else {
            self.greet_next();
        }
    }

    // Takes one that comes to the next place where somebody may, or turns it away.
    fn greet_next(&mut self)
        ensures moved { Moved T.Talk (F.makes self.old.maker) (states C.Channel A.Attend self.old) (states C.Channel A.Attend self.new) }
        ensures maker { self.new.maker ≡ self.old.maker }
        ensures waiting { self.new.waiting.items ≡ self.old.waiting.items }
        ensures limits { self.new.limits ≡ self.old.limits }
        ensures looks { self.new.looks ≡ self.old.looks }
        ensures lock { self.new.lock ≡ self.old.lock }
    {
        match self.attend.place(self.came) {
            Some(place) => self.greet_at(place),
            None => self.turns.note_nobody(),
        }
    }

    // Takes one that comes to a place, or turns it away.
    fn greet_at(&mut self, place: usize)
        ensures moved { Moved T.Talk (F.makes self.old.maker) (states C.Channel A.Attend self.old) (states C.Channel A.Attend self.new) }
        ensures maker { self.new.maker ≡ self.old.maker }
        ensures waiting { self.new.waiting.items ≡ self.old.waiting.items }
        ensures limits { self.new.limits ≡ self.old.limits }
        ensures looks { self.new.looks ≡ self.old.looks }
        ensures lock { self.new.lock ≡ self.old.lock }
    {
        let is_guest = self.maker.has_strangers(place);
        if self.is_full(is_guest) {
            self.turn_away(place);
        } else {
            self.take(place);
        }
    }

    // Whether as many are there as may be, or as many guests where the next is one; and each has a
    // session, or that is not limited.
    fn is_full(&self, is_guest: bool) -> bool {
        let has_room = self.peers.len() < self.limits.at_once;
        let has_room_for_guests = !is_guest || self.guests < self.limits.guests;
        !(has_room && has_room_for_guests) && !self.strangers.is_any()
    }

    // Tells one that comes to a place that as many are there as may be.
    fn turn_away(&mut self, place: usize)
        ensures moved { Moved T.Talk (F.makes self.old.maker) (states C.Channel A.Attend self.old) (states C.Channel A.Attend self.new) }
        ensures maker { self.new.maker ≡ self.old.maker }
        ensures waiting { self.new.waiting.items ≡ self.old.waiting.items }
        ensures limits { self.new.limits ≡ self.old.limits }
        ensures looks { self.new.looks ≡ self.old.looks }
        ensures lock { self.new.lock ≡ self.old.lock }
    {
        let refusal = refusal_at(&self.refusal, place);
        match self.attend.turn_away(place, refusal) {
            Taken::Came(()) => {}
            Taken::Nobody => {}
            Taken::Later => self.turns.note_later(self.time),
            Taken::Failed => self.refusals = self.refusals.saturating_add(1),
        }
    }

    // Takes one that comes to a place, with a conversation for that place.
    fn take(&mut self, place: usize)
        ensures moved { Moved T.Talk (F.makes self.old.maker) (states C.Channel A.Attend self.old) (states C.Channel A.Attend self.new) }
        ensures maker { self.new.maker ≡ self.old.maker }
        ensures waiting { self.new.waiting.items ≡ self.old.waiting.items }
        ensures limits { self.new.limits ≡ self.old.limits }
        ensures looks { self.new.looks ≡ self.old.looks }
        ensures lock { self.new.lock ≡ self.old.lock }
    {
        match prepare(&mut self.turns, &self.maker, place, self.peers.len() + 1) {
            Ok(talk) => self.take_with(place, talk),
            Err(_) => self.turns.note_later(self.time),
        }
    }

    // Takes one that comes to a place, for whom there is this conversation.
    fn take_with(&mut self, place: usize, talk: T)
        requires starts { T.starts talk }
        requires made { F.makes_at self.old.maker place talk }
        ensures moved { Moved T.Talk (F.makes self.old.maker) (states C.Channel A.Attend self.old) (states C.Channel A.Attend self.new) }
        ensures maker { self.new.maker ≡ self.old.maker }
        ensures waiting { self.new.waiting.items ≡ self.old.waiting.items }
        ensures limits { self.new.limits ≡ self.old.limits }
        ensures looks { self.new.looks ≡ self.old.looks }
        ensures lock { self.new.lock ≡ self.old.lock }
    {
        match self.attend.take(self.came, place) {
            Taken::Came(channel) => self.admit(place, talk, channel),
            Taken::Nobody => {}
            Taken::Later => self.turns.note_later(self.time),
            Taken::Failed => self.refusals = self.refusals.saturating_add(1),
        }
    }

    // A client has come to a place. Its conversation is one for the place where its connection came.
    fn admit(&mut self, place: usize, talk: T, channel: C)
        requires starts { T.starts talk }
        requires made { F.makes_at self.old.maker (C.place channel) talk }
        requires fresh { HasJustCome C.Channel (A.coming self.old.attend self.old.came) place channel }
        ensures moved { Moved T.Talk (F.makes self.old.maker) (states C.Channel A.Attend self.old) (states C.Channel A.Attend self.new) }
        ensures maker { self.new.maker ≡ self.old.maker }
        ensures waiting { self.new.waiting.items ≡ self.old.waiting.items }
        ensures limits { self.new.limits ≡ self.old.limits }
        ensures looks { self.new.looks ≡ self.old.looks }
        ensures lock { self.new.lock ≡ self.old.lock }
    {
        let client = self.came;
        let Some(next) = client.checked_add(1) else {
            return;
        };
        let is_guest = self.maker.has_strangers(place);
        if self.strangers.come(client, self.time, is_guest).is_err() {
            return;
        }
        let is_limited = self.limits.idle.is_some() || (is_guest && self.limits.login.is_some());
        let peer = Peer::new(self.alloc, talk, channel, is_limited, is_guest, self.time);
        if self.peers.insert(client, peer).is_ok() {
            self.came = next;
            self.guests = count_with(self.guests, is_guest);
            self.welcome(client);
        } else {
            self.strangers.take_out(client);
        }
    }

    // A client that has come is listed. Where more are there now than may be, a stranger ends for it,
    // and the others have a turn before one more is taken.
    fn welcome(&mut self, client: u32)
        ensures moved { Moved T.Talk (F.makes self.old.maker) (states C.Channel A.Attend self.old) (states C.Channel A.Attend self.new) }
        ensures maker { self.new.maker ≡ self.old.maker }
        ensures waiting { self.new.waiting.items ≡ self.old.waiting.items }
        ensures limits { self.new.limits ≡ self.old.limits }
        ensures looks { self.new.looks ≡ self.old.looks }
        ensures lock { self.new.lock ≡ self.old.lock }
    {
        self.turns.list(client);
        note_look(
            &mut self.turns,
            &self.peers,
            client,
            self.time,
            self.limits.idle,
        );
        note_stranger_look(&mut self.turns, &self.strangers, self.time);
        if self.end_stranger() {
            self.turns.end_arrivals();
        }
    }

    /// Has the stranger end that came first, where it is to end, and tells whether.
    pub(crate) fn end_stranger(&mut self) -> bool
        ensures moved { Moved T.Talk (F.makes self.old.maker) (states C.Channel A.Attend self.old) (states C.Channel A.Attend self.new) }
        ensures maker { self.new.maker ≡ self.old.maker }
        ensures waiting { self.new.waiting.items ≡ self.old.waiting.items }
        ensures limits { self.new.limits ≡ self.old.limits }
        ensures looks { self.new.looks ≡ self.old.looks }
        ensures lock { self.new.lock ≡ self.old.lock }
        ensures told { IsTurnedOut (who_ends (nat_lt self.old.limits.at_once (length self.old.peers.entries) || nat_lt self.old.limits.guests self.old.guests) self.old.strangers) (get nat_eq self.old.peers) (get nat_eq self.new.peers) }
    {
        let is_crowded = self.peers.len() > self.limits.at_once || self.guests > self.limits.guests;
        match self.strangers.who_ends(is_crowded) {
            Some(client) => {
                self.turn_out(client);
                true
            }
            None => false,
        }
    }

    // A stranger is to end, before anything else is done.
    fn turn_out(&mut self, client: u32)
        ensures moved { Moved T.Talk (F.makes self.old.maker) (states C.Channel A.Attend self.old) (states C.Channel A.Attend self.new) }
        ensures maker { self.new.maker ≡ self.old.maker }
        ensures waiting { self.new.waiting.items ≡ self.old.waiting.items }
        ensures limits { self.new.limits ≡ self.old.limits }
        ensures looks { self.new.looks ≡ self.old.looks }
        ensures lock { self.new.lock ≡ self.old.lock }
        ensures others { (c : ℕ) → c ≢ client → get nat_eq self.new.peers c ≡ get nat_eq self.old.peers c }
        ensures ends { IfSome (get nat_eq self.new.peers client) (λ p. p.is_turned_out ≡ true) }
    {
        self.strangers.take_out(client);
        note_stranger_look(&mut self.turns, &self.strangers, self.time);
        turn_out(&mut self.peers, client);
        self.turns.note_leaving(client);
    }
}

// How many guests are there with one more, where it is one.
fn count_with(guests: usize, is_guest: bool) -> usize
    ensures { guests ≢ 2 ^ 64 - 1 → result ≡ (if is_guest then guests + 1 else guests) }
{
    if is_guest {
        guests.saturating_add(1)
    } else {
        guests
    }
}

/// How many guests are there without one that goes, where it is one.
pub(crate) fn count_without(guests: usize, is_guest: bool) -> usize
    ensures { result ≡ (if is_guest then guests - 1 else guests) }
{
    if is_guest {
        guests.saturating_sub(1)
    } else {
        guests
    }
}

// What one is told who comes to a place while as many are there as may be.
fn refusal_at(refusal: &Vec<Vec<u8>>, place: usize) -> &[u8] {
    match refusal.get(place) {
        Some(said) => said,
        None => &[],
    }
}
