//! The end of a round: the limits of those who are there are looked at.

ghost use Rattle.std.specs.Prelude.{◌≡◌};
ghost use Rattle.talks.specs.Clients.{CutsOff, Moved};
ghost use Rattle.polled_clients.specs.ClientStates.{states};
ghost use Rattle.polled_clients.specs.LockWatches.{contention_of};

use crate::clients::{PolledClients, TalkMaker};
use crate::limits::{client_at, look_after, note_look};
use crate::lock_watch::note_holder_look;
use crate::peers::list_owed;
use crate::strangers::note_stranger_look;
use channels::attend::Attend;
use channels::channel::Channel;
use talks::talk::Talk;

impl<T: Talk + Drop, C: Channel + Drop, A: Attend<C>, F: TalkMaker<T>> PolledClients<T, C, A, F> {
    /// At the end of a round: looks at the limits of one client, where it is time for that, or asks
    /// who may have something to do.
    pub(crate) fn end_round(&mut self)
        ensures moved { Moved T.Talk (F.makes self.old.maker) (states C.Channel A.Attend self.old) (states C.Channel A.Attend self.new) }
        ensures maker { self.new.maker ≡ self.old.maker }
        ensures waiting { self.new.waiting.items ≡ self.old.waiting.items }
        ensures limits { self.new.limits ≡ self.old.limits }
        ensures looks { self.new.looks ≡ self.old.looks }
        ensures contention { CutsOff (contention_of self.old.lock) (contention_of self.new.lock) }
    {
        if self.turns.looks.begin() {
            self.strangers.look(self.turns.looks.asked());
            self.note_time();
            self.look_at_holder();
        } else if !self.end_stranger() {
            self.look_or_poll();
        }
    }

    // Looks at the limits of the next client, while a look lasts, or asks who may have something to do.
    fn look_or_poll(&mut self)
        ensures moved { Moved T.Talk (F.makes self.old.maker) (states C.Channel A.Attend self.old) (states C.Channel A.Attend self.new) }
        ensures maker { self.new.maker ≡ self.old.maker }
        ensures waiting { self.new.waiting.items ≡ self.old.waiting.items }
        ensures limits { self.new.limits ≡ self.old.limits }
        ensures looks { self.new.looks ≡ self.old.looks }
        ensures lock { self.new.lock ≡ self.old.lock }
    {
        match self.turns.looks.next(self.peers.len()) {
            Some(index) => self.look_at_index(index),
            None => self.poll(),
        }
    }

    // Looks for how long the lock is held that others want, and lists who was cut off.
    fn look_at_holder(&mut self)
        ensures moved { Moved T.Talk (F.makes self.old.maker) (states C.Channel A.Attend self.old) (states C.Channel A.Attend self.new) }
        ensures maker { self.new.maker ≡ self.old.maker }
        ensures waiting { self.new.waiting.items ≡ self.old.waiting.items }
        ensures limits { self.new.limits ≡ self.old.limits }
        ensures looks { self.new.looks ≡ self.old.looks }
        ensures contention { CutsOff (contention_of self.old.lock) (contention_of self.new.lock) }
    {
        self.lock.look(self.turns.looks.asked(), self.time);
        note_holder_look(&mut self.turns, &self.lock, self.time);
        note_stranger_look(&mut self.turns, &self.strangers, self.time);
    }

    // Looks at the limits of the client of an index.
    fn look_at_index(&mut self, index: usize)
        ensures moved { Moved T.Talk (F.makes self.old.maker) (states C.Channel A.Attend self.old) (states C.Channel A.Attend self.new) }
        ensures maker { self.new.maker ≡ self.old.maker }
        ensures waiting { self.new.waiting.items ≡ self.old.waiting.items }
        ensures limits { self.new.limits ≡ self.old.limits }
        ensures looks { self.new.looks ≡ self.old.looks }
        ensures lock { self.new.lock ≡ self.old.lock }
    {
        if let Some(client) = client_at(&self.peers, index) {
            self.look_after(client);
        }
    }

    // Looks at the limits of a client.
    fn look_after(&mut self, client: u32)
        ensures moved { Moved T.Talk (F.makes self.old.maker) (states C.Channel A.Attend self.old) (states C.Channel A.Attend self.new) }
        ensures maker { self.new.maker ≡ self.old.maker }
        ensures waiting { self.new.waiting.items ≡ self.old.waiting.items }
        ensures limits { self.new.limits ≡ self.old.limits }
        ensures looks { self.new.looks ≡ self.old.looks }
        ensures lock { self.new.lock ≡ self.old.lock }
    {
        let idle = self.limits.idle;
        let asked = self.turns.looks.asked();
        look_after(&mut self.peers, client, asked, self.time, idle);
        note_look(&mut self.turns, &self.peers, client, self.time, idle);
        list_owed(&mut self.turns, &self.peers, client);
    }
}
