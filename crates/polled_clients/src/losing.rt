//! Who has lost its role, and goes before anything is served.

ghost use Rattle.std.specs.Prelude.{◌≡◌, ◌⊎◌, ℕ, List, Some, None, IfSome, nat_eq, true, false};
ghost use Rattle.indexmap.specs.IndexMap.{get};
ghost use Rattle.talks.specs.Clients.{IsNext, HasLost, NoneHasLost};
ghost use Rattle.polled_clients.specs.ClientStates.{states, IsLooked, HasLostItsRole};
ghost use Rattle.polled_clients.specs.LockWatches.{contention_of};

use crate::clients::{PolledClients, TalkMaker};
use crate::peer::Peer;
use crate::peers::list_owed;
use channels::attend::Attend;
use channels::channel::Channel;
use indexmap::IndexMap;
use talks::clients::Next;
use talks::machine::Machine;
use talks::talk::Talk;

impl<T: Talk + Drop, C: Channel + Drop, A: Attend<C>, F: TalkMaker<T>> PolledClients<T, C, A, F> {
    /// What was found to do, unless one goes first that has lost its role: then its turn is next.
    pub(crate) fn unless_lost<M: Machine>(&mut self, machine: &M, next: Next) -> Option<Next>
        requires { IsLooked T.Talk (M.stopped machine.now) (states C.Channel A.Attend self.old) self.old.waiting.items (contention_of self.old.lock) (Some self.old.limits.connections) self.old.refusals self.old.looks next }
        ensures same { self.new ≡ record self.old { turns = self.new.turns; lock = record self.old.lock { expelled = self.new.lock.expelled } } }
        ensures expels { M.IsSound machine.now → (self.new.lock.expelled ≡ self.old.lock.expelled)
            ⊎ ((self.old.lock.expelled ≡ None) × ((c : ℕ) × (self.new.lock.expelled ≡ Some c) × HasLost T.Talk (M.Has machine.now) (M.LacksRole machine.now) (states C.Channel A.Attend self.old) c)) }
        ensures next { IfSome result (λ n. IsNext T.Talk (M.stopped machine.now) (M.MayHaveDropped machine.now) (M.Has machine.now) (M.LacksRole machine.now) (states C.Channel A.Attend self.new) self.new.waiting.items (contention_of self.new.lock) (Some self.new.limits.connections) self.new.refusals self.new.looks n) }
    {
        match next {
            Next::Step { client } => self.unless_expelled(machine, client, next),
            Next::Question { client } => self.unless_expelled(machine, client, next),
            Next::Left {
                client: _,
                end_cause: _,
            } => Some(next),
            Next::Ended(_) => Some(next),
        }
    }

    // The same of what is to be done for a client that is served.
    fn unless_expelled<M: Machine>(&mut self, machine: &M, client: u32, next: Next) -> Option<Next>
        ensures same { self.new ≡ record self.old { turns = self.new.turns; lock = record self.old.lock { expelled = self.new.lock.expelled } } }
        ensures expels { M.IsSound machine.now → (self.new.lock.expelled ≡ self.old.lock.expelled)
            ⊎ ((self.old.lock.expelled ≡ None) × ((c : ℕ) × (self.new.lock.expelled ≡ Some c) × HasLost T.Talk (M.Has machine.now) (M.LacksRole machine.now) (states C.Channel A.Attend self.old) c)) }
        ensures none { IfSome result (λ n. (n ≡ next) × (self.new.lock.expelled ≡ None)
            × NoneHasLost T.Talk (M.MayHaveDropped machine.now) (M.Has machine.now) (M.LacksRole machine.now) (states C.Channel A.Attend self.old)) }
    {
        self.lock.expelled = self.goes_first(machine);
        match self.lock.expelled {
            Some(lost) => {
                self.turns.note_leaving(lost);
                list_owed(&mut self.turns, &self.peers, client);
                None
            }
            None => Some(next),
        }
    }

    /// Notes who goes first since its role was dropped, whatever is to be done: its turn is next, or comes
    /// once who leaves has gone.
    pub(crate) fn expel_lost<M: Machine>(&mut self, machine: &M)
        ensures same { self.new ≡ record self.old { turns = self.new.turns; lock = record self.old.lock { expelled = self.new.lock.expelled } } }
        ensures expels { M.IsSound machine.now → (self.new.lock.expelled ≡ self.old.lock.expelled)
            ⊎ ((self.old.lock.expelled ≡ None) × ((c : ℕ) × (self.new.lock.expelled ≡ Some c) × HasLost T.Talk (M.Has machine.now) (M.LacksRole machine.now) (states C.Channel A.Attend self.old) c)) }
    {
        if self.turns.is_somebody_leaving() {
            return;
        }
        self.lock.expelled = self.goes_first(machine);
        if let Some(lost) = self.lock.expelled {
            self.turns.note_leaving(lost);
        }
    }

    // Who goes first since its role was dropped: who does already, or the first that is found where the
    // machine's last step may have dropped a role.
    fn goes_first<M: Machine>(&self, machine: &M) -> Option<u32>
        ensures lost { M.IsSound machine.now → (result ≡ self.now.lock.expelled)
            ⊎ ((self.now.lock.expelled ≡ None) × ((c : ℕ) × (result ≡ Some c) × HasLost T.Talk (M.Has machine.now) (M.LacksRole machine.now) (states C.Channel A.Attend self.now) c)) }
        ensures none { result ≡ None → NoneHasLost T.Talk (M.MayHaveDropped machine.now) (M.Has machine.now) (M.LacksRole machine.now) (states C.Channel A.Attend self.now) }
    {
        if self.lock.expelled.is_some() || !machine.may_have_dropped() {
            return self.lock.expelled;
        }
        first_lost(machine, &self.peers, self.came)
    }
}

// The first client that has lost its role, of whom so many have come.
fn first_lost<M: Machine, T: Talk, C: Channel>(
    machine: &M,
    peers: &IndexMap<u32, Peer<T, C>>,
    came: u32,
) -> Option<u32>
    ensures some { M.IsSound machine.now → IfSome result (λ c. HasLostItsRole T.Talk (M.Has machine.now) (M.LacksRole machine.now) came c (get nat_eq peers.now c)) }
    ensures none { result ≡ None → (c : ℕ) → HasLostItsRole T.Talk (M.Has machine.now) (M.LacksRole machine.now) came c (get nat_eq peers.now c) → ⊥ }
{
    for place in 0..peers.len() {
        if let Some((client, _)) = peers.get_index(place) {
            if is_lost(machine, peers, came, *client) {
                return Some(*client);
            }
        }
    }
    None
}

// Whether a client has lost its role.
fn is_lost<M: Machine, T: Talk, C: Channel>(
    machine: &M,
    peers: &IndexMap<u32, Peer<T, C>>,
    came: u32,
    client: u32,
) -> bool
    ensures lost { result ≡ true → M.IsSound machine.now → HasLostItsRole T.Talk (M.Has machine.now) (M.LacksRole machine.now) came client (get nat_eq peers.now client) }
    ensures none { result ≡ false → HasLostItsRole T.Talk (M.Has machine.now) (M.LacksRole machine.now) came client (get nat_eq peers.now client) → ⊥ }
{
    match peers.get(&client) {
        Some(peer) => {
            client < came && (machine.has_lost_role(client) || comes_as_none(machine, &peer.talk))
        }
        None => false,
    }
}

// Whether a client has shown to come as a role that is none.
fn comes_as_none<M: Machine, T: Talk>(machine: &M, talk: &T) -> bool
    ensures lost { result ≡ true → M.IsSound machine.now → (role : List ℕ) × (T.comes_as talk.now ≡ Some role) × M.LacksRole machine.now role }
    ensures none { result ≡ false → (role : List ℕ) → T.comes_as talk.now ≡ Some role → M.LacksRole machine.now role → ⊥ }
{
    match talk.comes_as() {
        Some(role) => machine.lacks_role(role),
        None => false,
    }
}
