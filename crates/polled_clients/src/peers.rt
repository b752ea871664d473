//! The clients that are there, by their numbers.

ghost use Rattle.std.specs.Prelude.{◌≡◌, ◌≢◌, ◌||◌, ℕ, [], Some, None, IfSome, nat_eq, true};
ghost use Rattle.indexmap.specs.IndexMap.{get};
ghost use Rattle.talks.specs.Wants.{FitsWant};
ghost use Rattle.talks.specs.Conversations.{unless_ended};
ghost use Rattle.talks.specs.declared.want.Want.{Want as TheWant};
ghost use Rattle.polled_clients.specs.Strangers.{opens_session};
ghost use Rattle.polled_clients.specs.ClientStates.{GoesOn, Learns, HasNeedHere, IsSomeWaited, has_session};

use crate::need::{EndOrder, Need, Pick};
use crate::peer::Peer;
use crate::turns::Turns;
use channels::channel::Channel;
use indexmap::IndexMap;
use std::time::Duration;
use talks::talk::Talk;
use talks::want::Reply;

/// Gives a client its turn: does what there is to do for it, or gives out its step that has waited. What
/// comes of it is read into `buffer`.
pub fn take_turn<T: Talk, C: Channel>(
    peers: &mut IndexMap<u32, Peer<T, C>>,
    pick: Pick,
    order: EndOrder,
    now: Duration,
    buffer: &mut Vec<u8>,
) -> Need
    ensures here { GoesOn T.Talk C.Channel (get nat_eq peers.old pick.client) [] (get nat_eq peers.new pick.client) }
    ensures session { has_session (get nat_eq peers.new pick.client) ≡ has_session (get nat_eq peers.old pick.client) }
    ensures others { (c : ℕ) → c ≢ pick.client → get nat_eq peers.new c ≡ get nat_eq peers.old c }
    ensures need { HasNeedHere T.Talk C.Channel order result (get nat_eq peers.new pick.client) }
{
    match peers.get_mut(&pick.client) {
        Some(peer) => peer.take_turn(pick.offered, order, now, buffer),
        None => Need::Nothing,
    }
}

/// Something may have come of a client, or may go out to it.
pub fn rouse<T: Talk, C: Channel>(peers: &mut IndexMap<u32, Peer<T, C>>, client: u32)
    ensures here { GoesOn T.Talk C.Channel (get nat_eq peers.old client) [] (get nat_eq peers.new client) }
    ensures session { has_session (get nat_eq peers.new client) ≡ has_session (get nat_eq peers.old client) }
    ensures others { (c : ℕ) → c ≢ client → get nat_eq peers.new c ≡ get nat_eq peers.old c }
{
    if let Some(peer) = peers.get_mut(&client) {
        peer.rouse();
    }
}

/// A client waits until then.
pub fn hold<T: Talk, C: Channel>(
    peers: &mut IndexMap<u32, Peer<T, C>>,
    client: u32,
    until: Duration,
)
    ensures here { GoesOn T.Talk C.Channel (get nat_eq peers.old client) [] (get nat_eq peers.new client) }
    ensures session { has_session (get nat_eq peers.new client) ≡ has_session (get nat_eq peers.old client) }
    ensures others { (c : ℕ) → c ≢ client → get nat_eq peers.new c ≡ get nat_eq peers.old c }
{
    if let Some(peer) = peers.get_mut(&client) {
        peer.hold(until);
    }
}

/// The conversation with a client wants its end, since an allocation has failed.
pub fn give_up<T: Talk, C: Channel>(peers: &mut IndexMap<u32, Peer<T, C>>, client: u32)
    requires { IfSome (get nat_eq peers.old client) (λ p. p.end_cause ≡ None) }
    ensures here { GoesOn T.Talk C.Channel (get nat_eq peers.old client) [] (get nat_eq peers.new client) }
    ensures session { has_session (get nat_eq peers.new client) ≡ has_session (get nat_eq peers.old client) }
    ensures others { (c : ℕ) → c ≢ client → get nat_eq peers.new c ≡ get nat_eq peers.old c }
    ensures wants { IfSome (get nat_eq peers.new client) (λ p. unless_ended p.end_cause (T.wants p.talk) ≡ Some TheWant.OutOfMemory) }
{
    if let Some(peer) = peers.get_mut(&client) {
        peer.give_up();
    }
}

/// A client learns what it wanted.
pub fn teach<T: Talk, C: Channel>(peers: &mut IndexMap<u32, Peer<T, C>>, client: u32, reply: Reply)
    requires { IfSome (get nat_eq peers.old client) (λ p. (p.end_cause ≡ None) × FitsWant (T.wants p.talk) reply) }
    ensures here { Learns T.Talk C.Channel (get nat_eq peers.old client) reply (get nat_eq peers.new client) }
    ensures session { IfSome (get nat_eq peers.old client) (λ p. has_session (get nat_eq peers.new client) ≡ (p.has_session || opens_session (T.wants p.talk) reply)) }
    ensures others { (c : ℕ) → c ≢ client → get nat_eq peers.new c ≡ get nat_eq peers.old c }
{
    if let Some(peer) = peers.get_mut(&client) {
        peer.learn(reply);
    }
}

/// A client is to end, unless a session was opened for it.
pub fn turn_out<T: Talk, C: Channel>(peers: &mut IndexMap<u32, Peer<T, C>>, client: u32)
    ensures here { GoesOn T.Talk C.Channel (get nat_eq peers.old client) [] (get nat_eq peers.new client) }
    ensures session { has_session (get nat_eq peers.new client) ≡ has_session (get nat_eq peers.old client) }
    ensures others { (c : ℕ) → c ≢ client → get nat_eq peers.new c ≡ get nat_eq peers.old c }
    ensures ends { IfSome (get nat_eq peers.new client) (λ p. p.is_turned_out ≡ true) }
{
    if let Some(peer) = peers.get_mut(&client) {
        peer.turn_out();
    }
}

/// Whether a session was opened for a client.
pub fn has_session<T: Talk, C: Channel>(peers: &IndexMap<u32, Peer<T, C>>, client: u32) -> bool
    ensures { result ≡ has_session (get nat_eq peers.now client) }
{
    match peers.get(&client) {
        Some(peer) => peer.has_session(),
        None => false,
    }
}

/// Whether nobody is there.
pub fn is_nobody<T: Talk, C: Channel>(peers: &IndexMap<u32, Peer<T, C>>) -> bool
    ensures { result ≡ true → (c : ℕ) → get nat_eq peers.now c ≡ None }
{
    peers.is_empty()
}

// Whether there is something to do for a client at once.
fn owes<T: Talk, C: Channel>(peers: &IndexMap<u32, Peer<T, C>>, client: u32) -> bool {
    match peers.get(&client) {
        Some(peer) => peer.owes(),
        None => false,
    }
}

// Until when what was said to a client does not go out, where that is late.
fn late_until<T: Talk, C: Channel>(
    peers: &IndexMap<u32, Peer<T, C>>,
    client: u32,
) -> Option<Duration> {
    peers.get(&client)?.late_until()
}

/// Lists a client where there is something to do for it at once, or notes when there will be.
pub fn list_owed<T: Talk, C: Channel>(
    turns: &mut Turns,
    peers: &IndexMap<u32, Peer<T, C>>,
    client: u32,
) {
    if owes(peers, client) {
        turns.list(client);
    } else if let Some(until) = late_until(peers, client) {
        turns.looks.note(until, Duration::ZERO);
    }
}

/// Whether a client has waited as long as it may.
pub fn has_waited<T: Talk, C: Channel>(peers: &IndexMap<u32, Peer<T, C>>, client: u32) -> bool
    ensures { result ≡ true → IsSomeWaited (get nat_eq peers.now client) }
{
    match peers.get(&client) {
        Some(peer) => peer.has_waited(),
        None => false,
    }
}

/// Anyone who is there.
pub fn any<T: Talk, C: Channel>(peers: &IndexMap<u32, Peer<T, C>>) -> Option<u32> {
    let (client, _) = peers.get_index(0)?;
    Some(*client)
}
