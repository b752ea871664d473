//! The limits of the clients that are there: how long one may be silent.

ghost use Rattle.std.specs.Prelude.{◌≡◌, ◌≢◌, ℕ, [], nat_eq};
ghost use Rattle.indexmap.specs.IndexMap.{get};
ghost use Rattle.polled_clients.specs.ClientStates.{GoesOn, has_session};

use crate::peer::Peer;
use crate::turns::Turns;
use channels::channel::Channel;
use indexmap::IndexMap;
use std::time::Duration;
use talks::talk::Talk;

/// How many seconds there are between two looks at the limits of a client, at most.
const LOOK_SECONDS: u64 = 1;

/// Looks at the limits of a client. All who had sent something were read since it was `asked` who had.
pub fn look_after<T: Talk, C: Channel>(
    peers: &mut IndexMap<u32, Peer<T, C>>,
    client: u32,
    asked: Duration,
    now: Duration,
    idle: Option<Duration>,
)
    ensures here { GoesOn T.Talk C.Channel (get nat_eq peers.old client) [] (get nat_eq peers.new client) }
    ensures session { has_session (get nat_eq peers.new client) ≡ has_session (get nat_eq peers.old client) }
    ensures others { (c : ℕ) → c ≢ client → get nat_eq peers.new c ≡ get nat_eq peers.old c }
{
    if let Some(peer) = peers.get_mut(&client) {
        peer.look_after(asked, now, idle);
    }
}

/// Notes when the limits of a client are to be looked at again.
pub fn note_look<T: Talk, C: Channel>(
    turns: &mut Turns,
    peers: &IndexMap<u32, Peer<T, C>>,
    client: u32,
    now: Duration,
    idle: Option<Duration>,
) {
    if let Some(until) = next_look(peers, client, idle) {
        let second = now.saturating_add(Duration::from_secs(LOOK_SECONDS));
        turns.looks.note(until.min(second), now);
    }
}

// When the limits of a client are to be looked at, if they are.
fn next_look<T: Talk, C: Channel>(
    peers: &IndexMap<u32, Peer<T, C>>,
    client: u32,
    idle: Option<Duration>,
) -> Option<Duration> {
    peers.get(&client)?.next_look(idle)
}

/// The client of an index, from 0 on.
pub fn client_at<T: Talk, C: Channel>(
    peers: &IndexMap<u32, Peer<T, C>>,
    index: usize,
) -> Option<u32> {
    let (client, _) = peers.get_index(index)?;
    Some(*client)
}
