//! Who is there, and no session was opened for it yet.

ghost use Rattle.std.specs.Prelude.{◌≡◌, [], OnOk, OnErr, nat_eq, if◌then◌else◌};
ghost use Rattle.indexmap.specs.IndexMap.{get};
ghost use Rattle.polled_clients.specs.ClientStates.{has_session};
ghost use Rattle.polled_clients.specs.Strangers.{is_granted, opens_session, with_guest, without_stranger, who_ends};

use crate::lock_watch::is_over;
use crate::peer::Peer;
use crate::peers::has_session;
use crate::turns::Turns;
use channels::channel::Channel;
use indexmap::IndexMap;
use sql_types::answer::Answer;
use std::alloc::{AllocError, Global};
use std::time::Duration;
use talks::talk::Talk;
use talks::want::{Reply, Want};

/// How many strangers are there at once, at most.
const MOST: usize = 32;

/// A client that is there, and no session was opened for it yet.
#[derive(Clone, Copy)]
pub struct Stranger {
    pub client: u32,
    /// When it came.
    pub came: Duration,
}

/// The strangers that are there, where it is limited for how long. The first came first.
#[derive(Drop)]
pub struct Strangers {
    pub queue: Vec<Stranger>,
    /// How long one may be there.
    pub limit: Option<Duration>,
    /// The moment of the last look: it is judged by it who was there for as long as it may.
    pub asked: Duration,
}

impl Strangers {
    /// Nobody is there. One may be for so long, where that is limited.
    pub fn new(alloc: Global, limit: Option<Duration>) -> Strangers
        ensures queue { result.queue.items ≡ [] }
        ensures limit { result.limit ≡ limit }
    {
        Strangers {
            queue: Vec::new(alloc),
            limit,
            asked: Duration::ZERO,
        }
    }

    /// A client comes at this moment, to a place that has strangers, or to another. The only error is
    /// that an allocation failed.
    pub fn come(&mut self, client: u32, now: Duration, is_guest: bool) -> Result<(), AllocError>
        ensures ok { OnOk result (self.new.queue.items ≡ with_guest is_guest self.old.limit (record { client = client; came = now }) self.old.queue.items) }
        ensures err { OnErr result (self.new.queue.items ≡ self.old.queue.items) }
        ensures limit { self.new.limit ≡ self.old.limit }
        ensures asked { self.new.asked ≡ self.old.asked }
    {
        if !is_guest || self.limit.is_none() {
            return Ok(());
        }
        self.queue.push(Stranger { client, came: now })?;
        Ok(())
    }

    /// Takes a client out: a session was opened for it, or its connection ends.
    pub fn take_out(&mut self, client: u32)
        ensures queue { self.new.queue.items ≡ without_stranger client self.old.queue.items }
        ensures limit { self.new.limit ≡ self.old.limit }
        ensures asked { self.new.asked ≡ self.old.asked }
    {
        self.queue.retain(|stranger| stranger.client != client);
    }

    /// Looks for how long they are there. All who had sent something were read since it was `asked`
    /// who had.
    pub fn look(&mut self, asked: Duration)
        ensures { self.new ≡ record self.old { asked = asked } }
    {
        self.asked = asked;
    }

    /// Whether one is there.
    pub fn is_any(&self) -> bool {
        !self.queue.is_empty()
    }

    /// Who is to end: the one that came first, where `crowded` tells that its place is wanted, where
    /// more are there than may be, or where it was there for as long as it may.
    pub fn who_ends(&self, crowded: bool) -> Option<u32>
        ensures { result ≡ who_ends crowded self.now }
    {
        let stranger = self.queue.first()?;
        if crowded || self.queue.len() > MOST || is_over(self.asked, self.limit, stranger.came) {
            return Some(stranger.client);
        }
        None
    }

    /// When the one that came first was there for as long as it may, if ever.
    pub fn until(&self) -> Option<Duration> {
        let stranger = self.queue.first()?;
        Some(stranger.came.saturating_add(self.limit?))
    }
}

/// Notes when it is to be looked again for how long strangers are there.
pub fn note_stranger_look(turns: &mut Turns, strangers: &Strangers, now: Duration) {
    if let Some(until) = strangers.until() {
        turns.looks.note(until, now);
    }
}

/// A client has learnt something: it is no stranger any more where a session was opened for it.
pub fn note_session<T: Talk, C: Channel>(
    strangers: &mut Strangers,
    peers: &IndexMap<u32, Peer<T, C>>,
    client: u32,
)
    ensures queue { strangers.new.queue.items ≡ (if has_session (get nat_eq peers.now client) then without_stranger client strangers.old.queue.items else strangers.old.queue.items) }
{
    if has_session(peers, client) {
        strangers.take_out(client);
    }
}

/// Whether a session was wanted, and was opened.
pub fn opens_session(want: &Want, reply: &Reply) -> bool
    ensures { result ≡ opens_session want.now reply.now }
{
    match want {
        Want::Open {
            session: _,
            login: _,
            entry: _,
        } => is_granted(reply),
        _ => false,
    }
}

// Whether it is an answer that is no refusal.
fn is_granted(reply: &Reply) -> bool
    ensures { result ≡ is_granted reply.now }
{
    match reply {
        Reply::Answer(Answer::Refused(_)) => false,
        Reply::Answer(_) => true,
        _ => false,
    }
}
