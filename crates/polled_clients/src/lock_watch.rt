//! Who holds the writer lock that others want, and for how long.

ghost use Rattle.std.specs.Prelude.{◌≡◌, None};
ghost use Rattle.talks.specs.Wants.{refuses_lock};
ghost use Rattle.talks.specs.Clients.{is_client, unless_client, forgotten};
ghost use Rattle.polled_clients.specs.LockWatches.{contention_of, holder_after, is_holding, time_after, is_over, looked, cut_off_by, without_holder};

use crate::turns::Turns;
use sql_types::answer::Answer;
use sql_types::state::SqlState;
use std::time::Duration;
use talks::want::Reply;

/// For how long a client holds the writer lock that another wants.
#[derive(Clone, Copy)]
pub enum HoldTime {
    /// It was not looked at since another wants it.
    New,
    /// Since this moment, or longer.
    Since(Duration),
    /// For as long as it may.
    Over,
}

/// A client that holds the writer lock, for which a step of another was held back or refused since it
/// does.
#[derive(Clone, Copy)]
pub struct WantedHolder {
    pub client: u32,
    pub time: HoldTime,
}

/// Who holds the writer lock that others want, and who was cut off for that; and who goes since its role
/// was dropped.
#[derive(Clone, Copy)]
pub struct LockWatch {
    pub holder: Option<WantedHolder>,
    pub cut_off: Option<u32>,
    pub limit: Option<Duration>,
    pub expelled: Option<u32>,
}

impl LockWatch {
    /// Nobody holds it. One may hold it for so long once another wants it, where that is limited.
    pub fn new(limit: Option<Duration>) -> LockWatch
        ensures { result ≡ record { holder = None; cut_off = None; limit = limit; expelled = None } }
    {
        LockWatch {
            holder: None,
            cut_off: None,
            limit,
            expelled: None,
        }
    }

    /// A client was told of a step, or held back, and then the lock is held so. `wants` tells whether
    /// it was held back or refused for the lock.
    pub fn note(&mut self, holder: Option<u32>, client: u32, wants: bool)
        ensures { self.new ≡ record self.old { holder = holder_after holder client wants self.old.holder } }
    {
        self.holder = holder_after(self.holder, holder, client, wants);
    }

    /// Looks for how long the lock was held, at this moment. All who had sent something were read since
    /// it was `asked` who had. Who had held it for as long as it may at the look before is cut off.
    pub fn look(&mut self, asked: Duration, now: Duration)
        ensures { self.new ≡ looked asked now self.old }
    {
        let Some(held) = self.holder else {
            return;
        };
        match held.time {
            HoldTime::New | HoldTime::Since(_) => {
                self.holder = Some(WantedHolder {
                    client: held.client,
                    time: time_after(asked, now, self.limit, held.time),
                });
            }
            HoldTime::Over => self.cut_off_holder(held.client),
        }
    }

    // Cuts a client off that has held it for as long as it may. One is at a time.
    fn cut_off_holder(&mut self, client: u32)
        ensures { self.new ≡ cut_off_by client self.old }
    {
        if self.limit.is_some() && self.cut_off.is_none() {
            self.cut_off = Some(client);
        }
    }

    /// A client was let go.
    pub fn forget(&mut self, client: u32)
        ensures { contention_of self.new ≡ forgotten client (contention_of self.old) }
    {
        self.holder = without_holder(self.holder, client);
        self.cut_off = without_client(self.cut_off, client);
        self.expelled = without_client(self.expelled, client);
    }

    /// Whether a client was cut off.
    pub fn is_cut_off(&self, client: u32) -> bool
        ensures { result ≡ is_client client self.now.cut_off }
    {
        is_client(self.cut_off, client)
    }

    /// Whether a client goes since its role was dropped.
    pub fn is_expelled(&self, client: u32) -> bool
        ensures { result ≡ is_client client self.now.expelled }
    {
        is_client(self.expelled, client)
    }

    /// When it is time to look again, if ever: as soon as may be, where it was not looked at yet.
    pub fn until(&self) -> Option<Duration> {
        let limit = self.limit?;
        match self.holder?.time {
            HoldTime::New | HoldTime::Over => Some(Duration::ZERO),
            HoldTime::Since(moment) => Some(moment.saturating_add(limit)),
        }
    }
}

// Who holds the lock, and for how long, once it is held so.
fn holder_after(
    old: Option<WantedHolder>,
    holder: Option<u32>,
    client: u32,
    wants: bool,
) -> Option<WantedHolder>
    ensures { result ≡ holder_after holder client wants old }
{
    let holder = holder?;
    if is_holding(old, holder) {
        return old;
    }
    if wants && holder != client {
        return Some(WantedHolder {
            client: holder,
            time: HoldTime::New,
        });
    }
    None
}

// Whether it is this client.
fn is_holding(holder: Option<WantedHolder>, client: u32) -> bool
    ensures { result ≡ is_holding client holder }
{
    match holder {
        Some(held) => held.client == client,
        None => false,
    }
}

// For how long it is held at a look.
fn time_after(asked: Duration, now: Duration, limit: Option<Duration>, time: HoldTime) -> HoldTime
    ensures { result ≡ time_after asked now limit time }
{
    match time {
        HoldTime::New => HoldTime::Since(now),
        HoldTime::Since(moment) => {
            if is_over(asked, limit, moment) {
                return HoldTime::Over;
            }
            time
        }
        HoldTime::Over => time,
    }
}

/// Whether the limit was reached by this moment, where there is one.
pub fn is_over(asked: Duration, limit: Option<Duration>, since: Duration) -> bool
    ensures { result ≡ is_over asked limit since }
{
    match limit {
        Some(limit) => limit.as_nanos() <= asked.saturating_sub(since).as_nanos(),
        None => false,
    }
}

// It is not held by this client.
fn without_holder(holder: Option<WantedHolder>, client: u32) -> Option<WantedHolder>
    ensures { result ≡ without_holder client holder }
{
    if is_holding(holder, client) {
        return None;
    }
    holder
}

// Whether it is this client.
fn is_client(one: Option<u32>, client: u32) -> bool
    ensures { result ≡ is_client client one }
{
    match one {
        Some(other) => other == client,
        None => false,
    }
}

// Who it is, unless it is this client.
fn without_client(one: Option<u32>, client: u32) -> Option<u32>
    ensures { result ≡ unless_client client one }
{
    match one {
        Some(other) => {
            if other == client {
                return None;
            }
            one
        }
        None => None,
    }
}

/// Lists who was cut off, and notes when it is to be looked again for how long the lock is held.
pub fn note_holder_look(turns: &mut Turns, lock: &LockWatch, now: Duration) {
    if let Some(client) = lock.cut_off {
        turns.list(client);
    }
    if let Some(until) = lock.until() {
        turns.looks.note(until, now);
    }
}

/// Whether a step was refused since another session holds the writer lock.
pub fn is_lock_refusal(reply: &Reply) -> bool
    ensures { result ≡ refuses_lock reply.now }
{
    match reply {
        Reply::Answer(Answer::Refused(state)) => matches!(state, SqlState::LockNotAvailable),
        _ => false,
    }
}
