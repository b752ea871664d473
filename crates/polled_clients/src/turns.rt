//! Whose turn it is, who comes, and who is woken. Nothing is promised of that.

ghost use Rattle.std.specs.Prelude.{IfOk};

use crate::clients::TalkMaker;
use crate::looks::Looks;
use crate::need::Pick;
use crate::times::{earlier, is_past};
use std::alloc::{AllocError, Global};
use std::collections::{HashSet, VecDeque};
use std::time::Duration;
use talks::talk::Talk;

/// How many are taken in a round, at most.
const ARRIVALS: u32 = 64;

/// After how many seconds one is tried again that could not be taken.
const LATER: u64 = 1;

/// Rounds of turns. In each, those that are listed when it begins have one turn, in their order.
#[derive(Drop)]
pub struct Turns {
    order: VecDeque<u32>,
    listed: HashSet<u32>,
    // How many turns are left of this round, and whether it is yet to begin.
    left: usize,
    begins: bool,
    // To whom something may have come.
    pub woken: Vec<u32>,
    // Whose connection has ended: it goes before anything else is done.
    leaving: Option<u32>,
    // Somebody may come, how many more are taken in this round, and when one is tried again.
    listens: bool,
    arrivals: u32,
    comes_again: Option<Duration>,
    // When limits are looked at.
    pub looks: Looks,
    // When it was asked who has something to do.
    asked: Duration,
    // The first that waits may be given out at the end of this round; its time is over; the lock may
    // have come free since it was.
    may_offer: bool,
    is_time: bool,
    has_changed: bool,
}

impl Turns {
    /// Nobody is listed, and somebody may come.
    pub(crate) fn new(alloc: Global) -> Turns {
        Turns {
            order: VecDeque::new(alloc),
            listed: HashSet::new(alloc),
            left: 0,
            begins: true,
            woken: Vec::new(alloc),
            leaving: None,
            listens: true,
            arrivals: ARRIVALS,
            comes_again: None,
            looks: Looks::new(),
            asked: Duration::ZERO,
            may_offer: false,
            is_time: false,
            has_changed: false,
        }
    }

    /// Makes room for so many, so that listing and waking take no memory.
    pub fn make_room(&mut self, count: usize) -> Result<(), AllocError> {
        self.order.reserve(count)?;
        self.listed.reserve(count)?;
        self.woken.reserve(count)
    }

    /// Lists a client that is not listed. Where memory is short it may be listed twice.
    pub fn list(&mut self, client: u32) {
        let is_listed = matches!(self.listed.insert(client), Ok(false));
        if !is_listed && self.order.push_back(client).is_err() {
            self.listed.remove(&client);
        }
    }

    /// The connection of a client has ended.
    pub fn note_leaving(&mut self, client: u32) {
        self.leaving = Some(client);
    }

    /// Whether somebody goes before anything else is done.
    pub fn is_somebody_leaving(&self) -> bool {
        self.leaving.is_some()
    }

    /// The writer lock may have come free.
    pub fn note_change(&mut self) {
        self.has_changed = true;
    }

    /// Nobody comes any more for now.
    pub fn note_nobody(&mut self) {
        self.listens = false;
    }

    /// No more are taken in this round.
    pub fn end_arrivals(&mut self) {
        self.arrivals = 0;
    }

    /// One that could not be taken is tried again later.
    pub fn note_later(&mut self, time: Duration) {
        self.listens = false;
        self.comes_again = Some(time.saturating_add(Duration::from_secs(LATER)));
    }

    /// Whether somebody may come and is taken in this round, which is counted.
    pub fn may_greet(&mut self) -> bool {
        if self.listens && self.arrivals > 0 {
            self.arrivals -= 1;
            return true;
        }
        false
    }

    /// Whose turn it is: first whose connection has ended, then the next that is listed, and at the end
    /// of a round the first that waits, where it is given out. Once a machine has stopped it is that
    /// of anyone who is there. Nobody has a turn before those that were woken are listed and those
    /// that come are taken.
    pub fn pick(&mut self, there: Option<u32>, waits: Option<u32>, stopped: bool) -> Option<Pick> {
        if let Some(client) = self.leaving.take() {
            return Some(Pick::of(client));
        }
        if stopped {
            return Some(Pick::of(there?));
        }
        if !self.woken.is_empty() || (self.listens && self.arrivals > 0) {
            return None;
        }
        match self.next() {
            Some(client) => Some(Pick::of(client)),
            None => self.offer(waits),
        }
    }

    // The first that waits, once in a round: where the lock may have come free, or its time was over
    // when the round began. All who had sent something by then were read before it: so its time does
    // not count where what frees the lock had come.
    fn offer(&mut self, waits: Option<u32>) -> Option<Pick> {
        let client = waits?;
        if !self.may_offer || !(self.has_changed || self.is_time) {
            return None;
        }
        self.may_offer = false;
        self.has_changed = false;
        Some(Pick {
            client,
            offered: Some(self.asked),
        })
    }

    // The next that is listed, while the round lasts.
    fn next(&mut self) -> Option<u32> {
        if self.begins {
            self.begins = false;
            self.left = self.order.len();
        }
        if self.left == 0 {
            return None;
        }
        self.left -= 1;
        let client = self.order.pop_front()?;
        self.listed.remove(&client);
        Some(client)
    }

    /// How long to wait at most before the next round, where the first that waits does so until then.
    pub fn within(&self, waits_until: Option<Duration>, time: Duration) -> Option<Duration> {
        let has_freed = self.has_changed && waits_until.is_some();
        if !self.order.is_empty() || self.listens || has_freed {
            return Some(Duration::ZERO);
        }
        let until = earlier(earlier(waits_until, self.comes_again), self.looks.at())?;
        Some(until.saturating_sub(time))
    }

    /// Begins a round: it was asked at this moment who has something to do, and somebody may come, or
    /// not. The first that waits does so until then.
    pub fn begin(&mut self, comes: bool, waits_until: Option<Duration>, asked: Duration) {
        let comes_again = is_past(self.comes_again, asked);
        if comes_again {
            self.comes_again = None;
        }
        self.listens = self.listens || comes || comes_again;
        self.arrivals = ARRIVALS;
        self.asked = asked;
        self.may_offer = true;
        self.is_time = is_past(waits_until, asked);
        self.begins = true;
    }
}

/// Makes room for so many, and a conversation for a place.
pub fn prepare<T: Talk, F: TalkMaker<T>>(
    turns: &mut Turns,
    maker: &F,
    place: usize,
    count: usize,
) -> Result<T, AllocError>
    ensures starts { IfOk result (λ talk. T.starts talk) }
    ensures made { IfOk result (λ talk. F.makes_at maker.now place talk) }
{
    turns.make_room(count)?;
    maker.make(place)
}
