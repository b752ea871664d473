//! When what was said to a client goes out.

use crate::need::{EndOrder, is_question};
use crate::peer::Peer;
use crate::times::is_past;
use channels::channel::Channel;
use std::time::Duration;
use talks::talk::Talk;

/// So many bytes that have not gone out, and they wait for no more.
const SEND_SIZE: usize = 8_192;

impl<T: Talk, C: Channel> Peer<T, C> {
    /// Whether what was said goes out now. It waits for what is said next where that comes at once
    /// (`Peer::has_more_coming`), but never behind a step, at an end, or where nothing but that is to be done.
    pub(crate) fn is_due(&self, order: EndOrder) -> bool {
        if self.queue.is_empty() || self.is_late() {
            return false;
        }
        if self.is_held_up(order) || self.cause(order).is_some() {
            return true;
        }
        !self.is_blocked && !self.has_more_coming()
    }

    // Whether more is said to it at once, and little waits: it has a question, or it is to hear a message
    // that is held.
    fn has_more_coming(&self) -> bool {
        self.has_said_little() && (is_question(self.talk.want()) || self.has_message())
    }

    /// Whether less has not gone out than goes out in one write.
    pub(crate) fn has_said_little(&self) -> bool {
        self.queue.len() < SEND_SIZE
    }

    /// Whether what was said is to go out later.
    pub(crate) fn is_late(&self) -> bool {
        self.late_until.is_some() && !is_past(self.late_until, self.time)
    }

    /// Until when what was said does not go out, where that is late.
    pub fn late_until(&self) -> Option<Duration> {
        if self.is_late() {
            self.late_until
        } else {
            None
        }
    }
}
