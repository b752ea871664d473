//! Why the connection of a client ends.

ghost use Rattle.std.specs.Prelude.{◌≡◌, true, IfSome};
ghost use Rattle.polled_clients.specs.Peers.{MayEnd, has_passed_limit};

use crate::need::{EndOrder, is_end, is_message, is_out_of_memory, is_question, is_step};
use crate::peer::Peer;
use crate::times::{after, earlier};
use channels::channel::Channel;
use std::time::Duration;
use talks::clients::EndCause;
use talks::talk::Talk;

impl<T: Talk, C: Channel> Peer<T, C> {
    /// Why its connection is to end, if it is.
    pub(crate) fn cause(&self, order: EndOrder) -> Option<EndCause>
        ensures { IfSome result (λ w. MayEnd T.Talk C.Channel order self.now w) }
    {
        if self.has_cause(EndCause::Failed, order) {
            return Some(EndCause::Failed);
        }
        if self.has_cause(EndCause::Memory, order) {
            return Some(EndCause::Memory);
        }
        if self.has_cause(EndCause::Finished, order) {
            return Some(EndCause::Finished);
        }
        if !self.can_send() && self.has_cause(EndCause::Stopped, order) {
            return Some(EndCause::Stopped);
        }
        if self.has_cause(EndCause::HeldTheLock, order) {
            return Some(EndCause::HeldTheLock);
        }
        if self.has_cause(EndCause::RoleDropped, order) {
            return Some(EndCause::RoleDropped);
        }
        if self.has_cause(EndCause::Limit, order) {
            return Some(EndCause::Limit);
        }
        if self.has_cause(EndCause::Input, order) {
            return Some(EndCause::Input);
        }
        None
    }

    /// Whether its connection is to end for this.
    pub(crate) fn has_cause(&self, end_cause: EndCause, order: EndOrder) -> bool
        ensures { result ≡ true → MayEnd T.Talk C.Channel order self.now end_cause }
    {
        match end_cause {
            EndCause::Input => {
                is_message(self.talk.want())
                    && self.has_no_front()
                    && self.channel.has_ended()
                    && self.queue.is_empty()
            }
            EndCause::Finished => is_end(self.talk.want()) && self.queue.is_empty(),
            EndCause::Failed => self.channel.has_failed(),
            EndCause::Limit => self.limited && self.has_passed_limit(),
            EndCause::Memory => is_out_of_memory(self.talk.want()),
            EndCause::Stopped => order.stopped,
            EndCause::HeldTheLock => order.cut_off,
            EndCause::RoleDropped => order.expelled,
        }
    }

    // Whether it has passed a limit: it was silent for too long, or was turned out and has no session.
    fn has_passed_limit(&self) -> bool
        ensures { result ≡ has_passed_limit self.now }
    {
        self.is_over || (self.is_turned_out && !self.has_session)
    }

    // Whether bytes are to go out, which its connection may take.
    fn can_send(&self) -> bool {
        !self.is_blocked && !self.queue.is_empty() && !self.is_late()
    }

    /// When its limits are to be looked at, if they are.
    pub fn next_look(&self, idle: Option<Duration>) -> Option<Duration> {
        earlier(after(self.active, idle), self.late_until())
    }

    /// Whether there is something to do for it at once.
    pub fn owes(&self) -> bool {
        if self.end_cause.is_some() || self.cause(EndOrder::none()).is_some() {
            return true;
        }
        if self.can_send() {
            return true;
        }
        if self.is_held_up(EndOrder::none()) {
            return false;
        }
        let want = self.talk.want();
        is_step(want)
            || is_question(want)
            || (is_message(want) && !(self.is_quiet && self.has_no_front()))
    }
}
