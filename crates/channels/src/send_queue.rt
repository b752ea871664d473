//! What was said and has not gone out.

ghost use Rattle.std.specs.Prelude.{◌≡◌, true, [], length};
ghost use Rattle.std.specs.Io.KnownBytes.{append_known, Keeps};
ghost use Rattle.channels.specs.Channels.{left};

use crate::behind::behind;
use crate::channel::{Channel, Sent};
use std::alloc::Global;
use std::mem;

/// A buffer of at most so many bytes is kept once all of it has gone out.
const KEPT_SIZE: usize = 65_536;

/// How far what was said has gone out.
#[derive(Clone, Copy, PartialEq, Eq)]
pub enum Sending {
    /// Some of it, and there may be more to send at once.
    Moves,
    /// All of it.
    Done,
    /// What is left waits for the connection.
    Waits,
    /// The connection failed.
    Failed,
}

/// Bytes on their way out, the first of which have gone, and those that were said since. Saying
/// lengthens `said`, and moves nothing.
#[derive(Drop)]
pub struct SendQueue {
    going: Vec<u8>,
    sent: usize,
    pub said: Vec<u8>,
}

impl SendQueue {
    /// A queue in which nothing is.
    pub fn new(alloc: Global) -> SendQueue
        ensures { left result.going.items result.sent result.said.items ≡ [] }
    {
        SendQueue {
            going: Vec::new(alloc),
            sent: 0,
            said: Vec::new(alloc),
        }
    }

    /// Whether all that was said has gone out.
    pub fn is_empty(&self) -> bool
        ensures { result ≡ true → left self.now.going.items self.now.sent self.now.said.items ≡ [] }
    {
        self.sent >= self.going.len() && self.said.is_empty()
    }

    /// How many bytes have not gone out.
    pub fn len(&self) -> usize
        ensures { result ≡ length (left self.now.going.items self.now.sent self.now.said.items) }
    {
        self.going
            .len()
            .saturating_sub(self.sent)
            .saturating_add(self.said.len())
    }

    // Where all that was going has gone, what was said since goes next. A large buffer is given back.
    fn turn_over(&mut self)
        ensures { left self.new.going.items self.new.sent self.new.said.items ≡ left self.old.going.items self.old.sent self.old.said.items }
    {
        if self.sent >= self.going.len() {
            self.going.clear();
            if self.going.capacity() > KEPT_SIZE {
                self.going.shrink_to(0);
            }
            mem::swap(&mut self.going, &mut self.said);
            self.sent = 0;
        }
    }

    /// Lets go out what a connection takes now, in one piece. Nothing of what was said is lost, and
    /// nothing goes out twice.
    pub fn send<C: Channel>(&mut self, channel: &mut C) -> Sending
        ensures kept { Keeps (append_known (C.taken channel.old) (left self.old.going.items self.old.sent self.old.said.items))
            (append_known (C.taken channel.new) (left self.new.going.items self.new.sent self.new.said.items)) }
        ensures done { result ≡ Sending.Done → left self.new.going.items self.new.sent self.new.said.items ≡ [] }
        ensures remaining { C.remaining channel.new ≡ C.remaining channel.old }
    {
        self.turn_over();
        let rest = behind(&self.going, self.sent);
        if rest.is_empty() {
            return self.when_empty();
        }
        match channel.send(rest) {
            Sent::Bytes(count) => {
                self.sent += count;
                self.turn_over();
                Sending::Moves
            }
            Sent::Nothing => Sending::Waits,
            Sent::Failed => Sending::Failed,
        }
    }

    // Done, if nothing is left.
    fn when_empty(&self) -> Sending
        ensures { result ≡ Sending.Done → left self.now.going.items self.now.sent self.now.said.items ≡ [] }
    {
        if self.is_empty() {
            Sending::Done
        } else {
            Sending::Moves
        }
    }
}
