//! What is held of a client, and heard.

ghost use Rattle.std.specs.Prelude.{◌≡◌, [], None, true};
ghost use Rattle.talks.specs.declared.want.Want.{Want as TheWant};
ghost use Rattle.polled_clients.specs.Peers.{Goes};

use crate::need::is_message;
use crate::peer::Peer;
use channels::channel::Channel;
use talks::talk::Talk;

/// How many messages are heard in a turn, at most.
const MESSAGES: usize = 16;

impl<T: Talk, C: Channel> Peer<T, C> {
    /// Hears what is held behind a message that was heard: one message after the other while nothing else is
    /// wanted, up to 16 in a turn with that one.
    pub(crate) fn hear_on(&mut self)
        requires { self.old.end_cause ≡ None }
        ensures goes { Goes T.Talk C.Channel self.old [] self.new }
        ensures session { self.new.has_session ≡ self.old.has_session }
        ensures end_cause { self.new.end_cause ≡ None }
    {
        for _ in 1..MESSAGES {
            if !self.hears_more() {
                return;
            }
            self.hear();
        }
    }

    // Whether it is to hear what is held, and little waits to go out.
    fn hears_more(&self) -> bool
        ensures { result ≡ true → T.wants self.now.talk ≡ TheWant.Message }
    {
        self.has_said_little() && self.has_message()
    }

    /// Whether it is to hear what stands at the front of what is held: a whole message, or a bad one.
    pub(crate) fn has_message(&self) -> bool
        ensures { result ≡ true → T.wants self.now.talk ≡ TheWant.Message }
    {
        is_message(self.talk.want()) && !self.has_no_front()
    }
}
