//! A client that is there: the conversation with it, and its connection.

ghost use Rattle.std.specs.Prelude.{◌≡◌, ◌≤◌, ◌+◌, ◌++◌, ◌||◌, ℕ, Bool, List, [], ◌∷◌, length, drop, vec_len, vec_capacity, true, false, Option, Some, None};
ghost use Rattle.channels.specs.Comings.{HasJustCome};
ghost use Rattle.talks.specs.Wants.{FitsWant, learnt};
ghost use Rattle.talks.specs.Conversations.{IsNew, unless_ended};
ghost use Rattle.talks.specs.declared.want.Want.{Want as TheWant};
ghost use Rattle.polled_clients.specs.Peers.{conversation_of, Goes, HasNeed};
ghost use Rattle.polled_clients.specs.Strangers.{opens_session as is_opened};
ghost use Rattle.polled_clients.specs.declared.need.EndOrder.{EndOrder as TheOrder};

use crate::held::{drop_front, keep, make_room};
use crate::need::{EndOrder, Need, is_late_end, is_message, is_question, is_step};
use crate::strangers::opens_session;
use crate::times::{after, is_past};
use channels::behind::behind;
use channels::channel::{Channel, Received};
use channels::send_queue::{SendQueue, Sending};
use std::alloc::Global;
use std::time::Duration;
use talks::clients::EndCause;
use talks::talk::{MessageFront, Talk};
use talks::want::{Reply, Want};

/// So many bytes that have not gone out, and nothing more is read of a client, and no step made.
const QUEUE_SIZE: usize = 65_536;

/// How many seconds later it goes out what a conversation says before an end that is late.
const LATE_SECONDS: u64 = 1;

/// A client that is there.
#[derive(Drop)]
pub struct Peer<T, C> {
    pub(crate) talk: T,
    pub(crate) channel: C,
    // What has come of it, of which the first bytes were heard.
    held: Vec<u8>,
    heard: usize,
    pub(crate) queue: SendQueue,
    pub(crate) limited: bool,
    // Whether it came to a place that has strangers.
    pub(crate) is_guest: bool,
    pub(crate) end_cause: Option<EndCause>,
    // Whether the last read found that nothing has come.
    pub(crate) is_quiet: bool,
    // Whether the last write found that nothing is taken.
    pub(crate) is_blocked: bool,
    // Whether it was silent for as long as it may.
    pub(crate) is_over: bool,
    // Whether a session was opened for it, and whether it is to end since none was.
    pub(crate) has_session: bool,
    pub(crate) is_turned_out: bool,
    // When it last had a turn, or its limits were looked at.
    pub(crate) time: Duration,
    // Whether bytes have come of it or gone out to it since its limits were looked at, and when they
    // had for the last time, or something was to be done for it.
    has_moved: bool,
    pub(crate) active: Duration,
    // Until when what was said before a late end does not go out.
    pub(crate) late_until: Option<Duration>,
    // Until when its step waits, while it does, and whether that is over.
    waits_until: Option<Duration>,
    has_waited: bool,
}

impl<T: Talk, C: Channel> Peer<T, C> {
    /// A client that has just come. `limited`: a limit may end it. `is_guest`: its place has strangers.
    pub fn new(
        alloc: Global,
        talk: T,
        channel: C,
        limited: bool,
        is_guest: bool,
        now: Duration,
    ) -> Peer<T, C>
        ensures fresh { (bytes : Option (List ℕ)) (place : ℕ) → T.starts talk → HasJustCome C.Channel bytes place channel
            → IsNew T.Talk (λ t. t ≡ talk) bytes (conversation_of C.Channel result) }
        ensures session { result.has_session ≡ false }
        ensures stays { result.is_turned_out ≡ false }
        ensures guest { result.is_guest ≡ is_guest }
    {
        Peer {
            talk,
            channel,
            held: Vec::new(alloc),
            heard: 0,
            queue: SendQueue::new(alloc),
            limited,
            is_guest,
            end_cause: None,
            is_quiet: false,
            is_blocked: false,
            is_over: false,
            has_session: false,
            is_turned_out: false,
            time: now,
            has_moved: true,
            active: now,
            late_until: None,
            waits_until: None,
            has_waited: false,
        }
    }

    /// Takes its turn: does what there is to do for it, or gives out its step that has waited. What comes
    /// of it is read into `buffer`.
    pub fn take_turn(
        &mut self,
        offered: Option<Duration>,
        order: EndOrder,
        now: Duration,
        buffer: &mut Vec<u8>,
    ) -> Need
        ensures goes { Goes T.Talk C.Channel self.old [] self.new }
        ensures session { self.new.has_session ≡ self.old.has_session }
        ensures need { HasNeed T.Talk C.Channel order result self.new }
    {
        self.time = now;
        match offered {
            Some(asked) => self.offer(asked, order),
            None => self.attend(order, buffer),
        }
    }

    // Does what there is to do for the client, and tells what it has to do with the machine.
    fn attend(&mut self, order: EndOrder, buffer: &mut Vec<u8>) -> Need
        ensures goes { Goes T.Talk C.Channel self.old [] self.new }
        ensures session { self.new.has_session ≡ self.old.has_session }
        ensures need { HasNeed T.Talk C.Channel order result self.new }
    {
        match self.end_cause {
            Some(end_cause) => {
                if self.has_cause(end_cause, order) {
                    return Need::Left(end_cause);
                }
                Need::Nothing
            }
            None => self.proceed(order, buffer),
        }
    }

    // Does what there is to do for a client whose connection has not ended.
    fn proceed(&mut self, order: EndOrder, buffer: &mut Vec<u8>) -> Need
        requires { self.old.end_cause ≡ None }
        ensures goes { Goes T.Talk C.Channel self.old [] self.new }
        ensures session { self.new.has_session ≡ self.old.has_session }
        ensures need { HasNeed T.Talk C.Channel order result self.new }
    {
        self.send_if_due(order);
        match self.cause(order) {
            Some(end_cause) => {
                self.end_cause = Some(end_cause);
                Need::Left(end_cause)
            }
            None => self.advance(order, buffer),
        }
    }

    // Tells what it wants of the machine, and reads and hears it first where it wants a message.
    fn advance(&mut self, order: EndOrder, buffer: &mut Vec<u8>) -> Need
        requires { self.old.end_cause ≡ None }
        ensures goes { Goes T.Talk C.Channel self.old [] self.new }
        ensures session { self.new.has_session ≡ self.old.has_session }
        ensures need { HasNeed T.Talk C.Channel order result self.new }
    {
        if self.is_held_up(order) {
            return Need::Nothing;
        }
        if is_message(self.talk.want()) {
            return self.listen(order, buffer);
        }
        self.need()
    }

    // Hears messages, and tells what it wants of the machine then. What was said goes out before a step.
    fn listen(&mut self, order: EndOrder, buffer: &mut Vec<u8>) -> Need
        requires wants { T.wants self.old.talk ≡ TheWant.Message }
        requires served { order.cut_off ≡ false }
        requires running { self.old.end_cause ≡ None }
        ensures goes { Goes T.Talk C.Channel self.old [] self.new }
        ensures session { self.new.has_session ≡ self.old.has_session }
        ensures need { HasNeed T.Talk C.Channel order result self.new }
    {
        self.hear_next(buffer);
        self.hear_on();
        self.send_if_due(order);
        self.need()
    }

    // Whether nothing is to be done for it but to send, as once the machine has stopped.
    pub(crate) fn is_held_up(&self, order: EndOrder) -> bool
        ensures { result ≡ false → order.cut_off ≡ false }
    {
        order.stopped
            || order.cut_off
            || self.waits_until.is_some()
            || self.queue.len() >= QUEUE_SIZE
    }

    // Gives out its step that has waited. Its time is over where that was so when it was asked who had
    // sent something, since what others sent before that is answered.
    fn offer(&mut self, asked: Duration, order: EndOrder) -> Need
        ensures goes { Goes T.Talk C.Channel self.old [] self.new }
        ensures session { self.new.has_session ≡ self.old.has_session }
        ensures need { HasNeed T.Talk C.Channel order result self.new }
    {
        self.has_waited = is_past(self.waits_until, asked);
        if self.end_cause.is_some() || order.cut_off {
            return Need::Nothing;
        }
        self.need()
    }

    /// Its step waits until then.
    pub fn hold(&mut self, until: Duration)
        ensures conversation { conversation_of C.Channel self.new ≡ conversation_of C.Channel self.old }
        ensures session { self.new.has_session ≡ self.old.has_session }
    {
        if self.waits_until.is_none() {
            self.waits_until = Some(until);
        }
    }

    /// Until when its step waits, while it does.
    pub fn waits_until(&self) -> Option<Duration> {
        self.waits_until
    }

    /// Whether its step has waited as long as it may.
    pub fn has_waited(&self) -> bool
        ensures { result ≡ self.now.has_waited }
    {
        self.has_waited
    }

    // What it wants of the machine.
    fn need(&self) -> Need
        requires { self.now.end_cause ≡ None }
        ensures { (order : TheOrder) → order.cut_off ≡ false → HasNeed T.Talk C.Channel order result self.now }
    {
        if is_step(self.talk.want()) {
            return Need::Step;
        }
        if is_question(self.talk.want()) {
            return Need::Question;
        }
        Need::Nothing
    }

    // Lets go out what its connection takes now, where that is due.
    fn send_if_due(&mut self, order: EndOrder)
        ensures goes { Goes T.Talk C.Channel self.old [] self.new }
        ensures session { self.new.has_session ≡ self.old.has_session }
        ensures end_cause { self.new.end_cause ≡ self.old.end_cause }
    {
        self.note_late_end();
        if self.is_due(order) {
            self.send();
        }
    }

    // Where it wants a late end, what was said goes out a second after that was seen.
    fn note_late_end(&mut self)
        ensures conversation { conversation_of C.Channel self.new ≡ conversation_of C.Channel self.old }
        ensures session { self.new.has_session ≡ self.old.has_session }
        ensures end_cause { self.new.end_cause ≡ self.old.end_cause }
    {
        if self.late_until.is_none() && is_late_end(self.talk.want()) {
            self.late_until = after(self.time, Some(Duration::from_secs(LATE_SECONDS)));
        }
    }

    // Lets go out what its connection takes now.
    fn send(&mut self)
        ensures goes { Goes T.Talk C.Channel self.old [] self.new }
        ensures session { self.new.has_session ≡ self.old.has_session }
        ensures end_cause { self.new.end_cause ≡ self.old.end_cause }
    {
        match self.queue.send(&mut self.channel) {
            Sending::Waits | Sending::Failed => self.is_blocked = true,
            Sending::Moves => self.has_moved = true,
            Sending::Done => {}
        }
    }

    // Hears the message at the front, and reads first where none is whole.
    fn hear_next(&mut self, buffer: &mut Vec<u8>)
        requires wants { T.wants self.old.talk ≡ TheWant.Message }
        requires running { self.old.end_cause ≡ None }
        ensures goes { Goes T.Talk C.Channel self.old [] self.new }
        ensures session { self.new.has_session ≡ self.old.has_session }
        ensures end_cause { self.new.end_cause ≡ None }
    {
        if self.has_no_front() && !self.is_quiet {
            self.receive_and_hear(buffer);
        } else {
            self.hear();
        }
    }

    // Reads what has come, and hears the message at the front.
    fn receive_and_hear(&mut self, buffer: &mut Vec<u8>)
        requires { self.old.end_cause ≡ None }
        ensures goes { Goes T.Talk C.Channel self.old [] self.new }
        ensures session { self.new.has_session ≡ self.old.has_session }
        ensures end_cause { self.new.end_cause ≡ None }
    {
        self.receive(buffer);
        if is_message(self.talk.want()) {
            self.hear();
        }
    }

    // Whether no message stands at the front, neither a whole nor a bad one.
    pub(crate) fn has_no_front(&self) -> bool
        ensures { result ≡ true → T.front self.now.talk (drop self.now.heard self.now.held.items) ≡ MessageFront.Nothing }
    {
        matches!(
            self.talk.front(behind(&self.held, self.heard)),
            MessageFront::Nothing
        )
    }

    // Makes room, and reads what has come.
    fn receive(&mut self, buffer: &mut Vec<u8>)
        requires { self.old.end_cause ≡ None }
        ensures goes { Goes T.Talk C.Channel self.old [] self.new }
        ensures session { self.new.has_session ≡ self.old.has_session }
        ensures end_cause { self.new.end_cause ≡ None }
    {
        drop_front(&mut self.held, self.heard);
        self.heard = 0;
        match make_room(&mut self.held, buffer) {
            Ok(()) => self.read(buffer),
            Err(_) => self.talk.give_up(),
        }
    }

    // Reads what has come into a buffer, of which no more is kept than that.
    fn read(&mut self, buffer: &mut [u8])
        requires room { vec_len self.old.held + length buffer.old ≤ vec_capacity self.old.held }
        requires heard { self.old.heard ≡ 0 }
        requires running { self.old.end_cause ≡ None }
        ensures goes { Goes T.Talk C.Channel self.old [] self.new }
        ensures session { self.new.has_session ≡ self.old.has_session }
        ensures end_cause { self.new.end_cause ≡ None }
    {
        match self.channel.receive(buffer) {
            Received::Bytes(count) => {
                self.has_moved = true;
                keep(&mut self.held, &buffer[..count]);
            }
            Received::Nothing | Received::End | Received::Failed => self.is_quiet = true,
        }
    }

    /// Hears what stands at the front.
    pub(crate) fn hear(&mut self)
        requires wants { T.wants self.old.talk ≡ TheWant.Message }
        requires running { self.old.end_cause ≡ None }
        ensures goes { Goes T.Talk C.Channel self.old [] self.new }
        ensures session { self.new.has_session ≡ self.old.has_session }
        ensures end_cause { self.new.end_cause ≡ None }
    {
        match self.talk.front(behind(&self.held, self.heard)) {
            MessageFront::Whole(size) => self.take_message(size),
            MessageFront::Bad => self.reject(),
            MessageFront::Nothing => {}
        }
    }

    // Hears the message of so many bytes that stands at the front.
    fn take_message(&mut self, size: usize)
        requires wants { T.wants self.old.talk ≡ TheWant.Message }
        requires whole { T.front self.old.talk (drop self.old.heard self.old.held.items) ≡ MessageFront.Whole size }
        requires running { self.old.end_cause ≡ None }
        ensures goes { Goes T.Talk C.Channel self.old [] self.new }
        ensures session { self.new.has_session ≡ self.old.has_session }
        ensures end_cause { self.new.end_cause ≡ None }
    {
        let message = &behind(&self.held, self.heard)[..size];
        match self.talk.hear(message, &mut self.queue.said) {
            Ok(()) => self.heard += size,
            Err(_) => {}
        }
    }

    // Learns that a bad message stands at the front.
    fn reject(&mut self)
        requires wants { T.wants self.old.talk ≡ TheWant.Message }
        requires bad { T.front self.old.talk (drop self.old.heard self.old.held.items) ≡ MessageFront.Bad }
        requires running { self.old.end_cause ≡ None }
        ensures goes { Goes T.Talk C.Channel self.old [] self.new }
        ensures session { self.new.has_session ≡ self.old.has_session }
        ensures end_cause { self.new.end_cause ≡ None }
    {
        match self.talk.reject(&mut self.queue.said) {
            Ok(()) => {}
            Err(_) => {}
        }
    }

    /// Learns what it wanted.
    pub fn learn(&mut self, reply: Reply)
        requires running { self.old.end_cause ≡ None }
        requires fits { FitsWant (T.wants self.old.talk) reply }
        ensures goes { Goes T.Talk C.Channel self.old (learnt (T.wants self.old.talk) reply ∷ []) self.new }
        ensures session { self.new.has_session ≡ (self.old.has_session || is_opened (T.wants self.old.talk) reply) }
    {
        self.waits_until = None;
        self.has_waited = false;
        self.has_session = self.has_session || opens_session(self.talk.want(), &reply);
        match self.talk.learn(reply, &mut self.queue.said) {
            Ok(()) => {}
            Err(_) => {}
        }
    }

    /// What it wants.
    pub fn want(&self) -> &Want
        ensures { result.now ≡ T.wants self.now.talk }
    {
        self.talk.want()
    }

    /// Its conversation wants its end, since an allocation has failed.
    pub fn give_up(&mut self)
        requires { self.old.end_cause ≡ None }
        ensures goes { Goes T.Talk C.Channel self.old [] self.new }
        ensures session { self.new.has_session ≡ self.old.has_session }
        ensures wants { unless_ended self.new.end_cause (T.wants self.new.talk) ≡ Some TheWant.OutOfMemory }
    {
        self.talk.give_up();
    }

    /// Looks at its limits. It was read since it was `asked` who had sent something: so it is over
    /// for who was silent so long before that, while it was waited for.
    pub fn look_after(&mut self, asked: Duration, now: Duration, idle: Option<Duration>)
        ensures conversation { conversation_of C.Channel self.new ≡ conversation_of C.Channel self.old }
        ensures session { self.new.has_session ≡ self.old.has_session }
    {
        if self.end_cause.is_some() {
            return;
        }
        self.time = now;
        if self.has_moved || self.waits_until.is_some() || self.owes() {
            self.has_moved = false;
            self.active = now;
        }
        self.is_over = is_past(after(self.active, idle), asked);
    }

    /// Whether a session was opened for it.
    pub fn has_session(&self) -> bool
        ensures { result ≡ self.now.has_session }
    {
        self.has_session
    }

    /// It is to end, unless a session was opened for it.
    pub fn turn_out(&mut self)
        ensures conversation { conversation_of C.Channel self.new ≡ conversation_of C.Channel self.old }
        ensures session { self.new.has_session ≡ self.old.has_session }
        ensures ends { self.new.is_turned_out ≡ true }
    {
        self.is_turned_out = true;
    }

    /// Something may have come of it, or may go out to it.
    pub fn rouse(&mut self)
        ensures conversation { conversation_of C.Channel self.new ≡ conversation_of C.Channel self.old }
        ensures session { self.new.has_session ≡ self.old.has_session }
    {
        self.is_quiet = false;
        self.is_blocked = false;
    }

    /// Its connection.
    pub fn into_channel(self) -> C
    where
        T: Drop,
        ensures { result ≡ self.channel }
    {
        self.channel
    }
}
