//! A client in memory: the bytes that it sends, and what was said to it, which goes out at once.

ghost use Rattle.std.specs.Prelude.{◌≡◌, ◌≤◌, length, drop, false, [], ◌∷◌, Some, None, IfSome, true, ℕ, List};
ghost use Rattle.talks.specs.Wants.{WantsStep, WantsQuestion, FitsWant, learnt};
ghost use Rattle.talks.specs.Conversations.{HasCause, Continues, Passes, IsGone, wanted};
ghost use Rattle.talks.specs.Clients.{IsLeaving};
ghost use Rattle.talks.specs.declared.want.Want.{Want as TheWant};
ghost use Rattle.talks_tests.specs.Memory.{any_talk, conversation_of, state_of, IsOwnCause, HasWish};

use sql_types::event::Event;
use std::alloc::Global;
use talks::clients::EndCause;
use talks::talk::{MessageFront, Talk};
use talks::want::{Reply, Want};

/// A conversation that can begin anew.
pub trait BeginsAnew: Talk {
    /// Begins: nothing is heard.
    fn begin(&mut self)
        ensures { Self.starts self.new };
}

/// What a client has to do with the machine.
#[derive(Clone, Copy, PartialEq, Eq)]
pub enum Wish {
    /// Nothing now.
    Nothing,
    /// It wants a step.
    Step,
    /// It has a question.
    Question,
    /// Its connection has ended.
    Left(EndCause),
}

/// Where a client is.
#[derive(Clone, Copy, PartialEq, Eq)]
pub enum Stage {
    /// It is to come.
    Awaited,
    /// It is there.
    There,
    /// It has gone.
    Gone,
}

/// A client.
#[derive(Drop)]
pub struct MemoryClient<T> {
    pub talk: T,
    /// What it sends and was not heard.
    pub held: Vec<u8>,
    /// What was said to it.
    pub said: Vec<u8>,
    pub end_cause: Option<EndCause>,
    pub stage: Stage,
}

impl<T: BeginsAnew> MemoryClient<T> {
    /// Does one thing for the client, and tells what it has to do with the machine.
    pub fn attend(&mut self) -> Wish
        ensures passed { Passes T.Talk any_talk (state_of self.old) [] (state_of self.new) }
        ensures gone { IsGone (state_of self.new) → IsGone (state_of self.old) }
        ensures wish { HasWish T.Talk result (state_of self.new) }
    {
        match self.stage {
            Stage::Awaited => {
                self.come();
                Wish::Nothing
            }
            Stage::There => self.proceed(),
            Stage::Gone => Wish::Nothing,
        }
    }

    // It comes, with all that it sends.
    fn come(&mut self)
        requires { self.old.stage ≡ Stage.Awaited }
        ensures passed { Passes T.Talk any_talk (state_of self.old) [] (state_of self.new) }
        ensures there { self.new.stage ≡ Stage.There }
    {
        self.talk.begin();
        self.said.clear();
        self.end_cause = None;
        self.stage = Stage::There;
    }

    // Does one thing for a client that is there.
    fn proceed(&mut self) -> Wish
        requires { self.old.stage ≡ Stage.There }
        ensures there { self.new.stage ≡ Stage.There }
        ensures goes_on { Continues T.Talk (conversation_of self.old) [] (conversation_of self.new) }
        ensures wish { HasWish T.Talk result (state_of self.new) }
    {
        match self.cause() {
            Some(found) => self.end_as(found),
            None => {
                if self.end_cause.is_some() {
                    return Wish::Nothing;
                }
                self.advance()
            }
        }
    }

    // Its connection ends, or has ended, with this cause.
    fn end_as(&mut self, found: EndCause) -> Wish
        requires there { self.old.stage ≡ Stage.There }
        requires cause { HasCause T.Talk found (conversation_of self.old) }
        requires own { IsOwnCause found }
        ensures there { self.new.stage ≡ Stage.There }
        ensures goes_on { Continues T.Talk (conversation_of self.old) [] (conversation_of self.new) }
        ensures wish { HasWish T.Talk result (state_of self.new) }
    {
        match self.end_cause {
            Some(end_cause) => {
                if is_same(end_cause, found) {
                    return Wish::Left(found);
                }
                Wish::Nothing
            }
            None => {
                self.end_cause = Some(found);
                Wish::Left(found)
            }
        }
    }

    // Why the connection is to end, if it is.
    fn cause(&self) -> Option<EndCause>
        ensures { IfSome result (λ w. HasCause T.Talk w (conversation_of self.now) × IsOwnCause w) }
    {
        match self.talk.want() {
            Want::End { late: _ } => Some(EndCause::Finished),
            Want::OutOfMemory => Some(EndCause::Memory),
            Want::Message => {
                if self.is_at_end() {
                    return Some(EndCause::Input);
                }
                None
            }
            _ => None,
        }
    }

    // Whether no whole message is left.
    fn is_at_end(&self) -> bool
        ensures { result ≡ true → T.front self.now.talk self.now.held.items ≡ MessageFront.Nothing }
    {
        matches!(self.talk.front(&self.held), MessageFront::Nothing)
    }

    // Tells what it wants of the machine, or hears the next message where it wants one.
    fn advance(&mut self) -> Wish
        requires end_cause { self.old.end_cause ≡ None }
        requires there { self.old.stage ≡ Stage.There }
        ensures there { self.new.stage ≡ Stage.There }
        ensures goes_on { Continues T.Talk (conversation_of self.old) [] (conversation_of self.new) }
        ensures wish { HasWish T.Talk result (state_of self.new) }
    {
        if is_step(self.talk.want()) {
            return Wish::Step;
        }
        if is_question(self.talk.want()) {
            return Wish::Question;
        }
        if is_message(self.talk.want()) {
            self.hear();
        }
        Wish::Nothing
    }

    // Hears what stands at the front.
    fn hear(&mut self)
        requires wants { T.wants self.old.talk ≡ TheWant.Message }
        requires end_cause { self.old.end_cause ≡ None }
        ensures there { self.new.stage ≡ self.old.stage }
        ensures goes_on { Continues T.Talk (conversation_of self.old) [] (conversation_of self.new) }
    {
        match self.talk.front(&self.held) {
            MessageFront::Whole(size) => self.take_message(size),
            MessageFront::Bad => self.reject(),
            MessageFront::Nothing => {}
        }
    }

    // Hears the message of so many bytes that stands at the front.
    fn take_message(&mut self, size: usize)
        requires wants { T.wants self.old.talk ≡ TheWant.Message }
        requires whole { T.front self.old.talk self.old.held.items ≡ MessageFront.Whole size }
        requires end_cause { self.old.end_cause ≡ None }
        ensures there { self.new.stage ≡ self.old.stage }
        ensures goes_on { Continues T.Talk (conversation_of self.old) [] (conversation_of self.new) }
    {
        match self.talk.hear(&self.held[..size], &mut self.said) {
            Ok(()) => drop_front(&mut self.held, size),
            Err(_) => {}
        }
    }

    // Learns that a bad message stands at the front.
    fn reject(&mut self)
        requires wants { T.wants self.old.talk ≡ TheWant.Message }
        requires bad { T.front self.old.talk self.old.held.items ≡ MessageFront.Bad }
        requires end_cause { self.old.end_cause ≡ None }
        ensures there { self.new.stage ≡ self.old.stage }
        ensures goes_on { Continues T.Talk (conversation_of self.old) [] (conversation_of self.new) }
    {
        match self.talk.reject(&mut self.said) {
            Ok(()) => {}
            Err(_) => {}
        }
    }

    /// Learns what it wanted.
    pub fn learn(&mut self, reply: Reply)
        requires { (w : TheWant) × (wanted T.Talk (state_of self.old) ≡ Some w) × FitsWant w reply }
        ensures passed { (w : TheWant) → wanted T.Talk (state_of self.old) ≡ Some w
            → Passes T.Talk any_talk (state_of self.old) (learnt w reply ∷ []) (state_of self.new) }
        ensures there { self.new.stage ≡ self.old.stage }
        ensures stays { self.new.stage ≡ Stage.There }
    {
        match self.talk.learn(reply, &mut self.said) {
            Ok(()) => {}
            Err(_) => {}
        }
    }

    /// What it wants.
    pub fn want(&self) -> &Want
        requires { (w : TheWant) × (wanted T.Talk (state_of self.now) ≡ Some w) }
        ensures { wanted T.Talk (state_of self.now) ≡ Some result.now }
    {
        self.talk.want()
    }

    /// Goes, once its connection has ended.
    pub fn close(&mut self)
        requires { IsLeaving T.Talk (state_of self.old) }
        ensures passed { Passes T.Talk any_talk (state_of self.old) [] (state_of self.new) }
        ensures gone { IsGone (state_of self.new) }
    {
        self.stage = Stage::Gone;
    }
}

impl<T> MemoryClient<T> {
    /// A client that is to come and sends these bytes.
    pub fn new(alloc: Global, talk: T, input: Vec<u8>) -> MemoryClient<T> {
        MemoryClient {
            talk,
            held: input,
            said: Vec::new(alloc),
            end_cause: None,
            stage: Stage::Awaited,
        }
    }

    /// Whether it has gone.
    pub fn has_gone(&self) -> bool
        ensures { result ≡ true → self.now.stage ≡ Stage.Gone }
    {
        matches!(self.stage, Stage::Gone)
    }
}

fn is_same(a: EndCause, b: EndCause) -> bool
    ensures { result ≡ true → a ≡ b }
{
    a == b
}

// Whether a step is wanted.
fn is_step(want: &Want) -> bool
    ensures { result ≡ true → WantsStep want.now }
{
    match want {
        Want::Event(event) => !opens(event),
        Want::Open {
            session: _,
            login: _,
            entry: _,
        } => true,
        _ => false,
    }
}

// Whether an event opens a session.
fn opens(event: &Event) -> bool
    ensures { result ≡ false → WantsStep (TheWant.Event event.now) }
{
    matches!(
        event,
        Event::Open {
            session: _,
            login: _
        }
    )
}

// Whether a question is wanted.
fn is_question(want: &Want) -> bool
    ensures { result ≡ true → WantsQuestion want.now }
{
    matches!(
        want,
        Want::Standing { session: _ }
            | Want::Description {
                session: _,
                text: _
            }
            | Want::Verifier { table: _, role: _ }
    )
}

// Whether a message is wanted.
fn is_message(want: &Want) -> bool
    ensures { result ≡ true → want.now ≡ TheWant.Message }
{
    matches!(want, Want::Message)
}

fn drop_front(bytes: &mut Vec<u8>, count: usize)
    requires { count ≤ length bytes.old.items }
    ensures { bytes.new.items ≡ drop count bytes.old.items }
{
    bytes.drain(..count);
}
