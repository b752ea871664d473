//! A conversation whose client may ask what a statement would answer.

ghost use Rattle.std.specs.Prelude.{◌≡◌, ◌++◌, IfOk, OnErr, OnOk};
ghost use Rattle.talks.specs.declared.want.Want.{Want as TheWant};
ghost use Rattle.heading_talks.specs.HeadingFrames.{next_heading, taken_if};
ghost use Rattle.heading_talks.specs.HeadingTalks.{asked_by, asked_session};

use crate::answering::say_heading;
use crate::heading_frame::{HeadingView, heading_if};
use sql_types::text::Text;
use std::alloc::{AllocError, Global};
use talks::talk::{MessageFront, Talk};
use talks::want::{Reply, Want};

/// A conversation in frames, whose client may ask besides what a statement would answer in a session, by a
/// frame of kind 8. That is wanted of the machine, and its columns are said, as an answer of the session; the
/// conversation inside hears nothing of it. All else goes to that one, as it comes; and so do frames of kind 8
/// where a client may not ask.
#[derive(Drop)]
pub struct HeadingTalk<T> {
    alloc: Global,
    may_ask: bool,
    // What was asked and is not answered; or a message, where nothing is.
    question: Want,
    talk: T,
}

impl<T> HeadingTalk<T> {
    /// The conversation, of which nothing was asked. `may_ask`: whether a client may.
    pub fn new(alloc: Global, may_ask: bool, talk: T) -> HeadingTalk<T>
        ensures may_ask { result.may_ask ≡ may_ask }
        ensures question { result.question ≡ TheWant.Message }
        ensures talk { result.talk ≡ talk }
    {
        HeadingTalk {
            alloc,
            may_ask,
            question: Want::Message,
            talk,
        }
    }

    // The session in which something was asked that is not answered.
    fn asked_session(&self) -> Option<u32>
        ensures { result ≡ asked_session self.now.question }
    {
        match &self.question {
            Want::Description { session, text: _ } => Some(*session),
            _ => None,
        }
    }
}

// What the frame at the front of a message asks, if it is one that asks.
fn asked_by(alloc: Global, may_ask: bool, message: &[u8]) -> Result<Option<Want>, AllocError>
    ensures { IfOk result (λ want. want ≡ asked_by (taken_if may_ask (next_heading message.now))) }
{
    match heading_if(may_ask, message) {
        HeadingView::Asks {
            session,
            text,
            size: _,
        } => {
            let text = Text::from_str(alloc, text)?;
            Ok(Some(Want::Description { session, text }))
        }
        HeadingView::Part | HeadingView::Other => Ok(None),
    }
}

impl<T: Talk> Talk for HeadingTalk<T> {
    ghost use Rattle.std.specs.Prelude.{◌≡◌, ◌++◌};
    ghost use Rattle.talks.specs.declared.want.Want.{Want as TheWant};
    ghost use Rattle.heading_talks.specs.HeadingFrames.{next_heading, taken_if};
    ghost use Rattle.heading_talks.specs.HeadingTalks.{HearsMessage, LearnsReply, RejectsMessage, asked_by, asked_session, front_over, wanted};
    ghost use Rattle.heading_talks.specs.FrontLaws.{front_more_over, bad_more_over};

    ghost starts = { λ t. (t.question ≡ TheWant.Message) × T.starts t.talk };

    ghost wants = { λ t. wanted (asked_session t.question) t.question (T.wants t.talk) };

    ghost front = { λ t bytes. front_over (taken_if t.may_ask (next_heading bytes)) (T.front t.talk bytes) };

    ghost hears = { λ t message said u. HearsMessage T.Talk (asked_by (taken_if t.may_ask (next_heading message))) t message said u };

    ghost rejects = { λ t said u. RejectsMessage T.Talk t said u };

    ghost learns = { λ t reply said u. LearnsReply T.Talk (asked_session t.question) t reply said u };

    ghost comes_as = { λ t. T.comes_as t.talk };

    ghost front_more = { λ t bytes more n is. front_more_over t.may_ask bytes more n (T.front t.talk bytes) (T.front t.talk (bytes ++ more)) (λ it. T.front_more t.talk bytes more n it) is };

    ghost bad_more = { λ t bytes more is. bad_more_over t.may_ask bytes more (T.front t.talk bytes) (T.front t.talk (bytes ++ more)) (λ it. T.bad_more t.talk bytes more it) is };

    fn want(&self) -> &Want {
        match self.asked_session() {
            Some(_) => &self.question,
            None => self.talk.want(),
        }
    }

    fn comes_as(&self) -> Option<&str> {
        self.talk.comes_as()
    }

    fn front(&self, bytes: &[u8]) -> MessageFront {
        match heading_if(self.may_ask, bytes) {
            HeadingView::Part => MessageFront::Nothing,
            HeadingView::Asks {
                session: _,
                text: _,
                size,
            } => MessageFront::Whole(size),
            HeadingView::Other => self.talk.front(bytes),
        }
    }

    #[tactic(auto, using(crate::proofs::Wanting::inner_message))]
    fn hear(&mut self, message: &[u8], out: &mut Vec<u8>) -> Result<(), AllocError> {
        match asked_by(self.alloc, self.may_ask, message) {
            Ok(Some(question)) => {
                self.question = question;
                Ok(())
            }
            Ok(None) => {
                self.question = Want::Message;
                self.talk.hear(message, out)
            }
            Err(error) => {
                self.give_up();
                Err(error)
            }
        }
    }

    #[tactic(auto, using(crate::proofs::Wanting::inner_message))]
    fn reject(&mut self, out: &mut Vec<u8>) -> Result<(), AllocError> {
        self.question = Want::Message;
        self.talk.reject(out)
    }

    fn learn(&mut self, reply: Reply, out: &mut Vec<u8>) -> Result<(), AllocError> {
        let asked = self.asked_session();
        self.question = Want::Message;
        let Some(session) = asked else {
            return self.talk.learn(reply, out);
        };
        let said = say_heading(self.alloc, session, &reply, out);
        if said.is_err() {
            self.talk.give_up();
        }
        said
    }

    fn give_up(&mut self) {
        self.question = Want::Message;
        self.talk.give_up();
    }
}
