//! A client's line: its conversation, what has come and was not heard, and what was said.

ghost use Rattle.std.specs.Prelude.{◌≡◌, true, IfSome};
ghost use Rattle.talks.specs.Wants.{FitsWant};
ghost use Rattle.talks.specs.declared.want.Want.{Want as TheWant};
ghost use Rattle.talks.specs.declared.want.Reply.{Reply as TheReply};
ghost use Rattle.sql_types.specs.declared.answer.Answer.{Answer as TheAnswer};

use frame_talks::frame_talk::FrameTalk;
use sql_types::answer::Answer;
use sql_types::event::Event;
use sql_types::tag::Tag;
use std::alloc::{AllocError, Global};
use talks::talk::{MessageFront, Talk};
use talks::want::{Reply, Want};

/// The line of one client.
#[derive(Drop)]
pub struct FrameLine {
    talk: FrameTalk,
    held: Vec<u8>,
    said: Vec<u8>,
}

impl FrameLine {
    /// Nothing has come.
    pub fn new(alloc: Global) -> FrameLine {
        FrameLine {
            talk: FrameTalk::new(alloc),
            held: Vec::new(alloc),
            said: Vec::new(alloc),
        }
    }

    /// What was said.
    pub fn into_said(self) -> Vec<u8> {
        let FrameLine {
            talk: _,
            held: _,
            said,
        } = self;
        said
    }

    /// Takes a piece, and goes on until the conversation waits for more.
    pub fn take(&mut self, piece: &[u8]) -> Result<(), AllocError> {
        self.held.extend_from_slice(piece)?;
        // A frame has nine bytes, or is bad; each is heard and answered.
        for _ in 0..=self.held.len() {
            if !self.advance()? {
                return Ok(());
            }
        }
        Ok(())
    }

    // Does one thing, and tells whether there was one to do.
    fn advance(&mut self) -> Result<bool, AllocError> {
        if let Some(reply) = reply_to(self.talk.want()) {
            self.talk.learn(reply, &mut self.said)?;
            return Ok(true);
        }
        if !is_message(self.talk.want()) {
            return Ok(false);
        }
        self.hear()
    }

    // Hears what stands at the front.
    fn hear(&mut self) -> Result<bool, AllocError>
        requires { ⟦<FrameTalk as Talk>⟧.wants self.old.talk ≡ TheWant.Message }
    {
        match self.talk.front(&self.held) {
            MessageFront::Nothing => Ok(false),
            MessageFront::Bad => {
                self.talk.reject(&mut self.said)?;
                Ok(true)
            }
            MessageFront::Whole(size) => {
                let Some(message) = self.held.get(..size) else {
                    return Ok(false);
                };
                self.talk.hear(message, &mut self.said)?;
                self.held.drain(..size);
                Ok(true)
            }
        }
    }
}

// The answer to what is wanted of a machine that carries everything out.
fn reply_to(want: &Want) -> Option<Reply>
    ensures { IfSome result (λ r. FitsWant want.now r) }
{
    match want {
        Want::Event(Event::Close { session: _ }) => Some(done(Tag::Close, None)),
        Want::Event(_) => Some(done(Tag::Update, Some(12))),
        Want::Open {
            session: _,
            login: _,
            entry: _,
        } => Some(done(Tag::Open, None)),
        _ => None,
    }
}

fn done(tag: Tag, count: Option<u64>) -> Reply
    ensures { (a : TheAnswer) × (result ≡ TheReply.Answer a) }
{
    Reply::Answer(Answer::Done {
        tag,
        count,
        warning: None,
    })
}

fn is_message(want: &Want) -> bool
    ensures { result ≡ true → want.now ≡ TheWant.Message }
{
    matches!(want, Want::Message)
}
