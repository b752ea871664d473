//! A client's line: its conversation, what has come and was not heard, and what was said.

ghost use Rattle.std.specs.Prelude.{◌≡◌, true};
ghost use Rattle.talks.specs.declared.want.Want.{Want as TheWant};

use crate::desk::PostgresDesk;
use postgres_talks::postgres_talk::PostgresTalk;
use std::alloc::{AllocError, Global};
use talks::talk::{MessageFront, Talk};
use talks::want::Want;

/// The line of one client.
#[derive(Drop)]
pub struct PostgresLine {
    talk: PostgresTalk,
    desk: PostgresDesk,
    held: Vec<u8>,
    said: Vec<u8>,
}

impl PostgresLine {
    /// Nothing has come.
    pub fn new(alloc: Global) -> PostgresLine {
        PostgresLine {
            talk: PostgresTalk::new(alloc, 7),
            desk: PostgresDesk::new(alloc),
            held: Vec::new(alloc),
            said: Vec::new(alloc),
        }
    }

    /// What was said.
    pub fn into_said(self) -> Vec<u8> {
        let PostgresLine {
            talk: _,
            desk: _,
            held: _,
            said,
        } = self;
        said
    }

    /// Takes a piece, and goes on until the conversation waits for more.
    pub fn take(&mut self, piece: &[u8]) -> Result<(), AllocError> {
        self.held.extend_from_slice(piece)?;
        // A message has few steps, and five bytes at least.
        for _ in 0..=self.held.len().saturating_mul(8) {
            if !self.advance()? {
                return Ok(());
            }
        }
        Ok(())
    }

    // Does one thing, and tells whether there was one to do.
    fn advance(&mut self) -> Result<bool, AllocError> {
        if let Some(reply) = self.desk.reply(self.talk.want())? {
            self.talk.learn(reply, &mut self.said)?;
            return Ok(true);
        }
        if !is_message(self.talk.want()) {
            return Ok(false);
        }
        self.hear()
    }

    // Hears what stands at the front.
    fn hear(&mut self) -> Result<bool, AllocError>
        requires { ⟦<PostgresTalk as Talk>⟧.wants self.old.talk ≡ TheWant.Message }
    {
        match self.talk.front(&self.held) {
            MessageFront::Nothing => Ok(false),
            MessageFront::Bad => {
                self.talk.reject(&mut self.said)?;
                Ok(true)
            }
            MessageFront::Whole(size) => {
                let Some(message) = self.held.get(..size) else {
                    return Ok(false);
                };
                self.talk.hear(message, &mut self.said)?;
                self.held.drain(..size);
                Ok(true)
            }
        }
    }
}

fn is_message(want: &Want) -> bool
    ensures { result ≡ true → want.now ≡ TheWant.Message }
{
    matches!(want, Want::Message)
}
