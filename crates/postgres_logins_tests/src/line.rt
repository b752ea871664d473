//! A client's line: its conversation behind a login, and what has come and was not heard.

ghost use Rattle.std.specs.Prelude.{◌≡◌, true};
ghost use Rattle.talks.specs.Wants.{FitsWant};
ghost use Rattle.talks.specs.declared.want.Want.{Want as TheWant};

use password_talks::login::PasswordPlace;
use postgres_logins::login::SaslLogin;
use postgres_logins::postgres_login_talk::PostgresLoginTalk;
use postgres_talks::postgres_talk::PostgresTalk;
use sql_types::name::Name;
use sql_types::text::Text;
use std::alloc::{AllocError, Global};
use talks::talk::{MessageFront, Talk};
use talks::want::{Reply, Want};

/// The bytes that are drawn for each exchange: the numbers from 0.
const DRAWN: [u8; 32] = [
    0, 1, 2, 3, 4, 5, 6, 7, 8, 9, 10, 11, 12, 13, 14, 15, 16, 17, 18, 19, 20, 21, 22, 23, 24, 25,
    26, 27, 28, 29, 30, 31,
];

/// The line of one client.
#[derive(Drop)]
pub struct LoginLine {
    talk: PostgresLoginTalk<PostgresTalk>,
    held: Vec<u8>,
}

impl LoginLine {
    /// Nothing has come.
    pub fn new(alloc: Global) -> Result<LoginLine, AllocError> {
        let Some(table) = Name::from_str(alloc, "passwords")? else {
            return Err(AllocError);
        };
        let mock = Text::from_str(alloc, "mock")?;
        let login = SaslLogin::new(alloc, PasswordPlace { table, mock }, DRAWN);
        Ok(LoginLine {
            talk: PostgresLoginTalk::new(login, PostgresTalk::new(alloc, 7)),
            held: Vec::new(alloc),
        })
    }

    /// What is wanted.
    pub fn want(&self) -> &Want {
        self.talk.want()
    }

    /// Takes a piece, and goes on until the conversation wants another thing than a message. Returns what it says.
    pub fn take(&mut self, alloc: Global, piece: &[u8]) -> Result<Vec<u8>, AllocError> {
        let mut said = Vec::new(alloc);
        self.held.extend_from_slice(piece)?;
        self.go_on(&mut said)?;
        Ok(said)
    }

    /// Learns a reply, if it fits what is wanted, and goes on. Returns what it says.
    pub fn learn(&mut self, alloc: Global, reply: Reply) -> Result<Vec<u8>, AllocError> {
        let mut said = Vec::new(alloc);
        if fits(self.talk.want(), &reply) {
            self.talk.learn(reply, &mut said)?;
        }
        self.go_on(&mut said)?;
        Ok(said)
    }

    // Hears messages, each of which has five bytes at least.
    fn go_on(&mut self, said: &mut Vec<u8>) -> Result<(), AllocError> {
        for _ in 0..=self.held.len() {
            if !is_message(self.talk.want()) {
                return Ok(());
            }
            if !self.hear(said)? {
                return Ok(());
            }
        }
        Ok(())
    }

    // Hears what stands at the front, and tells whether something does.
    fn hear(&mut self, said: &mut Vec<u8>) -> Result<bool, AllocError>
        requires { ⟦<PostgresLoginTalk<PostgresTalk> as Talk>⟧.wants self.old.talk ≡ TheWant.Message }
    {
        match self.talk.front(&self.held) {
            MessageFront::Nothing => Ok(false),
            MessageFront::Bad => {
                self.talk.reject(said)?;
                Ok(true)
            }
            MessageFront::Whole(size) => {
                let Some(message) = self.held.get(..size) else {
                    return Ok(false);
                };
                self.talk.hear(message, said)?;
                self.held.drain(..size);
                Ok(true)
            }
        }
    }
}

fn is_message(want: &Want) -> bool
    ensures { result ≡ true → want.now ≡ TheWant.Message }
{
    matches!(want, Want::Message)
}

// Whether a reply is one to what is wanted.
fn fits(want: &Want, reply: &Reply) -> bool
    ensures { result ≡ true → FitsWant want.now reply.now }
{
    match (want, reply) {
        (Want::Verifier { table: _, role: _ }, Reply::Verifier(_)) => true,
        (
            Want::Open {
                session: _,
                login: _,
                entry: _,
            },
            Reply::Answer(_),
        ) => true,
        _ => false,
    }
}
