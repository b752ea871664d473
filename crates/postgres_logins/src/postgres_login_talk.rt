//! A conversation with a client that shows a password first, in PostgreSQL's messages.

ghost use Rattle.std.specs.Prelude.{◌≡◌, ◌↔◌, ◌++◌, ℕ, List, [], false, true, length, IsTrue, OnErr, OnOk};
ghost use Rattle.talks.specs.declared.talk.MessageFront.{MessageFront as TheFront};
ghost use Rattle.talks.specs.declared.want.Want.{Want as TheWant};
ghost use Rattle.password_talks.specs.LookUps.{is_as_shown, refusal};
ghost use Rattle.password_talks.specs.PasswordTalks.{asks_first};
ghost use Rattle.postgres_logins.specs.Logins.{is_admitted, shown_in};
ghost use Rattle.postgres_logins.specs.PostgresLoginTalks.{HearsStart, LearnsOutside, OpensIf};
ghost use Rattle.postgres_logins.specs.declared.stage.SaslStage.{SaslStage as TheStage};

use crate::login::SaslLogin;
use sql_types::answer::Answer;
use std::alloc::AllocError;
use talks::talk::{MessageFront, Talk};
use talks::want::{Reply, Want};

/// A conversation of PostgreSQL's protocol, with a client that shows by SCRAM-SHA-256 (RFC 7677, PostgreSQL 15 manual,
/// 55.3.1) for which role it comes before anything else is taken. Then the conversation inside hears the StartupMessage,
/// as it came, and from then on all that comes. It wants sessions for that role alone. Before each of them the verifier is
/// looked up: where it is another one than the client has shown, the session is refused with `InvalidAuthorization`.
#[derive(Drop)]
pub struct PostgresLoginTalk<T> {
    login: SaslLogin,
    // Whether the verifier was just found as it was shown, for the session that is wanted.
    is_found: bool,
    talk: T,
}

impl<T: Talk> PostgresLoginTalk<T> {
    /// A conversation behind an exchange that has not begun. A conversation inside that would not take a packet of the start
    /// first ends as if memory was refused once its client is let in.
    pub fn new(login: SaslLogin, talk: T) -> PostgresLoginTalk<T>
        ensures login { result.login ≡ login }
        ensures is_found { result.is_found ≡ false }
        ensures talk { result.talk ≡ talk }
    {
        PostgresLoginTalk {
            login,
            is_found: false,
            talk,
        }
    }

    // Whether the conversation inside wants a session before which the verifier is looked up.
    fn asks_first(&self) -> bool
        ensures { result ≡ asks_first self.now.is_found (T.wants self.now.talk) }
    {
        if self.is_found {
            return false;
        }
        matches!(
            self.talk.want(),
            Want::Open {
                session: _,
                login: _,
                entry: _
            }
        )
    }

    // Learns what was looked up before a session.
    fn learn_verifier(&mut self, reply: &Reply, out: &mut Vec<u8>) -> Result<(), AllocError>
        requires { asks_first self.old.is_found (T.wants self.old.talk) ≡ true }
        ensures ok { OnOk result ((said : List ℕ)
            × OpensIf T.Talk (is_as_shown (shown_in self.old.login.stage) (T.wants self.old.talk) reply.now)
            (refusal (shown_in self.old.login.stage) (T.wants self.old.talk) reply.now) self.old said self.new
            × (out.new.items ≡ out.old.items ++ said)) }
        ensures err { OnErr result ((self.new.login ≡ self.old.login) × (self.new.is_found ≡ false)
            × (T.wants self.new.talk ≡ TheWant.OutOfMemory) × (out.new.items ≡ out.old.items)) }
    {
        self.is_found = self.login.is_as_shown(self.talk.want(), reply);
        if self.is_found {
            return Ok(());
        }
        let state = self.login.refusal(self.talk.want(), reply);
        self.talk.learn(Reply::Answer(Answer::Refused(state)), out)
    }

    // Learns what was looked up for the exchange.
    fn learn_outside(&mut self, reply: Reply, out: &mut Vec<u8>) -> Result<(), AllocError>
        ensures ok { OnOk result ((said : List ℕ) × LearnsOutside T.Talk self.old.login.stage self.old reply said self.new
            × (out.new.items ≡ out.old.items ++ said)) }
        ensures err { OnErr result ((self.new.login.stage ≡ TheStage.Ended) × (self.new.login.want ≡ TheWant.OutOfMemory)
            × (out.new.items ≡ out.old.items)) }
    {
        let mut said = Vec::new(self.login.alloc());
        let outcome = match self.step(reply, &mut said) {
            Ok(()) => out.extend_from_slice(&said),
            Err(error) => Err(error),
        };
        if outcome.is_err() {
            self.login.give_up();
        }
        outcome
    }

    // Learns what was looked up for the exchange. A client that is let in has said its StartupMessage.
    fn step(&mut self, reply: Reply, said: &mut Vec<u8>) -> Result<(), AllocError>
        requires { said.old.items ≡ [] }
        ensures { OnOk result (LearnsOutside T.Talk self.old.login.stage self.old reply said.new.items self.new) }
    {
        self.is_found = false;
        self.login.learn(reply, said)?;
        match self.login.start() {
            Some(start) => hear_start(&mut self.talk, start, said),
            None => Ok(()),
        }
    }
}

// A conversation hears a StartupMessage. There is no memory for one that would not take it as its first message.
fn hear_start<T: Talk>(talk: &mut T, start: &[u8], said: &mut Vec<u8>) -> Result<(), AllocError>
    ensures { OnOk result ((inner : List ℕ) × HearsStart T.Talk start.now talk.old inner talk.new × (said.new.items ≡ said.old.items ++ inner)) }
{
    if takes(talk, start) {
        talk.hear(start, said)
    } else {
        Err(AllocError)
    }
}

// Whether a conversation wants a message, and these bytes are one to it.
fn takes<T: Talk>(talk: &T, start: &[u8]) -> bool
    ensures { IsTrue result ↔ ((T.wants talk.now ≡ TheWant.Message) × (T.front talk.now start.now ≡ TheFront.Whole (length start.now))) }
{
    match (talk.want(), talk.front(start)) {
        (Want::Message, MessageFront::Whole(size)) => size == start.len(),
        _ => false,
    }
}

impl<T: Talk> Talk for PostgresLoginTalk<T> {
    ghost use Rattle.std.specs.Prelude.{◌≡◌, ◌++◌, false};
    ghost use Rattle.postgres_logins.specs.declared.stage.SaslStage.{SaslStage as TheStage};
    ghost use Rattle.postgres_logins.specs.Logins.{is_admitted, shown_role};
    ghost use Rattle.postgres_logins.specs.PostgresLoginTalks.{HearsMessage, LearnsReply, RejectsMessage, front_at, wanted};
    ghost use Rattle.postgres_logins.specs.FrontLaws.{front_more_if, bad_more_if};

    ghost starts = { λ t. (t.login.stage ≡ TheStage.Starting 0) × (t.login.want ≡ TheWant.Message) × (t.is_found ≡ false) × T.starts t.talk };

    ghost wants = { λ t. wanted t.login t.is_found (T.wants t.talk) };

    ghost front = { λ t bytes. front_at T.Talk t.login.stage t.talk bytes };

    ghost hears = { λ t message said u. HearsMessage T.Talk t message said u };

    ghost rejects = { λ t said u. RejectsMessage T.Talk t said u };

    ghost learns = { λ t reply said u. LearnsReply T.Talk t reply said u };

    ghost comes_as = { λ t. shown_role t.login.stage };

    ghost front_more = { λ t bytes more n is. front_more_if (is_admitted t.login.stage) t.login.stage (T.front t.talk bytes) (T.front t.talk (bytes ++ more)) bytes more n (λ it. T.front_more t.talk bytes more n it) is };

    ghost bad_more = { λ t bytes more is. bad_more_if (is_admitted t.login.stage) t.login.stage (T.front t.talk bytes) (T.front t.talk (bytes ++ more)) bytes more (λ it. T.bad_more t.talk bytes more it) is };

    fn want(&self) -> &Want {
        if self.login.is_admitted() && !self.asks_first() {
            self.talk.want()
        } else {
            self.login.want()
        }
    }

    fn comes_as(&self) -> Option<&str> {
        self.login.shown_role()
    }

    fn front(&self, bytes: &[u8]) -> MessageFront {
        if self.login.is_admitted() {
            self.talk.front(bytes)
        } else {
            self.login.front(bytes)
        }
    }

    fn hear(&mut self, message: &[u8], out: &mut Vec<u8>) -> Result<(), AllocError> {
        let asks_first = self.asks_first();
        self.is_found = false;
        if !self.login.is_admitted() {
            return self.login.hear(message, out);
        }
        if asks_first {
            // It does not come to that: no message is wanted then.
            self.login.give_up();
            return Err(AllocError);
        }
        self.talk.hear(message, out)
    }

    fn reject(&mut self, out: &mut Vec<u8>) -> Result<(), AllocError> {
        let asks_first = self.asks_first();
        self.is_found = false;
        if !self.login.is_admitted() {
            return self.login.reject(out);
        }
        if asks_first {
            // It does not come to that: no message is wanted then.
            self.login.give_up();
            return Err(AllocError);
        }
        self.talk.reject(out)
    }

    fn learn(&mut self, reply: Reply, out: &mut Vec<u8>) -> Result<(), AllocError> {
        if !self.login.is_admitted() {
            return self.learn_outside(reply, out);
        }
        if self.asks_first() {
            return self.learn_verifier(&reply, out);
        }
        self.is_found = false;
        self.talk.learn(reply, out)
    }

    fn give_up(&mut self) {
        self.login.give_up();
    }
}
