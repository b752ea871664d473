//! A conversation with a client that shows a password first.

ghost use Rattle.std.specs.Prelude.{◌≡◌, ◌++◌, ℕ, List, false, true, OnErr, OnOk};
ghost use Rattle.talks.specs.declared.want.Want.{Want as TheWant};
ghost use Rattle.password_talks.specs.LookUps.{is_as_shown, refusal};
ghost use Rattle.password_talks.specs.PasswordTalks.{OpensIf, asks_first};

use crate::early_frame::early_front;
use crate::login::Login;
use sql_types::answer::Answer;
use std::alloc::AllocError;
use talks::talk::{MessageFront, Talk};
use talks::want::{Reply, Want};

/// A conversation of any protocol, with a client that shows by SCRAM-SHA-256 (RFC 7677), in frames of
/// its own, for which role it comes before anything else is taken. From then on its bytes are those of
/// the conversation, which wants sessions for that role alone. Before each of them the verifier is
/// looked up: where it is another one than the client has shown, the session is refused with
/// `InvalidAuthorization`.
#[derive(Drop)]
pub struct PasswordTalk<T> {
    login: Login,
    // Whether the verifier was just found as it was shown, for the session that is wanted.
    is_found: bool,
    talk: T,
}

impl<T: Talk> PasswordTalk<T> {
    /// A conversation behind an exchange that has not begun.
    pub fn new(login: Login, talk: T) -> PasswordTalk<T>
        ensures login { result.login ≡ login }
        ensures is_found { result.is_found ≡ false }
        ensures talk { result.talk ≡ talk }
    {
        PasswordTalk {
            login,
            is_found: false,
            talk,
        }
    }

    // Whether the conversation inside wants a session before which the verifier is looked up.
    fn asks_first(&self) -> bool
        ensures { result ≡ asks_first self.now.is_found (T.wants self.now.talk) }
    {
        if self.is_found {
            return false;
        }
        matches!(
            self.talk.want(),
            Want::Open {
                session: _,
                login: _,
                entry: _
            }
        )
    }

    // Learns what was looked up before a session.
    fn learn_verifier(&mut self, reply: &Reply, out: &mut Vec<u8>) -> Result<(), AllocError>
        requires { asks_first self.old.is_found (T.wants self.old.talk) ≡ true }
        ensures ok { OnOk result ((said : List ℕ)
            × OpensIf T.Talk (is_as_shown self.old.login.stage (T.wants self.old.talk) reply.now)
            (refusal self.old.login.stage (T.wants self.old.talk) reply.now) self.old said self.new
            × (out.new.items ≡ out.old.items ++ said)) }
        ensures err { OnErr result ((self.new.login ≡ self.old.login) × (self.new.is_found ≡ false)
            × (T.wants self.new.talk ≡ TheWant.OutOfMemory) × (out.new.items ≡ out.old.items)) }
    {
        self.is_found = self.login.is_as_shown(self.talk.want(), reply);
        if self.is_found {
            return Ok(());
        }
        let state = self.login.refusal(self.talk.want(), reply);
        self.talk.learn(Reply::Answer(Answer::Refused(state)), out)
    }
}

impl<T: Talk> Talk for PasswordTalk<T> {
    ghost use Rattle.std.specs.Prelude.{◌≡◌, ◌++◌, false};
    ghost use Rattle.password_talks.specs.declared.stage.LoginStage.{LoginStage as TheStage};
    ghost use Rattle.password_talks.specs.Logins.{is_admitted, shown_role};
    ghost use Rattle.password_talks.specs.PasswordTalks.{HearsMessage, LearnsReply, RejectsMessage, front_at, wanted};
    ghost use Rattle.password_talks.specs.FrontLaws.{front_more_if, bad_more_if};

    ghost starts = { λ t. (t.login.stage ≡ TheStage.Silent) × (t.login.want ≡ TheWant.Message) × (t.is_found ≡ false) × T.starts t.talk };

    ghost wants = { λ t. wanted t.login t.is_found (T.wants t.talk) };

    ghost front = { λ t bytes. front_at T.Talk (is_admitted t.login.stage) t.talk bytes };

    ghost hears = { λ t message said u. HearsMessage T.Talk t message said u };

    ghost rejects = { λ t said u. RejectsMessage T.Talk t said u };

    ghost learns = { λ t reply said u. LearnsReply T.Talk t reply said u };

    ghost comes_as = { λ t. shown_role t.login.stage };

    ghost front_more = { λ t bytes more n is. front_more_if (is_admitted t.login.stage) (T.front t.talk bytes) (T.front t.talk (bytes ++ more)) bytes more n (λ it. T.front_more t.talk bytes more n it) is };

    ghost bad_more = { λ t bytes more is. bad_more_if (is_admitted t.login.stage) (T.front t.talk bytes) (T.front t.talk (bytes ++ more)) bytes more (λ it. T.bad_more t.talk bytes more it) is };

    fn want(&self) -> &Want {
        if self.login.is_admitted() && !self.asks_first() {
            self.talk.want()
        } else {
            self.login.want()
        }
    }

    fn comes_as(&self) -> Option<&str> {
        self.login.shown_role()
    }

    fn front(&self, bytes: &[u8]) -> MessageFront {
        if self.login.is_admitted() {
            self.talk.front(bytes)
        } else {
            early_front(bytes)
        }
    }

    fn hear(&mut self, message: &[u8], out: &mut Vec<u8>) -> Result<(), AllocError> {
        let asks_first = self.asks_first();
        self.is_found = false;
        if !self.login.is_admitted() {
            return self.login.hear(message, out);
        }
        if asks_first {
            // It does not come to that: no message is wanted then.
            self.login.give_up();
            return Err(AllocError);
        }
        self.talk.hear(message, out)
    }

    fn reject(&mut self, out: &mut Vec<u8>) -> Result<(), AllocError> {
        let asks_first = self.asks_first();
        self.is_found = false;
        if !self.login.is_admitted() {
            return self.login.reject(out);
        }
        if asks_first {
            // It does not come to that: no message is wanted then.
            self.login.give_up();
            return Err(AllocError);
        }
        self.talk.reject(out)
    }

    fn learn(&mut self, reply: Reply, out: &mut Vec<u8>) -> Result<(), AllocError> {
        if self.login.is_admitted() && self.asks_first() {
            return self.learn_verifier(&reply, out);
        }
        self.is_found = false;
        if self.login.is_admitted() {
            self.talk.learn(reply, out)
        } else {
            self.login.learn(reply, out)
        }
    }

    fn give_up(&mut self) {
        self.login.give_up();
    }
}
