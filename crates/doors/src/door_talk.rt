//! A conversation at a door.

ghost use Rattle.std.specs.Prelude.{◌≡◌, ◌≤◌, ◌++◌, ℕ, List, length, take, OnOk, OnErr};
ghost use Rattle.talks.specs.declared.want.Want.{Want as TheWant};
ghost use Rattle.doors.specs.Doors.{opens_only};
ghost use Rattle.doors.specs.DoorTalks.{TurnsOthersAway};

use crate::door::Door;
use sql_types::answer::Answer;
use sql_types::state::SqlState;
use std::alloc::AllocError;
use talks::talk::{MessageFront, Talk};
use talks::want::{Reply, Want};

/// A conversation of any protocol at a door. Where it wants a session for a role as which one may not
/// come in, the machine is not asked: it learns at once that this is refused with
/// `InvalidAuthorization`. All else is as without a door.
#[derive(Drop)]
pub struct DoorTalk<T> {
    door: Door,
    talk: T,
    // What is wanted where the conversation wants such a session again.
    nothing: Want,
    ghost ends: { nothing ≡ TheWant.OutOfMemory },
}

impl<T: Talk> DoorTalk<T> {
    /// A conversation at this door.
    pub fn new(door: Door, talk: T) -> DoorTalk<T>
        ensures door { result.door ≡ door }
        ensures talk { result.talk ≡ talk }
    {
        DoorTalk {
            door,
            talk,
            nothing: Want::OutOfMemory,
        }
    }

    // Whether the conversation wants no session but for a role as which one may come in.
    fn opens_only(&self) -> bool
        ensures { result ≡ opens_only self.now.door (T.wants self.now.talk) }
    {
        match self.talk.want() {
            Want::Open {
                session: _,
                login,
                entry: _,
            } => self.door.admits(login.as_str()),
            _ => true,
        }
    }

    // Turns the conversation away, if it wants another session.
    fn turn_others_away(&mut self, out: &mut Vec<u8>) -> Result<(), AllocError>
        ensures door { self.new.door ≡ self.old.door }
        ensures ok { OnOk result ((said : List ℕ)
            × TurnsOthersAway T.Talk self.old.door self.old.talk said self.new.talk
            × (out.new.items ≡ out.old.items ++ said)) }
        ensures err { OnErr result ((T.wants self.new.talk ≡ TheWant.OutOfMemory)
            × (out.new.items ≡ out.old.items)) }
    {
        if self.opens_only() {
            return Ok(());
        }
        let refused = Answer::Refused(SqlState::InvalidAuthorization);
        self.talk.learn(Reply::Answer(refused), out)
    }

    // The same after something was said, which is taken back where an allocation fails.
    fn turn_others_away_after(&mut self, before: usize, out: &mut Vec<u8>) -> Result<(), AllocError>
        requires { before ≤ length out.old.items }
        ensures door { self.new.door ≡ self.old.door }
        ensures ok { OnOk result ((said : List ℕ)
            × TurnsOthersAway T.Talk self.old.door self.old.talk said self.new.talk
            × (out.new.items ≡ out.old.items ++ said)) }
        ensures err { OnErr result ((T.wants self.new.talk ≡ TheWant.OutOfMemory)
            × (out.new.items ≡ take before out.old.items)) }
    {
        match self.turn_others_away(out) {
            Ok(()) => Ok(()),
            Err(error) => {
                out.truncate(before);
                Err(error)
            }
        }
    }
}

impl<T: Talk> Talk for DoorTalk<T> {
    ghost use Rattle.std.specs.Prelude.{◌≡◌};
    ghost use Rattle.doors.specs.Doors.{wanted_at};
    ghost use Rattle.doors.specs.DoorTalks.{SaysThen};

    ghost starts = { λ t. T.starts t.talk };

    ghost wants = { λ t. wanted_at t.door (T.wants t.talk) };

    ghost front = { λ t bytes. T.front t.talk bytes };

    ghost hears = { λ t message said u. SaysThen T.Talk t.door (T.hears t.talk message) said u.talk × (u.door ≡ t.door) };

    ghost rejects = { λ t said u. SaysThen T.Talk t.door (T.rejects t.talk) said u.talk × (u.door ≡ t.door) };

    ghost learns = { λ t reply said u. SaysThen T.Talk t.door (T.learns t.talk reply) said u.talk × (u.door ≡ t.door) };

    ghost comes_as = { λ t. T.comes_as t.talk };

    ghost front_more = { λ t bytes more n is. T.front_more t.talk bytes more n is };

    ghost bad_more = { λ t bytes more is. T.bad_more t.talk bytes more is };

    fn want(&self) -> &Want {
        if self.opens_only() {
            self.talk.want()
        } else {
            &self.nothing
        }
    }

    fn comes_as(&self) -> Option<&str> {
        self.talk.comes_as()
    }

    fn front(&self, bytes: &[u8]) -> MessageFront {
        self.talk.front(bytes)
    }

    fn hear(&mut self, message: &[u8], out: &mut Vec<u8>) -> Result<(), AllocError> {
        let before = out.len();
        self.talk.hear(message, out)?;
        self.turn_others_away_after(before, out)
    }

    fn reject(&mut self, out: &mut Vec<u8>) -> Result<(), AllocError> {
        let before = out.len();
        self.talk.reject(out)?;
        self.turn_others_away_after(before, out)
    }

    fn learn(&mut self, reply: Reply, out: &mut Vec<u8>) -> Result<(), AllocError> {
        let before = out.len();
        self.talk.learn(reply, out)?;
        self.turn_others_away_after(before, out)
    }

    fn give_up(&mut self) {
        self.talk.give_up();
    }
}
