//! The conversation with a client of PostgreSQL.

ghost use Rattle.std.specs.Prelude.{◌≡◌, ◌++◌, ℕ, List, OnOk, OnErr};
ghost use Rattle.talks.specs.declared.want.Want.{Want as TheWant};
ghost use Rattle.postgres_talks.specs.Moments.{first_moment};
ghost use Rattle.postgres_talks.specs.Talks.{HearsMessage, Learns, Rejects, front_in, front_of};

use crate::fault::TalkFault;
use crate::moment::{TalkMoment, TalkStage};
use crate::requests::request_of;
use crate::said::Said;
use crate::taking::{fault_of, heeded, say_request, take_request};
use crate::telling::say_reply;
use postgres_messages::front::{MAX_AFTER_LOGIN, StreamFront, message_front, start_front};
use sql_types::state::SqlState;
use std::alloc::{AllocError, Global};
use talks::talk::{MessageFront, Talk};
use talks::want::{Reply, Want};

/// The conversation with one client by PostgreSQL's frontend/backend protocol 3.0 (PostgreSQL 15 manual, chapter 55), at a place
/// without passwords. It has one session, which is opened for the role that the start-up packet names.
#[derive(Drop)]
pub struct PostgresTalk {
    alloc: Global,
    moment: TalkMoment,
}

impl PostgresTalk {
    /// A conversation that has heard nothing. Its client is told this number as that of its process.
    pub fn new(alloc: Global, process: u32) -> PostgresTalk
        ensures { result.moment ≡ first_moment process }
    {
        PostgresTalk {
            alloc,
            moment: TalkMoment::new(alloc, process),
        }
    }

    // What follows an allocation that has failed.
    fn unless_refused(&mut self, outcome: Result<(), AllocError>) -> Result<(), AllocError>
        ensures same { result ≡ outcome }
        ensures ok { OnOk result (self.new ≡ self.old) }
        ensures err { OnErr result (self.new.moment.want ≡ TheWant.OutOfMemory) }
    {
        if outcome.is_err() {
            self.moment.want = Want::OutOfMemory;
        }
        outcome
    }
}

impl Talk for PostgresTalk {
    ghost use Rattle.std.specs.Prelude.{◌≡◌, ℕ, None};
    ghost use Rattle.postgres_talks.specs.TalkLaws.{front_more, bad_more};

    ghost starts = { λ t. (process : ℕ) × (t.moment ≡ first_moment process) };

    ghost wants = { λ t. t.moment.want };

    ghost front = { λ t bytes. front_of t.moment.stage bytes };

    ghost hears = { λ t message said u. HearsMessage t.moment message said u.moment };

    ghost rejects = { λ t said u. Rejects t.moment said u.moment };

    ghost learns = { λ t reply said u. Learns t.moment reply said u.moment };

    ghost comes_as = { λ t. None };

    ghost front_more = { λ t bytes more n is. front_more t.moment.stage bytes more n is };

    ghost bad_more = { λ t bytes more is. bad_more t.moment.stage bytes more is };

    fn want(&self) -> &Want {
        &self.moment.want
    }

    fn comes_as(&self) -> Option<&str> {
        None
    }

    fn front(&self, bytes: &[u8]) -> MessageFront {
        match self.moment.stage {
            TalkStage::Starting => front_in(start_front(bytes)),
            _ => front_in(message_front(MAX_AFTER_LOGIN, bytes)),
        }
    }

    fn hear(&mut self, message: &[u8], out: &mut Vec<u8>) -> Result<(), AllocError> {
        let outcome = hear_message(self.alloc, &mut self.moment, message, out);
        self.unless_refused(outcome)
    }

    fn reject(&mut self, out: &mut Vec<u8>) -> Result<(), AllocError> {
        let outcome = reject_bytes(self.alloc, &mut self.moment, out);
        self.unless_refused(outcome)
    }

    fn learn(&mut self, reply: Reply, out: &mut Vec<u8>) -> Result<(), AllocError> {
        let outcome = learn_reply(self.alloc, &mut self.moment, &reply, out);
        self.unless_refused(outcome)
    }

    fn give_up(&mut self) {
        self.moment.want = Want::OutOfMemory;
    }
}

fn front_in(front: StreamFront) -> MessageFront
    ensures { result ≡ front_in front }
{
    match front {
        StreamFront::Nothing => MessageFront::Nothing,
        StreamFront::Whole(size) => MessageFront::Whole(size),
        StreamFront::Bad => MessageFront::Bad,
    }
}

// Hears a message.
fn hear_message(
    alloc: Global,
    moment: &mut TalkMoment,
    message: &[u8],
    out: &mut Vec<u8>,
) -> Result<(), AllocError>
    ensures ok { OnOk result ((said : List ℕ) × HearsMessage moment.old message.now said moment.new × (out.new.items ≡ out.old.items ++ said)) }
    ensures err { OnErr result (out.new.items ≡ out.old.items) }
{
    let mut said = Said::new(alloc);
    let asked = heeded(moment.mode, request_of(alloc, moment, message)?);
    let fault = fault_of(&asked, moment);
    say_request(fault, &asked, &mut said)?;
    take_request(alloc, moment, fault, asked)?;
    said.send(out)?;
    Ok(())
}

// Ends the connection at a bad message.
fn reject_bytes(alloc: Global, moment: &mut TalkMoment, out: &mut Vec<u8>) -> Result<(), AllocError>
    ensures ok { OnOk result ((said : List ℕ) × Rejects moment.old said moment.new × (out.new.items ≡ out.old.items ++ said)) }
    ensures err { OnErr result (out.new.items ≡ out.old.items) }
{
    let mut said = Said::new(alloc);
    said.put_fatal(TalkFault::Refused(SqlState::ProtocolViolation))?;
    moment.end();
    said.send(out)?;
    Ok(())
}

// Learns what was wanted.
fn learn_reply(
    alloc: Global,
    moment: &mut TalkMoment,
    reply: &Reply,
    out: &mut Vec<u8>,
) -> Result<(), AllocError>
    ensures ok { OnOk result ((said : List ℕ) × Learns moment.old reply.now said moment.new × (out.new.items ≡ out.old.items ++ said)) }
    ensures err { OnErr result (out.new.items ≡ out.old.items) }
{
    let mut said = Said::new(alloc);
    say_reply(alloc, moment, reply, &mut said)?;
    moment.take(alloc, reply)?;
    said.send(out)?;
    Ok(())
}
