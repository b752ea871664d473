//! The conversation with a client that sends events in frames.

ghost use Rattle.std.specs.Prelude.{◌≡◌, ◌++◌, Some, None, false, IfOk, OnOk, OnErr};
ghost use Rattle.wire.specs.Frame.{next_frame};
ghost use Rattle.talks.specs.declared.want.Want.{Want as TheWant};
ghost use Rattle.frame_talks.specs.FrameTalks.{front_of, wanted_for, wanted_by, asked_session, said_to, bad_frame_said, HearsFrame, RefusesFrame};

use crate::said::say_answer;
use sql_types::answer::Answer;
use sql_types::event::Event;
use sql_types::state::SqlState;
use std::alloc::{AllocError, Global};
use talks::talk::{MessageFront, Talk};
use talks::want::{Reply, SessionEntry, Want, Way};
use wire::frame_view::{FrameView, next_frame};
use wire::telling::session_of;

/// The conversation with one client in Guarddb's own frames: each event that they spell is wanted of
/// the machine, and its answer is said in frames of its session. A bad frame is answered once, for
/// session 0, and then the conversation wants its end. Anyone may open a session, for any role.
#[derive(Drop)]
pub struct FrameTalk {
    alloc: Global,
    want: Want,
}

impl FrameTalk {
    /// A conversation that has heard nothing.
    pub fn new(alloc: Global) -> FrameTalk
        ensures { ⟦<FrameTalk as Talk>⟧.starts result }
    {
        FrameTalk {
            alloc,
            want: Want::Message,
        }
    }

    // Answers a bad frame, and wants its end.
    fn refuse(&mut self, out: &mut Vec<u8>) -> Result<(), AllocError>
        ensures ok { OnOk result ((out.new.items ≡ out.old.items ++ bad_frame_said) × (self.new.want ≡ TheWant.End false)) }
        ensures err { OnErr result ((self.new.want ≡ TheWant.OutOfMemory) × (out.new.items ≡ out.old.items)) }
    {
        let answer = Answer::Refused(SqlState::ProtocolViolation);
        match say_answer(self.alloc, 0, &answer, out) {
            Ok(()) => {
                self.want = Want::End { late: false };
                Ok(())
            }
            Err(error) => {
                self.want = Want::OutOfMemory;
                Err(error)
            }
        }
    }
}

impl Talk for FrameTalk {
    ghost use Rattle.std.specs.Prelude.{◌≡◌, None};
    ghost use Rattle.frame_talks.specs.FrameLaws.{front_more, bad_more};

    ghost starts = { λ t. t.want ≡ TheWant.Message };

    ghost wants = { λ t. t.want };

    ghost front = { λ t bytes. front_of (next_frame bytes) };

    ghost hears = { λ t message said u. HearsFrame (next_frame message) said u.want };

    ghost rejects = { λ t said u. RefusesFrame said u.want };

    ghost learns = { λ t reply said u. (said ≡ said_to (asked_session t.want) reply) × (u.want ≡ TheWant.Message) };

    ghost comes_as = { λ t. None };

    ghost front_more = { λ t bytes more n is. front_more bytes more n is };

    ghost bad_more = { λ t bytes more is. bad_more bytes more is };

    fn want(&self) -> &Want {
        &self.want
    }

    fn comes_as(&self) -> Option<&str> {
        None
    }

    fn front(&self, bytes: &[u8]) -> MessageFront {
        match next_frame(bytes) {
            FrameView::Incomplete => MessageFront::Nothing,
            FrameView::Bad => MessageFront::Bad,
            FrameView::Whole { event: _, size } => MessageFront::Whole(size),
        }
    }

    fn hear(&mut self, message: &[u8], out: &mut Vec<u8>) -> Result<(), AllocError> {
        match wanted_by(self.alloc, message) {
            Ok(Some(want)) => {
                self.want = want;
                Ok(())
            }
            Ok(None) => self.refuse(out),
            Err(error) => {
                self.want = Want::OutOfMemory;
                Err(error)
            }
        }
    }

    fn reject(&mut self, out: &mut Vec<u8>) -> Result<(), AllocError> {
        self.refuse(out)
    }

    fn learn(&mut self, reply: Reply, out: &mut Vec<u8>) -> Result<(), AllocError> {
        match say_reply(self.alloc, &self.want, &reply, out) {
            Ok(()) => {
                self.want = Want::Message;
                Ok(())
            }
            Err(error) => {
                self.want = Want::OutOfMemory;
                Err(error)
            }
        }
    }

    fn give_up(&mut self) {
        self.want = Want::OutOfMemory;
    }
}

// What the frame at the front of a message wants of the machine, if it is a whole one.
fn wanted_by(alloc: Global, message: &[u8]) -> Result<Option<Want>, AllocError>
    ensures { IfOk result (λ want. want ≡ wanted_by (next_frame message.now)) }
{
    match next_frame(message) {
        FrameView::Whole { event, size: _ } => {
            let event = event.to_event(alloc)?;
            Ok(Some(wanted_for(event)))
        }
        FrameView::Incomplete | FrameView::Bad => Ok(None),
    }
}

// What an event wants of the machine.
fn wanted_for(event: Event) -> Want
    ensures { result ≡ wanted_for event }
{
    match event {
        Event::Open { session, login } => {
            let entry = SessionEntry {
                way: Way::Anyone,
                no_superuser: false,
                shown: None,
            };
            Want::Open {
                session,
                login,
                entry,
            }
        }
        Event::Statement { session, text } => Want::Event(Event::Statement { session, text }),
        Event::Close { session } => Want::Event(Event::Close { session }),
    }
}

// Says the frames of the answer to what was wanted.
fn say_reply(alloc: Global, want: &Want, reply: &Reply, out: &mut Vec<u8>) -> Result<(), AllocError>
    ensures ok { OnOk result (out.new.items ≡ out.old.items ++ said_to (asked_session want.now) reply.now) }
    ensures err { OnErr result (out.new.items ≡ out.old.items) }
{
    let Some(session) = asked_session(want) else {
        return Ok(());
    };
    match reply {
        Reply::Answer(answer) => say_answer(alloc, session, answer, out),
        Reply::Standing(_) | Reply::Description(_) | Reply::Verifier(_) => Ok(()),
    }
}

// The session of the event that is wanted, if one is.
fn asked_session(want: &Want) -> Option<u32>
    ensures { result ≡ asked_session want.now }
{
    match want {
        Want::Event(event) => Some(session_of(event)),
        Want::Open {
            session,
            login: _,
            entry: _,
        } => Some(*session),
        _ => None,
    }
}
