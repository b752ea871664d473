//! Answers in frames.

ghost use Rattle.std.specs.Prelude.{◌≡◌, ◌+◌, ◌≤◌, ◌++◌, [], length, take, drop, OnOk};
ghost use Rattle.std.specs.Io.KnownBytes.{Appends};
ghost use Rattle.wire.specs.Frame.{frame};
ghost use Rattle.wire.specs.AnswerFrames.{answer_frames};
ghost use Rattle.wire.specs.AnswerText.{answer_text};
ghost use Rattle.wire.specs.Counts.{CountsFailure};
ghost use Rattle.wire.specs.Sinks.{held_text, HasTaken, taken_none, taken_joined};

use crate::answers::print_answer;
use crate::output::Output;
use crate::text_writer::TextWriter;
use sql_types::answer::Answer;
use std::alloc::{AllocError, Global};
use std::io;

/// The greatest number of bytes of a text that one frame carries.
pub const MAX_TEXT: usize = 131_067;

/// The number of bytes of the longest frame.
const MAX_FRAME: usize = 131_076;

/// Room for one frame, in which the frames of answers are laid out one after the other.
#[derive(Drop)]
pub struct FrameBuffer {
    bytes: Vec<u8>,
    session: u32,
    used: usize,
    ghost sized: { length bytes.items ≡ 131076 },
    ghost fits: { used ≤ 131067 },
}

/// Writes the frames of an answer, for the session of the event that it answers.
///
/// A text of more than `MAX_TEXT` bytes goes out in several frames, in order, all but the last of
/// them full. No memory is allocated: what the buffer held before is forgotten, and each frame is
/// laid out in it and goes out by one `put`. An error says that the output failed, which it has
/// counted; how much of the frames it has taken by then is not said.
pub fn write_frames<O: Output>(
    session: u32,
    answer: &Answer,
    buffer: &mut FrameBuffer,
    out: &mut O,
) -> io::Result<()>
    ensures taken { OnOk result (Appends (O.contents out.old) (O.contents out.new)
        (answer_frames session (answer_text answer.now))) }
    ensures counts { CountsFailure result (O.failures out.old) (O.failures out.new) }
{
    buffer.begin(session);
    print_answer(answer, buffer, out)?;
    buffer.send(out)
}

impl FrameBuffer {
    /// Takes the memory for the longest frame.
    ///
    /// An error says that the allocation failed.
    pub fn new(alloc: Global) -> Result<FrameBuffer, AllocError> {
        Ok(FrameBuffer {
            bytes: vec![in alloc; 0u8; MAX_FRAME]?,
            session: 0,
            used: 0,
        })
    }

    // Begins the frames of an answer.
    fn begin(&mut self, session: u32)
        ensures session { self.new.session ≡ session }
        ensures empty { held_text self.new.bytes.items self.new.used ≡ [] }
    {
        self.session = session;
        self.used = 0;
    }

    // Takes a piece for which there is room.
    fn hold(&mut self, piece: &[u8])
        requires { self.old.used + length piece.now ≤ 131067 }
        ensures used { self.new.used ≡ self.old.used + length piece.now }
        ensures text { held_text self.new.bytes.items self.new.used
            ≡ held_text self.old.bytes.items self.old.used ++ piece.now }
        ensures session { self.new.session ≡ self.old.session }
    {
        let start = 9 + self.used;
        put_at(&mut self.bytes, start, piece);
        self.used += piece.len();
    }

    // Lays out the nine bytes before what is held.
    fn lay_out(&mut self)
        ensures frame { take (9 + self.old.used) self.new.bytes.items
            ≡ frame 4 self.old.session (held_text self.old.bytes.items self.old.used) }
        ensures used { self.new.used ≡ self.old.used }
        ensures session { self.new.session ≡ self.old.session }
    {
        let [a, b, c, d] = (self.used as u32 + 5).to_be_bytes();
        let [e, f, g, h] = self.session.to_be_bytes();
        put_at(&mut self.bytes, 0, &[a, b, c, d, 4, e, f, g, h]);
    }

    // Sends what is held as one frame.
    fn send<O: Output>(&mut self, out: &mut O) -> io::Result<()>
        ensures sent { OnOk result (Appends (O.contents out.old) (O.contents out.new)
            (frame 4 self.old.session (held_text self.old.bytes.items self.old.used))) }
        ensures counts { CountsFailure result (O.failures out.old) (O.failures out.new) }
        ensures used { self.new.used ≡ 0 }
        ensures session { self.new.session ≡ self.old.session }
    {
        self.lay_out();
        let end = 9 + self.used;
        self.used = 0;
        out.put(&self.bytes[..end])
    }
}

// Puts a piece in place of as many bytes.
fn put_at(frame: &mut [u8], start: usize, piece: &[u8])
    requires { start + length piece.now ≤ length frame.old }
    ensures bytes { frame.new
        ≡ take start frame.old ++ (piece.now ++ drop (start + length piece.now) frame.old) }
    ensures len { length frame.new ≡ length frame.old }
{
    frame[start..start + piece.len()].copy_from_slice(piece);
}

impl TextWriter for FrameBuffer {
    ghost takes = { λ s before text t after. HasTaken s.session (held_text s.bytes.items s.used)
        before text t.session (held_text t.bytes.items t.used) after };

    ghost takes_none = { λ s written.
        taken_none s.session (held_text s.bytes.items s.used) written };

    ghost takes_joined = { λ s m t before mid after text more first second.
        taken_joined s.session m.session t.session (held_text s.bytes.items s.used)
        (held_text m.bytes.items m.used) (held_text t.bytes.items t.used)
        before mid after text more first second };

    // A full frame is sent only when one more byte comes, so that the last one may be full.
    fn put<O: Output>(&mut self, piece: &[u8], out: &mut O) -> io::Result<()> {
        let mut rest = piece;
        while rest.len() > MAX_TEXT - self.used {
            let (front, behind) = rest.split_at(MAX_TEXT - self.used);
            self.hold(front);
            self.send(out)?;
            rest = behind;
        }
        self.hold(rest);
        Ok(())
    }
}
