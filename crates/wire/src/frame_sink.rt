//! Answers in frames, to a writer.

ghost use Rattle.std.specs.Prelude.{◌≡◌, ◌⊎◌, ℕ, ⊤, None, refl, OnOk, OnErr};
ghost use Rattle.std.specs.Io.KnownBytes.{Appends};
ghost use Rattle.sql_types.specs.declared.answer.Answer.{Answer as TheAnswer};
ghost use Rattle.wire.specs.AnswerFrames.{answer_frames};
ghost use Rattle.wire.specs.AnswerText.{answer_text};
ghost use Rattle.wire.specs.Counts.{Rose, CountsFailure};

use crate::frame_buffer::{FrameBuffer, write_frames};
use crate::output::{CountedWriter, Output};
use crate::sink::Sink;
use sql_types::answer::Answer;
use std::alloc::Global;
use std::io;
use std::io::{ErrorKind, Write};
use store::Store;

/// A sink that takes answers in frames, one after the other, and lets several go out together.
pub trait TakesFrames: Sink {
    /// All that it has taken has gone out.
    ghost finished: { Self → Type 0 };

    /// Whether it has the memory for a frame. With none it takes no answer.
    fn is_ready(&self) -> bool;

    /// Tells an answer to a session, as `tell` does, and then lets all go out that was taken. An
    /// error: the answer was not taken whole, or not all has gone out, which is counted.
    fn tell_last<S: Store>(&mut self, store: &S, session: u32, answer: &Answer) -> io::Result<()>
        ensures told { OnOk result (Self.tells self.old (S.state store.now) session answer.now
            self.new) }
        ensures taken { OnOk result (Appends (Self.held self.old) (Self.held self.new)
            (Self.spelled session answer.now)) }
        ensures finished { OnOk result (finished self.new) }
        ensures broken { OnErr result (Self.breaks self.old (S.state store.now) session answer.now
            self.new) }
        ensures counts { CountsFailure result (Self.failures self.old) (Self.failures self.new) };

    /// Of an answer it takes the frames, which are of the session that is told.
    ghost takes_frames: { (session : ℕ) (answer : TheAnswer)
        → Self.spelled session answer ≡ answer_frames session (answer_text answer) };
}

/// The frames of answers, to a writer, which is flushed when all is to go out, with a count of the
/// calls that failed. What a writer that failed has taken of an answer is not known.
#[derive(Drop)]
pub struct FrameSink<W> {
    buffer: Option<FrameBuffer>,
    output: CountedWriter<W>,
    failures: u64,
}

impl<W: Write> FrameSink<W> {
    /// Frames to a writer. It is not ready where the memory for a frame is refused.
    pub fn new(alloc: Global, writer: W) -> FrameSink<W>
        ensures held { ⟦<FrameSink<W> as Sink>⟧.held result ≡ W.contents writer }
        ensures finished { ⟦<FrameSink<W> as TakesFrames>⟧.finished result }
    {
        let buffer = match FrameBuffer::new(alloc) {
            Ok(buffer) => Some(buffer),
            Err(_) => None,
        };
        FrameSink {
            buffer,
            output: CountedWriter::new(writer),
            failures: 0,
        }
    }

    /// The writer.
    pub fn into_writer(self) -> W
        ensures { W.contents result ≡ ⟦<FrameSink<W> as Sink>⟧.held self }
    {
        let FrameSink {
            buffer: _,
            output,
            failures: _,
        } = self;
        output.into_writer()
    }

    // Puts the frames of an answer. An error: there is no memory for a frame, or the writer failed.
    fn put(&mut self, session: u32, answer: &Answer) -> io::Result<()>
        ensures taken { OnOk result (Appends (⟦<CountedWriter<W> as Output>⟧.contents self.old.output)
            (⟦<CountedWriter<W> as Output>⟧.contents self.new.output)
            (answer_frames session (answer_text answer.now))) }
        ensures none_failed { OnOk result (⟦<CountedWriter<W> as Output>⟧.failures self.new.output
            ≡ ⟦<CountedWriter<W> as Output>⟧.failures self.old.output) }
        ensures cause { OnErr result ((self.old.buffer ≡ None)
            ⊎ Rose (⟦<CountedWriter<W> as Output>⟧.failures self.old.output)
            (⟦<CountedWriter<W> as Output>⟧.failures self.new.output)) }
        ensures failures { self.new.failures ≡ self.old.failures }
    {
        let Some(buffer) = &mut self.buffer else {
            return Err(io::Error::from(ErrorKind::OutOfMemory));
        };
        write_frames(session, answer, buffer, &mut self.output)
    }

    // Puts the frames of an answer, and flushes the writer. An error: as `put`, or the flush failed.
    fn put_and_flush(&mut self, session: u32, answer: &Answer) -> io::Result<()>
        ensures taken { OnOk result (Appends (⟦<CountedWriter<W> as Output>⟧.contents self.old.output)
            (⟦<CountedWriter<W> as Output>⟧.contents self.new.output)
            (answer_frames session (answer_text answer.now))) }
        ensures flushed { OnOk result (⟦<CountedWriter<W> as Output>⟧.flushed self.new.output) }
        ensures cause { OnErr result ((self.old.buffer ≡ None)
            ⊎ Rose (⟦<CountedWriter<W> as Output>⟧.failures self.old.output)
            (⟦<CountedWriter<W> as Output>⟧.failures self.new.output)) }
        ensures failures { self.new.failures ≡ self.old.failures }
    {
        self.put(session, answer)?;
        self.output.flush()
    }
}

impl<W: Write> Sink for FrameSink<W> {
    ghost tells = { λ k s session answer l. Appends
        (⟦<CountedWriter<W> as Output>⟧.contents k.output) (⟦<CountedWriter<W> as Output>⟧.contents l.output)
        (answer_frames session (answer_text answer)) };

    ghost breaks = { λ k s session answer l. (k.buffer ≡ None) ⊎ Rose
        (⟦<CountedWriter<W> as Output>⟧.failures k.output) (⟦<CountedWriter<W> as Output>⟧.failures l.output) };

    ghost held = { λ k. ⟦<CountedWriter<W> as Output>⟧.contents k.output };

    ghost spelled = { λ session answer. answer_frames session (answer_text answer) };

    ghost failures = { λ k. k.failures };

    ghost stays = { λ k l. ⊤ };

    ghost fails = { λ k l. ⊤ };

    fn tell<S: Store>(&mut self, _store: &S, session: u32, answer: &Answer) -> io::Result<()> {
        let result = self.put(session, answer);
        if result.is_err() {
            self.failures = self.failures.saturating_add(1);
        }
        result
    }
}

impl<W: Write> TakesFrames for FrameSink<W> {
    ghost finished = { λ k. ⟦<CountedWriter<W> as Output>⟧.flushed k.output };

    fn is_ready(&self) -> bool {
        self.buffer.is_some()
    }

    fn tell_last<S: Store>(&mut self, _store: &S, session: u32, answer: &Answer) -> io::Result<()> {
        let result = self.put_and_flush(session, answer);
        if result.is_err() {
            self.failures = self.failures.saturating_add(1);
        }
        result
    }

    ghost takes_frames = { λ session answer. refl };
}
