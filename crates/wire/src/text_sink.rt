//! Answers as text, to a writer.

ghost use Rattle.std.specs.Prelude.{◌≡◌, ℕ, ⊤, refl, OnErr, OnOk};
ghost use Rattle.std.specs.Io.KnownBytes.{Appends, Keeps};
ghost use Rattle.sql_types.specs.declared.answer.Answer.{Answer as TheAnswer};
ghost use Rattle.wire.specs.AnswerText.{answer_text};
ghost use Rattle.wire.specs.Counts.{Rose, CountsFailure};

use crate::answers::write_answer;
use crate::output::{CountedWriter, Output};
use crate::sink::Sink;
use sql_types::answer::Answer;
use std::io;
use std::io::Write;
use store::Store;

/// A sink that takes the texts of answers, one after the other.
pub trait TakesText: Sink {
    /// All that it has taken has gone out.
    ghost finished: { Self → Type 0 };

    /// Takes a text that answers no event. An error: it was not taken whole, which is counted.
    fn print(&mut self, text: &str) -> io::Result<()>
        ensures taken { OnOk result (Appends (Self.held self.old) (Self.held self.new) text.now) }
        ensures stays { OnOk result (Self.stays self.old self.new) }
        ensures fails { OnErr result (Self.fails self.old self.new) }
        ensures counts { CountsFailure result (Self.failures self.old) (Self.failures self.new) };

    /// Lets all go out that was taken. An error: not all has, which is counted.
    fn finish(&mut self) -> io::Result<()>
        ensures kept { Keeps (Self.held self.old) (Self.held self.new) }
        ensures finished { OnOk result (finished self.new) }
        ensures stays { OnOk result (Self.stays self.old self.new) }
        ensures fails { OnErr result (Self.fails self.old self.new) }
        ensures counts { CountsFailure result (Self.failures self.old) (Self.failures self.new) };

    /// Of an answer it takes the text.
    ghost takes_text: { (session : ℕ) (answer : TheAnswer)
        → Self.spelled session answer ≡ answer_text answer };
}

/// The texts of answers, to a writer, with a count of the calls that failed. What a writer that failed
/// has taken of a text is not known.
#[derive(Drop)]
pub struct TextSink<W> {
    output: CountedWriter<W>,
}

impl<W: Write> TextSink<W> {
    /// Texts to a writer.
    pub fn new(writer: W) -> TextSink<W>
        ensures { ⟦<TextSink<W> as Sink>⟧.held result ≡ W.contents writer }
    {
        TextSink {
            output: CountedWriter::new(writer),
        }
    }

    /// The writer.
    pub fn into_writer(self) -> W
        ensures { W.contents result ≡ ⟦<TextSink<W> as Sink>⟧.held self }
    {
        let TextSink { output } = self;
        output.into_writer()
    }
}

impl<W: Write> Sink for TextSink<W> {
    ghost tells = { λ k s session answer l. Appends
        (⟦<CountedWriter<W> as Output>⟧.contents k.output) (⟦<CountedWriter<W> as Output>⟧.contents l.output)
        (answer_text answer) };

    ghost breaks = { λ k s session answer l. Rose
        (⟦<CountedWriter<W> as Output>⟧.failures k.output) (⟦<CountedWriter<W> as Output>⟧.failures l.output) };

    ghost held = { λ k. ⟦<CountedWriter<W> as Output>⟧.contents k.output };

    ghost spelled = { λ session answer. answer_text answer };

    ghost failures = { λ k. ⟦<CountedWriter<W> as Output>⟧.failures k.output };

    ghost stays = { λ k l. ⊤ };

    ghost fails = { λ k l. ⊤ };

    fn tell<S: Store>(&mut self, _store: &S, _session: u32, answer: &Answer) -> io::Result<()> {
        write_answer(answer, &mut self.output)
    }
}

impl<W: Write> TakesText for TextSink<W> {
    ghost finished = { λ k. ⟦<CountedWriter<W> as Output>⟧.flushed k.output };

    fn print(&mut self, text: &str) -> io::Result<()> {
        self.output.put(text.as_bytes())
    }

    fn finish(&mut self) -> io::Result<()> {
        self.output.flush()
    }

    ghost takes_text = { λ session answer. refl };
}
