//! What bytes are written to, and how often it has failed.

ghost use Rattle.std.specs.Prelude.{◌≡◌, ℕ, List, Option, true, OnOk};
ghost use Rattle.std.specs.Io.KnownBytes.{Appends, Keeps};
ghost use Rattle.wire.specs.Counts.{CountsFailure};

use std::io;
use std::io::Write;

/// What takes bytes, and counts the calls that fail.
pub trait Output {
    /// The bytes that it has taken, where an impl names them.
    ghost contents: { Self → Option (List ℕ) };

    /// How many calls have failed, up to 2^64 - 1.
    ghost failures: { Self → ℕ };

    /// All that it has taken was flushed.
    ghost flushed: { Self → Type 0 };

    /// Takes bytes. An error: they were not taken whole, which is counted.
    fn put(&mut self, bytes: &[u8]) -> io::Result<()>
        ensures taken { OnOk result (Appends (contents self.old) (contents self.new) bytes.now) }
        ensures counts { CountsFailure result (failures self.old) (failures self.new) };

    /// Lets all go out that was taken. An error: not all has, which is counted.
    fn flush(&mut self) -> io::Result<()>
        ensures kept { Keeps (contents self.old) (contents self.new) }
        ensures flushed { OnOk result (flushed self.new) }
        ensures counts { CountsFailure result (failures self.old) (failures self.new) };
}

/// A writer, with a count of the calls that failed. Nothing else here sees an error of a writer.
#[derive(Drop)]
pub struct CountedWriter<W> {
    writer: W,
    failures: u64,
    is_flushed: bool,
}

impl<W: Write> CountedWriter<W> {
    /// A writer that has taken nothing through here, and of which no call has failed.
    pub fn new(writer: W) -> CountedWriter<W>
        ensures contents { ⟦<CountedWriter<W> as Output>⟧.contents result ≡ W.contents writer }
        ensures failures { ⟦<CountedWriter<W> as Output>⟧.failures result ≡ 0 }
        ensures flushed { ⟦<CountedWriter<W> as Output>⟧.flushed result }
    {
        CountedWriter {
            writer,
            failures: 0,
            is_flushed: true,
        }
    }

    /// The writer.
    pub fn into_writer(self) -> W
        ensures { W.contents result ≡ ⟦<CountedWriter<W> as Output>⟧.contents self }
    {
        let CountedWriter {
            writer,
            failures: _,
            is_flushed: _,
        } = self;
        writer
    }
}

impl<W: Write> Output for CountedWriter<W> {
    ghost contents = { λ o. W.contents o.writer };

    ghost failures = { λ o. o.failures };

    ghost flushed = { λ o. o.is_flushed ≡ true };

    fn put(&mut self, bytes: &[u8]) -> io::Result<()> {
        self.is_flushed = false;
        let result = self.writer.write_all(bytes);
        if result.is_err() {
            self.failures = self.failures.saturating_add(1);
        }
        result
    }

    fn flush(&mut self) -> io::Result<()> {
        let result = self.writer.flush();
        self.is_flushed = result.is_ok();
        if result.is_err() {
            self.failures = self.failures.saturating_add(1);
        }
        result
    }
}
