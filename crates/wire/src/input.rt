//! What bytes are read from, and how often it has failed.

ghost use Rattle.std.specs.Prelude.{◌≡◌, ℕ, List, Option};
ghost use Rattle.std.specs.Io.{ReadsAtMost};
ghost use Rattle.std.specs.Io.KnownBytes.{ReadConsumes};
ghost use Rattle.wire.specs.Counts.{CountsFailure};

use std::io;
use std::io::{ErrorKind, Read};

/// What gives bytes, and counts the reads that fail.
pub trait Input {
    /// The bytes that it has left, where an impl names them.
    ghost remaining: { Self → Option (List ℕ) };

    /// How many reads have failed, up to 2^64 - 1.
    ghost failures: { Self → ℕ };

    /// Reads bytes into the front of a buffer, and answers how many: none only where it is at its
    /// end or the buffer is empty. An error: nothing was read, which is counted.
    fn read(&mut self, buffer: &mut [u8]) -> io::Result<usize>
        ensures bound { ReadsAtMost result buffer.new }
        ensures bytes { ReadConsumes (remaining self.old) (remaining self.new) result buffer.new }
        ensures counts { CountsFailure result (failures self.old) (failures self.new) };
}

/// A reader, with a count of the reads that failed. A read that was interrupted is tried again, and
/// is no failure unless 2^64 - 1 tries were. Nothing else here sees an error of a reader.
#[derive(Drop)]
pub struct CountedReader<R> {
    reader: R,
    failures: u64,
}

impl<R: Read> CountedReader<R> {
    /// A reader of which no read has failed.
    pub fn new(reader: R) -> CountedReader<R>
        ensures remaining { ⟦<CountedReader<R> as Input>⟧.remaining result ≡ R.remaining reader }
        ensures failures { ⟦<CountedReader<R> as Input>⟧.failures result ≡ 0 }
    {
        CountedReader {
            reader,
            failures: 0,
        }
    }
}

impl<R: Read> Input for CountedReader<R> {
    ghost remaining = { λ i. R.remaining i.reader };

    ghost failures = { λ i. i.failures };

    fn read(&mut self, buffer: &mut [u8]) -> io::Result<usize> {
        for _ in 0..u64::MAX {
            match self.reader.read(buffer) {
                Ok(count) => return Ok(count),
                Err(error) => {
                    if error.kind() != ErrorKind::Interrupted {
                        self.failures = self.failures.saturating_add(1);
                        return Err(error);
                    }
                }
            }
        }
        self.failures = self.failures.saturating_add(1);
        Err(io::Error::from(ErrorKind::Interrupted))
    }
}
