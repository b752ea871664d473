//! Connections of which no read and no write waits.

ghost use Rattle.std.specs.Prelude.{◌≡◌, ℕ, List, [], Option, true, length};
ghost use Rattle.std.specs.Option.{ForSome};
ghost use Rattle.std.specs.Io.{ReadsAtMost, WritesAtMost};
ghost use Rattle.std.specs.Io.KnownBytes.{ReadConsumes, WriteAppends};

use channels::channel::{Channel, Received, Sent};
use std::io;
use std::io::ErrorKind;

/// What bytes come from and go to, of which no call waits.
pub trait DuplexStream {
    /// The bytes that it has left to give, where an impl names them.
    ghost remaining: { Self → Option (List ℕ) };

    /// The bytes that it has taken, where an impl names them.
    ghost taken: { Self → Option (List ℕ) };

    /// At which of the places of a server it came: always the same one.
    ghost place: { Self → ℕ };

    /// Reads what has come into the front of a buffer, and answers how many bytes: none only at the
    /// end of its bytes or into an empty buffer. `WouldBlock`: nothing has come yet.
    fn read_now(&mut self, buffer: &mut [u8]) -> io::Result<usize>
        ensures bound { ReadsAtMost result buffer.new }
        ensures bytes { ReadConsumes (remaining self.old) (remaining self.new) result buffer.new }
        ensures size { length buffer.new ≡ length buffer.old }
        ensures taken { taken self.new ≡ taken self.old }
        ensures place { place self.new ≡ place self.old };

    /// Takes bytes from the front of some, and answers how many. `WouldBlock`: none can be taken yet.
    fn write_now(&mut self, bytes: &[u8]) -> io::Result<usize>
        ensures bound { WritesAtMost result bytes.now }
        ensures bytes { WriteAppends (taken self.old) (taken self.new) result bytes.now }
        ensures remaining { remaining self.new ≡ remaining self.old }
        ensures place { place self.new ≡ place self.old };
}

/// A stream as a channel. It has failed once a call of it has, but for one that would wait.
#[derive(Drop)]
pub struct SocketChannel<S: DuplexStream> {
    stream: S,
    has_ended: bool,
    has_failed: bool,
    ghost ended: { has_ended ≡ true → ForSome (S.remaining stream) (λ xs. xs ≡ []) },
}

impl<S: DuplexStream> SocketChannel<S> {
    /// A stream of which nothing was read and to which nothing was written.
    pub fn new(stream: S) -> SocketChannel<S>
        ensures remaining { ⟦<SocketChannel<S> as Channel>⟧.remaining result ≡ S.remaining stream }
        ensures taken { ⟦<SocketChannel<S> as Channel>⟧.taken result ≡ S.taken stream }
        ensures failures { ⟦<SocketChannel<S> as Channel>⟧.failures result ≡ 0 }
        ensures place { ⟦<SocketChannel<S> as Channel>⟧.place result ≡ S.place stream }
    {
        SocketChannel {
            stream,
            has_ended: false,
            has_failed: false,
        }
    }
}

impl<S: DuplexStream> Channel for SocketChannel<S> {
    ghost use Rattle.std.specs.Prelude.{if◌then◌else◌};

    ghost remaining = { λ c. S.remaining c.stream };

    ghost taken = { λ c. S.taken c.stream };

    ghost failures = { λ c. if c.has_failed then 1 else 0 };

    ghost place = { λ c. S.place c.stream };

    fn receive(&mut self, buffer: &mut [u8]) -> Received {
        if buffer.is_empty() {
            return Received::Nothing;
        }
        if self.has_ended {
            return Received::End;
        }
        match self.stream.read_now(buffer) {
            Ok(0) => {
                self.has_ended = true;
                Received::End
            }
            Ok(count) => Received::Bytes(count),
            Err(error) if error.kind() == ErrorKind::WouldBlock => Received::Nothing,
            Err(_) => {
                self.has_failed = true;
                Received::Failed
            }
        }
    }

    fn send(&mut self, bytes: &[u8]) -> Sent {
        if bytes.is_empty() {
            return Sent::Nothing;
        }
        match self.stream.write_now(bytes) {
            Ok(count) if count > 0 => Sent::Bytes(count),
            Err(error) if error.kind() == ErrorKind::WouldBlock => Sent::Nothing,
            _ => {
                self.has_failed = true;
                Sent::Failed
            }
        }
    }

    fn has_ended(&self) -> bool {
        self.has_ended
    }

    fn has_failed(&self) -> bool {
        self.has_failed
    }
}
