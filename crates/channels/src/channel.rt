//! A connection of which no call waits.

ghost use Rattle.std.specs.Prelude.{◌≡◌, ◌≢◌, true, ℕ, List, Option, length};
ghost use Rattle.std.specs.Io.KnownBytes.{Keeps, IsAtEnd};
ghost use Rattle.channels.specs.Channels.{IsReceived, ReceivesAtMost, IsSent, SendsAtMost};

/// What came of a connection.
#[derive(Clone, Copy, PartialEq, Eq)]
pub enum Received {
    /// So many bytes, at least one.
    Bytes(usize),
    /// None yet.
    Nothing,
    /// None any more: `has_ended` tells so from now on.
    End,
    /// The connection failed: `has_failed` tells so from now on.
    Failed,
}

/// What a connection took.
#[derive(Clone, Copy, PartialEq, Eq)]
pub enum Sent {
    /// The first bytes, so many, at least one.
    Bytes(usize),
    /// None yet.
    Nothing,
    /// The connection failed: `has_failed` tells so from now on.
    Failed,
}

/// A connection, whose bytes come and go as far as they can at once. No call waits.
pub trait Channel {
    /// The bytes that are still to come, where an impl names them.
    ghost remaining: { Self → Option (List ℕ) };

    /// The bytes that it has taken, where an impl names them.
    ghost taken: { Self → Option (List ℕ) };

    /// How many calls have failed, up to 2^64 - 1.
    ghost failures: { Self → ℕ };

    /// At which of the places of a server it came: always the same one.
    ghost place: { Self → ℕ };

    /// Reads what has come into the front of a buffer. Nothing comes into an empty one.
    fn receive(&mut self, buffer: &mut [u8]) -> Received
        ensures bytes { IsReceived (remaining self.old) (remaining self.new) result buffer.new }
        ensures bound { ReceivesAtMost result (length buffer.new) }
        ensures size { length buffer.new ≡ length buffer.old }
        ensures taken { taken self.new ≡ taken self.old }
        ensures place { place self.new ≡ place self.old };

    /// Takes bytes from the front of some, and none of an empty slice.
    fn send(&mut self, bytes: &[u8]) -> Sent
        ensures bytes { IsSent (taken self.old) (taken self.new) result bytes.now }
        ensures bound { SendsAtMost result (length bytes.now) }
        ensures remaining { remaining self.new ≡ remaining self.old }
        ensures place { place self.new ≡ place self.old };

    /// Whether no byte comes any more.
    fn has_ended(&self) -> bool
        ensures { result ≡ true → IsAtEnd (remaining self.now) };

    /// Whether a call has failed.
    fn has_failed(&self) -> bool
        ensures { result ≡ true → failures self.now ≢ 0 };
}
