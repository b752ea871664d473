//! What connections come to, as the server sees it.

ghost use Rattle.std.specs.Prelude.{◌≡◌, ℕ, Option, Some, None, IfOk, OnErr};
ghost use Rattle.wire.specs.Counts.{CountsFailure};
ghost use Rattle.wire.specs.Listening.{Listening, Takes, Closes, line_of};

use crate::frame_sink::TakesFrames;
use crate::input::Input;
use std::io;

/// A port, a socket of the system, or whatever else connections come to, one after the other.
///
/// Where an impl names what comes, each connection that is taken is the one that comes next, and a
/// failure comes in its turn too: nothing that has come is passed over.
pub trait Listen {
    /// What the bytes of a connection come from.
    type Reader: Input + Drop;

    /// What takes its answers.
    type Sink: TakesFrames + Drop;

    /// What is still to come, and how the connections were left that were closed, where all this is
    /// known.
    ghost listening: { Self → Option Listening } = { λ _. None };

    /// How often a connection could not be taken, up to 2^64 - 1.
    ghost failures: { Self → ℕ };

    /// Takes the connection that comes next. An error: it cannot be taken, which is counted.
    fn take(&mut self) -> io::Result<(Self::Reader, Self::Sink)>
        ensures taken { IfOk result (λ it. Takes (listening self.old)
            (Some (line_of (Self.Reader.remaining it.0) (Self.Sink.held it.1)))
            (listening self.new)) }
        ensures failed { OnErr result (Takes (listening self.old) None (listening self.new)) }
        ensures counts { CountsFailure result (failures self.old) (failures self.new) };

    /// Closes a connection that was taken.
    fn close(&mut self, reader: Self::Reader, sink: Self::Sink)
        ensures closed { Closes (listening self.old)
            (line_of (Self.Reader.remaining reader) (Self.Sink.held sink))
            (listening self.new) }
        ensures failures { failures self.new ≡ failures self.old };
}
