//! Where the text of an answer goes: to an output as it is, or into frames.

ghost use Rattle.std.specs.Prelude.{ℕ, List, [], ◌++◌, Option, OnOk};
ghost use Rattle.std.specs.Io.KnownBytes.{Appends};
ghost use Rattle.wire.specs.Counts.{CountsFailure};
ghost use Rattle.wire.specs.Sinks.{appends_none, appends_joined};

use crate::output::Output;
use std::io;

// What takes a text piece by piece, and hands it on to an output in its own form.
pub(crate) trait TextWriter {
    // What taking a text does to the sink, and to the bytes that the output has taken before and after.
    ghost takes: { Self → Option (List ℕ) → List ℕ → Self → Option (List ℕ) → Type 0 };

    // No text changes nothing.
    ghost takes_none: { (s : Self) (written : Option (List ℕ)) → takes s written [] s written };

    // A text and then another are taken as both joined.
    ghost takes_joined: { (s m t : Self) (before mid after : Option (List ℕ)) (text more : List ℕ)
        → takes s before text m mid → takes m mid more t after
        → takes s before (text ++ more) t after };

    // Takes a piece of the text.
    fn put<O: Output>(&mut self, piece: &[u8], out: &mut O) -> io::Result<()>
        ensures taken { OnOk result (takes self.old (O.contents out.old) piece.now
            self.new (O.contents out.new)) }
        ensures counts { CountsFailure result (O.failures out.old) (O.failures out.new) };
}

// The text as it is.
#[derive(Drop)]
pub(crate) struct Plain;

impl TextWriter for Plain {
    ghost takes = { λ s before text t after. Appends before after text };

    ghost takes_none = { λ s written. appends_none written };

    ghost takes_joined = { λ s m t before mid after text more first second.
        appends_joined before mid after text more first second };

    fn put<O: Output>(&mut self, piece: &[u8], out: &mut O) -> io::Result<()> {
        out.put(piece)
    }
}
