//! What takes the answers of a server.

ghost use Rattle.std.specs.Prelude.{ℕ, List, Option, OnOk, OnErr};
ghost use Rattle.std.specs.Io.KnownBytes.{Appends};
ghost use Rattle.store.specs.Store.{StoreState};
ghost use Rattle.wire.specs.Counts.{CountsFailure};
ghost use Rattle.sql_types.specs.declared.answer.Answer.{Answer as TheAnswer};

use sql_types::answer::Answer;
use std::io;
use store::Store;

/// What takes the answers of a server, each told while the store stands somewhere. What telling does
/// may depend on where that is. So code for every sink that promises to tell an answer after its
/// event was carried out has to tell it then, unless the store stands after the event as before.
pub trait Sink {
    /// What telling an answer to a session does, while the store stands here.
    ghost tells: { Self → StoreState → ℕ → TheAnswer → Self → Type 0 };

    /// What telling does that fails.
    ghost breaks: { Self → StoreState → ℕ → TheAnswer → Self → Type 0 };

    /// The bytes that it has taken, where an impl names them.
    ghost held: { Self → Option (List ℕ) };

    /// The bytes that it takes of an answer to a session.
    ghost spelled: { ℕ → TheAnswer → List ℕ };

    /// How many calls have failed, up to 2^64 - 1.
    ghost failures: { Self → ℕ };

    /// What a call that tells no answer leaves as it was.
    ghost stays: { Self → Self → Type 0 };

    /// What such a call leaves that fails.
    ghost fails: { Self → Self → Type 0 };

    /// Tells an answer to a session. An error: it was not taken whole, which is counted.
    fn tell<S: Store>(&mut self, store: &S, session: u32, answer: &Answer) -> io::Result<()>
        ensures told { OnOk result (tells self.old (S.state store.now) session answer.now self.new) }
        ensures taken { OnOk result (Appends (held self.old) (held self.new)
            (spelled session answer.now)) }
        ensures broken { OnErr result (breaks self.old (S.state store.now) session answer.now
            self.new) }
        ensures counts { CountsFailure result (failures self.old) (failures self.new) };
}
