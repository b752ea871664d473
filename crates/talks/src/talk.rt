//! One conversation: a protocol, from the bytes of a client to what it wants of a machine, and what
//! is said to the client.

ghost use Rattle.std.specs.Prelude.{◌≡◌, ◌++◌, ◌≤◌, ℕ, List, length, Option, OnOk, OnErr};
ghost use Rattle.std.specs.Option.{option_map};
ghost use Rattle.talks.specs.Wants.{FitsWant};
ghost use Rattle.talks.specs.declared.talk.MessageFront.{MessageFront as TheFront};
ghost use Rattle.talks.specs.declared.want.Want.{Want as TheWant};
ghost use Rattle.talks.specs.declared.want.Reply.{Reply as TheReply};

use crate::want::{Reply, Want};
use std::alloc::AllocError;

/// What stands at the front of some bytes: less than a message, one of so many bytes, or a bad one.
#[derive(Clone, Copy, PartialEq, Eq)]
pub enum MessageFront {
    Nothing,
    Whole(usize),
    Bad,
}

/// A conversation with one client, by the rules of a protocol: it takes whole messages off the front
/// of the client's bytes, says bytes, and wants one thing at a time.
///
/// An allocation that fails ends it: it has then said nothing of what it was to hear or to learn.
pub trait Talk {
    /// It has heard nothing.
    ghost starts: { Self → Type 0 };

    /// What it wants.
    ghost wants: { Self → TheWant };

    /// What stands at the front of these bytes, by how it stands.
    ghost front: { Self → List ℕ → TheFront };

    /// What it says to a message, and how it stands then.
    ghost hears: { Self → List ℕ → List ℕ → Self → Type 0 };

    /// What it says of a bad front, and how it stands then.
    ghost rejects: { Self → List ℕ → Self → Type 0 };

    /// What it says to what it learns, and how it stands then.
    ghost learns: { Self → TheReply → List ℕ → Self → Type 0 };

    /// The role of which its client has shown that it comes as that, if it has.
    ghost comes_as: { Self → Option (List ℕ) };

    /// What it wants, lent.
    fn want(&self) -> &Want
        ensures { result.now ≡ wants self.now };

    /// The name of the role of which its client has shown that it comes as that, or `None` where it has
    /// shown none.
    fn comes_as(&self) -> Option<&str>
        ensures { option_map (λ role. role.now) result ≡ comes_as self.now };

    /// What stands at the front of these bytes.
    fn front(&self, bytes: &[u8]) -> MessageFront
        ensures { result ≡ front self.now bytes.now };

    /// Hears a message, and puts what it says to it behind what was said.
    fn hear(&mut self, message: &[u8], out: &mut Vec<u8>) -> Result<(), AllocError>
        requires { wants self.old ≡ TheWant.Message }
        ensures ok { OnOk result ((said : List ℕ) × hears self.old message.now said self.new
            × (out.new.items ≡ out.old.items ++ said)) }
        ensures err { OnErr result ((wants self.new ≡ TheWant.OutOfMemory) × (out.new.items ≡ out.old.items)) };

    /// Learns that a bad message stands at the front, of which it says something.
    fn reject(&mut self, out: &mut Vec<u8>) -> Result<(), AllocError>
        requires { wants self.old ≡ TheWant.Message }
        ensures ok { OnOk result ((said : List ℕ) × rejects self.old said self.new
            × (out.new.items ≡ out.old.items ++ said)) }
        ensures err { OnErr result ((wants self.new ≡ TheWant.OutOfMemory) × (out.new.items ≡ out.old.items)) };

    /// Learns what it wanted, and puts what it says to it behind what was said.
    fn learn(&mut self, reply: Reply, out: &mut Vec<u8>) -> Result<(), AllocError>
        requires { FitsWant (wants self.old) reply }
        ensures ok { OnOk result ((said : List ℕ) × learns self.old reply said self.new
            × (out.new.items ≡ out.old.items ++ said)) }
        ensures err { OnErr result ((wants self.new ≡ TheWant.OutOfMemory) × (out.new.items ≡ out.old.items)) };

    /// Wants its end, since an allocation has failed elsewhere.
    fn give_up(&mut self)
        ensures { wants self.new ≡ TheWant.OutOfMemory };

    /// Bytes that follow a whole message change nothing of it.
    ghost front_more: { (t : Self) (bytes more : List ℕ) (n : ℕ) → front t bytes ≡ TheFront.Whole n
        → (n ≤ length bytes) × (front t (bytes ++ more) ≡ TheFront.Whole n) };

    /// And they mend no bad front.
    ghost bad_more: { (t : Self) (bytes more : List ℕ) → front t bytes ≡ TheFront.Bad
        → front t (bytes ++ more) ≡ TheFront.Bad };
}
