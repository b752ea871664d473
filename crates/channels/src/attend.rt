//! Who comes, and who of those that came may have something to do.

ghost use Rattle.std.specs.Prelude.{◌≡◌, ℕ, List, Option};
ghost use Rattle.channels.specs.Channels.{KeepsAll, KeepsOthers};
ghost use Rattle.channels.specs.Comings.{HasCome};

use crate::channel::Channel;
use std::time::Duration;

/// Who came.
#[derive(Drop)]
pub enum Taken<C> {
    /// A client, with this connection.
    Came(C),
    /// Nobody for now.
    Nobody,
    /// One that could not be taken, as where descriptors are short: it is tried again later.
    Later,
    /// One could not be taken, and none will be.
    Failed,
}

/// Who comes to a server, and a hint who of those that came may have something to do.
///
/// Clients are numbered in the order of their coming, and the places where they may come from 0 on. Of
/// the hint nothing is promised.
pub trait Attend<C: Channel> {
    /// The bytes that the client of each number sends, where an impl names them.
    ghost coming: { Self → ℕ → Option (List ℕ) };

    /// The bytes that had gone out to each client that was let go, where an impl names them.
    ghost closed: { Self → ℕ → Option (List ℕ) };

    /// A place where the client of this number may come, another each time where several have somebody.
    /// `None`: nobody comes for now. Nothing is promised of it.
    fn place(&mut self, client: u32) -> Option<usize>
        ensures coming { KeepsAll (coming self.old) (coming self.new) }
        ensures closed { KeepsAll (closed self.old) (closed self.new) };

    /// Takes the connection that comes next at a place, of the client of this number. `Nobody`: none has
    /// come there.
    fn take(&mut self, client: u32, place: usize) -> Taken<C>
        ensures came { HasCome C.Channel (coming self.old client) place result }
        ensures coming { KeepsAll (coming self.old) (coming self.new) }
        ensures closed { KeepsAll (closed self.old) (closed self.new) };

    /// Tells the connection that comes next at a place these bytes, and closes it: it is no client.
    fn turn_away(&mut self, place: usize, bytes: &[u8]) -> Taken<()>
        ensures coming { KeepsAll (coming self.old) (coming self.new) }
        ensures closed { KeepsAll (closed self.old) (closed self.new) };

    /// Waits until something may have come, at most so long, or without end. It puts the numbers of
    /// the clients to which something may have, and tells whether another may have come.
    fn wait(&mut self, clients: &mut Vec<u32>, within: Option<Duration>) -> bool
        ensures coming { KeepsAll (coming self.old) (coming self.new) }
        ensures closed { KeepsAll (closed self.old) (closed self.new) };

    /// The time since some moment. It does not go back.
    fn now(&mut self) -> Duration
        ensures coming { KeepsAll (coming self.old) (coming self.new) }
        ensures closed { KeepsAll (closed self.old) (closed self.new) };

    /// Closes the connection of a client.
    fn close(&mut self, client: u32, channel: C)
        ensures coming { KeepsAll (coming self.old) (coming self.new) }
        ensures closed { closed self.new client ≡ C.taken channel }
        ensures others { KeepsOthers client (closed self.old) (closed self.new) };
}
