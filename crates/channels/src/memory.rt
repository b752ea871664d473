//! Connections in memory, of which all bytes are named.

ghost use Rattle.std.specs.Prelude.{◌≡◌, ◌≤◌, Some, IfOk, length, take};
ghost use Rattle.channels.specs.Comings.{HasJustCome};
ghost use Rattle.channels.specs.Memory.{bytes_of, went_out};

use crate::attend::{Attend, Taken};
use crate::behind::behind;
use crate::channel::{Channel, Received, Sent};
use std::alloc::{AllocError, Global};
use std::mem;
use std::time::Duration;

/// The clients in memory that were let go, with what had gone out to each.
#[derive(Drop)]
pub enum Gone {
    Nobody,
    Client(u32, Vec<u8>, Box<Gone>),
}

/// A connection in memory: the bytes that it gives in pieces, and those that it has taken.
#[derive(Drop)]
pub struct MemChannel {
    place: usize,
    input: Vec<u8>,
    read: usize,
    // How many bytes it gives and takes at once, at most.
    piece: usize,
    taken: Vec<u8>,
    failures: u64,
    room: Box<Gone>,
}

impl MemChannel {
    /// A connection at a place that gives these bytes, in pieces of so many at most.
    pub fn new(
        alloc: Global,
        place: usize,
        input: &[u8],
        piece: usize,
    ) -> Result<MemChannel, AllocError>
        ensures { IfOk result (λ channel. HasJustCome ⟦<MemChannel as Channel>⟧ (Some input.now) place channel) }
    {
        let mut bytes = Vec::new(alloc);
        bytes.extend_from_slice(input)?;
        let room = Box::new(alloc, Gone::Nobody)?;
        Ok(MemChannel {
            place,
            input: bytes,
            read: 0,
            piece,
            taken: Vec::new(alloc),
            failures: 0,
            room,
        })
    }
}

// Copies the first bytes, so many.
fn copy_front(from: &[u8], to: &mut [u8], count: usize)
    requires from { count ≤ length from.now }
    requires to { count ≤ length to.old }
    ensures copied { take count to.new ≡ take count from.now }
    ensures size { length to.new ≡ length to.old }
{
    to[..count].copy_from_slice(&from[..count]);
}

impl Channel for MemChannel {
    ghost use Rattle.std.specs.Prelude.{Some, drop};

    ghost remaining = { λ c. Some (drop c.read c.input.items) };

    ghost taken = { λ c. Some c.taken.items };

    ghost failures = { λ c. c.failures };

    ghost place = { λ c. c.place };

    fn receive(&mut self, buffer: &mut [u8]) -> Received {
        let rest = behind(&self.input, self.read);
        if rest.is_empty() {
            return Received::End;
        }
        let count = rest.len().min(buffer.len()).min(self.piece);
        if count == 0 {
            return Received::Nothing;
        }
        copy_front(rest, buffer, count);
        self.read += count;
        Received::Bytes(count)
    }

    fn send(&mut self, bytes: &[u8]) -> Sent {
        let count = bytes.len().min(self.piece);
        if count == 0 {
            return Sent::Nothing;
        }
        match self.taken.extend_from_slice(&bytes[..count]) {
            Ok(()) => Sent::Bytes(count),
            Err(_) => {
                self.failures = self.failures.saturating_add(1);
                Sent::Failed
            }
        }
    }

    fn has_ended(&self) -> bool {
        self.read >= self.input.len()
    }

    fn has_failed(&self) -> bool {
        self.failures > 0
    }
}

/// Who comes to one place in memory, and those that were let go.
#[derive(Drop)]
pub struct MemAttend {
    alloc: Global,
    // Where they come.
    at: usize,
    // What each client sends.
    inputs: Vec<Vec<u8>>,
    piece: usize,
    closed: Gone,
    now: Duration,
}

impl MemAttend {
    /// Clients that come to the first place and send these bytes, in pieces of so many at most.
    pub fn new(alloc: Global, inputs: Vec<Vec<u8>>, piece: usize) -> MemAttend {
        MemAttend {
            alloc,
            at: 0,
            inputs,
            piece,
            closed: Gone::Nobody,
            now: Duration::ZERO,
        }
    }
}

impl Attend<MemChannel> for MemAttend {
    ghost use Rattle.std.specs.Prelude.{slice_get};

    ghost coming = { λ a c. bytes_of (slice_get a.inputs.items c) };

    ghost closed = { λ a c. went_out a.closed c };

    fn place(&mut self, client: u32) -> Option<usize> {
        if (client as usize) < self.inputs.len() {
            Some(self.at)
        } else {
            None
        }
    }

    fn take(&mut self, client: u32, place: usize) -> Taken<MemChannel> {
        if place != self.at {
            return Taken::Nobody;
        }
        let Some(input) = self.inputs.get(client as usize) else {
            return Taken::Nobody;
        };
        match MemChannel::new(self.alloc, place, input, self.piece) {
            Ok(channel) => Taken::Came(channel),
            Err(_) => Taken::Later,
        }
    }

    fn turn_away(&mut self, _place: usize, _bytes: &[u8]) -> Taken<()> {
        Taken::Nobody
    }

    fn wait(&mut self, clients: &mut Vec<u32>, _within: Option<Duration>) -> bool {
        for index in 0..self.inputs.len() {
            if let Ok(client) = u32::try_from(index) {
                if clients.push(client).is_err() {
                    return true;
                }
            }
        }
        true
    }

    fn now(&mut self) -> Duration {
        self.now = self.now.saturating_add(Duration::from_millis(1));
        self.now
    }

    fn close(&mut self, client: u32, channel: MemChannel) {
        let MemChannel {
            place: _,
            input: _,
            read: _,
            piece: _,
            taken,
            failures: _,
            mut room,
        } = channel;
        *room = mem::replace(&mut self.closed, Gone::Nobody);
        self.closed = Gone::Client(client, taken, room);
    }
}
