//! A listener in memory.

ghost use Rattle.std.specs.Prelude.{◌≡◌, [], Some, IfOk};
ghost use Rattle.channels.specs.Channels.{KeepsAll};
ghost use Rattle.systems.specs.Clients.{coming_lines, closed_lines};
ghost use Rattle.wire.specs.Listening.{Listening};

use channels::attend::{Attend, Taken};
use channels::memory::{MemAttend, MemChannel};
use std::alloc::{AllocError, Global};
use std::collections::VecDeque;
use std::io::ErrorKind;
use std::time::Duration;
use std::{io, mem};
use wire::frame_sink::FrameSink;
use wire::input::{CountedReader, Input};
use wire::listen::Listen;
use wire::sink::Sink;

/// The connections that were closed, the last of them first: what each has left to read, and what
/// it was told.
#[derive(Drop)]
pub(crate) enum Clients {
    Nobody,
    Client(CountedReader<VecDeque<u8>>, FrameSink<Vec<u8>>, Box<Clients>),
}

/// What a client has sent, and the memory in which it is kept when it is closed.
#[derive(Drop)]
pub struct MemReader {
    sent: CountedReader<VecDeque<u8>>,
    room: Box<Clients>,
}

impl MemReader {
    /// A client that has sent these bytes. The only error is that an allocation failed.
    pub fn new(alloc: Global, sent: VecDeque<u8>) -> Result<MemReader, AllocError>
        ensures { IfOk result
            (λ reader. ⟦<MemReader as Input>⟧.remaining reader ≡ Some sent.items) }
    {
        Ok(MemReader {
            sent: CountedReader::new(sent),
            room: Box::new(alloc, Clients::Nobody)?,
        })
    }
}

impl Input for MemReader {
    ghost remaining = { λ reader. ⟦<CountedReader<VecDeque<u8>> as Input>⟧.remaining reader.sent };

    ghost failures = { λ reader. ⟦<CountedReader<VecDeque<u8>> as Input>⟧.failures reader.sent };

    fn read(&mut self, bytes: &mut [u8]) -> io::Result<usize> {
        self.sent.read(bytes)
    }
}

/// Clients that come one after the other, with nothing in place of each that cannot be taken, and
/// those that were closed. Beside them, clients that come once it is polled.
#[derive(Drop)]
pub struct MemListener {
    alloc: Global,
    coming: VecDeque<Option<MemReader>>,
    closed: Clients,
    failures: u64,
    polled: MemAttend,
}

impl MemListener {
    /// These clients are to come, and none was closed.
    pub fn new(alloc: Global, coming: VecDeque<Option<MemReader>>) -> MemListener
        ensures { ⟦<MemListener as Listen>⟧.listening result
            ≡ Some (record { coming = coming_lines coming.items; closed = [] }) }
    {
        MemListener {
            alloc,
            coming,
            closed: Clients::Nobody,
            failures: 0,
            polled: MemAttend::new(alloc, Vec::new(alloc), 0),
        }
    }

    /// These clients come once it is polled, and none of them was closed.
    pub fn of_polled(alloc: Global, polled: MemAttend) -> MemListener
        ensures coming { KeepsAll (⟦<MemAttend as Attend<MemChannel>>⟧.coming polled)
            (⟦<MemListener as Attend<MemChannel>>⟧.coming result) }
        ensures closed { KeepsAll (⟦<MemAttend as Attend<MemChannel>>⟧.closed polled)
            (⟦<MemListener as Attend<MemChannel>>⟧.closed result) }
    {
        MemListener {
            alloc,
            coming: VecDeque::new(alloc),
            closed: Clients::Nobody,
            failures: 0,
            polled,
        }
    }
}

impl Attend<MemChannel> for MemListener {
    ghost coming = { λ listener. ⟦<MemAttend as Attend<MemChannel>>⟧.coming listener.polled };

    ghost closed = { λ listener. ⟦<MemAttend as Attend<MemChannel>>⟧.closed listener.polled };

    fn place(&mut self, client: u32) -> Option<usize> {
        self.polled.place(client)
    }

    fn take(&mut self, client: u32, place: usize) -> Taken<MemChannel> {
        self.polled.take(client, place)
    }

    fn turn_away(&mut self, place: usize, bytes: &[u8]) -> Taken<()> {
        self.polled.turn_away(place, bytes)
    }

    fn wait(&mut self, clients: &mut Vec<u32>, within: Option<Duration>) -> bool {
        self.polled.wait(clients, within)
    }

    fn now(&mut self) -> Duration {
        self.polled.now()
    }

    fn close(&mut self, client: u32, channel: MemChannel) {
        self.polled.close(client, channel);
    }
}

impl Listen for MemListener {
    ghost use Rattle.std.specs.Prelude.{◌≡◌, Some};

    type Reader = MemReader;

    type Sink = FrameSink<Vec<u8>>;

    ghost listening = { λ listener. Some (record {
      coming = coming_lines listener.coming.items;
      closed = closed_lines ⟦<FrameSink<Vec<u8>> as Sink>⟧.held listener.closed;
    }) };

    ghost failures = { λ listener. listener.failures };

    fn take(&mut self) -> io::Result<(MemReader, FrameSink<Vec<u8>>)> {
        match self.coming.pop_front() {
            Some(Some(reader)) => {
                let sink = FrameSink::new(self.alloc, Vec::new(self.alloc));
                Ok((reader, sink))
            }
            None | Some(None) => {
                self.failures = self.failures.saturating_add(1);
                Err(io::Error::from(ErrorKind::ConnectionAborted))
            }
        }
    }

    fn close(&mut self, reader: MemReader, sink: FrameSink<Vec<u8>>) {
        let MemReader { sent, mut room } = reader;
        *room = mem::replace(&mut self.closed, Clients::Nobody);
        self.closed = Clients::Client(sent, sink, room);
    }
}
