//! The listener of a place of a machine, by which connections are taken one after the other, or many
//! at once.

use crate::listening::PlaceListener;
use crate::several::OneListener;
use crate::streams::SystemStream;
use channels::attend::{Attend, Taken};
use polled_sockets::listeners::PolledStream;
use polled_sockets::sockets::SocketAttend;
use polled_sockets::streams::SocketChannel;
use std::alloc::Global;
use std::io;
use std::io::BufWriter;
use std::net::Net;
use std::time::{Clock, Duration};
use wire::frame_sink::FrameSink;
use wire::input::CountedReader;
use wire::listen::Listen;
use wire::system_listener::SystemListener;

/// The connections that come to a place. They are taken one after the other, until it is polled, and
/// then so that none is waited for. What comes no contract knows.
#[derive(Drop)]
pub struct RealListener<'r, R> {
    waiting: SystemListener<'r, R, PlaceListener>,
    polled: Option<SocketAttend<'r, R>>,
}

impl<'r, R: Net + Clock> RealListener<'r, R> {
    /// The connections that come to a place, one after the other.
    pub(crate) fn new(waiting: SystemListener<'r, R, PlaceListener>) -> RealListener<'r, R> {
        RealListener {
            waiting,
            polled: None,
        }
    }

    /// The path of the socket's file, where it is that of a folder.
    pub(crate) fn path_in_folder(&self) -> Option<&str> {
        self.waiting.listener().path_in_folder()
    }

    /// Several places, where it listens at these.
    pub(crate) fn each(&self) -> Option<&Vec<OneListener>> {
        self.waiting.listener().each()
    }

    /// Has the system tell who comes, and who of those that came may have something to do. An error
    /// is one of the system.
    pub(crate) fn poll(&mut self, rt: &'r R, alloc: Global) -> io::Result<()> {
        let listeners = self.waiting.listener().polled(alloc)?;
        self.polled = Some(SocketAttend::new(rt, alloc, listeners)?);
        Ok(())
    }
}

impl<'r, R: Eprint + Clock> Listen for RealListener<'r, R> {
    type Reader = CountedReader<SystemStream>;

    type Sink = FrameSink<BufWriter<SystemStream>>;

    ghost failures = { λ l. ⟦<SystemListener<'r, R, PlaceListener> as Listen>⟧.failures l.waiting };

    fn take(
        &mut self,
    ) -> io::Result<
        (
            CountedReader<SystemStream>,
            FrameSink<BufWriter<SystemStream>>,
        ),
    > {
        self.waiting.take()
    }

    fn close(
        &mut self,
        reader: CountedReader<SystemStream>,
        sink: FrameSink<BufWriter<SystemStream>>,
    ) {
        self.waiting.close(reader, sink);
    }
}

impl<R: Net + Clock> Attend<SocketChannel<PolledStream>> for RealListener<'_, R> {
    ghost use Rattle.std.specs.Prelude.{None};

    ghost coming = { λ a c. None };

    ghost closed = { λ a c. None };

    // Nobody comes to a place that is not polled.
    fn place(&mut self, client: u32) -> Option<usize> {
        match &mut self.polled {
            Some(polled) => polled.place(client),
            None => None,
        }
    }

    fn take(&mut self, client: u32, place: usize) -> Taken<SocketChannel<PolledStream>> {
        match &mut self.polled {
            Some(polled) => polled.take(client, place),
            None => Taken::Failed,
        }
    }

    fn turn_away(&mut self, place: usize, bytes: &[u8]) -> Taken<()> {
        match &mut self.polled {
            Some(polled) => polled.turn_away(place, bytes),
            None => Taken::Failed,
        }
    }

    fn wait(&mut self, clients: &mut Vec<u32>, within: Option<Duration>) -> bool {
        match &mut self.polled {
            Some(polled) => polled.wait(clients, within),
            None => true,
        }
    }

    fn now(&mut self) -> Duration {
        match &mut self.polled {
            Some(polled) => polled.now(),
            None => Duration::ZERO,
        }
    }

    fn close(&mut self, client: u32, channel: SocketChannel<PolledStream>) {
        match &mut self.polled {
            Some(polled) => polled.close(client, channel),
            None => drop(channel),
        }
    }
}
