//! Who comes to the ports and the sockets of a server, and who of those that came may have something to
//! do.

ghost use Rattle.std.specs.Prelude.{◌≡◌, ◌≤◌, IfOk, IfSome};
ghost use Rattle.std.specs.Duration.{as_nanos};

use crate::listeners::{PolledListener, PolledStream};
use crate::streams::{DuplexStream, SocketChannel};
use channels::attend::{Attend, Taken};
use mio::{Events, Poll, Token};
use std::alloc::Global;
use std::io::ErrorKind;
use std::net::Net;
use std::time::{Clock, Duration, Instant};
use std::{io, thread};

/// The token of what connections come to at the first place; those of the others follow. No client has
/// such a number.
const LISTENER: usize = 1 << 32;

/// How many events are taken of the system at once, at most.
const EVENTS: usize = 256;

/// For how many milliseconds nothing is done where the system or memory refuses what is asked.
const PAUSE: u64 = 100;

/// The error of Linux where the process has too many descriptors.
const EMFILE: i32 = 24;

/// The error of Linux where the system has too many descriptors.
const ENFILE: i32 = 23;

/// The error of Linux where the system has no memory for a socket.
const ENOBUFS: i32 = 105;

// A place, and whether somebody may have come there.
#[derive(Drop)]
struct PolledPlace {
    listener: PolledListener,
    may_come: bool,
}

/// The connections that come to the places of a server, and the events of the system that tell of them.
/// What comes no contract knows; each connection that is taken at a place is one that the listener with
/// the number of that place has taken.
///
/// The system tells of a connection only where something has changed: bytes have come, it takes bytes
/// again, it has ended or failed. So it has to be asked for bytes until it answers that there are
/// none yet. Each event is told once, and none is lost where memory is refused: it is told later.
///
/// A connection of which the system gives no events is closed.
#[derive(Drop)]
pub struct SocketAttend<'r, R> {
    rt: &'r R,
    places: Vec<PolledPlace>,
    // Which of them is asked next.
    next: usize,
    poll: Poll,
    events: Events,
    // How many of the events are not told yet: the last ones.
    untold: usize,
    began: Instant,
    // The greatest time that was seen.
    latest: Duration,
}

impl<'r, R: Net + Clock> SocketAttend<'r, R> {
    /// The connections that come to listeners. An error: the system gives no events of one, memory is
    /// refused, or there is no time.
    pub fn new(
        rt: &'r R,
        alloc: Global,
        listeners: Vec<PolledListener>,
    ) -> io::Result<SocketAttend<'r, R>> {
        let poll = Poll::new(rt)?;
        let events = Events::with_capacity(alloc, EVENTS)?;
        let mut places = Vec::new(alloc);
        for mut listener in listeners {
            let token = LISTENER.saturating_add(listener.place);
            listener.register(poll.registry(), Token(token))?;
            places.push(PolledPlace {
                listener,
                may_come: true,
            })?;
        }
        let began = Instant::now(rt)?;
        Ok(SocketAttend {
            rt,
            places,
            next: 0,
            poll,
            events,
            untold: 0,
            began,
            latest: Duration::ZERO,
        })
    }

    // The listener with the number of a place, where somebody may have come there.
    fn listener_at(&self, place: usize) -> Option<&PolledListener>
        ensures { IfSome result (λ listener. listener.now.place ≡ place) }
    {
        let found = self.places.get(place)?;
        if found.listener.place != place || !found.may_come {
            return None;
        }
        Some(&found.listener)
    }

    // Takes the connection that comes next at a place. `WouldBlock`: none has come.
    fn accept_at(&self, place: usize) -> io::Result<PolledStream>
        ensures { IfOk result (λ stream. ⟦<PolledStream as DuplexStream>⟧.place stream ≡ place) }
    {
        match self.listener_at(place) {
            Some(listener) => listener.accept_now(),
            None => Err(io::Error::from(ErrorKind::WouldBlock)),
        }
    }

    // Nobody comes there until the system tells so.
    fn note_nobody(&mut self, place: usize) {
        if let Some(found) = self.places.get_mut(place) {
            found.may_come = false;
        }
    }

    // Why no connection was taken at a place.
    fn missed(&mut self, place: usize, error: &io::Error) -> Miss {
        let miss = miss_of(error);
        if let Miss::Nobody = miss {
            self.note_nobody(place);
        }
        miss
    }

    // Has the system tell of a connection under this number. An error is one of the system.
    fn register(&self, stream: &mut PolledStream, client: u32) -> io::Result<()>
        ensures { ⟦<PolledStream as DuplexStream>⟧.place stream.new ≡ ⟦<PolledStream as DuplexStream>⟧.place stream.old }
    {
        stream.register(self.poll.registry(), Token(client as usize))
    }

    // Waits for events, at most so long. An error is one of the system.
    fn poll(&mut self, within: Option<Duration>) -> io::Result<()> {
        self.poll.poll(&mut self.events, within)?;
        self.untold = self.events.iter().len();
        Ok(())
    }

    // Tells the events that are not told yet, as far as there is memory: the numbers of the clients,
    // and whether another may have come.
    fn tell(&mut self, clients: &mut Vec<u32>) -> bool {
        let told = self.events.iter().len().saturating_sub(self.untold);
        let mut comes = false;
        for event in self.events.iter().skip(told) {
            let token = event.token().0;
            match u32::try_from(token) {
                Ok(client) => {
                    if clients.push(client).is_err() {
                        return comes;
                    }
                }
                Err(_) => {
                    comes = true;
                    note_comer(&mut self.places, token);
                }
            }
            self.untold = self.untold.saturating_sub(1);
        }
        comes
    }

    // Does nothing for a while.
    fn pause(&self) {
        thread::sleep(self.rt, Duration::from_millis(PAUSE));
    }

    // The greatest time that was seen, after one look more.
    fn look_at_clock(&mut self) -> Duration
        ensures { as_nanos self.old.latest ≤ as_nanos result }
    {
        if let Ok(instant) = Instant::now(self.rt) {
            let time = instant.saturating_duration_since(self.began);
            if time > self.latest {
                self.latest = time;
            }
        }
        self.latest
    }
}

impl<R: Net + Clock> Attend<SocketChannel<PolledStream>> for SocketAttend<'_, R> {
    ghost use Rattle.std.specs.Prelude.{None};

    ghost coming = { λ a c. None };

    ghost closed = { λ a c. None };

    // Each place is asked in its turn, so that many who come to one keep nobody from another.
    fn place(&mut self, _client: u32) -> Option<usize> {
        for _ in 0..self.places.len() {
            let place = self.next;
            let next = place.saturating_add(1);
            self.next = if next < self.places.len() { next } else { 0 };
            if self.listener_at(place).is_some() {
                return Some(place);
            }
        }
        None
    }

    fn take(&mut self, client: u32, place: usize) -> Taken<SocketChannel<PolledStream>> {
        match self.accept_at(place) {
            Ok(mut stream) => match self.register(&mut stream, client) {
                Ok(()) => Taken::Came(SocketChannel::new(stream)),
                Err(_) => Taken::Later,
            },
            Err(error) => match self.missed(place, &error) {
                Miss::Nobody => Taken::Nobody,
                Miss::Later => Taken::Later,
                Miss::Failed => Taken::Failed,
            },
        }
    }

    fn turn_away(&mut self, place: usize, bytes: &[u8]) -> Taken<()> {
        match self.accept_at(place) {
            Ok(mut stream) => {
                // Where they are not taken, it is closed without a word.
                let _ = stream.write_now(bytes);
                Taken::Came(())
            }
            Err(error) => match self.missed(place, &error) {
                Miss::Nobody => Taken::Nobody,
                Miss::Later => Taken::Later,
                Miss::Failed => Taken::Failed,
            },
        }
    }

    // A signal ends it with no event. Where the system gives none, or nothing can be told, it waits
    // for a while, so that whoever asks again and again does not take all of a processor.
    fn wait(&mut self, clients: &mut Vec<u32>, within: Option<Duration>) -> bool {
        if self.untold == 0 && self.poll(within).is_err() {
            self.pause();
            return true;
        }
        let comes = self.tell(clients);
        if self.untold > 0 && clients.is_empty() {
            self.pause();
        }
        comes
    }

    fn now(&mut self) -> Duration {
        self.look_at_clock()
    }

    // A connection that is closed leaves the set of the system.
    fn close(&mut self, _client: u32, channel: SocketChannel<PolledStream>) {
        drop(channel);
    }
}

// Somebody may have come to the place of this token.
fn note_comer(places: &mut Vec<PolledPlace>, token: usize) {
    if let Some(found) = places.get_mut(token.saturating_sub(LISTENER)) {
        found.may_come = true;
    }
}

// Why no connection was taken.
#[derive(Clone, Copy)]
enum Miss {
    // None has come.
    Nobody,
    // The cause passes.
    Later,
    // It does not.
    Failed,
}

// Why no connection was taken, by the error that the system gave.
fn miss_of(error: &io::Error) -> Miss {
    match error.kind() {
        ErrorKind::WouldBlock => Miss::Nobody,
        ErrorKind::ConnectionAborted | ErrorKind::Interrupted | ErrorKind::OutOfMemory => {
            Miss::Later
        }
        _ => match error.raw_os_error() {
            Some(EMFILE | ENFILE | ENOBUFS) => Miss::Later,
            _ => Miss::Failed,
        },
    }
}
