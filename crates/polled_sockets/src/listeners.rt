//! Ports and sockets that do not wait, and the connections that come to them.

ghost use Rattle.std.specs.Prelude.{◌≡◌, IfOk, length};
ghost use Rattle.std.specs.Io.{ReadsAtMost, WritesAtMost};

use crate::streams::DuplexStream;
use mio::net::{TcpListener, TcpStream, UnixListener, UnixStream};
use mio::{Interest, Registry, Token};
use std::io::{ErrorKind, Read, Write};
use std::os::unix;
use std::{io, net};

/// How often a call is made again, at most, that a signal or the end of a connection cuts short.
const TRIES: u32 = 8;

/// A connection to a port or to a socket, of which no call waits. What comes of it no contract knows; at
/// which place it was taken it tells itself.
#[derive(Drop)]
pub struct PolledStream {
    place: usize,
    stream: SomeStream,
}

// The connection itself.
#[derive(Drop)]
enum SomeStream {
    Port(TcpStream),
    Socket(UnixStream),
}

impl PolledStream {
    /// Has the system tell, under a token, whenever bytes have come of it or it takes bytes again. An
    /// error is one of the system.
    pub(crate) fn register(&mut self, registry: &Registry, token: Token) -> io::Result<()>
        ensures { self.new.place ≡ self.old.place }
    {
        let both = Interest::READABLE | Interest::WRITABLE;
        match &mut self.stream {
            SomeStream::Port(stream) => registry.register(stream, token, both),
            SomeStream::Socket(stream) => registry.register(stream, token, both),
        }
    }
}

impl SomeStream {
    fn read(&mut self, buffer: &mut [u8]) -> io::Result<usize>
        ensures bound { ReadsAtMost result buffer.new }
        ensures size { length buffer.new ≡ length buffer.old }
    {
        match self {
            SomeStream::Port(stream) => stream.read(buffer),
            SomeStream::Socket(stream) => stream.read(buffer),
        }
    }

    fn write(&mut self, bytes: &[u8]) -> io::Result<usize>
        ensures { WritesAtMost result bytes.now }
    {
        match self {
            SomeStream::Port(stream) => stream.write(bytes),
            SomeStream::Socket(stream) => stream.write(bytes),
        }
    }

    // Reads, again where a signal has cut it short.
    fn read_on(&mut self, buffer: &mut [u8]) -> io::Result<usize>
        ensures bound { ReadsAtMost result buffer.new }
        ensures size { length buffer.new ≡ length buffer.old }
    {
        for _ in 0..TRIES {
            match self.read(buffer) {
                Err(error) if error.kind() == ErrorKind::Interrupted => {}
                other => return other,
            }
        }
        self.read(buffer)
    }

    // Writes, again where a signal has cut it short.
    fn write_on(&mut self, bytes: &[u8]) -> io::Result<usize>
        ensures { WritesAtMost result bytes.now }
    {
        for _ in 0..TRIES {
            match self.write(bytes) {
                Err(error) if error.kind() == ErrorKind::Interrupted => {}
                other => return other,
            }
        }
        self.write(bytes)
    }
}

impl DuplexStream for PolledStream {
    ghost use Rattle.std.specs.Prelude.{None};

    ghost remaining = { λ s. None };

    ghost taken = { λ s. None };

    ghost place = { λ s. s.place };

    fn read_now(&mut self, buffer: &mut [u8]) -> io::Result<usize> {
        self.stream.read_on(buffer)
    }

    fn write_now(&mut self, bytes: &[u8]) -> io::Result<usize> {
        self.stream.write_on(bytes)
    }
}

/// A place where a server listens: a port or a socket that is bound, which is asked for connections and
/// does not wait for one. Each connection that it takes has its number.
#[derive(Drop)]
pub struct PolledListener {
    pub(crate) place: usize,
    listener: SomeListener,
}

// The port or the socket itself.
#[derive(Drop)]
enum SomeListener {
    Port(TcpListener),
    Socket(UnixListener),
}

impl PolledListener {
    /// A port that is bound, as the place of this number. An error is one of the system.
    pub fn of_port(place: usize, listener: net::TcpListener) -> io::Result<PolledListener>
        ensures { IfOk result (λ polled. polled.place ≡ place) }
    {
        listener.set_nonblocking(true)?;
        let listener = SomeListener::Port(TcpListener::from_std(listener));
        Ok(PolledListener { place, listener })
    }

    /// A socket that is bound, as the place of this number; its file stays as it is. An error is one of
    /// the system.
    pub fn of_socket(place: usize, listener: unix::net::UnixListener) -> io::Result<PolledListener>
        ensures { IfOk result (λ polled. polled.place ≡ place) }
    {
        listener.set_nonblocking(true)?;
        let listener = SomeListener::Socket(UnixListener::from_std(listener));
        Ok(PolledListener { place, listener })
    }

    /// Has the system tell, under a token, whenever a connection has come. An error is one of the system.
    pub(crate) fn register(&mut self, registry: &Registry, token: Token) -> io::Result<()>
        ensures { self.new.place ≡ self.old.place }
    {
        match &mut self.listener {
            SomeListener::Port(listener) => {
                registry.register(listener, token, Interest::READABLE)
            }
            SomeListener::Socket(listener) => {
                registry.register(listener, token, Interest::READABLE)
            }
        }
    }

    /// Takes the connection that comes next. `WouldBlock`: none has come. One that was given up before
    /// it was taken makes no difference.
    pub(crate) fn accept_now(&self) -> io::Result<PolledStream>
        ensures { IfOk result (λ stream. ⟦<PolledStream as DuplexStream>⟧.place stream ≡ self.now.place) }
    {
        for _ in 0..TRIES {
            match self.accept() {
                Err(error) if is_passed_over(&error) => {}
                other => return other,
            }
        }
        self.accept()
    }

    // Of a port, what is written goes out at once, without waiting for more.
    fn accept(&self) -> io::Result<PolledStream>
        ensures { IfOk result (λ stream. stream.place ≡ self.now.place) }
    {
        let place = self.place;
        match &self.listener {
            SomeListener::Port(listener) => {
                let (stream, _) = listener.accept()?;
                // Where it cannot be set, answers go out a little later.
                let _ = stream.set_nodelay(true);
                let stream = SomeStream::Port(stream);
                Ok(PolledStream { place, stream })
            }
            SomeListener::Socket(listener) => {
                let (stream, _) = listener.accept()?;
                let stream = SomeStream::Socket(stream);
                Ok(PolledStream { place, stream })
            }
        }
    }
}

// Whether a signal came, or a connection was given up before it was taken: the next may be there.
fn is_passed_over(error: &io::Error) -> bool {
    matches!(
        error.kind(),
        ErrorKind::Interrupted | ErrorKind::ConnectionAborted
    )
}
