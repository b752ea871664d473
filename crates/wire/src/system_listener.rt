//! Listeners of the system: ports of this machine, and sockets that have a name in its files.

ghost use Rattle.std.specs.Prelude.{◌≡◌};

use crate::frame_sink::FrameSink;
use crate::input::CountedReader;
use crate::listen::Listen;
use std::alloc::Global;
use std::io::{BufWriter, ErrorKind, Read, Write};
use std::net::{TcpListener, TcpStream};
use std::os::unix::net::{UnixListener, UnixStream};
use std::time::{Clock, Duration};
use std::{io, thread};

/// How often taking a connection is tried again, at most.
const TRIES_AGAIN: u32 = 5;

/// How many seconds pass before each of these tries.
const PAUSE: u64 = 1;

/// The error of Linux where the process has too many descriptors.
const EMFILE: i32 = 24;

/// The error of Linux where the system has too many descriptors.
const ENFILE: i32 = 23;

/// The error of Linux where the system has no memory for a socket.
const ENOBUFS: i32 = 105;

/// What the system takes connections by.
pub trait Accept {
    /// A connection. It is closed with its last handle.
    type Stream: Read + Write + Drop;

    /// Takes the connection that comes next: two handles of it. A read that gets nothing for as long
    /// as `idle`, and a write that puts nothing out for so long, fails; with `None` each waits.
    fn accept_within(&self, idle: Option<Duration>) -> io::Result<(Self::Stream, Self::Stream)>;
}

impl Accept for TcpListener {
    type Stream = TcpStream;

    // What is written goes out at once, without waiting for more.
    fn accept_within(&self, idle: Option<Duration>) -> io::Result<(TcpStream, TcpStream)> {
        let (reader, _) = self.accept()?;
        // Where it cannot be set, answers go out a little later.
        let _ = reader.set_nodelay(true);
        reader.set_read_timeout(idle)?;
        reader.set_write_timeout(idle)?;
        let writer = reader.try_clone()?;
        Ok((reader, writer))
    }
}

impl Accept for UnixListener {
    type Stream = UnixStream;

    fn accept_within(&self, idle: Option<Duration>) -> io::Result<(UnixStream, UnixStream)> {
        let (reader, _) = self.accept()?;
        reader.set_read_timeout(idle)?;
        reader.set_write_timeout(idle)?;
        let writer = reader.try_clone()?;
        Ok((reader, writer))
    }
}

/// A port of this machine, or a socket that has a name in its files. What comes to it no contract
/// knows.
///
/// A connection that sends nothing for as long as `idle`, or takes nothing of an answer for so long,
/// ends as one whose reader or sink fails.
///
/// Where none can be taken for a cause that passes, that is tried again, five times with a second
/// before each, and each time is told on standard error. A connection of which the system gives no
/// second handle is closed.
#[derive(Drop)]
pub struct SystemListener<'r, R, L> {
    rt: &'r R,
    alloc: Global,
    listener: L,
    idle: Option<Duration>,
    failures: u64,
}

impl<'r, R, L: Accept + Drop> SystemListener<'r, R, L> {
    /// The connections that come to a port or a socket that is bound, with this limit.
    pub fn new(
        rt: &'r R,
        alloc: Global,
        listener: L,
        idle: Option<Duration>,
    ) -> SystemListener<'r, R, L> {
        SystemListener {
            rt,
            alloc,
            listener,
            idle,
            failures: 0,
        }
    }

    /// What the connections come to.
    pub fn listener(&self) -> &L
        ensures { result.now ≡ self.now.listener }
    {
        &self.listener
    }
}

impl<R: Eprint + Clock, L: Accept> Listen for SystemListener<'_, R, L> {
    type Reader = CountedReader<L::Stream>;

    // Answers that go out together are kept here until then.
    type Sink = FrameSink<BufWriter<L::Stream>>;

    ghost failures = { λ l. l.failures };

    fn take(&mut self) -> io::Result<(CountedReader<L::Stream>, FrameSink<BufWriter<L::Stream>>)> {
        match self.accept() {
            Ok((reader, writer)) => Ok((
                CountedReader::new(reader),
                FrameSink::new(self.alloc, writer),
            )),
            Err(error) => {
                self.failures = self.failures.saturating_add(1);
                Err(error)
            }
        }
    }

    // What a failed writer has kept is not tried again.
    fn close(&mut self, _reader: CountedReader<L::Stream>, sink: FrameSink<BufWriter<L::Stream>>) {
        // What it has kept goes with it.
        let _ = sink.into_writer().into_parts();
    }
}

impl<R: Eprint + Clock, L: Accept> SystemListener<'_, R, L> {
    // Takes a connection, and tries again where the cause of an error passes.
    fn accept(&self) -> io::Result<(L::Stream, BufWriter<L::Stream>)> {
        for _ in 0..TRIES_AGAIN {
            match self.accept_once() {
                Ok(taken) => return Ok(taken),
                Err(error) => {
                    if !is_passing(&error) {
                        return Err(error);
                    }
                    // Where standard error is closed, nobody is told.
                    let _ = eprintln!(self.rt;
                        "guarddb: no connection taken, trying again: {error}"
                    );
                }
            }
            thread::sleep(self.rt, Duration::from_secs(PAUSE));
        }
        self.accept_once()
    }

    // Takes a connection, and memory for the answers that go out together.
    fn accept_once(&self) -> io::Result<(L::Stream, BufWriter<L::Stream>)> {
        let (reader, writer) = self.listener.accept_within(self.idle)?;
        let writer = BufWriter::new(self.alloc, writer)?;
        Ok((reader, writer))
    }
}

// Whether a connection may be taken a little later that could not be for this cause: another one was
// aborted, a signal came, or the system or the process lacks memory or descriptors.
fn is_passing(error: &io::Error) -> bool {
    match error.kind() {
        ErrorKind::ConnectionAborted | ErrorKind::Interrupted | ErrorKind::OutOfMemory => true,
        _ => matches!(error.raw_os_error(), Some(EMFILE | ENFILE | ENOBUFS)),
    }
}
