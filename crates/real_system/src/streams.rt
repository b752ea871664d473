//! Connections of the system, and what stands for standard streams that are closed.

use crate::file_id::{FileId, plain_file_behind};
use std::alloc::Global;
use std::fs::{File, Metadata};
use std::io;
use std::io::{Read, Write};
use std::net::TcpStream;
use std::os::unix::net::UnixStream;
use std::rt::Files;

/// The device of the system that is empty to whoever reads it.
pub const NULL_DEVICE: &str = "/dev/null";

/// A connection to a port or to a socket.
#[derive(Drop)]
pub enum SystemStream {
    Port(TcpStream),
    Socket(UnixStream),
}

impl Read for SystemStream {
    fn read(&mut self, bytes: &mut [u8]) -> io::Result<usize> {
        match self {
            SystemStream::Port(stream) => stream.read(bytes),
            SystemStream::Socket(stream) => stream.read(bytes),
        }
    }
}

impl Write for SystemStream {
    fn write(&mut self, bytes: &[u8]) -> io::Result<usize> {
        match self {
            SystemStream::Port(stream) => stream.write(bytes),
            SystemStream::Socket(stream) => stream.write(bytes),
        }
    }

    fn flush(&mut self) -> io::Result<()> {
        match self {
            SystemStream::Port(stream) => stream.flush(),
            SystemStream::Socket(stream) => stream.flush(),
        }
    }
}

/// What stands for the standard streams that were closed when the program began. The system gives
/// an opened file the lowest number that is free: the first of these three take those of 0, 1 and 2
/// that are closed. Else a database could have the number of standard output or standard error, and
/// what is printed would be written over its pages. Each is the null device, opened to be read: a
/// read of standard input is at its end, and a write to standard output or standard error fails.
#[derive(Drop)]
pub(crate) struct StandardStreams {
    _first: File,
    _second: File,
    _third: File,
}

impl StandardStreams {
    /// Opens them, before any other file. An error is one of the system.
    pub(crate) fn fill(rt: &impl Files<File = File>) -> io::Result<StandardStreams> {
        Ok(StandardStreams {
            _first: File::open(rt, NULL_DEVICE)?,
            _second: File::open(rt, NULL_DEVICE)?,
            _third: File::open(rt, NULL_DEVICE)?,
        })
    }
}

/// The bytes that a reader gives up to its end, so many of them at most.
pub(crate) fn read_up_to<S: Read + Drop>(
    alloc: Global,
    reader: S,
    most: u64,
) -> io::Result<Vec<u8>> {
    let mut read = Vec::new(alloc);
    reader.take(most).read_to_end(&mut read)?;
    Ok(read)
}

/// The names under which the system has what standard output and standard error go to.
const OUTPUT: &str = "/dev/fd/1";

const MESSAGES: &str = "/dev/fd/2";

/// The plain files that standard output and standard error go to, as far as the system says which.
#[derive(Clone, Copy)]
pub(crate) struct Outputs {
    output: Option<FileId>,
    messages: Option<FileId>,
}

impl Outputs {
    /// Finds them.
    pub(crate) fn find(rt: &impl Files<File = File>) -> Outputs {
        Outputs {
            output: plain_file_behind(rt, OUTPUT),
            messages: plain_file_behind(rt, MESSAGES),
        }
    }

    /// Whether the file that the system describes so is one of them.
    pub(crate) fn has(&self, found: &Metadata) -> bool {
        let file = Some(FileId::of(found));
        self.output == file || self.messages == file
    }

    /// Whether messages go to the file that this name leads to.
    pub(crate) fn tell_to(&self, rt: &impl Files<File = File>, path: &str) -> bool {
        self.messages.is_some() && self.messages == plain_file_behind(rt, path)
    }
}
