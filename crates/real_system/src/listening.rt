//! The places of a machine that are bound.

ghost use Rattle.std.specs.Prelude.{IfOk};
ghost use Rattle.systems.specs.Places.{the_place, IsOfKind};

use crate::several::OneListener;
use crate::socket::{bind_in_folder, bind_socket};
use crate::streams::SystemStream;
use polled_sockets::listeners::PolledListener;
use std::alloc::Global;
use std::fs::File;
use std::io;
use std::net::{Ipv4Addr, Net, SocketAddr, TcpListener, TcpStream};
use std::os::unix::net::UnixListener;
use std::rt::Files;
use std::time::Duration;
use systems::{ListenPlace, SocketAccess};
use wire::system_listener::Accept;

/// A port of 127.0.0.1, or a socket that has a name among the files of this machine.
#[derive(Drop)]
pub enum PlaceListener {
    Port(TcpListener),
    Socket(UnixListener),
    /// The socket of a folder, and the path of its file.
    PostgresFolder(UnixListener, String),
    /// Several places.
    Each(Vec<OneListener>),
}

impl PlaceListener {
    /// Binds a place, and answers which one that is: of port 0 the port that the system chose. The file
    /// of a socket lets those connect that `access` says. An error is one of the system; several places
    /// are not bound here.
    pub(crate) fn bind<'p, R: Files<File = File> + Net<Listener = TcpListener, Stream = TcpStream>>(
        rt: &R,
        alloc: Global,
        place: ListenPlace<'p>,
        access: SocketAccess,
    ) -> io::Result<(PlaceListener, ListenPlace<'p>)>
        ensures { IfOk result (λ it. IsOfKind (the_place place.entry) (the_place it.1)) }
    {
        match place {
            ListenPlace::Port(port) => {
                let address = SocketAddr::from((Ipv4Addr::LOCALHOST, port));
                let listener = TcpListener::bind(rt, address)?;
                let bound = listener.local_addr()?.port();
                Ok((PlaceListener::Port(listener), ListenPlace::Port(bound)))
            }
            ListenPlace::Socket(path) => {
                let listener = bind_socket(rt, path, access)?;
                Ok((PlaceListener::Socket(listener), place))
            }
            ListenPlace::PostgresFolder(folder) => {
                let (listener, path) = bind_in_folder(rt, alloc, folder, access)?;
                Ok((PlaceListener::PostgresFolder(listener, path), place))
            }
            ListenPlace::Each(_) => Err(io::Error::from(io::ErrorKind::Unsupported)),
        }
    }
}

impl PlaceListener {
    /// The path of the socket's file, where it is that of a folder.
    pub(crate) fn path_in_folder(&self) -> Option<&str> {
        match self {
            PlaceListener::Port(_) | PlaceListener::Socket(_) | PlaceListener::Each(_) => None,
            PlaceListener::PostgresFolder(_, path) => Some(path.as_str()),
        }
    }

    /// Several places, where it is these.
    pub(crate) fn each(&self) -> Option<&Vec<OneListener>> {
        match self {
            PlaceListener::Each(places) => Some(places),
            _ => None,
        }
    }

    /// Other handles of the places, which are asked for connections and do not wait for one, each as the
    /// place of its number. From then on these do not wait, either. An error is one of the system.
    pub(crate) fn polled(&self, alloc: Global) -> io::Result<Vec<PolledListener>> {
        let mut polled = Vec::new(alloc);
        match self {
            PlaceListener::Port(listener) => {
                polled.push(PolledListener::of_port(0, listener.try_clone()?)?)?;
            }
            PlaceListener::Socket(listener) | PlaceListener::PostgresFolder(listener, _) => {
                polled.push(PolledListener::of_socket(0, listener.try_clone()?)?)?;
            }
            PlaceListener::Each(places) => {
                for index in 0..places.len() {
                    polled.push(places[index].polled(index)?)?;
                }
            }
        }
        Ok(polled)
    }
}

impl Accept for PlaceListener {
    type Stream = SystemStream;

    fn accept_within(&self, idle: Option<Duration>) -> io::Result<(SystemStream, SystemStream)> {
        match self {
            PlaceListener::Port(listener) => {
                let (reader, writer) = listener.accept_within(idle)?;
                Ok((SystemStream::Port(reader), SystemStream::Port(writer)))
            }
            PlaceListener::Socket(listener) | PlaceListener::PostgresFolder(listener, _) => {
                let (reader, writer) = listener.accept_within(idle)?;
                Ok((SystemStream::Socket(reader), SystemStream::Socket(writer)))
            }
            // Several places give many connections at once, and never one after the other.
            PlaceListener::Each(_) => Err(io::Error::from(io::ErrorKind::Unsupported)),
        }
    }
}
