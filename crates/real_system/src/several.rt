//! Several places of a machine that are bound, at all of which one server listens.

use crate::file_id::{FileId, file_at};
use crate::socket::{bind_in_folder, bind_socket, remove_made};
use polled_sockets::listeners::PolledListener;
use std::alloc::{AllocError, Global};
use std::fs::File;
use std::io;
use std::net::{Ipv4Addr, Net, SocketAddr, TcpListener, TcpStream};
use std::os::unix::net::UnixListener;
use std::rt::Files;
use systems::OnePlace;

/// One of several places that are bound.
#[derive(Drop)]
pub enum OneListener {
    Port(TcpListener),
    /// A socket, the path of its file, and which file that is.
    Socket(UnixListener, String, Option<FileId>),
}

impl OneListener {
    // Binds one place. The file of a socket lets those connect that the place says. An error is one of
    // the system.
    fn bind<R: Files<File = File> + Net<Listener = TcpListener, Stream = TcpStream>>(
        rt: &R,
        alloc: Global,
        place: OnePlace<'_>,
    ) -> io::Result<OneListener> {
        match place {
            OnePlace::Port(port) => {
                let address = SocketAddr::from((Ipv4Addr::LOCALHOST, port));
                Ok(OneListener::Port(TcpListener::bind(rt, address)?))
            }
            OnePlace::Socket(path, access) => {
                let Ok(name) = copy_of(alloc, path) else {
                    return Err(io::Error::from(io::ErrorKind::OutOfMemory));
                };
                let listener = bind_socket(rt, path, access)?;
                let made = file_at(rt, path);
                Ok(OneListener::Socket(listener, name, made))
            }
            OnePlace::PostgresFolder(folder, access) => {
                let (listener, path) = bind_in_folder(rt, alloc, folder, access)?;
                let made = file_at(rt, path.as_str());
                Ok(OneListener::Socket(listener, path, made))
            }
        }
    }

    /// Another handle of the place, which is asked for connections and does not wait for one, as the
    /// place of this number. An error is one of the system.
    pub(crate) fn polled(&self, place: usize) -> io::Result<PolledListener> {
        match self {
            OneListener::Port(listener) => PolledListener::of_port(place, listener.try_clone()?),
            OneListener::Socket(listener, _, _) => {
                PolledListener::of_socket(place, listener.try_clone()?)
            }
        }
    }

    // Takes the file of a socket away, where it is still the one that was made.
    fn remove_file(&self, rt: &impl Files<File = File>) {
        if let OneListener::Socket(_, path, made) = self {
            remove_made(rt, path.as_str(), *made);
        }
    }
}

// The same text, owned.
fn copy_of(alloc: Global, text: &str) -> Result<String, AllocError> {
    format!(in alloc; "{text}")
}

/// Why several places are not bound: which of them was not, from 0 on, and the error of the system.
pub(crate) struct Unbound {
    pub(crate) index: usize,
    pub(crate) error: io::Error,
}

/// Binds several places, in their order. Where one is not bound, nothing is left of those before it.
pub(crate) fn bind_each<R: Files<File = File> + Net<Listener = TcpListener, Stream = TcpStream>>(
    rt: &R,
    alloc: Global,
    places: &[OnePlace<'_>],
) -> Result<Vec<OneListener>, Unbound> {
    let mut bound = Vec::new(alloc);
    if bound.reserve(places.len()).is_err() {
        let error = io::Error::from(io::ErrorKind::OutOfMemory);
        return Err(Unbound { index: 0, error });
    }
    for index in 0..places.len() {
        match OneListener::bind(rt, alloc, places[index]) {
            Ok(one) => {
                // There is room for it.
                let _ = bound.push(one);
            }
            Err(error) => {
                remove_files(rt, &bound);
                return Err(Unbound { index, error });
            }
        }
    }
    Ok(bound)
}

/// Takes the files of sockets away, where they are still those that were made.
pub(crate) fn remove_files(rt: &impl Files<File = File>, places: &Vec<OneListener>) {
    for index in 0..places.len() {
        places[index].remove_file(rt);
    }
}
