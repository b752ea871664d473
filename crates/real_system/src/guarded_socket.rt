//! The files of sockets, which say who may connect.

use std::alloc::Allocator;
use std::fs::{File, Metadata, OpenOptions, Permissions};
use std::io;
use std::net::{Net, SocketAddr};
use std::os::fd::{BorrowedFd, OwnedFd};
use std::os::unix::fs::PermissionsExt;
use std::os::unix::net;
use std::rt::Files;
use systems::SocketAccess;

/// The system, where the file of a socket that is bound at `path` lets those connect that `access`
/// says. What binds a socket first gives it its file and then lets it listen: the file gets its mode
/// between these two, so nobody else can connect at any moment, whatever the umask lets through. Where
/// that fails, the file is taken away and the socket is not bound.
///
/// Everything else is done as the system does it.
#[derive(Drop)]
pub(crate) struct GuardedSocket<'a, R> {
    pub(crate) rt: &'a R,
    pub(crate) path: &'a str,
    pub(crate) access: SocketAccess,
}

impl<R: Files<File = File>> GuardedSocket<'_, R> {
    // Gives the file its mode, or takes it away.
    fn guard(&self) -> io::Result<()> {
        let mode = Permissions::from_mode(mode_of(self.access));
        let guarded = self.rt.set_permissions(self.path, mode);
        if guarded.is_err() {
            // The fault is that of the mode; a file that stays is seen at the next try.
            let _ = self.rt.remove_file(self.path);
        }
        guarded
    }
}

// The mode of a socket's file that lets those connect.
fn mode_of(access: SocketAccess) -> u32 {
    match access {
        SocketAccess::Owner => 0o600,
        SocketAccess::Group => 0o660,
    }
}

impl<R: Files<File = File>> Files for GuardedSocket<'_, R> {
    type File = File;

    type Dir = R::Dir;

    fn open_file(&self, how: &OpenOptions, path: &str) -> io::Result<File> {
        self.rt.open_file(how, path)
    }

    fn open_dir(&self, path: &str) -> io::Result<R::Dir> {
        self.rt.open_dir(path)
    }

    fn metadata(&self, path: &str) -> io::Result<Metadata> {
        self.rt.metadata(path)
    }

    fn symlink_metadata(&self, path: &str) -> io::Result<Metadata> {
        self.rt.symlink_metadata(path)
    }

    fn copy(&self, from: &str, to: &str) -> io::Result<u64> {
        self.rt.copy(from, to)
    }

    fn rename(&self, from: &str, to: &str) -> io::Result<()> {
        self.rt.rename(from, to)
    }

    fn remove_file(&self, path: &str) -> io::Result<()> {
        self.rt.remove_file(path)
    }

    fn create_dir(&self, path: &str) -> io::Result<()> {
        self.rt.create_dir(path)
    }

    fn remove_dir(&self, path: &str) -> io::Result<()> {
        self.rt.remove_dir(path)
    }

    fn remove_dir_all<B: Allocator>(&self, alloc: B, path: &str) -> io::Result<()> {
        self.rt.remove_dir_all(alloc, path)
    }

    fn bind_unix(&self, socket: BorrowedFd<'_>, addr: &net::SocketAddr) -> io::Result<()> {
        self.rt.bind_unix(socket, addr)?;
        self.guard()
    }
}

impl<R: Net> Net for GuardedSocket<'_, R> {
    type Stream = R::Stream;

    type Listener = R::Listener;

    fn bind(&self, addr: SocketAddr) -> io::Result<R::Listener> {
        self.rt.bind(addr)
    }

    fn connect(&self, addr: SocketAddr) -> io::Result<R::Stream> {
        self.rt.connect(addr)
    }

    fn unix_socket(&self) -> io::Result<OwnedFd> {
        self.rt.unix_socket()
    }
}
