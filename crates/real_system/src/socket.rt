//! Unix sockets, which have a name among the files of this machine.

ghost use Rattle.std.specs.Prelude.{◌≡◌, IfOk, string_bytes};
ghost use Rattle.systems.specs.Places.{postgres_socket};

use crate::file_id::{FileId, file_at};
use crate::guarded_socket::GuardedSocket;
use std::alloc::{AllocError, Global};
use std::fs::{self, File};
use std::io;
use std::net::Net;
use std::os::unix::fs::FileTypeExt;
use std::os::unix::net::{UnixListener, UnixStream};
use std::rt::Files;
use systems::SocketAccess;

/// Binds a new socket, whose file is made at `path`. It has the mode that `access` says before the
/// socket listens, so at no moment can others connect, whatever the umask lets through. The file
/// of a socket at which nobody listens, as a server leaves it that was killed, is taken away
/// before. Whatever else has the name already is left as it is, and is an error. So is a path
/// without a byte: the system would bind a socket that has no file, to which everybody may connect.
pub(crate) fn bind_socket<R: Files<File = File> + Net>(
    rt: &R,
    path: &str,
    access: SocketAccess,
) -> io::Result<UnixListener> {
    if path.is_empty() {
        return Err(io::Error::from(io::ErrorKind::InvalidInput));
    }
    if is_left_behind(rt, path) {
        fs::remove_file(rt, path)?;
    }
    UnixListener::bind(&GuardedSocket { rt, path, access }, path)
}

/// Where PostgreSQL's clients look in a folder for the socket of a server at port 5432.
fn postgres_socket(alloc: Global, folder: &str) -> Result<String, AllocError>
    ensures { IfOk result (λ path. string_bytes path ≡ postgres_socket folder.now) }
{
    format!(in alloc; "{folder}/.s.PGSQL.5432")
}

/// Binds a new socket, as `bind_socket` does, where PostgreSQL's clients look for one in a folder, and
/// answers the path of its file, too.
pub(crate) fn bind_in_folder<R: Files<File = File> + Net>(
    rt: &R,
    alloc: Global,
    folder: &str,
    access: SocketAccess,
) -> io::Result<(UnixListener, String)>
    ensures { IfOk result (λ it. string_bytes it.1 ≡ postgres_socket folder.now) }
{
    let Ok(path) = postgres_socket(alloc, folder) else {
        return Err(io::Error::from(io::ErrorKind::OutOfMemory));
    };
    let listener = bind_socket(rt, path.as_str(), access)?;
    Ok((listener, path))
}

// Whether there is the file of a socket at which nobody listens: a connection to it is refused.
// That it fails otherwise says nothing of who listens.
fn is_left_behind<R: Files<File = File> + Net>(rt: &R, path: &str) -> bool {
    let Ok(found) = fs::symlink_metadata(rt, path) else {
        return false;
    };
    if !found.file_type().is_socket() {
        return false;
    }
    match UnixStream::connect(rt, path) {
        Ok(_stream) => false,
        Err(error) => error.kind() == io::ErrorKind::ConnectionRefused,
    }
}

/// Takes the file of this name away, where it is still this one.
pub(crate) fn remove_made(rt: &impl Files<File = File>, path: &str, made: Option<FileId>) {
    if let (Some(made), Some(found)) = (made, file_at(rt, path)) {
        if made == found {
            // A file that stays is taken away when a socket is bound there again.
            let _ = fs::remove_file(rt, path);
        }
    }
}
