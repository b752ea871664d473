//! Places to listen at, and who may connect there.

ghost use Rattle.std.specs.Prelude.{◌≡◌};
ghost use Rattle.systems.specs.Places.{alone};

/// Where a server listens.
#[derive(Clone, Copy)]
pub enum ListenPlace<'a> {
    /// A port of 127.0.0.1. For port 0 the system chooses one.
    Port(u16),
    /// A Unix socket, whose file is made at this path.
    Socket(&'a str),
    /// A Unix socket, whose file is made in this folder by the name that PostgreSQL's clients look for,
    /// `.s.PGSQL.5432`.
    PostgresFolder(&'a str),
    /// Several places, at all of which one server listens.
    Each(&'a [OnePlace<'a>]),
}

/// One of several places where a server listens.
#[derive(Clone, Copy)]
pub enum OnePlace<'a> {
    /// A port of 127.0.0.1, which is not 0.
    Port(u16),
    /// A Unix socket, whose file is made at this path and lets those connect.
    Socket(&'a str, SocketAccess),
    /// A Unix socket, whose file is made in this folder by the name that PostgreSQL's clients look for,
    /// and lets those connect.
    PostgresFolder(&'a str, SocketAccess),
}

impl<'a> OnePlace<'a> {
    /// The same place, as one at which a server listens alone.
    pub fn alone(self) -> ListenPlace<'a>
        ensures { result ≡ alone self.entry }
    {
        match self {
            OnePlace::Port(port) => ListenPlace::Port(port),
            OnePlace::Socket(path, _) => ListenPlace::Socket(path),
            OnePlace::PostgresFolder(folder, _) => ListenPlace::PostgresFolder(folder),
        }
    }

    /// Whom its file lets connect, where it has one.
    pub fn access(self) -> SocketAccess {
        match self {
            OnePlace::Port(_) => SocketAccess::Owner,
            OnePlace::Socket(_, access) | OnePlace::PostgresFolder(_, access) => access,
        }
    }
}

/// Whom the file of a socket lets connect. A port has no file, and lets every program of the machine.
#[derive(Clone, Copy, PartialEq, Eq)]
pub enum SocketAccess {
    /// The owner of the file, whose mode is 0600.
    Owner,
    /// The owner and the members of the file's group, whose mode is 0660.
    Group,
}
