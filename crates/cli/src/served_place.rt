//! The place of a server, and by which protocol its clients are spoken to.

use systems::{ListenPlace, SocketAccess};

/// A protocol by which clients are spoken to.
#[derive(Clone, Copy, PartialEq, Eq)]
pub enum Protocol {
    /// Guarddb's own frames.
    Frames,
    /// PostgreSQL's frontend/backend protocol 3.0 (PostgreSQL 15 manual, chapter 55).
    Postgres,
}

/// Whom a place lets in.
#[derive(Clone, Copy)]
pub enum PlaceDoor<'a> {
    /// Anyone, as any role.
    Anyone,
    /// Whoever may come there, as the role of this name and as no other.
    Only(&'a str),
    /// Whoever shows the password of a role, as that role. The verifiers of passwords are kept in the table of
    /// this name; that of the role `mock`, whose password nobody has, stands in for those that are missing.
    Passwords { table: &'a str, mock: &'a str },
}

/// A place where a server listens, the protocol by which it speaks to all that come there, and whom it
/// lets in.
#[derive(Clone, Copy)]
pub struct ServedPlace<'a> {
    pub place: ListenPlace<'a>,
    pub protocol: Protocol,
    pub door: PlaceDoor<'a>,
    /// Whom the file of a socket lets connect.
    pub access: SocketAccess,
    /// Whether the place is one of `--at`: then it is told of a port that lets in anyone that no passwords are
    /// asked for there, and a client may ask there in frames what a statement would answer.
    pub tells_open: bool,
}

/// One of several places where a server listens, and whether it admits no superuser.
#[derive(Clone, Copy)]
pub struct NamedPlace<'a> {
    pub served: ServedPlace<'a>,
    pub no_superuser: bool,
}
