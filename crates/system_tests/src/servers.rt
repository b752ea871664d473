//! Servers over new databases. The functions that open a server and call it have no contract, so that those above are checked
//! without a server's.

use crate::answers::text_of_answers;
use recovery::{OpeningFault, Refused, open};
use server::server::{ONLY_CLIENT, Server};
use sessions::SessionHandler;
use sql_types::event::Event;
use statements::Statements;
use std::alloc::Global;
use std::io;
use store::Store;

/// A server over a store.
pub type ServerOver<S> = Server<S, SessionHandler<Statements>>;

/// Opens a server over a store, or hands the store back and tells why none is.
pub fn try_server<S: Store + Drop>(
    alloc: Global,
    store: S,
) -> Result<ServerOver<S>, (S, OpeningFault)> {
    match open(alloc, store, SessionHandler::new(Statements)) {
        Ok(server) => Ok(server),
        Err(Refused { store, fault }) => Err((store, fault)),
    }
}

/// Opens a server over a store.
pub fn open_server<S: Store + Drop>(alloc: Global, store: S) -> io::Result<ServerOver<S>> {
    match try_server(alloc, store) {
        Ok(server) => Ok(server),
        Err(_) => Err(io::Error::from(io::ErrorKind::Other)),
    }
}

/// The texts of the answers of a server to events, one after the other.
pub fn answered_by<S: Store>(
    alloc: Global,
    server: &mut ServerOver<S>,
    events: &[Event],
) -> io::Result<String> {
    let mut answers = Vec::new(alloc);
    server.run(ONLY_CLIENT, events, &mut answers)?;
    text_of_answers(alloc, answers.as_slice())
}
