//! The numbers that the sessions of clients have in a server.

ghost use Rattle.std.specs.Prelude.{◌≡◌, length, slice_get};
ghost use Rattle.std.specs.Option.{option_map};
ghost use Rattle.abstract_database.specs.Machine.{number_in, own_number, client_of, own_sessions};
ghost use Rattle.server.specs.Clients.{client_session};

use crate::session::Session;
use indexmap::IndexMap;

/// How many numbers each client has for its sessions.
const NUMBERS: u64 = 4_294_967_296;

/// A client's session, by the client's own number of it.
#[derive(Clone, Copy, PartialEq, Eq)]
pub struct ClientSession {
    pub client: u32,
    pub session: u32,
}

/// The number in the server of a client's own session.
pub fn number_in(client: u32, session: u32) -> u64
    ensures { result ≡ number_in client session }
{
    u64::from(client) * NUMBERS + u64::from(session)
}

/// The client's own number of the session that has this number in the server.
pub fn own_number(number: u64) -> u32
    ensures { result ≡ own_number number }
{
    (number % NUMBERS) as u32
}

/// The client whose session has this number in the server, and the client's own number of that.
pub(crate) fn client_session(number: u64) -> ClientSession
    ensures { result ≡ client_session number }
{
    ClientSession {
        client: client_of(number) as u32,
        session: own_number(number),
    }
}

/// The client whose session has this number in the server.
fn client_of(number: u64) -> u64
    ensures { result ≡ client_of number }
{
    number / NUMBERS
}

/// How many sessions are open of the client whose session has this number. It looks at every open
/// session.
pub fn count_own(sessions: &IndexMap<u64, Session>, number: u64) -> usize
    ensures { result ≡ length (own_sessions (client_of number) sessions.now.entries) }
{
    let client = client_of(number);
    let mut count = 0;
    for place in 0..sessions.len() {
        if let Some((other, _)) = sessions.get_index(place) {
            if client_of(*other) == client {
                count += 1;
            }
        }
    }
    count
}

/// The own number of an open session of a client, by its index among those, or `None` past the last.
pub(crate) fn own_at(sessions: &IndexMap<u64, Session>, client: u32, index: usize) -> Option<u32>
    ensures { result ≡ option_map (λ e. own_number e.0)
        (slice_get (own_sessions client sessions.now.entries) index) }
{
    let mut before = 0;
    for place in 0..sessions.len() {
        let (number, _) = sessions.get_index(place)?;
        if client_of(*number) != u64::from(client) {
            continue;
        }
        if before == index {
            return Some(own_number(*number));
        }
        before += 1;
    }
    None
}
