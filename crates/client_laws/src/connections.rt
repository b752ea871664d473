//! Laws of the bytes that the clients of a tenant get.

ghost use Rattle.client_laws.specs.Connections.{clients_get_the_same_bytes, places_change_no_bytes, bytes_part_at_exceptions};

use database_laws::runs::{Reader, Stopping};

/// Two servers of many clients, of which a tenant asks the same, in one order over all of its clients. By whatever
/// spelling of an answer to a session of its own, each client of the tenant gets the same bytes from both, up to the
/// first listed event. That is an own event that is an exception, or that one store refuses in place of the machine,
/// and that not both refuse alike; or an event of another under which a device fails.
///
/// `places`: by its place a client gets the bytes that it gets by its number.
pub fn clients_get_the_same_bytes<R: Reader, S: Stopping, T: Stopping>()
    ensures bytes { clients_get_the_same_bytes R.Reads S.Leave T.Leave }
    ensures places { places_change_no_bytes }
{}

/// What that forbids: an own event that is answered by other bytes, and that no store refuses in place of the
/// machine, is an exception of the machines.
pub fn bytes_part_at_exceptions<R: Reader, S: Stopping, T: Stopping>()
    ensures { bytes_part_at_exceptions R.Reads S.Leave T.Leave }
{}
