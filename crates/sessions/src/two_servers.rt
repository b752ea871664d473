//! A law of two servers, each over a store of its own.

ghost use Rattle.sessions.specs.TwoServers.{servers_tell_a_tenant, opened_servers_tell_a_tenant, servers_step_alike, steps_of_others_go_unseen};

use crate::laws::one_reading;
use database_laws::whole_databases::whole_databases_are_sound;
use store::Store;
use stored_database::stored_databases_are_whole;

/// Two servers, each over a store of its own, and a tenant: some sessions, and the pairs of users as which they
/// act. Where the servers stand, their databases may differ in rows that policies hide from all of these pairs.
/// Others may do different things to both out of their sight. If the tenant asks both the same events in the same
/// order, `Server::run` of both answers them the same. It is up to the first exception of
/// `tenants_are_told_what_they_see`, the first own event that a store refuses in place of the
/// machine (for memory, for space, after the last commit number, or of the device), or the first failure of a
/// device under an event of another. So it is of two servers that have just been opened, so goes each
/// `Server::step` of an own event, and each of another leaves them alike to the tenant.
pub fn servers_tell_tenants_what_they_see<S: Store, T: Store, X, Y>()
    ensures told { servers_tell_a_tenant S T X Y S.state T.state }
    ensures opened { opened_servers_tell_a_tenant S T X Y S.state T.state }
    ensures step { servers_step_alike S T X Y S.state T.state }
    ensures others { steps_of_others_go_unseen S T X Y S.state T.state }
{
    // For the proof: a text has one reading.
    one_reading();
    // For the proof: what records stand for is a whole database.
    stored_databases_are_whole();
    // For the proof: a whole database is sound.
    whole_databases_are_sound();
}
