//! Laws of two servers of many clients, of which a tenant asks the same.

ghost use Rattle.served_tenants.specs.Exchanges.{turns_are_exchanges};
ghost use Rattle.served_tenants.specs.ServedTenants.{servers_tell_clients, opened_servers_look_alike};

use database_laws::whole_databases::whole_databases_are_sound;
use server::decide::EventHandler;
use store::Store;
use stored_database::stored_databases_are_whole;
use talks::clients::ServedClients;
use talks::talk::Talk;

/// Two servers of many clients, each over a store of its own, and a tenant: some clients of both, by whatever
/// numbers they have there, and the pairs of users as which they act. Where the servers stand, their databases may
/// differ in rows that policies hide from all of these pairs. Others may do different things to both out of their
/// sight, and each server takes what its clients want in an order of its own. The tenant's clients want the same, in
/// one order over all of them, for as long as they are told the same. Then each is told the same of all that it wants
/// of the server: of events, of openings that the place refuses, of how its sessions stand, and of descriptions.
///
/// So it is up to the end of one run, or to where the runs may part. That is an own event that is an exception of
/// `tenants_are_told_what_they_see` of `database_laws`, or that one store alone refuses in place of the machine; an
/// opening or a description that is refused memory; the look-up of a verifier that fails or that both tables do not keep
/// alike, where the replies differ; or a failure of a device under what another wants. A look-up that both refuse alike
/// ends nothing. One is left: where both devices fail in it, and the tenant has the number of its client, which nobody has.
///
/// `opened`: so it is of two servers that have just been opened over databases which look alike to the tenant.
pub fn servers_tell_clients_what_they_see<
    S: Store,
    Z: Store,
    X: EventHandler,
    Y,
    T: Talk,
    U: Talk,
    C: ServedClients<T>,
    D: ServedClients<U>,
>()
    ensures told { servers_tell_clients S Z X Y T U C D X.Reads S.state Z.state T.Talk U.Talk C.ServedClients D.ServedClients }
    ensures opened { opened_servers_look_alike }
{
    // For the proof: what records stand for is a whole database.
    stored_databases_are_whole();
    // For the proof: a whole database is sound.
    whole_databases_are_sound();
}

/// Turns that were taken for clients are exchanges with them, one after the other, wherever the server stood: each
/// step and each question, with the reply that its client was told, and the end of each session that a client has
/// left open. So a run of `serve_clients` over a server is one of which `servers_tell_clients_what_they_see` speaks.
pub fn turns_are_exchanges<S: Store, X: EventHandler, T: Talk, C: ServedClients<T>>()
    ensures { turns_are_exchanges S X T C X.Reads S.state T.Talk C.ServedClients }
{}
