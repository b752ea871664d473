//! Laws of what is said to clients.

ghost use Rattle.served_tenants.specs.Saying.{replies_determine_what_is_said, all_that_is_said, replies_determine_what_is_wanted};
ghost use Rattle.served_tenants.specs.SaidTenants.{servers_say_the_same};
ghost use Rattle.served_tenants.specs.AskedAlike.{clients_ask_alike};

use server::decide::EventHandler;
use store::Store;
use talks::clients::ServedClients;
use talks::talk::Talk;

/// Which conversations of a protocol stand alike.
pub trait Likeness<T> {
    ghost Alike: { T → T → Type 0 };
}

/// Where conversations of a protocol that stand alike go alike, what one says goes by the bytes of its client and by
/// what it learns: of the same bytes and the same replies it has said the same, as far as these have come. Once none of
/// two says any more over the same bytes, both have said the same to the last byte. Where memory ran out for one, it
/// has said a front of what the other says. `wanted`: and both have wanted the same, for as long as they were replied
/// the same.
pub fn replies_determine_what_is_said<T: Talk, A: Likeness<T>>()
    ensures so_far { replies_determine_what_is_said T T.Talk A.Alike }
    ensures at_the_end { all_that_is_said T T.Talk A.Alike }
    ensures wanted { replies_determine_what_is_wanted T T.Talk A.Alike }
{}

/// What two servers have told a tenant alike to the end of one run (`servers_tell_clients_what_they_see`), they have said
/// alike to each of its clients, by any protocol whose conversations go alike. A client that came to both with the same
/// bytes was said the same, as far as these have come: what the one has said is a front of what the other has. Where no
/// more is said in both, as where its connection came to its end by itself, it was said the same to the last byte. What
/// came and what was said is what `serve_clients` says of each client (`talked`, `course`).
pub fn servers_say_clients_the_same<
    S: Store,
    Z: Store,
    X: EventHandler,
    Y,
    T: Talk,
    C: ServedClients<T>,
    D: ServedClients<T>,
    A: Likeness<T>,
>()
    ensures { servers_say_the_same S Z X Y T C D X.Reads S.state Z.state T.Talk C.ServedClients D.ServedClients A.Alike }
{}

/// A tenant's clients come to two servers with the same bytes, as far as these have come, and are served in one order,
/// client by client. Then they ask the same for as long as they are told the same: this is the premise of
/// `servers_tell_clients_what_they_see`. The order has each reply that a client is told, and each end of a session that
/// it has left open.
pub fn clients_ask_by_their_bytes<
    S: Store,
    Z: Store,
    X: EventHandler,
    Y,
    T: Talk,
    C: ServedClients<T>,
    D: ServedClients<T>,
    A: Likeness<T>,
>()
    ensures { clients_ask_alike S Z X Y T C D X.Reads S.state Z.state T.Talk C.ServedClients D.ServedClients A.Alike }
{}
