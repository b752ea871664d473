//! Laws of what is said to clients in lives that follow each other.

ghost use Rattle.served_lives.specs.SaidBefore.{all_is_learnt_before, parted_lives_say_alike_before};
ghost use Rattle.served_lives.specs.SaidLives.{lives_say_the_same};

use served_tenants::saying::Likeness;
use server::decide::EventHandler;
use store::Store;
use talks::clients::ServedClients;
use talks::talk::Talk;

/// What two lives have told a tenant alike they have said alike to each of its clients, by any protocol whose
/// conversations go alike. A client that came to both with the same bytes was said the same, as far as these have come:
/// what the one has said is a front of what the other has. Where no more is said in both it was said the same to the
/// last byte. The turns are those of which clients had been told at the stop. Behind them a life may have made steps of
/// which nobody was told.
pub fn lives_say_clients_the_same<
    S: Store,
    Z: Store,
    X: EventHandler,
    Y,
    T: Talk,
    C: ServedClients<T>,
    D: ServedClients<T>,
    A: Likeness<T>,
>()
    ensures { lives_say_the_same S Z X Y T C D X.Reads S.state Z.state T.Talk C.ServedClients D.ServedClients A.Alike }
{}

/// Two lives that part have said alike to each client of the tenant before they did. Of the same bytes, as far as they have
/// come, it was said the same before it was told anything at or behind where they part: what the one had said by then is a
/// front of what the other had. That is all that it was said, if it was told nothing more. Where the lives part is one of
/// the events that `TellAlike` of `served_tenants` lists. `all`: by where they part it has learnt all, if they never do, as far
/// as one of them goes.
pub fn parted_lives_say_clients_the_same_before<
    S: Store,
    Z: Store,
    X: EventHandler,
    Y,
    T: Talk,
    C: ServedClients<T>,
    D: ServedClients<T>,
    A: Likeness<T>,
>()
    ensures says { parted_lives_say_alike_before S Z X Y T C D X.Reads S.state Z.state T.Talk C.ServedClients D.ServedClients A.Alike }
    ensures all { all_is_learnt_before X.Reads }
{}
