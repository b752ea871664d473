//! Laws of lives of servers of many clients, each over what the stop of the one before left.

ghost use Rattle.served_lives.specs.ServedLives.{what_lives_tell_clients, next_lives_tell_alike, as_many_commit_no_more};
ghost use Rattle.served_lives.specs.MadeLives.{turns_make_lives, stops_fall_between_steps};

use database_laws::runs::Reader;
use server::decide::EventHandler;
use store::Store;
use talks::clients::ServedClients;
use talks::talk::Talk;

/// What the clients of a tenant are told goes by what it may see, also through restarts. Take two databases that look
/// alike to all that the tenant acts as. Over each a server of many clients is opened, works, and is stopped, at any
/// moment; then one is opened over what the stop left, and so on. Clients come anew in each life. In the lives of each
/// place the tenant's clients, by whatever numbers they have there, want the same in one order over all of them, for as
/// long as they are told the same; and in each life others keep out of its sight. Then they are told the same, life by
/// life, up to where one life may part them (`servers_tell_clients_what_they_see` of `served_tenants`), and what the
/// stops left looks alike to the tenant again.
///
/// A stop may part them, too, though no answer did: it came before a commit of the tenant's own which the other life has
/// made, whether that was answered or not; or a device had failed, and its stop left what the event in which it failed
/// would have brought. Where one life has done more for the tenant, and none of that is a commit, nothing parts them.
pub fn lives_tell_clients_what_they_see<R: Reader>()
    ensures { what_lives_tell_clients R.Reads }
{}

/// What `lives_tell_clients_what_they_see` says of the lives after a restart. Two lives never part, and none has made a
/// commit of the tenant's own more than the other; no device had failed. Then the next two begin with what looks alike
/// to the tenant, and tell it alike. `commits`: a life that has done no more for the tenant than the other, answered or
/// not, has made no commit of its own more.
pub fn next_lives_tell_clients_alike<R: Reader>()
    ensures next { next_lives_tell_alike R.Reads }
    ensures commits { as_many_commit_no_more R.Reads }
{}

/// A server of many clients that was just opened over a database takes turns for clients, and then makes steps of a turn
/// that is under way, of which it tells nobody. Where it then stands, each database that a stop may leave is left by a
/// life that did all of this: one of which `lives_tell_clients_what_they_see` speaks.
pub fn turns_make_lives<S: Store, X: EventHandler, T: Talk, C: ServedClients<T>>()
    ensures { turns_make_lives S X T C X.Reads S.state T.Talk C.ServedClients }
{}

/// A stop may come within a step of a server: of an event of a client, also one that closes a session which that has left
/// open. It leaves what one before the step may leave, or what one behind it may, and nothing else. So `turns_make_lives`
/// says what life that is.
pub fn stops_fall_between_steps<S: Store, X: EventHandler>()
    ensures { stops_fall_between_steps S X X.Reads S.state }
{}
