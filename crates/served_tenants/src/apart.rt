//! Runs that meet the premises of these laws, and runs that they refuse.

ghost use Rattle.served_tenants.specs.ServedApart.{LookUpsToldAlikePartNothing, RunsMeetThePremises, RunsPartAtSelect};

use server::decide::EventHandler;

/// Two runs meet the premises of `servers_tell_clients_what_they_see`, and are told alike to the end. A tenant has one
/// client, which comes alone to one server. To the other another came before it, and goes in between; so the tenant's
/// client has another number there, and the other has other notes. It opens a session and is shown its own note in
/// both. Over two databases in which the tenant's own notes differ the runs part at a SELECT: the law refuses them.
pub fn clients_part_at_a_select()
    ensures alike { RunsMeetThePremises }
    ensures apart { RunsPartAtSelect }
{}

/// A look-up of a verifier to which both servers reply alike, as one that both refuse for memory, parts no runs. So it is
/// whichever clients are the tenant's, but for one of the number under which servers look verifiers up: that is no client.
pub fn look_ups_told_alike_part_nothing<X: EventHandler>()
    ensures { LookUpsToldAlikePartNothing X.Reads }
{}
