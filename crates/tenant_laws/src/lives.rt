//! Laws of lives that follow each other, each over what the stop of the one before left.

ghost use Rattle.std.specs.Prelude.{ℕ};
ghost use Rattle.abstract_database.specs.Runs.{Stops};
ghost use Rattle.tenant_laws.specs.TenantLives.{what_lives_tell_a_tenant};
ghost use Rattle.tenant_laws.specs.LivesApart.{lives_begin_without_sessions, next_lives_are_told_alike, LivesPartAtSelect, LivesAreToldAlike};

use database_laws::runs::Reader;

/// What a stop at a moment of each life may leave; the lives have numbers.
pub trait Restarting {
    ghost Leave: { ℕ → Stops };
}

/// What a tenant is told goes by what it may see, also through restarts. Take two databases that look
/// alike to all that the tenant acts as. Each is opened, answers events, and stops, at any moment; then
/// what the stop left is opened, and so on: lives that follow each other. In the lives of each place the
/// tenant asks the same, and in each life others keep out of its sight. Then its own events are answered
/// the same, life by life, up to the first exception of `stores_tell_tenants_what_they_see`, and what the
/// stops left looks alike to it again.
///
/// A stop may part them, too, though no answer did: a commit of the tenant's own was under way and not
/// answered, and the one stop left what it brought, the other did not; or both left what an own event
/// brought that is an exception of the machines; or a device had failed, and its stop left what the event
/// in which it failed would have brought.
pub fn lives_tell_tenants_what_they_see<R: Reader, S: Restarting, T: Restarting>()
    ensures { what_lives_tell_a_tenant R.Reads S.Leave T.Leave }
{}

/// What `lives_tell_tenants_what_they_see` says of the lives after a restart. Where two lives were told
/// alike to the end, and their stops left nothing of the tenant's that was not answered and nothing of a
/// failed device, the next two begin alike and are told alike. No session is open when a life begins.
pub fn next_lives_are_told_alike<R: Reader, S: Restarting, T: Restarting>()
    ensures next { next_lives_are_told_alike R.Reads S.Leave T.Leave }
    ensures sessions { lives_begin_without_sessions R.Reads S.Leave }
{}

/// Lives meet the premises, and lives break the law. Over two databases that differ in another tenant's
/// rows a tenant is told alike by a SELECT in the second lives. Over two that differ in its own it is not.
pub fn lives_part_at_a_select()
    ensures alike { LivesAreToldAlike }
    ensures apart { LivesPartAtSelect }
{}
