//! Lives that meet the premises of these laws, and lives that they refuse.

ghost use Rattle.served_lives.specs.OneLogin.{OneLoginMeetsThePremises};
ghost use Rattle.served_lives.specs.ServedLivesApart.{ServedLivesMeetThePremises, ServedLivesPartAtSelect};

/// Lives meet the premises of `lives_tell_clients_what_they_see`. Two tenants have two clients each, each with a session
/// of its own. In both lives of the one server, and in both of the other, those of the first tenant have other numbers,
/// and the other tenant has other notes. The first stops come at different places of what the tenant asks. In the second
/// lives both of its clients are shown its own note. Over two databases in which its own notes differ lives part at a
/// SELECT of the second life: the law refuses them.
pub fn lives_of_clients_part_at_a_select()
    ensures alike { ServedLivesMeetThePremises }
    ensures apart { ServedLivesPartAtSelect }
{}

/// So do lives in which all clients log in as one role. Each of two tenants has two clients, which set the role of their
/// tenant, and the second client of the one begins a block and writes in it. The stops end that block. In the second lives
/// both of its clients are shown its own note that was committed before.
pub fn one_login_serves_two_tenants()
    ensures { OneLoginMeetsThePremises }
{}
