//! Roles, their memberships, and the role that a session sets.

ghost use Rattle.database_examples.specs.WhoIsInARole.{dropped_roles, admin_option, set_role_is_lost, superuser_memberships, admin_option_revoked, not_its_own_administrator, administrators_through_a_group, no_cycle_of_memberships, dropped_role_takes_memberships, roles_in_use, making_roles, superuser_sets_any_role, dropping_oneself, missing_roles, privileges_before_cycles, roles_without_login, admin_option_stays, memberships_that_are_not_there, lists_of_memberships_are_whole, plain_members_do_not_grant, administrators_are_equal, admin_option_of_a_group, cycles_after_a_membership_is_gone, leave_before_cycles, set_role_goes_by_the_login_role, superuser_by_a_set_role, membership_regained, lost_and_regained_under_a_session, role_made_again_is_new, grantors_and_owners_are_in_use, policies_of_a_dropped_table_name_nobody, only_superusers_make_and_drop_roles, dropped_under_a_superuser, what_a_lost_role_may_do};

/// A role in use stays, and a session whose login role is gone is refused.
pub fn dropped_roles()
    ensures { dropped_roles }
{}

/// A member with admin option grants the role on, and members act as the owner.
pub fn admin_option()
    ensures { admin_option }
{}

/// A set role that is no longer allowed must be set back first.
pub fn set_role_is_lost()
    ensures { set_role_is_lost }
{}

/// Memberships of a superuser are a superuser's to grant, admin option or not.
pub fn superuser_memberships()
    ensures { superuser_memberships }
{}

/// The admin option goes without the membership, and not the other way.
pub fn admin_option_revoked()
    ensures { admin_option_revoked }
{}

/// A role is not its own administrator.
pub fn not_its_own_administrator()
    ensures { not_its_own_administrator }
{}

/// A member of an administrator administers.
pub fn administrators_through_a_group()
    ensures { administrators_through_a_group }
{}

/// Memberships make no cycle, of one role, two or three.
pub fn no_cycle_of_memberships()
    ensures { no_cycle_of_memberships }
{}

/// Memberships go with a dropped role, and do not come back with its name.
pub fn dropped_role_takes_memberships()
    ensures { dropped_role_takes_memberships }
{}

/// A role that is in a descriptor or named by a policy is in use.
pub fn roles_in_use()
    ensures { roles_in_use }
{}

/// A role is made by a superuser, under a name that is free.
pub fn making_roles()
    ensures { making_roles }
{}

/// A superuser sets any role and acts as it, and may set another from there.
pub fn superuser_sets_any_role()
    ensures { superuser_sets_any_role }
{}

/// The current role and the login role of the session that drops them are in use.
pub fn dropping_oneself()
    ensures { dropping_oneself }
{}

/// A role that is missing is found before privileges are checked, as a member and by SET ROLE.
pub fn missing_roles()
    ensures { missing_roles }
{}

/// Who may not grant or drop a role is refused so before a cycle of memberships or a role in use is.
pub fn privileges_before_cycles()
    ensures { privileges_before_cycles }
{}

/// A session is opened for a role with LOGIN, and for none with NOLOGIN or without either.
pub fn roles_without_login()
    ensures { roles_without_login }
{}

/// A membership that is granted again without the admin option keeps it.
pub fn admin_option_stays()
    ensures { admin_option_stays }
{}

/// Taking a membership or an admin option that is not there changes nothing, and each name of a
/// list counts once.
pub fn memberships_that_are_not_there()
    ensures { memberships_that_are_not_there }
{}

/// A list of memberships with one that is refused grants none of them.
pub fn lists_of_memberships_are_whole()
    ensures { lists_of_memberships_are_whole }
{}

/// A member without the admin option grants nothing; granted again with it, the member does.
pub fn plain_members_do_not_grant()
    ensures { plain_members_do_not_grant }
{}

/// One with the admin option takes the membership of the one who gave it.
pub fn administrators_are_equal()
    ensures { administrators_are_equal }
{}

/// The admin option of a group is that of its members, who may take it from the group.
pub fn admin_option_of_a_group()
    ensures { admin_option_of_a_group }
{}

/// A membership that is gone makes no cycle any more, and the other way round is one now.
pub fn cycles_after_a_membership_is_gone()
    ensures { cycles_after_a_membership_is_gone }
{}

/// Whoever may not grant a membership is told so, also where it would make a cycle.
pub fn leave_before_cycles()
    ensures { leave_before_cycles }
{}

/// Which roles a session may set goes by its login role, whatever role is set.
pub fn set_role_goes_by_the_login_role()
    ensures { set_role_goes_by_the_login_role }
{}

/// A member of a superuser is one only while it has set that role.
pub fn superuser_by_a_set_role()
    ensures { superuser_by_a_set_role }
{}

/// A set role that was lost may be set again once the membership is back; meanwhile one's own role
/// may be set.
pub fn membership_regained()
    ensures { membership_regained }
{}

/// A session whose set role was lost goes on in it once the membership is back.
pub fn lost_and_regained_under_a_session()
    ensures { lost_and_regained_under_a_session }
{}

/// A role that is dropped and made again has none of its old memberships.
pub fn role_made_again_is_new()
    ensures { role_made_again_is_new }
{}

/// A grantee, a grantor and an owner are in use until their grants and tables are gone.
pub fn grantors_and_owners_are_in_use()
    ensures { grantors_and_owners_are_in_use }
{}

/// A role that a policy names is free again once the policy's table is dropped.
pub fn policies_of_a_dropped_table_name_nobody()
    ensures { policies_of_a_dropped_table_name_nobody }
{}

/// Making and dropping a role is a superuser's; a name that is there or missing is told first.
pub fn only_superusers_make_and_drop_roles()
    ensures { only_superusers_make_and_drop_roles }
{}

/// A set role that is dropped is gone for a superuser too, until it sets another.
pub fn dropped_under_a_superuser()
    ensures { dropped_under_a_superuser }
{}

/// Without its set role a session sets another or ends its block, and does nothing else.
pub fn what_a_lost_role_may_do()
    ensures { what_a_lost_role_may_do }
{}
