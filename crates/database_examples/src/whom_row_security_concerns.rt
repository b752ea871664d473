//! Whom row security concerns: who is exempt, and for which roles a policy is.

ghost use Rattle.database_examples.specs.WhomRowSecurityConcerns.{forced_on_the_owner, force_without_enable, members_of_the_owner, superusers_see_all, bypass_is_not_inherited, bypass_is_no_privilege, policy_to_one_role, restrictive_to_one_role, policy_to_a_group, public_among_names, policies_go_by_the_set_role, who_is_exempt, exempt_by_a_set_role, policies_of_groups, set_role_leaves_policies_behind, restrictive_policy_of_a_group, policies_of_two_groups, current_and_session_user, roles_of_a_to_list};

/// The owner is exempt until FORCE.
pub fn forced_on_the_owner()
    ensures { forced_on_the_owner }
{}

/// FORCE alone guards nothing.
pub fn force_without_enable()
    ensures { force_without_enable }
{}

/// A role that is in the owner is exempt like the owner, and guarded where it is forced.
pub fn members_of_the_owner()
    ensures { members_of_the_owner }
{}

/// A superuser is exempt, FORCE or not.
pub fn superusers_see_all()
    ensures { superusers_see_all }
{}

/// BYPASSRLS exempts its role, and no role that is in it.
pub fn bypass_is_not_inherited()
    ensures { bypass_is_not_inherited }
{}

/// BYPASSRLS gives no privilege.
pub fn bypass_is_no_privilege()
    ensures { bypass_is_no_privilege }
{}

/// A policy to one role does not concern the others.
pub fn policy_to_one_role()
    ensures { policy_to_one_role }
{}

/// A restrictive policy to one role leaves the others alone.
pub fn restrictive_to_one_role()
    ensures { restrictive_to_one_role }
{}

/// A policy concerns each role that is in one of its roles, over several memberships.
pub fn policy_to_a_group()
    ensures { policy_to_a_group }
{}

/// PUBLIC in a TO list means every role.
pub fn public_among_names()
    ensures { public_among_names }
{}

/// Policies go by the set role, and session_user in them stays the login role.
pub fn policies_go_by_the_set_role()
    ensures { policies_go_by_the_set_role }
{}

/// The owner, its members, roles with BYPASSRLS and superusers are exempt; FORCE binds the first
/// two.
pub fn who_is_exempt()
    ensures { who_is_exempt }
{}

/// A session is exempt while the role that it has set is, and a superuser is guarded under another
/// role.
pub fn exempt_by_a_set_role()
    ensures { exempt_by_a_set_role }
{}

/// A policy for a group concerns a role from the membership on, and as long as it lasts.
pub fn policies_of_groups()
    ensures { policies_of_groups }
{}

/// Under a set role a session has the policies of that role, and not those of its login role.
pub fn set_role_leaves_policies_behind()
    ensures { set_role_leaves_policies_behind }
{}

/// A restrictive policy for a group hides rows from its members, and from nobody else.
pub fn restrictive_policy_of_a_group()
    ensures { restrictive_policy_of_a_group }
{}

/// A member of two groups has the permissive policies of both, for the commands that each is for.
pub fn policies_of_two_groups()
    ensures { policies_of_two_groups }
{}

/// In a policy CURRENT_USER is the set role, and SESSION_USER stays the login role.
pub fn current_and_session_user()
    ensures { current_and_session_user }
{}

/// Each role of a TO list must be there, also beside PUBLIC, and one that is named twice counts
/// once.
pub fn roles_of_a_to_list()
    ensures { roles_of_a_to_list }
{}
