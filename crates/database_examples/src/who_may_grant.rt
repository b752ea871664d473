//! GRANT and REVOKE: grant options, chains of grants, and warnings.

ghost use Rattle.database_examples.specs.WhoMayGrant.{cycle_of_grants_goes, two_grantors, left_out_with_a_warning, refused_grants, grant_option_revoked, option_stays, revoke_of_nothing, superuser_acts_as_owner, only_the_acting_grantors_grants, second_chain_holds, grant_to_oneself, lost_option_over_a_chain, one_dependent_action_refuses, grants_as_the_group, grants_as_the_least_group, warned_not_refused, no_option_to_public, grants_without_a_privilege, cascade_along_a_chain, diamond_of_grants, grant_without_option_holds_nothing_up, group_is_the_grantor, grantor_of_each_action, own_option_before_a_groups, grantee_joins_the_owner, superuser_under_a_set_role, owner_takes_what_a_superuser_gave, option_that_is_not_there, grantee_takes_its_own_grants_alone, warnings_of_grant, warnings_of_revoke, named_twice_counts_once, owner_as_a_grantee, option_given_back_to_the_grantor, own_grant_depends_too, strangers_neither_grant_nor_revoke, option_for_another_action_or_table, names_of_a_grant};

/// Ann grants to bob, bob to cid and cid to bob: without the first grant the cycle of the others supports nothing.
pub fn cycle_of_grants_goes()
    ensures { cycle_of_grants_goes }
{}

/// What a second grantor gave stays until that grantor takes it.
pub fn two_grantors()
    ensures { two_grantors }
{}

/// An action without an acting grantor is left out, with a warning.
pub fn left_out_with_a_warning()
    ensures { left_out_with_a_warning }
{}

/// A cycle of memberships is refused, and so is a grant option to PUBLIC.
pub fn refused_grants()
    ensures { refused_grants }
{}

/// Without the grant option what was granted by it is lost, and the privilege itself stays.
pub fn grant_option_revoked()
    ensures { grant_option_revoked }
{}

/// A later grant without the option takes no option away.
pub fn option_stays()
    ensures { option_stays }
{}

/// REVOKE of what was not granted succeeds.
pub fn revoke_of_nothing()
    ensures { revoke_of_nothing }
{}

/// A superuser grants and revokes as the owner.
pub fn superuser_acts_as_owner()
    ensures { superuser_acts_as_owner }
{}

/// REVOKE takes nothing that another role granted.
pub fn only_the_acting_grantors_grants()
    ensures { only_the_acting_grantors_grants }
{}

/// With a second chain to the owner nothing is abandoned.
pub fn second_chain_holds()
    ensures { second_chain_holds }
{}

/// A grant to oneself supports nothing.
pub fn grant_to_oneself()
    ensures { grant_to_oneself }
{}

/// A grant option that is lost takes a whole chain with it.
pub fn lost_option_over_a_chain()
    ensures { lost_option_over_a_chain }
{}

/// Of several actions one that has dependents refuses the whole REVOKE.
pub fn one_dependent_action_refuses()
    ensures { one_dependent_action_refuses }
{}

/// A member grants as the group that holds the option, and what it gave goes with the group's option.
pub fn grants_as_the_group()
    ensures { grants_as_the_group }
{}

/// Of several groups that hold the option the first by name grants.
pub fn grants_as_the_least_group()
    ensures { grants_as_the_least_group }
{}

/// One who has any privilege is warned where another would be refused.
pub fn warned_not_refused()
    ensures { warned_not_refused }
{}

/// A grant option to PUBLIC is refused whatever the role may grant.
pub fn no_option_to_public()
    ensures { no_option_to_public }
{}

/// A role without any privilege on the table may neither grant nor revoke, and is refused so before a
/// grant option to PUBLIC is.
pub fn grants_without_a_privilege()
    ensures { grants_without_a_privilege }
{}

/// REVOKE is refused while a chain of grants hangs on it, and with CASCADE takes the chain from
/// that link on.
pub fn cascade_along_a_chain()
    ensures { cascade_along_a_chain }
{}

/// What two grantors gave holds a third grant up until both have taken it.
pub fn diamond_of_grants()
    ensures { diamond_of_grants }
{}

/// A grant without the option does not hold up what its grantee granted.
pub fn grant_without_option_holds_nothing_up()
    ensures { grant_without_option_holds_nothing_up }
{}

/// Where the group holds the option, the group is the grantor: another member takes back what a
/// former one gave.
pub fn group_is_the_grantor()
    ensures { group_is_the_grantor }
{}

/// The grantor is chosen for each action: here the role itself for SELECT, and its group for
/// INSERT.
pub fn grantor_of_each_action()
    ensures { grantor_of_each_action }
{}

/// A role that holds the option itself grants by it, whatever its groups hold.
pub fn own_option_before_a_groups()
    ensures { own_option_before_a_groups }
{}

/// One who joins the owner acts as the owner from then on, and no longer takes what it gave before.
pub fn grantee_joins_the_owner()
    ensures { grantee_joins_the_owner }
{}

/// A superuser that has set a role grants as that role, and is refused where that role would be.
pub fn superuser_under_a_set_role()
    ensures { superuser_under_a_set_role }
{}

/// What a superuser gave is the owner's grant: the owner takes it back.
pub fn owner_takes_what_a_superuser_gave()
    ensures { owner_takes_what_a_superuser_gave }
{}

/// REVOKE GRANT OPTION FOR where there is none changes nothing.
pub fn option_that_is_not_there()
    ensures { option_that_is_not_there }
{}

/// One who holds the option takes back what it gave, and nothing that the owner gave.
pub fn grantee_takes_its_own_grants_alone()
    ensures { grantee_takes_its_own_grants_alone }
{}

/// GRANT warns where an action that it names has no grantor, and with ALL only where none of the
/// four has one.
pub fn warnings_of_grant()
    ensures { warnings_of_grant }
{}

/// REVOKE warns as GRANT does, and is refused where the role has no privilege at all.
pub fn warnings_of_revoke()
    ensures { warnings_of_revoke }
{}

/// An action or a grantee that is named twice counts once.
pub fn named_twice_counts_once()
    ensures { named_twice_counts_once }
{}

/// The owner may be a grantee too; without that grant it has all that it had.
pub fn owner_as_a_grantee()
    ensures { owner_as_a_grantee }
{}

/// An option may go back to one from whom it came; the cycle goes with the first grant.
pub fn option_given_back_to_the_grantor()
    ensures { option_given_back_to_the_grantor }
{}

/// A plain grant to oneself depends on one's option, and refuses the owner's REVOKE without
/// CASCADE.
pub fn own_grant_depends_too()
    ensures { own_grant_depends_too }
{}

/// GRANT ALL, REVOKE ALL and GRANT OPTION FOR are refused to a role without any privilege, too.
pub fn strangers_neither_grant_nor_revoke()
    ensures { strangers_neither_grant_nor_revoke }
{}

/// The option for one action or on one table holds up no grant of another.
pub fn option_for_another_action_or_table()
    ensures { option_for_another_action_or_table }
{}

/// GRANT and REVOKE look for the table first, and then for each role.
pub fn names_of_a_grant()
    ensures { names_of_a_grant }
{}
