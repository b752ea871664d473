//! Who has a privilege on a table, by whom it was granted to.

ghost use Rattle.database_examples.specs.WhoMayRead.{grants_to_public, public_keeps, nested_roles, members_give_nothing_up, superuser_is_not_inherited, owner_keeps_all, update_without_select, insert_without_select, who_may_change_a_definition, missing_before_privileges, privileges_on_two_tables, each_action_is_granted_alone, public_reaches_later_roles, public_and_a_role_are_two_grantees, memberships_go_one_way, query_of_no_column, any_role_makes_a_table, table_made_again, privilege_before_policy, owner_in_a_group, names_before_privileges_of_each_command, dropped_table_takes_its_own};

/// What PUBLIC is granted reaches each role, and REVOKE FROM PUBLIC takes nothing else.
pub fn grants_to_public()
    ensures { grants_to_public }
{}

/// REVOKE from a role leaves what PUBLIC has.
pub fn public_keeps()
    ensures { public_keeps }
{}

/// A role has the privileges of each role that it is in, over several memberships.
pub fn nested_roles()
    ensures { nested_roles }
{}

/// A role does not have the privileges of those that are in it.
pub fn members_give_nothing_up()
    ensures { members_give_nothing_up }
{}

/// A superuser's membership gives its members nothing of what a superuser may.
pub fn superuser_is_not_inherited()
    ensures { superuser_is_not_inherited }
{}

/// No REVOKE takes the owner's own privileges.
pub fn owner_keeps_all()
    ensures { owner_keeps_all }
{}

/// UPDATE alone may change rows that it does not read.
pub fn update_without_select()
    ensures { update_without_select }
{}

/// INSERT alone shows nothing.
pub fn insert_without_select()
    ensures { insert_without_select }
{}

/// A definition is changed by the owner, a role in the owner, or a superuser.
pub fn who_may_change_a_definition()
    ensures { who_may_change_a_definition }
{}

/// What is missing is found before privileges are checked.
pub fn missing_before_privileges()
    ensures { missing_before_privileges }
{}

/// A privilege on one table is none on another, and REVOKE takes it from one table alone.
pub fn privileges_on_two_tables()
    ensures { privileges_on_two_tables }
{}

/// Each action is granted by itself, and opens its own command alone.
pub fn each_action_is_granted_alone()
    ensures { each_action_is_granted_alone }
{}

/// What PUBLIC was granted reaches a role that is made later.
pub fn public_reaches_later_roles()
    ensures { public_reaches_later_roles }
{}

/// A grant to PUBLIC and one to a role are two, and each is revoked by itself.
pub fn public_and_a_role_are_two_grantees()
    ensures { public_and_a_role_are_two_grantees }
{}

/// A role has the privileges of the roles above it in a chain, and of none below it.
pub fn memberships_go_one_way()
    ensures { memberships_go_one_way }
{}

/// A query that names no column needs SELECT on each table all the same.
pub fn query_of_no_column()
    ensures { query_of_no_column }
{}

/// Any role makes a table and owns it, and nobody else reads it.
pub fn any_role_makes_a_table()
    ensures { any_role_makes_a_table }
{}

/// A table that is made again under its old name has none of its old grants, policies and row
/// security.
pub fn table_made_again()
    ensures { table_made_again }
{}

/// A privilege and a policy are both needed, and the privilege is asked for first.
pub fn privilege_before_policy()
    ensures { privilege_before_policy }
{}

/// The tables of a group are those of each of its members, as long as they are in it.
pub fn owner_in_a_group()
    ensures { owner_in_a_group }
{}

/// A role without any privilege is told of a table or a column that is missing, by each command.
pub fn names_before_privileges_of_each_command()
    ensures { names_before_privileges_of_each_command }
{}

/// DROP TABLE takes the grants and policies of its table, and leaves those of another.
pub fn dropped_table_takes_its_own()
    ensures { dropped_table_takes_its_own }
{}
