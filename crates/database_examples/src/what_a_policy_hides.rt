//! Which rows the policies of a table hide.

ghost use Rattle.database_examples.specs.WhatAPolicyHides.{two_tenants, no_policy, restrictive_alone, policies_combine, policy_comes_first, policies_in_order, policies_in_other_order, policies_that_are_refused, restrictive_null_hides, each_restrictive_counts, one_permissive_is_enough, insert_policy_shows_nothing, command_and_all_are_joined, disable_and_enable, last_permissive_dropped, restrictive_is_not_reached, dropped_table_takes_policies, names_before_privileges, count_of_shown_rows, policies_on_two_tables, each_joined_table_is_guarded, guard_beside_an_empty_table, failing_policy_refuses_each_command, policy_before_each_condition, restrictive_after_permissive, null_policies_hide, permissive_widen_restrictive_narrow, columns_of_a_policy, user_names_compared, order_of_refusals_of_a_policy};

/// Two tenants in one table: each sees its own rows alone, puts in no row of the other, and sees nothing once its
/// privilege is revoked.
pub fn two_tenants()
    ensures { two_tenants }
{}

/// Row security without a policy shows nothing and lets nothing in.
pub fn no_policy()
    ensures { no_policy }
{}

/// Restrictive policies alone show nothing.
pub fn restrictive_alone()
    ensures { restrictive_alone }
{}

/// One permissive and each restrictive policy must be true; null is not.
pub fn policies_combine()
    ensures { policies_combine }
{}

/// A policy is evaluated before the user's condition.
pub fn policy_comes_first()
    ensures { policy_comes_first }
{}

/// Policies are evaluated in the order of their names, and the second only where the first does not decide.
pub fn policies_in_order()
    ensures { policies_in_order }
{}

/// Under exchanged names the policy that fails is evaluated first, and the statement is refused.
pub fn policies_in_other_order()
    ensures { policies_in_other_order }
{}

/// A policy is a condition; what its command has no use for is refused when the text is read.
pub fn policies_that_are_refused()
    ensures { policies_that_are_refused }
{}

/// A restrictive policy whose value is null hides the row.
pub fn restrictive_null_hides()
    ensures { restrictive_null_hides }
{}

/// Each restrictive policy must be true.
pub fn each_restrictive_counts()
    ensures { each_restrictive_counts }
{}

/// One permissive policy that is true is enough, also beside a null.
pub fn one_permissive_is_enough()
    ensures { one_permissive_is_enough }
{}

/// A policy for INSERT shows nothing.
pub fn insert_policy_shows_nothing()
    ensures { insert_policy_shows_nothing }
{}

/// Policies for one command and for all commands are joined by OR.
pub fn command_and_all_are_joined()
    ensures { command_and_all_are_joined }
{}

/// Policies outlast DISABLE, and count again after ENABLE.
pub fn disable_and_enable()
    ensures { disable_and_enable }
{}

/// Without its last permissive policy a table shows nothing.
pub fn last_permissive_dropped()
    ensures { last_permissive_dropped }
{}

/// Without a permissive policy the restrictive ones are not evaluated.
pub fn restrictive_is_not_reached()
    ensures { restrictive_is_not_reached }
{}

/// A policy of a dropped table does not come back with its name.
pub fn dropped_table_takes_policies()
    ensures { dropped_table_takes_policies }
{}

/// What is missing is found before privileges are checked.
pub fn names_before_privileges()
    ensures { names_before_privileges }
{}

/// A count is over the rows that are shown.
pub fn count_of_shown_rows()
    ensures { count_of_shown_rows }
{}

/// Row security and a policy of one table say nothing of another, and DROP POLICY takes the policy of
/// the named table alone.
pub fn policies_on_two_tables()
    ensures { policies_on_two_tables }
{}

/// Each table of FROM shows the rows that its own guard lets pass, each time that it stands there.
pub fn each_joined_table_is_guarded()
    ensures { each_joined_table_is_guarded }
{}

/// The guard of each table is evaluated on all its rows, whatever the other tables, WHERE and LIMIT
/// leave of them.
pub fn guard_beside_an_empty_table()
    ensures { guard_beside_an_empty_table }
{}

/// A policy that fails on a row refuses each command that it guards, whichever row it is.
pub fn failing_policy_refuses_each_command()
    ensures { failing_policy_refuses_each_command }
{}

/// A condition that would fail on a hidden row does not meet it, in SELECT, UPDATE, DELETE and a
/// join.
pub fn policy_before_each_condition()
    ensures { policy_before_each_condition }
{}

/// The restrictive policies are evaluated after all permissive ones, in the order of their names.
pub fn restrictive_after_permissive()
    ensures { restrictive_after_permissive }
{}

/// A policy whose expression is NULL lets no row pass, permissive or restrictive.
pub fn null_policies_hide()
    ensures { null_policies_hide }
{}

/// Each further permissive policy shows more rows, and each further restrictive one fewer.
pub fn permissive_widen_restrictive_narrow()
    ensures { permissive_widen_restrictive_narrow }
{}

/// A policy names columns of its own table alone, under the table's name or none, and is a BOOLEAN.
pub fn columns_of_a_policy()
    ensures { columns_of_a_policy }
{}

/// A policy that compares the two user names shows all rows while no role is set.
pub fn user_names_compared()
    ensures { user_names_compared }
{}

/// CREATE POLICY is refused for its table, its roles, its name, its columns, its types and its
/// privilege, in this order.
pub fn order_of_refusals_of_a_policy()
    ensures { order_of_refusals_of_a_policy }
{}
