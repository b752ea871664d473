//! Laws of the statements that define roles, tables and policies.

ghost use Rattle.database_laws.specs.Definitions.{create_role_adds_it, drop_role_takes_it, create_table_adds_it, drop_table_takes_it, alter_table_sets_a_flag, create_policy_adds_it, drop_policy_takes_it};

/// CREATE ROLE adds its role, with the attributes that are written. DROP ROLE takes its role and
/// the memberships of it. All else stays (PostgreSQL manual, CREATE ROLE, DROP ROLE).
pub fn roles_come_and_go()
    ensures created { create_role_adds_it }
    ensures dropped { drop_role_takes_it }
{}

/// CREATE TABLE adds its table, without rows, and the privileges of its owner. DROP TABLE takes the
/// table, its rows, its privileges and its policies. ALTER TABLE sets one flag of the table. All
/// else stays (SQL:2016 Foundation, 11.3 and 11.31; PostgreSQL manual, ALTER TABLE).
pub fn tables_come_and_go()
    ensures created { create_table_adds_it }
    ensures dropped { drop_table_takes_it }
    ensures altered { alter_table_sets_a_flag }
{}

/// CREATE POLICY adds its policy, as it is written. DROP POLICY takes the policy of its name from
/// its table. All else stays (PostgreSQL manual, CREATE POLICY, DROP POLICY).
pub fn policies_come_and_go()
    ensures created { create_policy_adds_it }
    ensures dropped { drop_policy_takes_it }
{}
