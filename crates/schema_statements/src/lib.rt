//! CREATE ROLE, DROP ROLE, and GRANT and REVOKE of roles as whole statements over a catalogue:
//! checked, and then carried out as a change of the definitions, with the changes of records.
//! CREATE TABLE, ALTER TABLE and DROP TABLE as whole statements over a catalogue: checked, and then
//! carried out as a change of the definitions, with the changes of records.
//! CREATE POLICY and DROP POLICY as whole statements over a catalogue: checked, and then carried out
//! as a change of the definitions, with the changes of records.
//! GRANT and REVOKE of privileges as whole statements over a catalogue: checked, and then carried
//! out as a change of the definitions, with the changes of records.
#![tactic(auto)]

mod alone;
mod altering_tables;
mod creating_policies;
mod creating_roles;
mod creating_tables;
mod descriptor_changes;
mod descriptors;
mod dropping_policies;
mod dropping_roles;
mod dropping_tables;
mod grantees;
mod granting;
mod grantors;
mod membership_statement;
mod memberships;
mod named_descriptors;
mod new_columns;
mod new_policy;
mod new_table;
mod ordered_descriptors;
mod owners;
mod policies;
mod policy_limits;
mod policy_names;
mod policy_tables;
mod privilege_checks;
mod privilege_statement;
mod privilege_units;
mod requester;
mod role_attributes;
mod role_usage;
mod schema_changes;

pub use altering_tables::alter_table;
pub use creating_policies::create_policy;
pub use creating_roles::create_role;
pub use creating_tables::create_table;
pub use dropping_policies::drop_policy;
pub use dropping_roles::drop_role;
pub use dropping_tables::drop_table;
pub use granting::grant_or_revoke;
pub use membership_statement::MembershipStatement;
pub use memberships::grant_or_revoke_roles;
pub use owners::acts_as_owner;
pub use privilege_statement::PrivilegeStatement;
