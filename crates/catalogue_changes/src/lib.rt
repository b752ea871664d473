//! The changes of a database's records that a definition statement makes.
#![tactic(auto)]

mod changes;
mod descriptor_changes;
mod effects;
mod encode;
mod entries;
mod part_removals;
mod policy_bridges;
mod privilege_bridges;
mod role_bridges;
mod role_laws;
mod role_statements;
mod row_removals;
mod statement_laws;
mod storable;
mod table_bridges;
mod table_laws;
mod table_statements;

pub use changes::{
    push_descriptor_changes, push_membership_changes, push_policy_changes, push_role_change,
    push_table_change,
};
pub use descriptor_changes::push_descriptors_set;
pub use effects::defined;
pub use encode::{descriptor_entry, membership_entry, policy_entry, role_entry, table_entry};
pub use policy_bridges::{policies_come_by_a_change, policies_go_by_a_change};
pub use privilege_bridges::{
    privileges_are_granted_by_a_change, privileges_are_revoked_by_a_change,
    privileges_concern_their_table_alone,
};
pub use role_bridges::{memberships_come_and_go_by_changes, roles_come_and_go_by_changes};
pub use role_laws::{memberships_are_set, roles_are_dropped, roles_are_put};
pub use role_statements::{push_memberships, push_role_drop, push_role_put};
pub use statement_laws::{definitions_after_statements_describe, statements_lead_as_changes};
pub use storable::valid_tables_are_storable;
pub use table_bridges::{
    tables_are_altered_by_a_change, tables_come_by_a_change, tables_go_by_a_change,
};
pub use table_laws::{tables_are_dropped, tables_are_put};
pub use table_statements::{push_table_drop, push_table_put};
