//! The definitions of a database, read from the records of a store: kind by kind, each record by the
//! item that it spells.
//! Whether definitions are those of a whole database: roles are known wherever they are named,
//! memberships have no cycle, tables have numbers of their own, privilege descriptors are supported
//! and policies are whole. Nothing here reads or writes records.
//! The definitions of a database, read whole from the records of a store.
//! The rows of a database in the records of a map: whether each of their records is that of a row
//! which its table may hold, and of a table that there is.
//!
//! Each table's rows are read once, and once more the first of each table; no row is kept.
#![tactic(auto)]

mod bytes;
mod clauses;
mod definitions;
mod descriptor_records;
mod laws;
mod membership_checks;
mod membership_records;
mod name_checks;
mod number_checks;
mod orphan_records;
mod orphans;
mod parts;
mod policy_checks;
mod policy_records;
mod prefix_checks;
mod privilege_checks;
mod record_checks;
mod record_parts;
mod role_records;
mod row_checks;
mod row_laws;
mod row_records;
mod row_tables;
mod table_checks;
mod table_records;
mod tables;
mod validity;
mod walk;
mod whole;

pub use definitions::read_definitions;
pub use descriptor_records::DescriptorReader;
pub use laws::loaded_catalogues_are_the_prepared_ones;
pub use membership_records::MembershipReader;
pub use orphan_records::{OrphanTest, Orphans, no_orphan_is_left, no_orphan_row_is_left};
pub use policy_records::PolicyReader;
pub use record_checks::{RecordTest, check_records};
pub use role_records::RoleReader;
pub use row_checks::check_rows;
pub use row_laws::checked_rows_show_one_database;
pub use row_records::{RowTest, rows_of_records};
pub use table_records::{TableReader, TableRecord};
pub use validity::are_valid;
pub use walk::{ItemReader, load_items};
pub use whole::load;
