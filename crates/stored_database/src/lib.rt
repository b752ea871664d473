//! Which database the records of a store stand for: each role, membership, table, privilege
//! descriptor, policy and row has one record.
#![tactic(auto)]

mod conditions;
mod databases;
mod entries;
mod examples;
mod kinds;
mod orders;
mod parts;
mod places;
mod readings;
mod sizes;
mod spellings;

pub use conditions::{conditions_begin_and_end_with_tokens, one_condition};
pub use databases::{
    definitions_are_whole_without_rows, described_databases_have_records,
    new_records_stand_for_a_new_database, one_catalogue, one_database,
    shown_databases_are_described, stored_databases_are_whole, whole_databases_have_records,
};
pub use entries::{one_list_of_records, records_are_entries};
pub use examples::{numbers_by_the_byte, records_by_the_byte};
pub use kinds::{
    free_numbers_have_no_records, keys_begin_with_their_kind, keys_have_one_kind,
    orphans_stand_for_nothing,
};
pub use orders::{
    held_definitions_are_in_order, joined_lists_are_in_order, keys_are_in_the_order_of_items,
};
pub use parts::parts_are_found_by_name;
pub use places::{
    contents_stand_for_one_database, descriptors_get_places, places_keep_the_order,
    record_formats_are_apart,
};
pub use readings::{
    one_list_of_descriptors, one_list_of_memberships, one_list_of_policies, one_list_of_roles,
    one_list_of_rows, one_list_of_tables,
};
pub use sizes::{items_have_record_sizes, records_have_record_sizes};
pub use spellings::{
    descriptors_have_own_records, memberships_have_own_records, policies_have_own_records,
    roles_have_own_records, rows_have_own_records, tables_have_own_records,
};
