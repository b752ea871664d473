//! Statements, carried out over a map of records.
#![tactic(auto)]

mod by_look_ups;
mod certain;
mod counted;
mod found_order;
mod in_place;
mod in_ranges;
mod inner_lookup;
mod joined_rows;
mod known_columns;
mod looked_up;
mod narrowed;
mod one_table;
mod outer_walk;
mod selection;
mod several_tables;
mod visible;

pub use one_table::select_from_one;
pub use selection::select;
pub use several_tables::select_from_several;
