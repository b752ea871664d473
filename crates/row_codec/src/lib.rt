//! Rows of tables as the bytes of records: a key whose byte order is the order of the key's values,
//! and the other columns after it. A row has one spelling, which is read in place.
#![tactic(auto)]

mod cell;
mod laws;
mod lent;
mod prefix;
mod record;
mod row;

pub use cell::{counted_bytes_at, key_cell_at, push_key_cell, push_value_cell, value_cell_at};
pub use laws::{key_order, one_row, prefixes, sizes};
pub use lent::{LentRow, lent_rows};
pub use prefix::{push_row_prefix, table_prefix};
pub use record::{
    fits_record, push_row_key, push_row_value, record_size, size_of_cells, write_row_value,
};
pub use row::{RowRef, view};
