//! What all layers of the storage agree on: sizes, each with its unit, the kinds of records and how they are
//! spelled, and the order of their keys.
#![tactic(auto)]

mod key_order;
mod record_format;
mod record_kind;

pub use key_order::{comes_before, is_same_key};
pub use record_format::RecordFormat;
pub use record_kind::RecordKind;

/// The bytes of a sector, which a device writes whole or not at all.
pub const SECTOR_SIZE: usize = 512;

/// The sectors of a page.
pub const SECTORS_PER_PAGE: u32 = 8;

/// The bytes of a page.
pub const PAGE_SIZE: usize = 4096;

/// The fewest pages of a device that holds a database.
pub const MIN_PAGES: u32 = 64;

/// The most pages of a device.
pub const MAX_PAGES: u32 = 65_536;

/// The most bytes of a row's key columns, encoded.
pub const MAX_ROW_KEY_LENGTH: usize = 200;

/// The most bytes of a record's key: that of a row is a byte for its kind, four for its table, and its key columns.
pub const MAX_KEY_LENGTH: usize = 205;

/// The most bytes of a record's value.
pub const MAX_VALUE_LENGTH: usize = 1200;

const _: () = prove!(PAGE_SIZE == SECTOR_SIZE * SECTORS_PER_PAGE as usize);

const _: () = prove!(MAX_KEY_LENGTH == 1 + 4 + MAX_ROW_KEY_LENGTH);
