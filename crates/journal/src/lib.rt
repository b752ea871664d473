//! What the sectors of a journal say: the chain of records behind a root, and what a stop may leave of
//! it. The crate has definitions and laws alone.
//! The records of a journal by their bytes: the changes of a batch, cut into parts, each in a sector of
//! its own behind a tag. Each has one spelling, and nothing else is read.
//! A journal in sectors of a device: a record is appended with one sync, and the records are read when
//! the device is opened.
#![tactic(auto)]

mod batch;
mod chain;
mod chain_laws;
mod change;
mod fields;
mod journal;
mod reading;
mod record;
mod record_laws;
mod sector;
mod writing;

pub use batch::{batch_bytes, read_batch};
pub use chain::find_journal;
pub use chain_laws::{
    append_lasts, later_root_has_no_records, numbers_rise, one_journal, stop_during_append,
};
pub use journal::{Journal, JournalRecord};
pub use reading::{read_journal, read_sectors};
pub use record::{part_bytes, write_sectors};
pub use record_laws::{one_batch, one_part};
pub use sector::{JournalSector, PART_SIZE, SectorTag, TAG_SIZE, read_sector};
pub use sector_device::{Device, DeviceFault};
pub use storage_sizes::SECTOR_SIZE;
pub use store::Fault;
pub use writing::append;
