//! A store with a journal: its commits are records in a journal with one sync each, behind the pages that
//! they follow. What an image of pages and such records contains.
//! The store on a device, whichever kind stands there: in pages alone, or in pages with a journal.
//! Turns the journal of a store on a device on and off.
#![tactic(auto)]

mod commits;
mod device_laws;
mod device_opening;
mod device_reads;
mod device_stores;
mod devices;
mod emptying;
mod encoded_lengths;
mod formatting;
mod laws;
mod on;
mod opening;
mod places;
mod reads;
mod renewal;
mod room;
mod stores;
mod switch_fault;
mod turning_off;
mod turning_on;
mod under;
mod writes;

pub use cow_pages::{DEFAULT_CACHE_PAGES, MAX_CACHE_PAGES, OpenFault};
pub use device_laws::{one_contents as image_has_one_contents, sound_images};
pub use device_stores::DeviceStore;
pub use devices::JournalDevice;
pub use laws::{checkpoint_leaves, one_contents, record_leaves};
pub use on::begin_journal;
pub use places::StorePlace;
pub use stores::JournalStore;
pub use switch_fault::SwitchFault;
pub use turning_off::turn_off;
pub use turning_on::turn_on;
