//! The roots of a device: the bytes of root sectors and map pages, which root is chosen, and its
//! reach.
#![tactic(auto)]

mod choice;
mod fields;
mod format;
mod later;
mod laws;
mod map_page;
mod reach;
mod root;
mod sector;

pub use choice::choose;
pub use fields::MAX_MAP_PAGES;
pub use format::Format;
pub use later::later_format;
pub use laws::{chosen_root_law, reach_law, root_spelling_law};
pub use map_page::{ENTRIES_PER_MAP_PAGE, put_map_page, read_map_page, write_map_page};
pub use reach::is_sound_reach;
pub use root::Root;
pub use sector::{RootSector, empty_sector, has_magic, read_root};
pub use storage_sizes::{PAGE_SIZE, RecordFormat, SECTOR_SIZE};
