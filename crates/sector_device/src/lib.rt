//! What storage promises, as a contract: a device of sectors that may stop at any moment. With it
//! stand three devices, one in memory, one in memory that keeps its history, and one over a file.
#![tactic(auto)]

mod beside;
mod bytes;
mod call;
mod device;
mod file_device;
mod first_page;
mod history;
mod history_laws;
mod memory;
mod memory_file;
mod open_file;
mod page;
mod progress;
mod raw_file;
mod sectors;
mod system_cause;
mod system_file;
mod timelines;
mod write_protected;
mod zeros;

pub use beside::ProtectedSectors;
pub use call::Call;
pub use device::{Device, DeviceFault, calls_join, read_leaves};
pub use file_device::FileDevice;
pub use first_page::write_in_first_page;
pub use history::HistoryDevice;
pub use history_laws::{both_contents_are_left, each_moment_is_kept};
pub use memory::{MAX_MEMORY_PAGES, MemDevice};
pub use memory_file::MemFile;
pub use open_file::FileFault;
pub use page::{read_page, write_page};
pub use progress::{CopyProgress, Unwatched};
pub use raw_file::RawFile;
pub use sectors::write_and_sync;
pub use storage_sizes::{PAGE_SIZE, SECTOR_SIZE, SECTORS_PER_PAGE};
pub use system_cause::SystemCause;
pub use system_file::SystemFile;
pub use timelines::{
    Moments, call_lifts, present_lifts, run_goes_on, run_lifts, run_of_one, run_starts,
    run_weakens, runs_join,
};
pub use write_protected::WriteProtected;
