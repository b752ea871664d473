//! The program's command line: the words that it takes, the order that they give, and the texts that say so.
//! Commands over a database that a path of a system names: it is made, copied, checked, read, run over and served, and its journal
//! is turned on and off.
//! What the program does for the orders of its command line: its output, its messages and its exit status.
#![tactic(auto)]

pub mod carrying_out;
pub mod client_talks;
pub mod command;
pub mod command_name;
mod copy_command;
mod copy_fault;
pub mod describe_words;
mod describing;
mod dump_commands;
mod dump_words;
pub mod ending;
mod error_reason;
pub mod explain_command;
mod explain_words;
mod explained_runs;
mod explainer;
mod fault;
mod file_copies;
mod file_dumps;
mod file_restores;
mod format;
mod grammar;
pub mod in_memory;
mod journal_command;
pub mod number;
mod open_places;
mod opened;
pub mod password_command;
pub mod password_words;
mod place_options;
pub mod place_words;
mod places_bound;
mod printing;
pub mod program;
mod reading;
pub mod refusals;
mod run;
pub mod running;
pub mod runs;
mod script;
pub mod script_note;
mod serve;
pub mod serve_clients;
mod serve_words;
pub mod served_place;
mod server_ends;
mod several_places;
pub mod several_talks;
mod switching;
pub mod texts;
pub mod usage;

pub use copy_fault::CopyRefusal;
pub use fault::CommandFault;
pub use file_copies::copy_file;
pub use file_dumps::dump_file;
pub use file_restores::restore_file;
pub use format::format_file;
pub use opened::CommandEnd;
pub use reading::read_file;
pub use run::{check_file, run_file};
pub use serve::{Limits, serve_file, serve_on};
pub use switching::switch_journal;
