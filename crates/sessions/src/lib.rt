//! What every event of a session asks of a server: sessions are opened and closed, texts are read,
//! and statements are admitted and carried out over what their session sees.
#![tactic(auto)]

mod admission;
mod answers;
mod blocks;
mod decisions;
mod handler;
mod kept_text;
mod laws;
mod opening;
mod reading;
mod readings;
mod roles;
mod seeing;
mod statements;
mod texts;
mod two_servers;

pub use handler::SessionHandler;
pub use laws::{locked_out_events_are_refused, one_reading};
pub use reading::read_text;
pub use two_servers::servers_tell_tenants_what_they_see;
