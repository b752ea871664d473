//! What goes over the wire: the frames that clients send, and the text of answers.
//! Scripts, run over a server of sessions: lines of text, each of which requests an event of a
//! session that it names.
//! Connections: events that come in frames, answered in frames by a server of sessions.
#![tactic(auto)]

pub mod answering;
pub mod answers;
pub mod connection;
pub mod frame_buffer;
pub mod frame_sink;
pub mod frame_view;
pub mod frames;
pub mod input;
pub mod laws;
pub mod listen;
pub mod listener;
pub mod output;
pub mod recorder;
pub mod script_line;
pub mod script_run;
mod session_numbers;
pub mod sink;
pub mod system_listener;
pub mod telling;
pub mod text_sink;
mod text_writer;
