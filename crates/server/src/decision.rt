//! What an event asks of a server, decided before anything is done.

use crate::session::{BlockChange, Session};
use catalogue::effect::Effect;
use sql_types::answer::Answer;

/// What becomes of the open sessions. It takes no memory.
#[derive(Drop)]
pub enum SessionChange {
    Keep,
    /// The session of this number, which is open, is this from now on.
    Put(u64, Session),
    /// The block of the session of this number changes.
    Block(u64, BlockChange),
    /// The session of this number is closed.
    Close(u64),
}

/// What is to be done.
#[derive(Drop)]
pub enum Decision {
    /// The database and the writer lock stay.
    Answer(Answer, SessionChange),
    /// A session of this number is opened.
    Open(Answer, u64, Session),
    /// The writer lock is given up, and its changes with it.
    Release(Answer, SessionChange),
    /// The changes of this effect are committed.
    Commit(Effect),
    /// The session of this number holds the writer lock, and the changes of this effect are added to
    /// it.
    Hold(u64, Effect),
    /// The changes of the writer lock are committed, and it is given up.
    CommitWriter(Answer, SessionChange),
}
