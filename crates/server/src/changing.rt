//! Changes of the open sessions.

ghost use Rattle.std.specs.Prelude.{◌≡◌};
ghost use Rattle.server.specs.Session.{with_block_changed};
ghost use Rattle.server.specs.Decisions.{Concerns, after_change};

use crate::decision::SessionChange;
use crate::session::{BlockChange, Session};
use indexmap::IndexMap;

/// Changes one session, which takes no memory.
pub(crate) fn change_sessions(sessions: &mut IndexMap<u64, Session>, change: SessionChange)
    ensures { Concerns change sessions.old.entries
        → sessions.new.entries ≡ after_change change sessions.old.entries }
{
    match change {
        SessionChange::Keep => {}
        SessionChange::Put(number, session) => match sessions.insert(number, session) {
            Ok(_) => {}
            Err(_) => {}
        },
        SessionChange::Block(number, change) => change_block(sessions, number, change),
        SessionChange::Close(number) => {
            sessions.shift_remove(&number);
        }
    }
}

// Changes the block of a session, if it is open.
fn change_block(sessions: &mut IndexMap<u64, Session>, number: u64, change: BlockChange)
    ensures { sessions.new.entries ≡ with_block_changed change number sessions.old.entries }
{
    let Some(index) = sessions.get_index_of(&number) else {
        return;
    };
    sessions[index].change_block(change);
}
