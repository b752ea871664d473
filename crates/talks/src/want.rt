//! What a conversation wants next, and what it is told of that.

use sql_ast::description::StatementDescription;
use sql_types::answer::Answer;
use sql_types::event::Event;
use sql_types::name::Name;
use sql_types::state::SqlState;
use sql_types::text::Text;

/// Who may open a session at a place that clients come to.
#[derive(Drop)]
pub enum Way {
    /// Anyone, for any role.
    Anyone,
    /// Anyone, for this role alone.
    Only(Name),
    /// Whom the table of passwords admits, at the place of this number.
    ByTable(u8),
}

/// How a session is asked for.
#[derive(Drop)]
pub struct SessionEntry {
    pub way: Way,
    /// Whether the place admits no superuser.
    pub no_superuser: bool,
    /// What this conversation has shown for the role.
    pub shown: Option<Text>,
}

/// What a conversation wants next. Sessions are numbered as its client numbers them.
#[derive(Drop)]
pub enum Want {
    /// A message of its client.
    Message,
    /// A step on an event, which opens no session.
    Event(Event),
    /// A session of this number, for the role that is named so, letter for letter.
    Open {
        session: u32,
        login: Text,
        entry: SessionEntry,
    },
    /// How the block of a session stands.
    Standing {
        session: u32,
    },
    /// What the statement of this text would answer in a session, as far as that depends on no row.
    Description {
        session: u32,
        text: Text,
    },
    /// The verifier that the table of this name keeps for a role, which is named letter for letter.
    Verifier {
        table: Name,
        role: Text,
    },
    /// The end of its connection, once all that was said has gone out; `late`: a second after that
    /// was said.
    End {
        late: bool,
    },
    /// The end of its connection, since an allocation failed.
    OutOfMemory,
}

/// How the block of a session stands.
#[derive(Clone, Copy, PartialEq, Eq)]
pub enum BlockStanding {
    /// None is open.
    Outside,
    /// One is open.
    Inside,
    /// One is open, and has failed.
    Failed,
}

/// What a conversation is told of what it wanted.
#[derive(Drop)]
pub enum Reply {
    /// The answer to an event, or to the opening of a session.
    Answer(Answer),
    /// How the block of a session stands, which is open, or `None`.
    Standing(Option<BlockStanding>),
    /// What a statement would answer.
    Description(StatementDescription),
    /// The text of a verifier, or `None` where none is kept; or why it could not be looked up.
    Verifier(Result<Option<Text>, SqlState>),
}
