//! Answers of one word, and refusals.

ghost use Rattle.std.specs.Prelude.{◌≡◌, Option, None, Some};
ghost use Rattle.abstract_database.specs.Machine.{refused};
ghost use Rattle.sessions.specs.Decisions.{Serves, Always, Never};
ghost use Rattle.server.specs.declared.writer.Writer.{Writer as TheWriter};

use server::decision::{Decision, SessionChange};
use server::session::{Block, BlockChange, Session};
use sql_types::answer::Answer;
use sql_types::state::SqlState;
use sql_types::tag::Tag;
use sql_types::warning::Warning;

// The answer to what succeeded.
pub(crate) fn done(tag: Tag) -> Answer
    ensures { result ≡ Answer.Done tag None None }
{
    Answer::Done {
        tag,
        count: None,
        warning: None,
    }
}

// The answer to what succeeded with a warning.
pub(crate) fn warned(tag: Tag, warning: Warning) -> Answer
    ensures { result ≡ Answer.Done tag None (Some warning) }
{
    Answer::Done {
        tag,
        count: None,
        warning: Some(warning),
    }
}

/// A statement of a session is refused by a code, which makes an open block failed.
pub fn refuse(number: u64, session: &Session, state: SqlState) -> Decision
    ensures { (writer : Option TheWriter) → Serves writer number session.now Always Never
        (λ m. refused m number session.now state) result }
{
    let answer = Answer::Refused(state);
    match &session.block {
        Block::Outside | Block::Failed(_) => Decision::Answer(answer, SessionChange::Keep),
        Block::Inside(_) => Decision::Answer(
            answer,
            SessionChange::Block(number, BlockChange::Fail),
        ),
    }
}
