//! What is to be done once a statement is carried out.

ghost use Rattle.std.specs.Prelude.{◌≡◌, Ok};
ghost use Rattle.sessions.specs.Concluded.{Concludes};

use crate::admission::changes_database;
use catalogue::effect::Effect;
use server::decision::{Decision, SessionChange};
use server::session::{Block, Session};
use sql_ast::statement::DatabaseStatement;
use sql_types::answer::Answer;

/// What is to be done once a statement over the database, with which a session of this number was
/// admitted, came to an effect over what the session sees: what it changes is committed outside a
/// block, and inside it is added to what the session changed before; a statement that changes nothing
/// is only answered.
pub fn decision_for(
    number: u64,
    session: &Session,
    statement: &DatabaseStatement,
    effect: Effect,
) -> Decision
    ensures { Concludes number session.now statement.now (Ok effect) result }
{
    if !changes_database(statement) {
        return Decision::Answer(answer_of(effect), SessionChange::Keep);
    }
    match &session.block {
        Block::Outside => Decision::Commit(effect),
        Block::Inside(_) => Decision::Hold(number, effect),
        Block::Failed(_) => Decision::Answer(answer_of(effect), SessionChange::Keep),
    }
}

// The answer alone, where nothing is changed.
fn answer_of(effect: Effect) -> Answer
    ensures { result ≡ effect.answer }
{
    effect.answer
}
