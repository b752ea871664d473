//! What an answer to a step comes to.

ghost use Rattle.std.specs.Prelude.{◌≡◌};
ghost use Rattle.postgres_talks.specs.Outcomes.{are_known, commit_outcome, description_outcome, discard_outcome, outcome_of, refusal, table_outcome, warning_of};

use crate::fault::TalkFault;
use crate::formats::are_formats_for;
use crate::moment::{Mode, TalkBlock};
use crate::rows::{are_rows_of, are_same_columns};
use postgres_messages::backend::ValueFormat;
use sql_ast::description::{ResultColumn, StatementDescription};
use sql_types::answer::Answer;
use sql_types::items::Items;
use sql_types::state::SqlState;
use sql_types::tag::Tag;
use sql_types::value::Value;
use sql_types::warning::Warning;

/// What an answer to a step comes to.
#[derive(Clone, Copy, PartialEq, Eq)]
pub enum Outcome {
    Done,
    /// A fault is said, and the connection goes on.
    Refused(TalkFault),
    /// A fault is said, and the connection ends.
    Breaks(TalkFault),
}

// What an answer comes to. A block in which an error was said is never committed.
pub(crate) fn outcome_of(block: TalkBlock, answer: &Answer) -> Outcome
    ensures { result ≡ outcome_of block answer.now }
{
    match answer {
        Answer::Rows(_) => Outcome::Done,
        Answer::Done {
            tag: Tag::Commit,
            count: _,
            warning: _,
        } if matches!(block, TalkBlock::Failed) => Outcome::Breaks(TalkFault::Internal),
        Answer::Done {
            tag: _,
            count: _,
            warning: _,
        } => Outcome::Done,
        Answer::Refused(state) => refusal(*state),
    }
}

// Rows are told where they are those of the columns that their client knows; in a batch it may know none.
pub(crate) fn table_outcome(
    mode: Mode,
    columns: &Option<Items<ResultColumn>>,
    rows: &[Items<Value>],
) -> Outcome
    ensures { result ≡ table_outcome mode columns.now rows.now }
{
    match (columns, mode) {
        (Some(columns), _) => {
            if are_rows_of(columns.as_slice(), rows) {
                Outcome::Done
            } else {
                Outcome::Refused(TalkFault::OtherColumns)
            }
        }
        (None, Mode::Query) => Outcome::Refused(TalkFault::OtherColumns),
        (None, _) => Outcome::Done,
    }
}

// What a description comes to, where its client was told these columns, if any: its statement is run if it has them still.
pub(crate) fn description_outcome(
    known: &Option<Items<ResultColumn>>,
    formats: &[ValueFormat],
    description: &StatementDescription,
) -> Outcome
    ensures { result ≡ description_outcome known.now formats.now description.now }
{
    match (known, description) {
        (_, StatementDescription::Refused(state)) => refusal(*state),
        (_, StatementDescription::Rows(columns)) => {
            if !are_known(known, columns.as_slice()) {
                Outcome::Refused(TalkFault::OtherColumns)
            } else if !are_formats_for(formats, columns.len()) {
                Outcome::Refused(TalkFault::OtherFormats)
            } else {
                Outcome::Done
            }
        }
        (None, StatementDescription::NoRows) => Outcome::Done,
        (Some(_), StatementDescription::NoRows) => Outcome::Refused(TalkFault::OtherColumns),
    }
}

fn are_known(known: &Option<Items<ResultColumn>>, columns: &[ResultColumn]) -> bool
    ensures { result ≡ are_known known.now columns.now }
{
    match known {
        None => true,
        Some(known) => are_same_columns(known.as_slice(), columns),
    }
}

// What the answer to the COMMIT of a block of the connection's own comes to: nothing else ends it.
pub(crate) fn commit_outcome(answer: &Answer) -> Outcome
    ensures { result ≡ commit_outcome answer.now }
{
    match answer {
        Answer::Done {
            tag: Tag::Commit,
            count: _,
            warning: _,
        } => Outcome::Done,
        Answer::Refused(state) => refusal(*state),
        _ => Outcome::Breaks(TalkFault::Internal),
    }
}

// What the answer to the RESET ROLE of DISCARD ALL comes to.
pub(crate) fn discard_outcome(answer: &Answer) -> Outcome
    ensures { result ≡ discard_outcome answer.now }
{
    match answer {
        Answer::Done {
            tag: Tag::Reset,
            count: _,
            warning: _,
        } => Outcome::Done,
        Answer::Refused(state) => refusal(*state),
        _ => Outcome::Breaks(TalkFault::Internal),
    }
}

fn refusal(state: SqlState) -> Outcome
    ensures { result ≡ refusal state }
{
    match state {
        SqlState::IoError => Outcome::Breaks(TalkFault::Refused(state)),
        _ => Outcome::Refused(TalkFault::Refused(state)),
    }
}

// What a client is warned of by a statement that is done.
pub(crate) fn warning_of(block: TalkBlock, tag: Tag, warning: Option<Warning>) -> Option<Warning>
    ensures { result ≡ warning_of block tag warning }
{
    match (block, tag) {
        (TalkBlock::Implicit, Tag::Begin) => None,
        (TalkBlock::Implicit, Tag::Commit | Tag::Rollback) => Some(Warning::NoActiveTransaction),
        _ => warning,
    }
}
