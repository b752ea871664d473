//! What a conversation makes of a client's bytes.

ghost use Rattle.std.specs.Prelude.{◌≡◌, ◌⊎◌, ℕ, false, true, List, [], ◌∷◌, ◌++◌, filter, length, map, All, IsSome, Ok, Option, None, Some};
ghost use Rattle.sql_ast.specs.declared.description.ResultColumn.{ResultColumn as TheResultColumn};
ghost use Rattle.sql_types.specs.declared.answer.Answer.{Answer as TheAnswer};
ghost use Rattle.sql_types.specs.declared.value.Value.{Value as TheValue};
ghost use Rattle.statement_parameters.specs.declared.template.LabelledTemplate.{LabelledTemplate as TheTemplate};
ghost use Rattle.statement_parameters.specs.declared.types.ParameterType.{ParameterType as TheType};
ghost use Rattle.statement_parameters.specs.Readings.{IsTemplateReading};
ghost use Rattle.talks.specs.Wants.{Learnt};
ghost use Rattle.talks.specs.Conversations.{Heard};
ghost use Rattle.talks.specs.declared.want.BlockStanding.{BlockStanding as TheStanding};
ghost use Rattle.talks.specs.declared.want.Reply.{Reply as TheReply};
ghost use Rattle.talks.specs.declared.want.Want.{Want as TheWant};
ghost use Rattle.postgres_talks.specs.declared.moment.Mode.{Mode as TheMode};
ghost use Rattle.postgres_talks.specs.declared.moment.TalkBlock.{TalkBlock as TheBlock};
ghost use Rattle.postgres_talks.specs.declared.moment.TalkMoment.{TalkMoment as TheMoment};
ghost use Rattle.postgres_talks.specs.declared.moment.TalkStage.{TalkStage as TheStage};
ghost use Rattle.postgres_messages.specs.declared.backend.ValueFormat.{ValueFormat as TheFormat};
ghost use Rattle.postgres_talks.specs.declared.named_pieces.NamedPiece.{NamedPiece as ThePortal};
ghost use Rattle.postgres_talks.specs.declared.outcome.Outcome.{Outcome as TheOutcome};
ghost use Rattle.postgres_talks.specs.declared.postgres_talk.PostgresTalk.{PostgresTalk as TheTalk};
ghost use Rattle.postgres_talks.specs.declared.piece.StatementPiece.{StatementPiece as ThePiece};
ghost use Rattle.postgres_talks.specs.declared.requests.Request.{Request as TheRequest};
ghost use Rattle.postgres_talks.specs.Blocks.{IsOfAnswer, IsPassedOver, outside, seen_all};
ghost use Rattle.postgres_talks.specs.Fitting.{RowsFit};
ghost use Rattle.postgres_talks.specs.Fetches.{ArePieces, fetches, is_row, left_behind, pieces_said};
ghost use Rattle.postgres_talks.specs.Labels.{with_labels};
ghost use Rattle.postgres_talks.specs.Named.{find};
ghost use Rattle.postgres_talks.specs.Outcomes.{table_outcome};
ghost use Rattle.postgres_talks.specs.Parameters.{IsBoundByValues};
ghost use Rattle.postgres_talks.specs.Portals.{holds};
ghost use Rattle.postgres_talks.specs.Statements.{IsWrittenStatement};
ghost use Rattle.postgres_talks.specs.Units.{IsCommitAnswer, RollsBack, SaysError};
ghost use Rattle.postgres_talks.specs.Moments.{after_reply, ends, first_moment, ran, said_to_reply};
ghost use Rattle.postgres_talks.specs.Played.{Input, PlayedOrGaveUp, TakesIn, after_input, said_in, said_to_input, told};
ghost use Rattle.postgres_talks.specs.Rows.{described_columns, is_row_of, row_said};
ghost use Rattle.postgres_talks.specs.Requests.{after_request, said_to_request};

use crate::postgres_talk::PostgresTalk;
use statement_parameters::laws::labels_and_values_add_no_token;
use talks::talk::Talk;

/// What a conversation says to some bytes and to what it learns, in whatever pieces they come: what its definition says to one after
/// the other, in whole messages. Where memory is refused it has done so up to there.
pub fn conversation()
    ensures { (t u : TheTalk) (bytes said rest : List ℕ) (xs : List Learnt)
        → Heard ⟦<PostgresTalk as Talk>⟧ t bytes xs said rest u
        → PlayedOrGaveUp t.moment bytes xs said rest u.moment }
{}

/// Nothing is taken in behind a bad message, and nothing is said.
pub fn bad_messages_end()
    ensures { (m : TheMoment) (bytes rest : List ℕ) (xs : List Learnt) (inputs : List Input)
        → TakesIn (ends m) bytes xs rest inputs → inputs ≡ [] }
{}

/// No COMMIT is said of a block in which an error was said, whatever the machine answers.
pub fn no_commit_follows_an_error()
    ensures { (process : ℕ) (inputs : List Input) → IsSome (seen_all outside (said_in (first_moment process) inputs)) }
{}

/// A block of the connection's own is carried out whole or not at all. An error that is said in it is followed by the event ROLLBACK,
/// with nothing left of its statements; the answer to that ends the block or the connection. It is told to be closed
/// only where its COMMIT was answered so.
pub fn units_are_whole()
    ensures fails { (m : TheMoment) (i : Input) → m.block ≡ TheBlock.Implicit → SaysError (said_to_input m i) → RollsBack (after_input m i) }
    ensures rolls_back { (m : TheMoment) (a : TheAnswer) → m.stage ≡ TheStage.RollingBack → m.block ≡ TheBlock.Implicit
        → ((after_reply m (TheReply.Answer a)).block ≡ TheBlock.Outside) ⊎ ((after_reply m (TheReply.Answer a)).want ≡ TheWant.End false) }
    ensures commits { (m : TheMoment) (a : TheAnswer) → m.stage ≡ TheStage.Committing
        → (after_reply m (TheReply.Answer a)).stage ≡ TheStage.Closing → IsCommitAnswer a }
{}

/// To a message no part of an answer is said: it comes with what is learnt.
pub fn answers_follow_their_events()
    ensures { (asked : TheRequest) (m : TheMoment) → All (λ s. IsOfAnswer s → ⊥) (said_to_request asked m) }
{}

/// Behind an error in a batch a message is passed over, up to Sync: nothing is said to it, and it changes nothing.
pub fn batches_stop_at_an_error()
    ensures { (m : TheMoment) (asked : TheRequest) → m.mode ≡ TheMode.Skipping → IsPassedOver asked
        → (said_to_request asked m ≡ []) × (after_request asked m ≡ m) }
{}

/// In a simple query each row follows its columns: it has as many values, each null or of its column's type. In a batch it is one of
/// the columns that its client was told, if it was told some.
pub fn rows_fit_their_columns()
    ensures queries { (m : TheMoment) (i : Input) → m.mode ≡ TheMode.Query → RowsFit None (said_to_input m i) }
    ensures batches { (m : TheMoment) (columns : List TheResultColumn) (a : TheAnswer) → m.mode ≡ TheMode.Batch → m.stage ≡ TheStage.Running
        → m.columns ≡ Some columns → RowsFit (Some (described_columns m.formats columns)) (said_to_reply m (TheReply.Answer a)) }
    ensures portals { (m : TheMoment) (columns : List TheResultColumn) (s : Option TheStanding) → m.mode ≡ TheMode.Batch → m.stage ≡ TheStage.Resuming
        → m.columns ≡ Some columns → RowsFit (Some (described_columns m.formats columns)) (said_to_reply m (TheReply.Standing s)) }
{}

/// Labels rename columns and do nothing else: they neither add nor drop one, and the rows that fit are those that fitted before. Without
/// labels nothing changes.
pub fn labels_rename_columns()
    ensures as_many { (labels : List (Option (List ℕ))) (columns : List TheResultColumn) → length (with_labels labels columns) ≡ length columns }
    ensures same_rows { (labels : List (Option (List ℕ))) (columns : List TheResultColumn) (row : List TheValue)
        → is_row_of (with_labels labels columns) row ≡ is_row_of columns row }
    ensures none { (columns : List TheResultColumn) → with_labels [] columns ≡ columns }
{}

/// What Bind makes of a text with parameters is the one statement whose tokens are those of the written text, less the labels of its columns,
/// each parameter replaced by the tokens of one literal, and no others; and its columns have those labels.
pub fn bound_statements_are_written()
    ensures { (text : List ℕ) (read : TheTemplate) (types : List TheType) (values : List TheValue) (piece : ThePiece) → IsTemplateReading text (Ok read)
        → IsBoundByValues (record { template = read.template; labels = read.labels; types = types }) (Ok values) (Ok piece)
        → IsWrittenStatement text read.labels values piece }
{
    // For the proof: a text with values has the tokens of the written one, less its labels.
    labels_and_values_add_no_token();
}

/// A portal whose rows are asked for in pieces, in a block that is open, tells each row of its answer once, in order. Each piece has as
/// many rows as were asked for, and behind them stands that others may follow; the last has those that are left, and a tag that counts
/// them. It is run once: an Execute of what is left wants no event, but how the block stands.
pub fn portals_tell_each_row_once()
    ensures pieces { (m : TheMoment) (n : ThePortal) (rows : List (List TheValue)) (limits : List ℕ) → m.stage ≡ TheStage.Running → m.mode ≡ TheMode.Batch
        → m.left ≡ [] → m.portal ≡ Some n → n.formats ≡ m.formats → holds m.block ≡ true → ran m (TheAnswer.Rows rows) ≡ TheOutcome.Done
        → table_outcome TheMode.Batch n.columns rows ≡ TheOutcome.Done → ArePieces rows (m.most ∷ limits)
        → said_in m (told (TheReply.Answer (TheAnswer.Rows rows)) ∷ fetches n.name limits) ≡ pieces_said m.formats rows (m.most ∷ limits) }
    ensures joined { (formats : List TheFormat) (rows : List (List TheValue)) (limits : List ℕ) → ArePieces rows limits
        → filter is_row (pieces_said formats rows limits) ++ map (row_said formats) (left_behind rows limits) ≡ map (row_said formats) rows }
    ensures runs_once { (m : TheMoment) (n : ThePortal) (name : List ℕ) (rows : List (List TheValue)) (limit : ℕ) → find name m.portals ≡ Some n
        → n.rest ≡ Some rows → (m.mode ≡ TheMode.Skipping) ⊎ ((after_request (TheRequest.Execute name limit) m).want ≡ TheWant.Standing 1) }
{}
