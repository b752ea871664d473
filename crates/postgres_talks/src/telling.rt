//! What is said to what a connection learns.

ghost use Rattle.std.specs.Prelude.{◌∷◌, [], OnOk, map};
ghost use Rattle.postgres_talks.specs.Moments.{answer_said, greeting, headed_said, ran, said_answered, ready_behind, ready_unless_batch, said_closing, said_discarded, said_emptying, said_failed, said_judging, said_opened, said_own, said_refusing, said_resuming, said_rolled_back, said_run, said_standing, said_to_reply, setting_said, table_said, warnings_said};
ghost use Rattle.postgres_talks.specs.Outcomes.{commit_outcome, discard_outcome, outcome_of};
ghost use Rattle.postgres_talks.specs.Rows.{columns_said, rows_said};
ghost use Rattle.postgres_talks.specs.Sayings.{Puts, complete_said};
ghost use Rattle.postgres_talks.specs.Tags.{done_tag};

use crate::blocks::spares;
use crate::fault::TalkFault;
use crate::moment::{Mode, TalkBlock, TalkMoment, TalkStage};
use crate::outcome::{Outcome, commit_outcome, discard_outcome, outcome_of, warning_of};
use crate::portals::{ran, resumed, rows_in};
use crate::rows::{say_columns, say_limited, say_rows};
use crate::said::Said;
use crate::tags::done_tag;
use crate::told::{say_labelled, say_nothing_told, say_row_told, say_settling};
use postgres_messages::backend::BackendMessage;
use postgres_texts::settings::SessionSetting;
use sql_ast::description::ResultColumn;
use sql_types::answer::Answer;
use sql_types::items::Items;
use sql_types::state::SqlState;
use sql_types::tag::Tag;
use sql_types::value::Value;
use sql_types::warning::Warning;
use std::alloc::{AllocError, Global};
use talks::want::{BlockStanding, Reply};

/// The settings that a client is told of at the start.
const TOLD: [SessionSetting; 7] = [
    SessionSetting::ClientEncoding,
    SessionSetting::DateStyle,
    SessionSetting::IntegerDatetimes,
    SessionSetting::ServerEncoding,
    SessionSetting::ServerVersion,
    SessionSetting::StandardConformingStrings,
    SessionSetting::TimeZone,
];

// Says what is to be said to what it learns.
pub(crate) fn say_reply(
    alloc: Global,
    moment: &TalkMoment,
    reply: &Reply,
    said: &mut Said,
) -> Result<(), AllocError>
    ensures { OnOk result (Puts (said_to_reply moment.now reply.now) said.old said.new) }
{
    match reply {
        Reply::Answer(answer) => say_answered(alloc, moment, answer, said),
        Reply::Standing(standing) => say_standing(alloc, moment, *standing, said),
        Reply::Description(description) => say_labelled(alloc, moment, description, said),
        Reply::Verifier(_) => Ok(()),
    }
}

fn say_answered(
    alloc: Global,
    moment: &TalkMoment,
    answer: &Answer,
    said: &mut Said,
) -> Result<(), AllocError>
    ensures { OnOk result (Puts (said_answered moment.now.stage moment.now answer.now) said.old said.new) }
{
    match moment.stage {
        TalkStage::Opening => say_opened(moment.process, answer, said),
        TalkStage::Beginning => say_own(outcome_of(moment.block, answer), said),
        TalkStage::Running => say_run(alloc, moment, answer, said),
        TalkStage::Committing => say_own(commit_outcome(answer), said),
        TalkStage::RollingBack => say_rolled_back(answer, said),
        TalkStage::Discarding => say_discarded(discard_outcome(answer), said),
        _ => Ok(()),
    }
}

// To a step of the connection's own.
pub(crate) fn say_own(outcome: Outcome, said: &mut Said) -> Result<(), AllocError>
    ensures { OnOk result (Puts (said_own outcome) said.old said.new) }
{
    match outcome {
        Outcome::Breaks(fault) => said.put_fatal(fault),
        Outcome::Done | Outcome::Refused(_) => Ok(()),
    }
}

// That all that was prepared is forgotten.
fn say_discarded(outcome: Outcome, said: &mut Said) -> Result<(), AllocError>
    ensures { OnOk result (Puts (said_discarded outcome) said.old said.new) }
{
    match outcome {
        Outcome::Done => said.put(&BackendMessage::CommandComplete("DISCARD ALL")),
        Outcome::Refused(_) => Ok(()),
        Outcome::Breaks(fault) => said.put_fatal(fault),
    }
}

fn say_rolled_back(answer: &Answer, said: &mut Said) -> Result<(), AllocError>
    ensures { OnOk result (Puts (said_rolled_back answer.now) said.old said.new) }
{
    match answer {
        Answer::Refused(state) => said.put_fatal(TalkFault::Refused(*state)),
        _ => Ok(()),
    }
}

fn say_opened(process: u32, answer: &Answer, said: &mut Said) -> Result<(), AllocError>
    ensures { OnOk result (Puts (said_opened process answer.now) said.old said.new) }
{
    match answer {
        Answer::Refused(state) => said.put_fatal(TalkFault::Refused(*state)),
        _ => greet(process, said),
    }
}

// Says that the session is open.
fn greet(process: u32, said: &mut Said) -> Result<(), AllocError>
    ensures { OnOk result (Puts (greeting process) said.old said.new) }
{
    said.put(&BackendMessage::AuthenticationOk)?;
    say_settings(&TOLD, said)?;
    said.put(&BackendMessage::BackendKeyData(process, 0))?;
    said.put_ready(BlockStanding::Outside)?;
    Ok(())
}

fn say_settings(settings: &[SessionSetting], said: &mut Said) -> Result<(), AllocError>
    ensures { OnOk result (Puts (map setting_said settings.now) said.old said.new) }
{
    for setting in settings {
        said.put(&BackendMessage::ParameterStatus(setting.name(), setting.initial_value()))?;
    }
    Ok(())
}

// To a statement of a client.
fn say_run(
    alloc: Global,
    moment: &TalkMoment,
    answer: &Answer,
    said: &mut Said,
) -> Result<(), AllocError>
    ensures { OnOk result (Puts (said_run moment.now answer.now (ran moment.now answer.now)) said.old said.new) }
{
    match ran(moment, answer) {
        Outcome::Done => say_answer(alloc, moment, answer, said),
        Outcome::Refused(_) => Ok(()),
        Outcome::Breaks(fault) => said.put_fatal(fault),
    }
}

fn say_answer(
    alloc: Global,
    moment: &TalkMoment,
    answer: &Answer,
    said: &mut Said,
) -> Result<(), AllocError>
    ensures { OnOk result (Puts (answer_said moment.now answer.now) said.old said.new) }
{
    match answer {
        Answer::Rows(rows) => say_table(alloc, moment, rows.as_slice(), said),
        Answer::Done {
            tag,
            count,
            warning,
        } => {
            say_warning(warning_of(moment.block, *tag, *warning), said)?;
            say_done(alloc, *tag, *count, said)?;
            Ok(())
        }
        Answer::Refused(_) => Ok(()),
    }
}

// Rows follow their columns, but in a batch.
fn say_table(
    alloc: Global,
    moment: &TalkMoment,
    rows: &[Items<Value>],
    said: &mut Said,
) -> Result<(), AllocError>
    ensures { OnOk result (Puts (table_said moment.now.mode moment.now.most moment.now.formats moment.now.columns rows.now) said.old said.new) }
{
    match moment.mode {
        Mode::Query => say_headed(alloc, &moment.columns, rows, said),
        _ => say_limited(alloc, moment.formats.as_slice(), moment.most, rows, said),
    }
}

fn say_headed(
    alloc: Global,
    columns: &Option<Items<ResultColumn>>,
    rows: &[Items<Value>],
    said: &mut Said,
) -> Result<(), AllocError>
    ensures { OnOk result (Puts (headed_said columns.now rows.now) said.old said.new) }
{
    match columns {
        None => Ok(()),
        Some(columns) => say_table_of(alloc, columns.as_slice(), rows, said),
    }
}

fn say_table_of(
    alloc: Global,
    columns: &[ResultColumn],
    rows: &[Items<Value>],
    said: &mut Said,
) -> Result<(), AllocError>
    ensures { OnOk result (Puts (columns_said [] columns.now ∷ rows_said [] rows.now) said.old said.new) }
{
    say_columns(alloc, &[], columns, said)?;
    say_rows(alloc, &[], rows, said)?;
    Ok(())
}

fn say_warning(warning: Option<Warning>, said: &mut Said) -> Result<(), AllocError>
    ensures { OnOk result (Puts (warnings_said warning) said.old said.new) }
{
    match warning {
        Some(warning) => said.put_warning(warning),
        None => Ok(()),
    }
}

fn say_done(alloc: Global, tag: Tag, count: Option<u64>, said: &mut Said) -> Result<(), AllocError>
    ensures { OnOk result (Puts (complete_said (done_tag tag count) ∷ []) said.old said.new) }
{
    let words = done_tag(alloc, tag, count)?;
    said.put(&BackendMessage::CommandComplete(words.as_str()))
}

fn say_standing(
    alloc: Global,
    moment: &TalkMoment,
    standing: Option<BlockStanding>,
    said: &mut Said,
) -> Result<(), AllocError>
    ensures { OnOk result (Puts (said_standing moment.now.stage moment.now standing) said.old said.new) }
{
    match moment.stage {
        TalkStage::Refusing(fault) => say_refusing(moment, fault, standing, said),
        TalkStage::Judging(fault) => say_judging(moment, fault, standing, said),
        TalkStage::Settling(settled) => say_settling(moment, settled, standing, said),
        TalkStage::Emptying => say_emptying(standing, said),
        TalkStage::Resuming => say_resuming(alloc, moment, standing, said),
        TalkStage::TellingRow(kind, settled) => {
            say_row_told(alloc, moment, kind, settled, standing, said)
        }
        TalkStage::TellingNothing(kind) => say_nothing_told(alloc, moment, kind, standing, said),
        TalkStage::Closing => say_closing(standing, said),
        _ => Ok(()),
    }
}

fn say_refusing(
    moment: &TalkMoment,
    fault: TalkFault,
    standing: Option<BlockStanding>,
    said: &mut Said,
) -> Result<(), AllocError>
    ensures { OnOk result (Puts (said_refusing moment.now.block moment.now.mode fault standing) said.old said.new) }
{
    match standing {
        None => said.put_fatal(fault),
        Some(BlockStanding::Inside) if !spares(fault) => Ok(()),
        Some(standing) => say_failed(moment, fault, standing, said),
    }
}

fn say_judging(
    moment: &TalkMoment,
    fault: TalkFault,
    standing: Option<BlockStanding>,
    said: &mut Said,
) -> Result<(), AllocError>
    ensures { OnOk result (Puts (said_judging moment.now.block moment.now.mode fault standing) said.old said.new) }
{
    match standing {
        None | Some(BlockStanding::Inside) => said.put_fatal(fault),
        Some(standing) => say_failed(moment, fault, standing, said),
    }
}

// Says an error. Behind that of a block of the connection's own, its end is to be learnt; behind that of a batch, Sync is waited for.
pub(crate) fn say_failed(
    moment: &TalkMoment,
    fault: TalkFault,
    standing: BlockStanding,
    said: &mut Said,
) -> Result<(), AllocError>
    ensures { OnOk result (Puts (said_failed moment.now.block moment.now.mode fault standing) said.old said.new) }
{
    said.put_error(fault)?;
    ready_behind(moment.block, moment.mode, standing, said)?;
    Ok(())
}

fn ready_behind(
    block: TalkBlock,
    mode: Mode,
    standing: BlockStanding,
    said: &mut Said,
) -> Result<(), AllocError>
    ensures { OnOk result (Puts (ready_behind block mode standing) said.old said.new) }
{
    match block {
        TalkBlock::Implicit => Ok(()),
        _ => ready_unless_batch(mode, standing, said),
    }
}

fn ready_unless_batch(
    mode: Mode,
    standing: BlockStanding,
    said: &mut Said,
) -> Result<(), AllocError>
    ensures { OnOk result (Puts (ready_unless_batch mode standing) said.old said.new) }
{
    match mode {
        Mode::Query => said.put_ready(standing),
        _ => Ok(()),
    }
}

// What is left of the answer to a portal.
fn say_resuming(
    alloc: Global,
    moment: &TalkMoment,
    standing: Option<BlockStanding>,
    said: &mut Said,
) -> Result<(), AllocError>
    ensures { OnOk result (Puts (said_resuming moment.now standing) said.old said.new) }
{
    match resumed(moment, standing) {
        Outcome::Done => say_table(alloc, moment, rows_in(&moment.portal), said),
        Outcome::Refused(_) => Ok(()),
        Outcome::Breaks(fault) => said.put_fatal(fault),
    }
}

fn say_emptying(standing: Option<BlockStanding>, said: &mut Said) -> Result<(), AllocError>
    ensures { OnOk result (Puts (said_emptying standing) said.old said.new) }
{
    match standing {
        None => said.put_fatal(TalkFault::Refused(SqlState::ConnectionDoesNotExist)),
        Some(_) => said.put(&BackendMessage::EmptyQueryResponse),
    }
}

fn say_closing(standing: Option<BlockStanding>, said: &mut Said) -> Result<(), AllocError>
    ensures { OnOk result (Puts (said_closing standing) said.old said.new) }
{
    match standing {
        None => said.put_fatal(TalkFault::Refused(SqlState::ConnectionDoesNotExist)),
        Some(standing) => said.put_ready(standing),
    }
}
