//! What is said of texts that are answered without the machine, and to Describe.

ghost use Rattle.std.specs.Prelude.{◌≡◌, ◌∷◌, ◌++◌, [], IfOk, None, OnOk, map};
ghost use Rattle.std.specs.Option.{option_copied, option_map};
ghost use Rattle.statement_parameters.specs.Types.{oid_of};
ghost use Rattle.postgres_messages.specs.Backend.{no_data};
ghost use Rattle.postgres_talks.specs.Moments.{head_told, oids_of, oids_told, parameters_said, said_described, said_nothing_told, said_row_told, said_settling, said_told, settled_columns, settled_head, settled_rows, settled_said};
ghost use Rattle.postgres_talks.specs.Formats.{next_format};
ghost use Rattle.postgres_talks.specs.Labels.{labelled_description};
ghost use Rattle.postgres_talks.specs.Outcomes.{description_outcome};
ghost use Rattle.postgres_talks.specs.Rows.{columns_said};
ghost use Rattle.postgres_talks.specs.Sayings.{Puts, message};
ghost use Rattle.postgres_talks.specs.Settled.{labelled_row, settled_row, told_row};

use crate::fault::TalkFault;
use crate::formats::next_format;
use crate::labels::{called, labelled_description};
use crate::moment::{DescribedKind, Mode, TalkMoment, TalkStage};
use crate::outcome::{Outcome, description_outcome};
use crate::parameters::TypedTemplate;
use crate::rows::say_columns;
use crate::said::Said;
use crate::settled::Settled;
use crate::telling::{say_failed, say_own};
use crate::typing::{say_typing, template_in};
use postgres_messages::backend::{BackendMessage, DataType, DescribedColumn, ValueFormat};
use postgres_messages::frontend::FieldBytes;
use sql_ast::description::{ResultColumn, StatementDescription};
use sql_types::name::Name;
use sql_types::state::SqlState;
use statement_parameters::types::ParameterType;
use std::alloc::{AllocError, Global};
use talks::want::BlockStanding;

// Says what is to be said to what a statement would answer, whose columns have these labels.
pub(crate) fn say_labelled(
    alloc: Global,
    moment: &TalkMoment,
    description: &StatementDescription,
    said: &mut Said,
) -> Result<(), AllocError>
    ensures { OnOk result (Puts (said_described moment.now.stage moment.now (labelled_description moment.now.labels description.now)) said.old said.new) }
{
    let labelled = labelled_description(alloc, moment.labels.as_slice(), description)?;
    say_described(alloc, moment, &labelled, said)
}

fn say_described(
    alloc: Global,
    moment: &TalkMoment,
    description: &StatementDescription,
    said: &mut Said,
) -> Result<(), AllocError>
    ensures { OnOk result (Puts (said_described moment.now.stage moment.now description.now) said.old said.new) }
{
    match moment.stage {
        TalkStage::Describing => say_own(
            description_outcome(&moment.columns, moment.formats.as_slice(), description),
            said,
        ),
        TalkStage::Telling(kind) => say_told(alloc, moment, kind, description, said),
        TalkStage::Typing(at, candidate) => say_typing(moment, at, candidate, description, said),
        _ => Ok(()),
    }
}

// To Describe.
fn say_told(
    alloc: Global,
    moment: &TalkMoment,
    kind: DescribedKind,
    description: &StatementDescription,
    said: &mut Said,
) -> Result<(), AllocError>
    ensures { OnOk result (Puts (said_told kind (oids_told moment.now) moment.now.formats description.now (description_outcome None moment.now.formats description.now)) said.old said.new) }
{
    match description_outcome(&None, moment.formats.as_slice(), description) {
        Outcome::Done => say_head(alloc, moment, kind, description, said),
        outcome => say_own(outcome, said),
    }
}

fn say_head(
    alloc: Global,
    moment: &TalkMoment,
    kind: DescribedKind,
    description: &StatementDescription,
    said: &mut Said,
) -> Result<(), AllocError>
    ensures { OnOk result (Puts (head_told kind (oids_told moment.now) moment.now.formats description.now) said.old said.new) }
{
    match description {
        StatementDescription::Rows(columns) => say_columns_of(
            alloc,
            moment,
            kind,
            columns.as_slice(),
            said,
        ),
        _ => say_no_data(alloc, moment, kind, said),
    }
}

fn say_columns_of(
    alloc: Global,
    moment: &TalkMoment,
    kind: DescribedKind,
    columns: &[ResultColumn],
    said: &mut Said,
) -> Result<(), AllocError>
    ensures { OnOk result (Puts (parameters_said kind (oids_told moment.now) ++ columns_said moment.now.formats columns.now ∷ []) said.old said.new) }
{
    say_parameters(alloc, moment, kind, said)?;
    say_columns(alloc, moment.formats.as_slice(), columns, said)?;
    Ok(())
}

fn say_no_data(
    alloc: Global,
    moment: &TalkMoment,
    kind: DescribedKind,
    said: &mut Said,
) -> Result<(), AllocError>
    ensures { OnOk result (Puts (parameters_said kind (oids_told moment.now) ++ message no_data ∷ []) said.old said.new) }
{
    say_parameters(alloc, moment, kind, said)?;
    said.put(&BackendMessage::NoData)?;
    Ok(())
}

// The types of the parameters of a statement that is described.
fn say_parameters(
    alloc: Global,
    moment: &TalkMoment,
    kind: DescribedKind,
    said: &mut Said,
) -> Result<(), AllocError>
    ensures { OnOk result (Puts (parameters_said kind (oids_told moment.now)) said.old said.new) }
{
    match kind {
        DescribedKind::Statement => {
            let found = template_in(moment.statements.find(moment.name.as_str()));
            let oids = oids_of(alloc, found)?;
            said.put(&BackendMessage::ParameterDescription(&oids))
        }
        DescribedKind::Portal => Ok(()),
    }
}

// The numbers of the types of a statement's parameters.
fn oids_of(alloc: Global, found: Option<&TypedTemplate>) -> Result<Vec<u32>, AllocError>
    ensures { IfOk result (λ oids. oids.items ≡ oids_of (option_copied found.entry)) }
{
    let mut oids = Vec::new(alloc);
    if let Some(typed) = found {
        push_oids(typed.types.as_slice(), &mut oids)?;
    }
    Ok(oids)
}

fn push_oids(types: &[ParameterType], oids: &mut Vec<u32>) -> Result<(), AllocError>
    ensures { OnOk result (oids.new.items ≡ oids.old.items ++ map oid_of types.now) }
{
    for declared in types {
        oids.push(declared.oid())?;
    }
    Ok(())
}

// To Describe of what needs no machine: in a block that has failed it tells no columns.
pub(crate) fn say_row_told(
    alloc: Global,
    moment: &TalkMoment,
    kind: DescribedKind,
    settled: Settled,
    standing: Option<BlockStanding>,
    said: &mut Said,
) -> Result<(), AllocError>
    ensures { OnOk result (Puts (said_row_told kind (oids_told moment.now) moment.now.block moment.now.mode (next_format moment.now.formats) (told_row moment.now.labels settled) standing) said.old said.new) }
{
    match standing {
        None => said.put_fatal(TalkFault::Refused(SqlState::ConnectionDoesNotExist)),
        Some(BlockStanding::Failed) => say_failed(
            moment,
            TalkFault::Refused(SqlState::InFailedTransaction),
            BlockStanding::Failed,
            said,
        ),
        Some(_) => {
            let format = next_format(moment.formats.as_slice());
            say_head_of(alloc, moment, kind, format, settled, said)
        }
    }
}

fn say_head_of(
    alloc: Global,
    moment: &TalkMoment,
    kind: DescribedKind,
    format: ValueFormat,
    settled: Settled,
    said: &mut Said,
) -> Result<(), AllocError>
    ensures { OnOk result (Puts (parameters_said kind (oids_told moment.now) ++ settled_head format (told_row moment.now.labels settled)) said.old said.new) }
{
    say_parameters(alloc, moment, kind, said)?;
    say_settled_head(format, told_row(moment.labels.as_slice(), settled), said)?;
    Ok(())
}

pub(crate) fn say_nothing_told(
    alloc: Global,
    moment: &TalkMoment,
    kind: DescribedKind,
    standing: Option<BlockStanding>,
    said: &mut Said,
) -> Result<(), AllocError>
    ensures { OnOk result (Puts (said_nothing_told kind (oids_told moment.now) standing) said.old said.new) }
{
    match standing {
        None => said.put_fatal(TalkFault::Refused(SqlState::ConnectionDoesNotExist)),
        Some(_) => say_no_data(alloc, moment, kind, said),
    }
}

// Says what is to be said of a text that is answered without the machine.
pub(crate) fn say_settling(
    moment: &TalkMoment,
    settled: Settled,
    standing: Option<BlockStanding>,
    said: &mut Said,
) -> Result<(), AllocError>
    ensures { OnOk result (Puts (said_settling moment.now.block moment.now.mode moment.now.labels settled standing) said.old said.new) }
{
    match standing {
        None => said.put_fatal(TalkFault::Refused(SqlState::ConnectionDoesNotExist)),
        Some(BlockStanding::Failed) => say_failed(
            moment,
            TalkFault::Refused(SqlState::InFailedTransaction),
            BlockStanding::Failed,
            said,
        ),
        Some(_) => say_settled(moment, settled, said),
    }
}

// The row of a text that is answered without the machine, as its client is told it.
fn told_row<'a>(labels: &'a [Option<Name>], settled: Settled) -> Option<(&'a str, &'a str)>
    ensures { option_map (λ r. (r.0.now, r.1.now)) result ≡ told_row labels.now settled }
{
    match settled.row() {
        Some((name, value)) => Some((called(labels, name), value)),
        None => None,
    }
}

fn say_settled(moment: &TalkMoment, settled: Settled, said: &mut Said) -> Result<(), AllocError>
    ensures { OnOk result (Puts (settled_said moment.now.mode moment.now.labels settled) said.old said.new) }
{
    let row = told_row(moment.labels.as_slice(), settled);
    say_settled_columns(moment.mode, row, said)?;
    say_settled_rows(row, said)?;
    said.put(&BackendMessage::CommandComplete(settled.tag()))?;
    Ok(())
}

fn say_settled_columns(
    mode: Mode,
    row: Option<(&str, &str)>,
    said: &mut Said,
) -> Result<(), AllocError>
    ensures { OnOk result (Puts (settled_columns mode (option_map (λ r. (r.0.now, r.1.now)) row.entry)) said.old said.new) }
{
    match mode {
        Mode::Query => say_settled_head(ValueFormat::Text, row, said),
        _ => Ok(()),
    }
}

fn say_settled_head(
    format: ValueFormat,
    row: Option<(&str, &str)>,
    said: &mut Said,
) -> Result<(), AllocError>
    ensures { OnOk result (Puts (settled_head format (option_map (λ r. (r.0.now, r.1.now)) row.entry)) said.old said.new) }
{
    match row {
        Some((name, _)) => said.put(&BackendMessage::RowDescription(&[DescribedColumn {
            name,
            data_type: DataType::Text,
            format,
        }])),
        None => Ok(()),
    }
}

fn say_settled_rows(row: Option<(&str, &str)>, said: &mut Said) -> Result<(), AllocError>
    ensures { OnOk result (Puts (settled_rows (option_map (λ r. (r.0.now, r.1.now)) row.entry)) said.old said.new) }
{
    match row {
        Some((_, value)) => said.put(&BackendMessage::DataRow(&[FieldBytes::Bytes(
            value.as_bytes(),
        )])),
        None => Ok(()),
    }
}
