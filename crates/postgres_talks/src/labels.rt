//! Columns that are called by their labels.

ghost use Rattle.std.specs.Prelude.{◌≡◌, IfOk};
ghost use Rattle.postgres_talks.specs.Labels.{called, labelled_column, labelled_description, next_label, other_labels, with_labels};

use sql_ast::description::{ResultColumn, StatementDescription};
use sql_types::items::Items;
use sql_types::name::Name;
use sql_types::text::Text;
use sql_types::try_copy::TryCopy;
use std::alloc::{AllocError, Global};

// What a statement would answer whose columns have these labels.
pub(crate) fn labelled_description(
    alloc: Global,
    labels: &[Option<Name>],
    description: &StatementDescription,
) -> Result<StatementDescription, AllocError>
    ensures { IfOk result (λ labelled. labelled ≡ labelled_description labels.now description.now) }
{
    match description {
        StatementDescription::Rows(columns) => {
            let columns = with_labels(alloc, labels, columns.as_slice())?;
            Ok(StatementDescription::Rows(columns))
        }
        StatementDescription::NoRows => Ok(StatementDescription::NoRows),
        StatementDescription::Refused(state) => Ok(StatementDescription::Refused(*state)),
    }
}

fn with_labels(
    alloc: Global,
    mut labels: &[Option<Name>],
    mut columns: &[ResultColumn],
) -> Result<Items<ResultColumn>, AllocError>
    ensures { IfOk result (λ labelled. labelled ≡ with_labels labels.entry.now columns.entry.now) }
{
    let mut labelled = Items::new(alloc);
    while let [column, rest @ ..] = columns {
        labelled.push(next_column(alloc, labels, column)?)?;
        labels = other_labels(labels);
        columns = rest;
    }
    Ok(labelled)
}

// The next column, called by its label, if it has one.
fn next_column(
    alloc: Global,
    labels: &[Option<Name>],
    column: &ResultColumn,
) -> Result<ResultColumn, AllocError>
    ensures { IfOk result (λ labelled. labelled ≡ labelled_column (next_label labels.now) column.now) }
{
    let name = match labels {
        [Some(label), ..] => Text::from_str(alloc, label.as_str())?,
        _ => column.name.try_copy(alloc)?,
    };
    Ok(ResultColumn {
        name,
        column_type: column.column_type,
    })
}

// What a column of this name is called, of which these are the label and those behind it.
pub(crate) fn called<'a>(labels: &'a [Option<Name>], name: &'a str) -> &'a str
    ensures { result.now ≡ called (next_label labels.now) name.now }
{
    match labels {
        [Some(label), ..] => label.as_str(),
        _ => name,
    }
}

// The labels of the columns behind it.
fn other_labels(labels: &[Option<Name>]) -> &[Option<Name>]
    ensures { result.now ≡ other_labels labels.now }
{
    match labels {
        [_, rest @ ..] => rest,
        [] => labels,
    }
}
