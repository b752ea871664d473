//! What a client that asks what a statement would answer is told.

ghost use Rattle.std.specs.Prelude.{◌≡◌, ◌++◌, ◌∷◌, [], map, IfOk, OnOk, OnErr};
ghost use Rattle.heading_talks.specs.Headings.{heading_answer, heading_row, heading_said, type_name};

use frame_talks::said::say_answer;
use sql_ast::columns::ColumnType;
use sql_ast::description::{ResultColumn, StatementDescription};
use sql_types::answer::Answer;
use sql_types::items::Items;
use sql_types::text::Text;
use sql_types::try_copy::TryCopy;
use sql_types::value::Value;
use std::alloc::{AllocError, Global};
use talks::want::Reply;

/// Puts what is said of a reply behind what was said: the frames of an answer whose rows are the columns. An
/// error says that an allocation failed; nothing was put.
pub fn say_heading(
    alloc: Global,
    session: u32,
    reply: &Reply,
    out: &mut Vec<u8>,
) -> Result<(), AllocError>
    ensures ok { OnOk result (out.new.items ≡ out.old.items ++ heading_said session reply.now) }
    ensures err { OnErr result (out.new.items ≡ out.old.items) }
{
    match reply {
        Reply::Description(description) => {
            let answer = heading_answer(alloc, description)?;
            say_answer(alloc, session, &answer, out)
        }
        Reply::Answer(_) | Reply::Standing(_) | Reply::Verifier(_) => Ok(()),
    }
}

/// The answer to the question what a statement would answer: a row for each column, of its name and its type;
/// none where the statement answers no rows; and the refusal where it would be refused.
pub fn heading_answer(
    alloc: Global,
    description: &StatementDescription,
) -> Result<Answer, AllocError>
    ensures { IfOk result (λ answer. answer ≡ heading_answer description.now) }
{
    match description {
        StatementDescription::Rows(columns) => {
            let rows = heading_rows(alloc, columns.as_slice())?;
            Ok(Answer::Rows(rows))
        }
        StatementDescription::NoRows => Ok(Answer::Rows(Items::new(alloc))),
        StatementDescription::Refused(state) => Ok(Answer::Refused(*state)),
    }
}

// A row for each column.
fn heading_rows(
    alloc: Global,
    mut columns: &[ResultColumn],
) -> Result<Items<Items<Value>>, AllocError>
    ensures { IfOk result (λ rows. rows ≡ map heading_row columns.entry.now) }
{
    let mut rows = Items::new(alloc);
    while let [column, rest @ ..] = columns {
        rows.push(heading_row(alloc, column)?)?;
        columns = rest;
    }
    Ok(rows)
}

// The row of a column: its name and the name of its type.
fn heading_row(alloc: Global, column: &ResultColumn) -> Result<Items<Value>, AllocError>
    ensures { IfOk result (λ row. row ≡ heading_row column.now) }
{
    let name = column.name.try_copy(alloc)?;
    let type_name = Text::from_str(alloc, type_name(column.column_type))?;
    let mut row = Items::new(alloc);
    row.push(Value::Text(name))?;
    row.push(Value::Text(type_name))?;
    Ok(row)
}

// The name of a type, as PostgreSQL has it.
fn type_name(column_type: ColumnType) -> &'static str
    ensures { result.now ≡ type_name column_type }
{
    match column_type {
        ColumnType::BigInt => "int8",
        ColumnType::Text => "text",
        ColumnType::Boolean => "bool",
    }
}
