//! `count(*)` over all rows that are found of a table, by their keys.
ghost use Rattle.std.specs.Prelude.{IsTrue, IfOk, Ok, length};
ghost use Rattle.store.specs.StatementError.{ReadsMap};
ghost use Rattle.store.specs.Records.{entries_where};
ghost use Rattle.store.specs.Walks.{count_to};
ghost use Rattle.key_ranges.specs.Spans.{is_in_spans, AreSpansInOrder};
ghost use Rattle.expressions.specs.Rows.{names_of};
ghost use Rattle.table_rows.specs.Costs.{cost_of, walk_cost};
ghost use Rattle.table_rows.specs.Failures.{Answers};
ghost use Rattle.table_rows.specs.Ranged.{records_of};
ghost use Rattle.gathering.specs.Found.{counted};
ghost use Rattle.executor.specs.Known.{CountsFound};

use crate::known_columns::all_pass;
use expressions::eval::Users;
use gathering::collector::count_row;
use gathering::query::{OutputList, Query};
use key_ranges::{KeyRange, KeySpan};
use sql_types::items::Items;
use sql_types::value::Value;
use std::alloc::{AllocError, Global};
use store::{Map, StatementError};
use table_rows::{Target, count_rows_to};

// Whether a query over one table counts all rows that its target finds: neither a policy nor a
// condition leaves one out.
pub(crate) fn counts_found(
    alloc: Global,
    table: &Target<'_>,
    users: &Users<'_>,
    query: &Query,
) -> Result<bool, AllocError>
    ensures { IfOk result (λ all.
        IsTrue all → CountsFound table.now (names_of users.now) query.now) }
{
    match query.list {
        OutputList::Rows(_) => Ok(false),
        OutputList::Count => all_pass(alloc, table, users, query.conditions.as_slice()),
    }
}

// The count of the rows that a target finds, as a query answers it.
pub(crate) fn count_found<M: Map>(
    alloc: Global,
    records: &mut M,
    table: &Target<'_>,
) -> Result<Items<Items<Value>>, StatementError>
    ensures preserved { M.preserved records.old records.new }
    ensures reads { ReadsMap result (M.state records.old) (M.state records.new) }
    ensures cost { (M.state records.old).sound → M.cost records.old records.new
        (cost_of table.now (M.state records.old).map) }
    ensures counted { (M.state records.old).sound → Answers result
        (counted (length (records_of table.now (M.state records.old).map))) }
{
    let count = count_found_to(alloc, records, table, u64::MAX)?;
    match count_row(alloc, count)? {
        Ok(rows) => Ok(rows),
        Err(code) => Err(StatementError::Refused(code)),
    }
}

/// How many rows a target finds, those of its table or of its range, or `most` where they are as many or
/// more: what it takes to tell whether they are fewer than so many. No value is read. The failures are Memory
/// and Device.
pub(crate) fn count_found_to<M: Map>(
    alloc: Global,
    records: &mut M,
    table: &Target<'_>,
    most: u64,
) -> Result<u64, StatementError>
    ensures preserved { M.preserved records.old records.new }
    ensures reads { ReadsMap result (M.state records.old) (M.state records.new) }
    ensures cost { (M.state records.old).sound → M.cost records.old records.new
        (cost_of table.now (M.state records.old).map) }
    ensures counts { (M.state records.old).sound → Answers result
        (Ok (count_to most (records_of table.now (M.state records.old).map))) }
{
    match table.range {
        None => count_rows_to(alloc, records, table.id, most),
        Some(KeyRange::Point(key)) => {
            let found = records.contains(key.as_slice())?;
            Ok(u64::from(found).min(most))
        }
        Some(KeyRange::Span { start, stop }) => {
            let count = records.count_to(start.as_slice(), stop.as_slice(), most)?;
            Ok(count)
        }
        Some(KeyRange::Several(spans)) => count_in_spans_to(records, spans.as_slice(), most),
    }
}

// The same of the records whose keys are in spans. The count ends with the span in which it comes to
// `most`.
fn count_in_spans_to<M: Map>(
    records: &mut M,
    spans: &[KeySpan],
    most: u64,
) -> Result<u64, StatementError>
    requires { AreSpansInOrder spans.now }
    ensures preserved { M.preserved records.old records.new }
    ensures reads { ReadsMap result (M.state records.old) (M.state records.new) }
    ensures cost { (M.state records.old).sound → M.cost records.old records.new
        (walk_cost (length spans.now)
        (entries_where (is_in_spans spans.now) (M.state records.old).map)) }
    ensures counts { (M.state records.old).sound → Answers result
        (Ok (count_to most (entries_where (is_in_spans spans.now) (M.state records.old).map))) }
{
    let mut count: u64 = 0;
    for span in spans {
        if count >= most {
            return Ok(count);
        }
        let more = most - count;
        let found = records.count_to(span.start.as_slice(), span.stop.as_slice(), more)?;
        count = count.saturating_add(found);
    }
    Ok(count)
}
