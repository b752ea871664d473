//! A walk over the rows of a target: of its table, or of a range of the keys of its table.
ghost use Rattle.std.specs.Prelude.{◌≡◌, OnOk, List, ℕ, false, length, option_to_list};
ghost use Rattle.sql_types.specs.Row.{Row};
ghost use Rattle.store.specs.Records.{entries_where, entry_at};
ghost use Rattle.store.specs.StatementError.{ReadsMap};
ghost use Rattle.key_ranges.specs.Spans.{is_in_spans, AreSpansInOrder};
ghost use Rattle.table_rows.specs.Ranged.{records_of, FindsRows, FindsSpelled};
ghost use Rattle.table_rows.specs.Visits.{IsDoneOnlyIf, VisitsAll};
ghost use Rattle.table_rows.specs.Walked.{Walks, WalksOn};
ghost use Rattle.table_rows.specs.Costs.{cost_of, walk_cost};

use crate::target::Target;
use crate::visit::{Flow, RowVisitor, table_prefix, visit_record, visit_rows};
use key_ranges::{KeyRange, KeySpan};
use sql_ast::columns::Columns;
use std::alloc::Global;
use store::{Entry, EntryRef, Map, StatementError};

/// Visits the rows of a target, in the order of the keys, until the visitor is done: of its table,
/// or of those in its range alone. One key is one look-up, and of a span no record outside it is
/// visited. A failure ends the walk: the refusal of the first row that is refused; Memory; Device;
/// Damaged, where a record that is found spells no row that the table may hold.
pub fn visit_target<M: Map, V: RowVisitor>(
    alloc: Global,
    records: &mut M,
    target: &Target<'_>,
    visitor: &mut V,
) -> Result<(), StatementError>
    ensures preserved { M.preserved records.old records.new }
    ensures reads { ReadsMap result (M.state records.old) (M.state records.new) }
    ensures cost { (M.state records.old).sound → M.cost records.old records.new
        (cost_of target.now (M.state records.old).map) }
    ensures visits { (M.state records.old).sound → (rows : List Row)
        → FindsRows target.now (M.state records.old).map rows
        → VisitsAll result rows (V.after visitor.old target.now.id target.now.columns.now)
        (V.after visitor.new target.now.id target.now.columns.now) }
    ensures walked { (M.state records.old).sound → Walks target.now.id target.now.columns.now
        (records_of target.now (M.state records.old).map)
        (V.after visitor.old target.now.id target.now.columns.now)
        (V.after visitor.new target.now.id target.now.columns.now) result }
    ensures spelled { (M.state records.old).sound → V.ends_early ≡ false
        → OnOk result (FindsSpelled target.now (M.state records.old).map) }
{
    visit_found(alloc, records, target, visitor)?;
    Ok(())
}

// The same, and whether the walk would go on behind the rows of the target.
fn visit_found<M: Map, V: RowVisitor>(
    alloc: Global,
    records: &mut M,
    target: &Target<'_>,
    visitor: &mut V,
) -> Result<Flow, StatementError>
    ensures preserved { M.preserved records.old records.new }
    ensures reads { ReadsMap result (M.state records.old) (M.state records.new) }
    ensures cost { (M.state records.old).sound → M.cost records.old records.new
        (cost_of target.now (M.state records.old).map) }
    ensures walked { (M.state records.old).sound → WalksOn target.now.id target.now.columns.now
        (records_of target.now (M.state records.old).map)
        (V.after visitor.old target.now.id target.now.columns.now)
        (V.after visitor.new target.now.id target.now.columns.now) result }
    ensures ends { IsDoneOnlyIf V.ends_early result }
{
    match target.range {
        None => {
            let prefix = table_prefix(alloc, target.id)?;
            let all = prefix.as_slice();
            visit_rows(records, all, all, target.columns, visitor)
        }
        Some(KeyRange::Point(key)) => {
            visit_key(alloc, records, key.as_slice(), target.columns, visitor)
        }
        Some(KeyRange::Span { start, stop }) => {
            let (start, stop) = (start.as_slice(), stop.as_slice());
            visit_rows(records, start, stop, target.columns, visitor)
        }
        Some(KeyRange::Several(spans)) => {
            visit_spans(records, spans.as_slice(), target.columns, visitor)
        }
    }
}

// Visits the rows whose keys are in spans, one span after the other.
fn visit_spans<M: Map, V: RowVisitor>(
    records: &mut M,
    spans: &[KeySpan],
    columns: &Columns,
    visitor: &mut V,
) -> Result<Flow, StatementError>
    requires { AreSpansInOrder spans.now }
    ensures preserved { M.preserved records.old records.new }
    ensures reads { ReadsMap result (M.state records.old) (M.state records.new) }
    ensures cost { (M.state records.old).sound → M.cost records.old records.new
        (walk_cost (length spans.now)
        (entries_where (is_in_spans spans.now) (M.state records.old).map)) }
    ensures walked { (M.state records.old).sound → (id : ℕ) → WalksOn id columns.now
        (entries_where (is_in_spans spans.now) (M.state records.old).map)
        (V.after visitor.old id columns.now) (V.after visitor.new id columns.now) result }
    ensures ends { IsDoneOnlyIf V.ends_early result }
{
    for span in spans {
        let (start, stop) = (span.start.as_slice(), span.stop.as_slice());
        match visit_rows(records, start, stop, columns, visitor)? {
            Flow::Continue => {}
            Flow::Done => return Ok(Flow::Done),
        }
    }
    Ok(Flow::Continue)
}

/// Visits the row of this key, if there is one, and says whether the walk goes on behind it.
pub(crate) fn visit_key<M: Map, V: RowVisitor>(
    alloc: Global,
    records: &mut M,
    key: &[u8],
    columns: &Columns,
    visitor: &mut V,
) -> Result<Flow, StatementError>
    ensures preserved { M.preserved records.old records.new }
    ensures reads { ReadsMap result (M.state records.old) (M.state records.new) }
    ensures cost { M.cost records.old records.new 1 }
    ensures walked { (M.state records.old).sound → (id : ℕ)
        → WalksOn id columns.now (option_to_list (entry_at key.now (M.state records.old).map))
        (V.after visitor.old id columns.now) (V.after visitor.new id columns.now) result }
    ensures ends { IsDoneOnlyIf V.ends_early result }
{
    let mut entry = Entry::new(alloc);
    if !records.get(key, &mut entry)? {
        return Ok(Flow::Continue);
    }
    let (key, value) = (entry.key(), entry.value());
    visit_record(columns, &EntryRef { key, value }, visitor)
}
