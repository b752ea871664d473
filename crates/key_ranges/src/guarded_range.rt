//! The range of its keys that the guard of a table and the conditions of a statement leave of it.
ghost use Rattle.std.specs.Prelude.{◌≡◌, None, IfOk, IfSome};
ghost use Rattle.std.specs.List.{list_all};
ghost use Rattle.expressions.specs.Rows.{names_of};
ghost use Rattle.sql_ast.specs.Term.{term_of};
ghost use Rattle.key_ranges.specs.BoxCode.{role_names};
ghost use Rattle.key_ranges.specs.InOrder.{by_start, merged};
ghost use Rattle.key_ranges.specs.TableRanges.{bounds_first, have_one_box, has_one_box, plain_range, range_of_boxes, range_of_spans, range_of_table, ranges_joined, span_of, spans_of_boxes, LosesNoRow};

use crate::boxes::KeyBox;
use crate::guard_boxes::BoundedTable;
use crate::merging::{merged, put_by_start, range_of_spans};
use crate::range::{KeyRange, key_range};
use crate::spans::KeySpan;
use expressions::eval::Users;
use expressions::types::Typed;
use guards::guard::Formula;
use row_codec::push_row_prefix;
use sql_ast::columns::Columns;
use sql_ast::expression::Expression;
use sql_ast::scope::ColumnIndex;
use sql_types::items::Items;
use std::alloc::{AllocError, Global};

/// The range of keys among which a statement looks for the rows of a table of this number in records
/// and of this index in FROM, if these formulas are the guard of its existing rows, and all of these
/// conditions are true. Outside of it the guard and the conditions fail on no row, and no row passes
/// both: whatever the other tables are, and whatever fails on other rows.
///
/// The guard is asked before the conditions, of it the permissive policies before the restrictive
/// ones, and of an AND the left side before the right one. What is asked behind something that may
/// fail bounds nothing, since its refusal has to come. Else a comparison of a column of the key with a
/// literal, CURRENT_USER or SESSION_USER bounds it, by `=`, `<`, `<=`, `>` or `>=`; MEMBER OF a column
/// of the key gives a bound for each role; and of an OR each side has a box of its own. Of two lower
/// bounds the greater counts, of two upper ones the lesser. The range has the spans of all boxes, in
/// their order, and as one where they touch. It is `None` where a box does not bound the first column of
/// the key.
#[tactic(auto, using(crate::proofs::TableRanges::safe_range))]
pub fn table_range(
    alloc: Global,
    id: u32,
    columns: &Columns,
    table: usize,
    formulas: &[Formula<'_>],
    conditions: &[Typed],
    users: &Users<'_>,
) -> Result<Option<KeyRange>, AllocError>
    ensures range { IfOk result (λ range. range ≡ range_of_table id columns.now table
        (names_of users.now) (role_names users.now) formulas.now conditions.now) }
    ensures safe { IfOk result (λ range. IfSome range
        (LosesNoRow id columns.now table (names_of users.now) formulas.now conditions.now)) }
{
    // For the proof: these are columns that a table may have.
    let _key = columns.key();
    let guarded = BoundedTable {
        columns,
        table,
        formulas,
        conditions,
        users,
    };
    let range = guarded.range(alloc, id)?;
    Ok(range)
}

impl<'a> BoundedTable<'a> {
    // The range of its keys that the guard and the conditions leave of a table of this number.
    fn range(&self, alloc: Global, id: u32) -> Result<Option<KeyRange>, AllocError>
        ensures { IfOk result (λ range. range ≡ range_of_table id self.now.columns.now
            self.now.table (names_of self.now.users.now) (role_names self.now.users.now)
            self.now.formulas.now self.now.conditions.now) }
    {
        match self.plain_range(alloc, id)? {
            Some(range) => Ok(Some(range)),
            None => {
                let boxes = self.boxes(alloc)?;
                range_of_boxes(alloc, id, self.columns, boxes.as_slice())
            }
        }
    }

    // The range that the conditions leave by themselves, where there is no guard, and each has one box.
    fn plain_range(&self, alloc: Global, id: u32) -> Result<Option<KeyRange>, AllocError>
        ensures { IfOk result (λ range. range ≡ plain_range id self.now.columns.now self.now.table
            (names_of self.now.users.now) self.now.formulas.now self.now.conditions.now) }
    {
        if self.formulas.is_empty() && have_one_box(self.conditions) {
            key_range(
                alloc,
                id,
                self.columns,
                self.table,
                self.conditions,
                self.users,
            )
        } else {
            Ok(None)
        }
    }
}

// Whether each of these conditions has one box.
fn have_one_box(conditions: &[Typed]) -> bool
    ensures { result ≡ have_one_box conditions.now }
{
    for condition in conditions {
        if !has_one_box(condition.tree()) {
            return false;
        }
    }
    true
}

// Whether a condition has one box, which is found without a list: no OR, and no MEMBER OF.
fn has_one_box(tree: &Expression<ColumnIndex>) -> bool
    ensures { result ≡ has_one_box (term_of tree.now) }
{
    match tree {
        Expression::And(left, right) => has_one_box(left) && has_one_box(right),
        Expression::Or(_, _) => false,
        Expression::MemberOf(_) => false,
        _ => true,
    }
}

// The range with the keys of all boxes, if each bounds the first column of the key; where there is
// none, a key that no row has.
fn range_of_boxes(
    alloc: Global,
    id: u32,
    columns: &Columns,
    boxes: &[KeyBox<'_>],
) -> Result<Option<KeyRange>, AllocError>
    ensures { IfOk result (λ range. range ≡ range_of_boxes id columns.now boxes.now) }
{
    if !bound_first(columns, boxes) {
        return Ok(None);
    }
    match ranges_joined(alloc, id, columns, boxes)? {
        Some(range) => Ok(Some(range)),
        None => {
            let mut prefix = Vec::new(alloc);
            push_row_prefix(&mut prefix, id)?;
            Ok(Some(KeyRange::Point(Items::from_vec(prefix))))
        }
    }
}

// Whether each box bounds the first column of the key.
fn bound_first(columns: &Columns, boxes: &[KeyBox<'_>]) -> bool
    ensures { result ≡ list_all (bounds_first columns.now) boxes.now }
{
    for one in boxes {
        if !one.bounds_first(columns) {
            return false;
        }
    }
    true
}

// The range of boxes: of one its own, of several the spans of all.
fn ranges_joined(
    alloc: Global,
    id: u32,
    columns: &Columns,
    boxes: &[KeyBox<'_>],
) -> Result<Option<KeyRange>, AllocError>
    ensures { IfOk result (λ range. range ≡ ranges_joined id columns.now boxes.now) }
{
    match boxes.split_first() {
        None => Ok(None),
        Some((one, others)) => match others.first() {
            None => {
                let range = one.range(alloc, id, columns)?;
                Ok(Some(range))
            }
            Some(_) => spans_joined(alloc, id, columns, boxes),
        },
    }
}

// The spans of boxes in their order, as one where they touch.
fn spans_joined(
    alloc: Global,
    id: u32,
    columns: &Columns,
    boxes: &[KeyBox<'_>],
) -> Result<Option<KeyRange>, AllocError>
    ensures { IfOk result (λ range. range
        ≡ range_of_spans (merged (by_start (spans_of_boxes id columns.now boxes.now)))) }
{
    let spans = spans_by_start(alloc, id, columns, boxes)?;
    let together = merged(alloc, spans)?;
    range_of_spans(alloc, together)
}

// The spans of boxes, none of which starts before one that stands before it.
fn spans_by_start(
    alloc: Global,
    id: u32,
    columns: &Columns,
    boxes: &[KeyBox<'_>],
) -> Result<Vec<KeySpan>, AllocError>
    ensures { IfOk result (λ spans. spans.items
        ≡ by_start (spans_of_boxes id columns.now boxes.now)) }
{
    match boxes.split_first() {
        None => Ok(Vec::new(alloc)),
        Some((one, others)) => {
            let mut spans = spans_by_start(alloc, id, columns, others)?;
            let range = one.range(alloc, id, columns)?;
            put_by_start(&mut spans, span_of(alloc, range)?)?;
            Ok(spans)
        }
    }
}

// A span with the keys of a range.
fn span_of(alloc: Global, range: KeyRange) -> Result<KeySpan, AllocError>
    ensures { IfOk result (λ span. span ≡ span_of range) }
{
    match range {
        KeyRange::Point(key) => {
            let start = Items::from_vec(Vec::from_slice(alloc, key.as_slice())?);
            Ok(KeySpan { start, stop: key })
        }
        KeyRange::Span { start, stop } => Ok(KeySpan { start, stop }),
        KeyRange::Several(spans) => {
            let start = Items::from_vec(Vec::from_slice(alloc, spans.start())?);
            let stop = Items::from_vec(Vec::from_slice(alloc, spans.stop())?);
            Ok(KeySpan { start, stop })
        }
    }
}
