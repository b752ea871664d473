//! The ranges of keys of boxes.
ghost use Rattle.std.specs.Prelude.{◌≡◌, IfOk};
ghost use Rattle.std.specs.Option.{option_map};
ghost use Rattle.sql_types.specs.Value.{owned};
ghost use Rattle.key_ranges.specs.Bounds.{is_key_value};
ghost use Rattle.key_ranges.specs.BoxCode.{bound_of, box_of};
ghost use Rattle.key_ranges.specs.Ranges.{is_bounded, range_after, span_after};
ghost use Rattle.key_ranges.specs.TableRanges.{bounds_first, bounds_of_box, is_tighter, range_of_box, sets, tighter};

use crate::bounds::{BoundKind, has_zero};
use crate::boxes::{ColumnBound, KeyBox};
use crate::range::{KeyRange, push_cell};
use crate::voids::same_kind;
use row_codec::{push_key_cell, push_row_prefix};
use sql_ast::columns::Columns;
use sql_types::items::Items;
use sql_types::value::{ValueRef, compare};
use std::alloc::{AllocError, Global};
use std::cmp::Ordering;

impl<'a> KeyBox<'a> {
    // The tightest bound of this kind that the box sets to a column, of values that a key may hold.
    fn bound(&self, kind: BoundKind, column: usize) -> Option<ValueRef<'a>>
        ensures { option_map owned result ≡ bounds_of_box self.now kind column }
    {
        tightest_bound(self.bounds(), kind, column)
    }

    // Whether the box bounds a column.
    fn is_bounded(&self, column: usize) -> bool
        ensures { result ≡ is_bounded (bounds_of_box self.now) column }
    {
        self.bound(BoundKind::Equal, column).is_some()
            || self.bound(BoundKind::Lower, column).is_some()
            || self.bound(BoundKind::Upper, column).is_some()
    }

    /// Whether the box bounds the first column of the key.
    pub(crate) fn bounds_first(&self, columns: &Columns) -> bool
        ensures { result ≡ bounds_first columns.now self.now }
    {
        match columns.key().first() {
            Some(column) => self.is_bounded(*column),
            None => false,
        }
    }

    /// The range of keys of the rows of a table that are in the box.
    pub(crate) fn range(
        &self,
        alloc: Global,
        id: u32,
        columns: &Columns,
    ) -> Result<KeyRange, AllocError>
        ensures { IfOk result (λ range. range ≡ range_of_box id columns.now self.now) }
    {
        let mut prefix = Vec::new(alloc);
        push_row_prefix(&mut prefix, id)?;
        self.range_after(columns.key(), prefix)
    }

    // The keys that begin with these bytes, whose next columns are these.
    fn range_after(&self, columns: &[usize], front: Vec<u8>) -> Result<KeyRange, AllocError>
        ensures { IfOk result (λ range.
            range ≡ range_after (bounds_of_box self.now) columns.now front.items) }
    {
        let mut front = front;
        match columns.split_first() {
            None => Ok(KeyRange::Point(Items::from_vec(front))),
            Some((first, others)) => match self.bound(BoundKind::Equal, *first) {
                Some(value) => {
                    push_key_cell(&mut front, value)?;
                    self.range_after(others, front)
                }
                None => self.span_after(*first, front),
            },
        }
    }

    // The keys that begin with these bytes and go on between the bounds of this column.
    fn span_after(&self, column: usize, front: Vec<u8>) -> Result<KeyRange, AllocError>
        ensures { IfOk result (λ range.
            range ≡ span_after (bounds_of_box self.now) column front.items) }
    {
        let mut stop = front.clone()?;
        let mut start = front;
        push_cell(&mut start, self.bound(BoundKind::Lower, column))?;
        push_cell(&mut stop, self.bound(BoundKind::Upper, column))?;
        Ok(KeyRange::Span {
            start: Items::from_vec(start),
            stop: Items::from_vec(stop),
        })
    }
}

// The tightest of these bounds that is of this kind and column, of values that a key may hold.
fn tightest_bound<'a>(
    bounds: &[ColumnBound<'a>],
    kind: BoundKind,
    column: usize,
) -> Option<ValueRef<'a>>
    ensures { option_map owned result ≡ bounds_of_box (box_of bounds.now) kind column }
{
    match bounds.split_first() {
        None => None,
        Some((bound, others)) => {
            let other = tightest_bound(others, kind, column);
            if sets(bound, kind, column) {
                Some(tighter(kind, bound.value, other))
            } else {
                other
            }
        }
    }
}

// Whether a bound is of this kind and column, with a value that a key may hold.
fn sets(bound: &ColumnBound<'_>, kind: BoundKind, column: usize) -> bool
    ensures { result ≡ sets kind column (bound_of bound.now) }
{
    same_kind(kind, bound.kind) && bound.column == column && is_key_value(bound.value)
}

// Of one or two values of bounds of a kind the one that leaves less.
fn tighter<'a>(kind: BoundKind, value: ValueRef<'a>, other: Option<ValueRef<'a>>) -> ValueRef<'a>
    ensures { owned result ≡ tighter kind (owned value.entry) (option_map owned other.entry) }
{
    match other {
        Some(other) if is_tighter(kind, compare(other, value)) => other,
        _ => value,
    }
}

// Whether a value that compares so to another leaves less, as a bound of this kind.
fn is_tighter(kind: BoundKind, ordering: Option<Ordering>) -> bool
    ensures { result ≡ is_tighter kind ordering }
{
    match (kind, ordering) {
        (BoundKind::Lower, Some(Ordering::Greater)) => true,
        (BoundKind::Upper, Some(Ordering::Less)) => true,
        _ => false,
    }
}

// Whether a key may hold a value.
fn is_key_value(value: ValueRef<'_>) -> bool
    ensures { result ≡ is_key_value (owned value.entry) }
{
    match value {
        ValueRef::Null => false,
        ValueRef::Int(_) => true,
        ValueRef::Text(text) => !has_zero(text.as_bytes()),
        ValueRef::Bool(_) => true,
    }
}
