//! One box around many, by the bounds of one column.
ghost use Rattle.std.specs.Prelude.{◌≡◌, option_to_list, IfOk};
ghost use Rattle.std.specs.Option.{option_map};
ghost use Rattle.sql_types.specs.Value.{owned};
ghost use Rattle.key_ranges.specs.BoxCode.{box_of};
ghost use Rattle.key_ranges.specs.Boxes.{around, bound_if, box_around, greater, greater_by, highest_in, highest_of, lesser, lesser_by, lowest_in, lowest_of};

use crate::bounds::BoundKind;
use crate::boxes::{ColumnBound, KeyBox, everything};
use crate::voids::same_kind;
use sql_types::items::Items;
use sql_types::value::{ValueRef, compare};
use std::alloc::{AllocError, Global};
use std::cmp::Ordering;

/// One box that has the rows of all of these, by the column that the first of them bounds first.
pub(crate) fn around<'a>(
    alloc: Global,
    boxes: &[KeyBox<'a>],
) -> Result<Items<KeyBox<'a>>, AllocError>
    ensures { IfOk result (λ one. one ≡ around boxes.now) }
{
    match boxes.split_first() {
        None => Ok(Items::new(alloc)),
        Some((one, others)) => match one.bounds().first() {
            None => everything(alloc),
            Some(bound) => {
                let mut around = Items::new(alloc);
                around.push(box_around(alloc, bound.column, one, others)?)?;
                Ok(around)
            }
        },
    }
}

// The same, by this column.
fn box_around<'a>(
    alloc: Global,
    column: usize,
    one: &KeyBox<'a>,
    others: &[KeyBox<'a>],
) -> Result<KeyBox<'a>, AllocError>
    ensures { IfOk result (λ around. around ≡ box_around column one.now others.now) }
{
    let least = lowest_of(column, lowest_in(one.bounds(), column), others);
    let greatest = highest_of(column, highest_in(one.bounds(), column), others);
    KeyBox::between(
        alloc,
        bound_if(BoundKind::Lower, column, least),
        bound_if(BoundKind::Upper, column, greatest),
    )
}

// The bound of a column by a value, if there is one.
fn bound_if<'a>(
    kind: BoundKind,
    column: usize,
    value: Option<ValueRef<'a>>,
) -> Option<ColumnBound<'a>>
    ensures { box_of (option_to_list result) ≡ bound_if kind column (option_map owned value.entry) }
{
    match value {
        None => None,
        Some(value) => Some(ColumnBound {
            kind,
            column,
            value,
        }),
    }
}

// The least of the values that the column of these boxes does not fall below, and of this one, if each
// has one.
fn lowest_of<'a>(
    column: usize,
    first: Option<ValueRef<'a>>,
    boxes: &[KeyBox<'a>],
) -> Option<ValueRef<'a>>
    ensures { option_map owned result ≡ lowest_of column (option_map owned first.entry) boxes.now }
{
    let mut least = first;
    for one in boxes {
        least = lesser(least, lowest_in(one.bounds(), column));
    }
    least
}

// The greatest of the values that the column of these boxes does not rise above, and of this one, if
// each has one.
fn highest_of<'a>(
    column: usize,
    first: Option<ValueRef<'a>>,
    boxes: &[KeyBox<'a>],
) -> Option<ValueRef<'a>>
    ensures { option_map owned result ≡ highest_of column (option_map owned first.entry) boxes.now }
{
    let mut greatest = first;
    for one in boxes {
        greatest = greater(greatest, highest_in(one.bounds(), column));
    }
    greatest
}

// A value that the column does not fall below within these bounds.
fn lowest_in<'a>(bounds: &[ColumnBound<'a>], column: usize) -> Option<ValueRef<'a>>
    ensures { option_map owned result ≡ lowest_in column (box_of bounds.now) }
{
    for bound in bounds {
        if bound.column == column && !same_kind(bound.kind, BoundKind::Upper) {
            return Some(bound.value);
        }
    }
    None
}

// A value that the column does not rise above within these bounds.
fn highest_in<'a>(bounds: &[ColumnBound<'a>], column: usize) -> Option<ValueRef<'a>>
    ensures { option_map owned result ≡ highest_in column (box_of bounds.now) }
{
    for bound in bounds {
        if bound.column == column && !same_kind(bound.kind, BoundKind::Lower) {
            return Some(bound.value);
        }
    }
    None
}

// The lesser of two values; none where one is missing, or they do not compare.
fn lesser<'a>(first: Option<ValueRef<'a>>, second: Option<ValueRef<'a>>) -> Option<ValueRef<'a>>
    ensures { option_map owned result ≡ lesser (option_map owned first.entry) (option_map owned second.entry) }
{
    match (first, second) {
        (Some(first), Some(second)) => lesser_by(compare(first, second), first, second),
        _ => None,
    }
}

// The greater of two values, alike.
fn greater<'a>(first: Option<ValueRef<'a>>, second: Option<ValueRef<'a>>) -> Option<ValueRef<'a>>
    ensures { option_map owned result ≡ greater (option_map owned first.entry) (option_map owned second.entry) }
{
    match (first, second) {
        (Some(first), Some(second)) => greater_by(compare(first, second), first, second),
        _ => None,
    }
}

fn lesser_by<'a>(
    ordering: Option<Ordering>,
    first: ValueRef<'a>,
    second: ValueRef<'a>,
) -> Option<ValueRef<'a>>
    ensures { option_map owned result ≡ lesser_by ordering (owned first.entry) (owned second.entry) }
{
    match ordering {
        None => None,
        Some(ordering) if ordering.is_gt() => Some(second),
        Some(_) => Some(first),
    }
}

fn greater_by<'a>(
    ordering: Option<Ordering>,
    first: ValueRef<'a>,
    second: ValueRef<'a>,
) -> Option<ValueRef<'a>>
    ensures { option_map owned result ≡ greater_by ordering (owned first.entry) (owned second.entry) }
{
    match ordering {
        None => None,
        Some(ordering) if ordering.is_lt() => Some(second),
        Some(_) => Some(first),
    }
}
