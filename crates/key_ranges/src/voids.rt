//! Bounds that contradict one another.
ghost use Rattle.std.specs.Prelude.{◌≡◌};
ghost use Rattle.key_ranges.specs.BoxCode.{bound_of, box_of};
ghost use Rattle.key_ranges.specs.Boxes.{allows_in, contradicts, contradicts_any, is_void, same_bound, same_kind};

use crate::bounds::BoundKind;
use crate::boxes::ColumnBound;
use sql_types::value::compare;
use std::cmp::Ordering;

/// Whether two of these bounds contradict one another, so that no row has all of them.
pub(crate) fn is_void(bounds: &[ColumnBound<'_>]) -> bool
    ensures { result ≡ is_void (box_of bounds.now) }
{
    for bound in bounds {
        if contradicts_any(bounds, bound) {
            return true;
        }
    }
    false
}

// Whether a bound is one value that another bound of its column does not allow.
fn contradicts_any(bounds: &[ColumnBound<'_>], bound: &ColumnBound<'_>) -> bool
    ensures { result ≡ contradicts_any (box_of bounds.now) (bound_of bound.now) }
{
    for other in bounds {
        if contradicts(bound, other) {
            return true;
        }
    }
    false
}

// Whether the first of two bounds is one value of the column that the second does not allow.
fn contradicts(first: &ColumnBound<'_>, second: &ColumnBound<'_>) -> bool
    ensures { result ≡ contradicts (bound_of first.now) (bound_of second.now) }
{
    same_kind(first.kind, BoundKind::Equal)
        && first.column == second.column
        && !allows_in(second.kind, compare(first.value, second.value))
}

// Whether a bound allows a value that compares so to its own.
fn allows_in(kind: BoundKind, ordering: Option<Ordering>) -> bool
    ensures { result ≡ allows_in kind ordering }
{
    match ordering {
        None => false,
        Some(ordering) => match kind {
            BoundKind::Equal => ordering.is_eq(),
            BoundKind::Lower => !ordering.is_lt(),
            BoundKind::Upper => !ordering.is_gt(),
        },
    }
}

/// Whether two kinds are the same.
pub(crate) fn same_kind(kind: BoundKind, other: BoundKind) -> bool
    ensures { result ≡ same_kind kind other }
{
    match (kind, other) {
        (BoundKind::Equal, BoundKind::Equal) => true,
        (BoundKind::Lower, BoundKind::Lower) => true,
        (BoundKind::Upper, BoundKind::Upper) => true,
        _ => false,
    }
}

/// Whether two bounds are the same.
pub(crate) fn same_bound(first: &ColumnBound<'_>, second: &ColumnBound<'_>) -> bool
    ensures { result ≡ same_bound (bound_of first.now) (bound_of second.now) }
{
    same_kind(first.kind, second.kind)
        && second.column == first.column
        && allows_in(BoundKind::Equal, compare(first.value, second.value))
}
