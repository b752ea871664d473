//! Boxes: alternatives of a condition, of which each is a list of bounds that all hold.
ghost use Rattle.std.specs.Prelude.{◌≡◌, ◌++◌, ◌∷◌, [], map, nat_lt, option_to_list, IfOk, OnOk};
ghost use Rattle.std.specs.Option.{option_map};
ghost use Rattle.sql_types.specs.Value.{owned};
ghost use Rattle.key_ranges.specs.BoxCode.{bound_of, box_of};
ghost use Rattle.key_ranges.specs.Boxes.{all_beside, beside, both_boxes, box_limit, boxes_between, boxes_for_roles, boxes_if, boxes_of_roles, either_boxes, everything, pairs, same_box, same_boxes};

use crate::around::around;
use crate::bounds::BoundKind;
use crate::voids::{is_void, same_bound};
use expressions::operators::compare_by;
use sql_ast::expression::Comparison;
use sql_types::items::Items;
use sql_types::value::ValueRef;
use std::alloc::{AllocError, Global};
use std::marker::Model;

/// How many boxes a condition has at most: what would have more is bounded by fewer of its parts.
const BOX_LIMIT: u64 = 1024;

/// A column is equal to a value, or not less, or not greater.
#[derive(Clone, Copy)]
pub(crate) struct ColumnBound<'a> {
    pub(crate) kind: BoundKind,
    pub(crate) column: usize,
    pub(crate) value: ValueRef<'a>,
}

/// Bounds that all hold, which contracts see as a box.
#[derive(Drop)]
pub(crate) struct KeyBox<'a> {
    bounds: Vec<ColumnBound<'a>>,
}

impl<'a> Model for KeyBox<'a> {
    ghost use Rattle.key_ranges.specs.Boxes.{Box};
    ghost use Rattle.key_ranges.specs.BoxCode.{box_of};

    ghost Value = { Box };

    ghost view = { λ b. box_of b.bounds.items };
}

impl<'a> KeyBox<'a> {
    /// The bounds.
    pub(crate) fn bounds(&self) -> &[ColumnBound<'a>]
        ensures { box_of result.now ≡ self.now }
    {
        self.bounds.as_slice()
    }

    /// The box that has these bounds.
    pub(crate) fn between(
        alloc: Global,
        lower: Option<ColumnBound<'a>>,
        upper: Option<ColumnBound<'a>>,
    ) -> Result<KeyBox<'a>, AllocError>
        ensures { IfOk result (λ between. between
            ≡ box_of (option_to_list lower.entry) ++ box_of (option_to_list upper.entry)) }
    {
        let mut bounds = Vec::new(alloc);
        if let Some(bound) = lower {
            bounds.push(bound)?;
        }
        if let Some(bound) = upper {
            bounds.push(bound)?;
        }
        Ok(KeyBox { bounds })
    }

    // The bounds of two boxes.
    #[tactic(auto, using(crate::proofs::BoxLists::both_bounds))]
    fn joined(
        alloc: Global,
        first: &KeyBox<'a>,
        second: &KeyBox<'a>,
    ) -> Result<KeyBox<'a>, AllocError>
        ensures { IfOk result (λ both. both ≡ first.now ++ second.now) }
    {
        let mut bounds = Vec::new(alloc);
        push_bounds(&mut bounds, first.bounds.as_slice())?;
        push_bounds(&mut bounds, second.bounds.as_slice())?;
        Ok(KeyBox { bounds })
    }
}

// Appends bounds.
fn push_bounds<'a>(
    bounds: &mut Vec<ColumnBound<'a>>,
    more: &[ColumnBound<'a>],
) -> Result<(), AllocError>
    ensures { OnOk result (bounds.new.items ≡ bounds.old.items ++ more.now) }
{
    for bound in more {
        bounds.push(*bound)?;
    }
    Ok(())
}

/// The boxes of the rows that are in one of the first and in one of the second: each of the first
/// beside each of the second, but for those in which two bounds contradict one another. Where both are
/// the same, or the pairs are too many, the first alone.
pub(crate) fn both_boxes<'a>(
    alloc: Global,
    first: Items<KeyBox<'a>>,
    second: &[KeyBox<'a>],
) -> Result<Items<KeyBox<'a>>, AllocError>
    ensures { IfOk result (λ both. both ≡ both_boxes first.entry second.now) }
{
    if is_past_limit(pairs(first.as_slice(), second)) || same_boxes(first.as_slice(), second) {
        Ok(first)
    } else {
        all_beside(alloc, first.as_slice(), second)
    }
}

// Whether boxes are the same in the same order.
fn same_boxes(first: &[KeyBox<'_>], second: &[KeyBox<'_>]) -> bool
    ensures { result ≡ same_boxes first.now second.now }
{
    match (first.split_first(), second.split_first()) {
        (None, None) => true,
        (Some((one, others)), Some((other, rest))) => {
            same_box(one.bounds(), other.bounds()) && same_boxes(others, rest)
        }
        _ => false,
    }
}

// Whether bounds are the same in the same order.
fn same_box(first: &[ColumnBound<'_>], second: &[ColumnBound<'_>]) -> bool
    ensures { result ≡ same_box (box_of first.now) (box_of second.now) }
{
    match (first.split_first(), second.split_first()) {
        (None, None) => true,
        (Some((one, others)), Some((other, rest))) => {
            same_bound(one, other) && same_box(others, rest)
        }
        _ => false,
    }
}

// Whether so many boxes are more than a condition has.
fn is_past_limit(count: u64) -> bool
    ensures { result ≡ nat_lt box_limit count }
{
    BOX_LIMIT < count
}

// How many pairs there are of these boxes, up to `u64::MAX`.
fn pairs(first: &[KeyBox<'_>], second: &[KeyBox<'_>]) -> u64
    ensures { result ≡ pairs first.now second.now }
{
    (first.len() as u64).saturating_mul(second.len() as u64)
}

// Each of the first boxes beside each of the second.
#[tactic(auto, using(crate::proofs::BoxLists::boxes_behind))]
fn all_beside<'a>(
    alloc: Global,
    first: &[KeyBox<'a>],
    second: &[KeyBox<'a>],
) -> Result<Items<KeyBox<'a>>, AllocError>
    ensures { IfOk result (λ both. both ≡ all_beside first.now second.now) }
{
    let mut both = Items::new(alloc);
    for one in first {
        push_beside(alloc, &mut both, one, second)?;
    }
    Ok(both)
}

// Appends a box beside each of others, where a row may be in both.
fn push_beside<'a>(
    alloc: Global,
    boxes: &mut Items<KeyBox<'a>>,
    one: &KeyBox<'a>,
    others: &[KeyBox<'a>],
) -> Result<(), AllocError>
    ensures { OnOk result (boxes.new ≡ boxes.old ++ beside one.now others.now) }
{
    for other in others {
        let both = KeyBox::joined(alloc, one, other)?;
        if !is_void(both.bounds()) {
            boxes.push(both)?;
        }
    }
    Ok(())
}

/// The boxes of the rows that are in one of the first or in one of the second; one around all where
/// these are too many.
pub(crate) fn either_boxes<'a>(
    alloc: Global,
    first: Items<KeyBox<'a>>,
    second: Items<KeyBox<'a>>,
) -> Result<Items<KeyBox<'a>>, AllocError>
    ensures { IfOk result (λ boxes. boxes ≡ either_boxes first.entry second.entry) }
{
    let mut boxes = first.into_vec();
    let mut others = second.into_vec();
    boxes.append(&mut others)?;
    if is_past_limit(boxes.len() as u64) {
        around(alloc, boxes.as_slice())
    } else {
        Ok(Items::from_vec(boxes))
    }
}

/// The box that has one bound.
pub(crate) fn one_box<'a>(
    alloc: Global,
    bound: ColumnBound<'a>,
) -> Result<Items<KeyBox<'a>>, AllocError>
    ensures { IfOk result (λ boxes. boxes ≡ (bound_of bound.entry ∷ []) ∷ []) }
{
    let mut bounds = Vec::new(alloc);
    bounds.push(bound)?;
    let mut boxes = Items::new(alloc);
    boxes.push(KeyBox { bounds })?;
    Ok(boxes)
}

/// The box that has all rows.
pub(crate) fn everything<'a>(alloc: Global) -> Result<Items<KeyBox<'a>>, AllocError>
    ensures { IfOk result (λ boxes. boxes ≡ everything) }
{
    let bounds = Vec::new(alloc);
    let mut boxes = Items::new(alloc);
    boxes.push(KeyBox { bounds })?;
    Ok(boxes)
}

/// No box where a value that is known is false, and else the one that has all rows.
pub(crate) fn boxes_if<'a>(
    alloc: Global,
    value: ValueRef<'_>,
) -> Result<Items<KeyBox<'a>>, AllocError>
    ensures { IfOk result (λ boxes. boxes ≡ boxes_if (owned value.entry)) }
{
    match value {
        ValueRef::Bool(false) => Ok(Items::new(alloc)),
        _ => everything(alloc),
    }
}

/// The boxes of a comparison of two values that are known.
pub(crate) fn boxes_between<'a>(
    alloc: Global,
    operator: Comparison,
    left: Option<ValueRef<'a>>,
    right: Option<ValueRef<'a>>,
) -> Result<Items<KeyBox<'a>>, AllocError>
    ensures { IfOk result (λ boxes. boxes
        ≡ boxes_between operator (option_map owned left.entry) (option_map owned right.entry)) }
{
    match (left, right) {
        (Some(left), Some(right)) => boxes_if(alloc, compare_by(operator, left, right)),
        _ => everything(alloc),
    }
}

/// A box for each role, which a column names; one around all where these are too many.
pub(crate) fn boxes_of_roles<'a>(
    alloc: Global,
    roles: &'a [&'a str],
    column: usize,
) -> Result<Items<KeyBox<'a>>, AllocError>
    ensures { IfOk result (λ boxes. boxes
        ≡ boxes_of_roles (map (λ role. role.now) roles.now) column) }
{
    let boxes = boxes_for_roles(alloc, roles, column)?;
    if is_past_limit(roles.len() as u64) {
        around(alloc, boxes.as_slice())
    } else {
        Ok(boxes)
    }
}

// A box for each role.
fn boxes_for_roles<'a>(
    alloc: Global,
    roles: &'a [&'a str],
    column: usize,
) -> Result<Items<KeyBox<'a>>, AllocError>
    ensures { IfOk result (λ boxes. boxes
        ≡ boxes_for_roles (map (λ role. role.now) roles.now) column) }
{
    let mut boxes = Items::new(alloc);
    for role in roles {
        let mut bounds = Vec::new(alloc);
        bounds.push(ColumnBound {
            kind: BoundKind::Equal,
            column,
            value: ValueRef::Text(*role),
        })?;
        boxes.push(KeyBox { bounds })?;
    }
    Ok(boxes)
}
