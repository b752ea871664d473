//! A row of a SELECT under its sort keys.
ghost use Rattle.std.specs.Prelude.{◌≡◌, [], IfOk};
ghost use Rattle.std.specs.Cmp.Lexicographic.{slice_cmp};
ghost use Rattle.expressions.specs.Rows.{names_of};
ghost use Rattle.gathering.specs.Entries.{behind_first, both_compared, directed_cmp, first_compared, key_compared, key_on, keys_compared, keys_on};

use crate::query::TypedSortKey;
use crate::sort_value::Directed;
use expressions::eval::{Users, eval};
use sql_types::items::Items;
use sql_types::row::RowView;
use sql_types::state::SqlState;
use sql_types::value::Value;
use std::alloc::{AllocError, Global};
use std::cmp::Ordering;

/// The row of a combination, or its refusal, which counts only where the row is within the limit. Rows compare by their keys,
/// of which the first has no memory of its own: mostly there is no other.
#[derive(Drop)]
#[derive_where(PartialEq, Eq, PartialOrd, Ord)]
pub struct KeyedRow {
    pub(crate) first: Directed,
    pub(crate) others: Vec<Directed>,
    #[derive_where(skip)]
    pub(crate) row: Result<Items<Value>, SqlState>,
}

/// The value of a sort key, or its refusal.
pub(crate) fn key_on<R: RowView>(
    alloc: Global,
    key: &TypedSortKey,
    row: &R,
    users: &Users<'_>,
) -> Result<Result<Directed, SqlState>, AllocError>
    ensures { IfOk result
        (λ found. found ≡ key_on (names_of users.now) (R.cell row.now) key.now) }
{
    match eval(&key.value, row, users) {
        Ok(value) => Ok(Ok(Directed::new(value.to_value(alloc)?, key.descending))),
        Err(state) => Ok(Err(state)),
    }
}

/// The values of the sort keys, or the refusal of the first that has one.
pub(crate) fn keys_on<R: RowView>(
    alloc: Global,
    keys: &[TypedSortKey],
    row: &R,
    users: &Users<'_>,
) -> Result<Result<Items<Directed>, SqlState>, AllocError>
    ensures { IfOk result
        (λ found. found ≡ keys_on (names_of users.now) keys.now (R.cell row.now)) }
{
    let mut found = Items::new(alloc);
    for key in keys {
        match key_on(alloc, key, row, users)? {
            Ok(value) => found.push(value)?,
            Err(state) => return Ok(Err(state)),
        }
    }
    Ok(Ok(found))
}

/// How a row's values of sort keys compare with those of a row that is kept, or the refusal of the first that has one. No memory
/// is taken.
pub(crate) fn compare_keys<R: RowView>(
    keys: &[TypedSortKey],
    row: &R,
    users: &Users<'_>,
    kept: &[Directed],
) -> Result<Ordering, SqlState>
    ensures { result
        ≡ keys_compared (keys_on (names_of users.now) keys.now (R.cell row.now)) kept.now }
{
    let Some((key, others)) = keys.split_first() else {
        return Ok(compare_none(kept));
    };
    let first = compare_first(key, row, users, kept);
    both(first, compare_keys(others, row, users, behind_first(kept)))
}

/// An order, and where it tells nothing apart the one behind it, or the first refusal.
pub(crate) fn both(
    first: Result<Ordering, SqlState>,
    later: Result<Ordering, SqlState>,
) -> Result<Ordering, SqlState>
    ensures { result ≡ both_compared first later }
{
    Ok(first?.then(later?))
}

/// How a row's value of a sort key compares with the first of these, or its refusal.
fn compare_first<R: RowView>(
    key: &TypedSortKey,
    row: &R,
    users: &Users<'_>,
    kept: &[Directed],
) -> Result<Ordering, SqlState>
    ensures { result
        ≡ first_compared (key_on (names_of users.now) (R.cell row.now) key.now) kept.now }
{
    match kept.first() {
        None => {
            eval(&key.value, row, users)?;
            Ok(Ordering::Greater)
        }
        Some(first) => compare_key(key, row, users, first),
    }
}

/// How a row's value of a sort key compares with that of a row that is kept, or its refusal.
pub(crate) fn compare_key<R: RowView>(
    key: &TypedSortKey,
    row: &R,
    users: &Users<'_>,
    kept: &Directed,
) -> Result<Ordering, SqlState>
    ensures { result
        ≡ key_compared (key_on (names_of users.now) (R.cell row.now) key.now) kept.now }
{
    let value = eval(&key.value, row, users)?;
    Ok(kept.compare(value, key.descending))
}

/// How no keys compare with these.
fn compare_none(kept: &[Directed]) -> Ordering
    ensures { result ≡ slice_cmp directed_cmp [] kept.now }
{
    if kept.is_empty() {
        Ordering::Equal
    } else {
        Ordering::Less
    }
}

/// The keys behind the first.
fn behind_first(kept: &[Directed]) -> &[Directed]
    ensures { result.now ≡ behind_first kept.now }
{
    match kept.split_first() {
        None => kept,
        Some((_, behind)) => behind,
    }
}
