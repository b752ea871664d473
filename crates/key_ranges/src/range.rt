//! The range of keys that conditions leave of a table's records.
ghost use Rattle.std.specs.Prelude.{◌≡◌, [], ◌++◌, ◌≤◌, length, IfOk, IfSome, OnOk};
ghost use Rattle.std.specs.Option.{option_map};
ghost use Rattle.sql_types.specs.Value.{owned};
ghost use Rattle.expressions.specs.Rows.{names_of};
ghost use Rattle.key_ranges.specs.Bounds.{bounds_of};
ghost use Rattle.key_ranges.specs.Infallible.{AreInfallible};
ghost use Rattle.key_ranges.specs.Ranges.{range_of, range_behind, range_after, span_after, is_bounded, is_first_bounded, cell_of, HasKeysOf, HasKeysBehind, IsRangeOf};

use crate::bounds::{BoundKind, BoundSearch};
use crate::infallible::are_infallible;
use crate::spans::KeySpans;
use expressions::eval::Users;
use expressions::types::Typed;
use row_codec::{push_key_cell, push_row_prefix};
use sql_ast::columns::Columns;
use sql_ast::scope::ColumnIndex;
use sql_types::items::Items;
use sql_types::value::{Value, ValueRef};
use std::alloc::{AllocError, Global};

/// Keys of records of one table.
#[derive(Drop)]
pub enum KeyRange {
    /// One key, for a look-up.
    Point(Items<u8>),
    /// The keys for a walk, as `store::Cursor::between` takes them: from `start` on, up to the last
    /// that comes before `stop` or begins with it.
    Span { start: Items<u8>, stop: Items<u8> },
    /// The keys for a walk over one span after the other.
    Several(KeySpans),
}

// Conditions on the rows of the tables of a statement, all of them true, and the table whose keys
// they bound.
#[derive(Clone, Copy)]
struct Conditions<'a> {
    table: usize,
    list: &'a [Typed],
    users: &'a Users<'a>,
    /// The rows of the first tables, where these are known.
    front: &'a [&'a [Value]],
}

/// The keys of the rows on which all conditions are true, of the table of this number in records
/// and of this index in FROM. There are such keys where no condition can fail, and one of them, or
/// an operand of its ANDs, compares the first column of the key to a literal, to CURRENT_USER or
/// to SESSION_USER, by `=`, `<`, `<=`, `>` or `>=`; else the answer is `None`.
///
/// Columns that are equal to a value narrow the range from the first on. The column behind them
/// narrows it further by its first bound from either side. A value that no key holds, as null,
/// bounds nothing.
pub fn key_range(
    alloc: Global,
    id: u32,
    columns: &Columns,
    table: usize,
    conditions: &[Typed],
    users: &Users<'_>,
) -> Result<Option<KeyRange>, AllocError>
    ensures range { IfOk result (λ range.
        range ≡ range_of id columns.now table (names_of users.now) conditions.now) }
    ensures keys { IfOk result (λ range. IfSome range
        (HasKeysOf id columns.now table (names_of users.now) conditions.now)) }
    ensures prefix { IfOk result (λ range. IfSome range (IsRangeOf id)) }
    ensures infallible { IfOk result (λ range. IfSome range (λ r. AreInfallible conditions.now)) }
{
    key_range_behind(alloc, id, columns, table, &[], conditions, users)
}

/// The keys of the rows on which all conditions are true beside these rows of the first tables, one
/// of each; else as [`key_range`]. A column of one of these tables is then a value as a literal is.
/// So `b.k = a.x` leaves one key of `b` beside a row of `a`, where `k` is the whole key of `b`.
pub fn key_range_behind(
    alloc: Global,
    id: u32,
    columns: &Columns,
    table: usize,
    front: &[&[Value]],
    conditions: &[Typed],
    users: &Users<'_>,
) -> Result<Option<KeyRange>, AllocError>
    requires { length front.now ≤ table }
    ensures range { IfOk result (λ range.
        range ≡ range_behind id columns.now table front.now (names_of users.now) conditions.now) }
    ensures keys { IfOk result (λ range. IfSome range
        (HasKeysBehind id columns.now table front.now (names_of users.now) conditions.now)) }
    ensures prefix { IfOk result (λ range. IfSome range (IsRangeOf id)) }
    ensures infallible { IfOk result (λ range. IfSome range (λ r. AreInfallible conditions.now)) }
{
    let conditions = Conditions {
        table,
        list: conditions,
        users,
        front,
    };
    let key = columns.key();
    if !are_infallible(conditions.list) || !conditions.is_first_bounded(key) {
        return Ok(None);
    }
    let mut prefix = Vec::new(alloc);
    push_row_prefix(&mut prefix, id)?;
    let range = conditions.range_after(key, prefix)?;
    Ok(Some(range))
}

/// Whether one of these conditions, or an operand of its ANDs, compares the first of these columns of a
/// key by itself, as [`key_range`] says. The table has this index in FROM.
pub fn is_key_bounded(key: &[usize], table: usize, conditions: &[Typed], users: &Users<'_>) -> bool
    ensures { result ≡ is_first_bounded
        (bounds_of table (names_of users.now) [] conditions.now) key.now }
{
    let conditions = Conditions {
        table,
        list: conditions,
        users,
        front: &[],
    };
    conditions.is_first_bounded(key)
}

impl<'a> Conditions<'a> {
    // The value that bounds a column.
    fn bound(&self, kind: BoundKind, index: usize) -> Option<ValueRef<'a>>
        ensures { option_map owned result ≡ bounds_of self.now.table (names_of self.now.users.now)
            self.now.front.now self.now.list.now kind index }
    {
        let column = ColumnIndex {
            table: self.table,
            column: index,
        };
        let users = self.users;
        let front = self.front;
        let search = BoundSearch {
            kind,
            column,
            users,
            front,
        };
        search.bound_among(self.list)
    }

    // Whether a column has a bound.
    fn is_bounded(&self, index: usize) -> bool
        ensures { result ≡ is_bounded
            (bounds_of self.now.table (names_of self.now.users.now) self.now.front.now self.now.list.now) index }
    {
        self.bound(BoundKind::Equal, index).is_some()
            || self.bound(BoundKind::Lower, index).is_some()
            || self.bound(BoundKind::Upper, index).is_some()
    }

    // Whether the first of these columns has a bound.
    fn is_first_bounded(&self, columns: &[usize]) -> bool
        ensures { result ≡ is_first_bounded
            (bounds_of self.now.table (names_of self.now.users.now) self.now.front.now self.now.list.now)
            columns.now }
    {
        match columns.first() {
            Some(index) => self.is_bounded(*index),
            None => false,
        }
    }

    // The keys that begin with these bytes, whose next columns are these.
    fn range_after(&self, columns: &[usize], front: Vec<u8>) -> Result<KeyRange, AllocError>
        ensures { IfOk result (λ range. range ≡ range_after
            (bounds_of self.now.table (names_of self.now.users.now) self.now.front.now self.now.list.now)
            columns.now front.items) }
    {
        let mut front = front;
        match columns.split_first() {
            None => Ok(KeyRange::Point(Items::from_vec(front))),
            Some((first, others)) => match self.bound(BoundKind::Equal, *first) {
                Some(value) => {
                    push_key_cell(&mut front, value)?;
                    self.range_after(others, front)
                }
                None => self.span_after(*first, front),
            },
        }
    }

    // The keys that begin with these bytes and go on between the bounds of this column.
    fn span_after(&self, index: usize, front: Vec<u8>) -> Result<KeyRange, AllocError>
        ensures { IfOk result (λ range. range ≡ span_after
            (bounds_of self.now.table (names_of self.now.users.now) self.now.front.now self.now.list.now)
            index front.items) }
    {
        let mut stop = front.clone()?;
        let mut start = front;
        push_cell(&mut start, self.bound(BoundKind::Lower, index))?;
        push_cell(&mut stop, self.bound(BoundKind::Upper, index))?;
        Ok(KeyRange::Span {
            start: Items::from_vec(start),
            stop: Items::from_vec(stop),
        })
    }
}

// Appends the cell of a bound, if there is one.
pub(crate) fn push_cell(out: &mut Vec<u8>, bound: Option<ValueRef<'_>>) -> Result<(), AllocError>
    ensures { OnOk result
        (out.new.items ≡ out.old.items ++ cell_of (option_map owned bound.entry)) }
{
    match bound {
        Some(value) => push_key_cell(out, value),
        None => Ok(()),
    }
}
