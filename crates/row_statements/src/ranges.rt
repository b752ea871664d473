//! The keys among which a statement looks for the rows of its tables.
ghost use Rattle.std.specs.Prelude.{◌≡◌, IfOk, map};
ghost use Rattle.std.specs.Option.{option_copied};
ghost use Rattle.expressions.specs.Rows.{names_of};
ghost use Rattle.row_statements.specs.Targeted.{IsRangedTargetOf, AreTargetsOf};
ghost use Rattle.key_ranges.specs.BoxCode.{role_names};
ghost use Rattle.row_statements.specs.Ranges.{range_left, range_where, ranges_among, AreRanged, IsRangeAmong, IsRangeWhere};

use expressions::eval::Users;
use expressions::types::Typed;
use key_ranges::{KeyRange, table_range};
use planner::Source;
use sql_types::items::Items;
use std::alloc::{AllocError, Global};
use std::slice::from_ref;
use table_rows::Target;

/// A table of a plan, and the range of its keys in which its rows are looked for, or `None` for all
/// of them.
#[derive(Drop)]
pub struct RangedSource<'a> {
    /// The table, with its guard.
    pub source: &'a Source<'a>,
    /// The keys in which its rows are looked for.
    pub range: Option<KeyRange>,
}

impl<'a> RangedSource<'a> {
    /// The table with its range for these users, as what carries a statement out takes it.
    pub(crate) fn target<'b>(&'b self, users: &'b Users<'b>) -> Target<'b>
        ensures { IsRangedTargetOf (names_of users.now) self.now result }
    {
        Target {
            id: self.source.table.id(),
            columns: self.source.table.columns(),
            guard: &self.source.guard,
            users,
            range: self.range.as_ref(),
        }
    }
}

/// The table of an UPDATE or a DELETE with the range of keys in which its rows are looked for: the
/// one of [`range_where`].
pub(crate) fn ranged_where<'a>(
    alloc: Global,
    source: &'a Source<'a>,
    condition: Option<&Typed>,
    users: &Users<'_>,
) -> Result<RangedSource<'a>, AllocError>
    ensures source { IfOk result (λ ranged. ranged.source.now ≡ source.now) }
    ensures exact { IfOk result (λ ranged. ranged.range ≡ range_where (names_of users.now)
        (role_names users.now) source.now (option_copied condition.entry)) }
    ensures safe { IfOk result (λ ranged.
        IsRangeWhere (names_of users.now) source.now condition.entry ranged.range) }
{
    let range = range_where(alloc, source, condition, users)?;
    Ok(RangedSource { source, range })
}

/// The range of keys in which an UPDATE or a DELETE looks for the rows of its table: the one that
/// row security and WHERE leave of it, as [`table_range`] says.
pub fn range_where(
    alloc: Global,
    source: &Source<'_>,
    condition: Option<&Typed>,
    users: &Users<'_>,
) -> Result<Option<KeyRange>, AllocError>
    ensures exact { IfOk result (λ range. range ≡ range_where (names_of users.now)
        (role_names users.now) source.now (option_copied condition.entry)) }
    ensures safe { IfOk result (IsRangeWhere (names_of users.now) source.now condition.entry) }
{
    match condition {
        Some(condition) => range_of(alloc, source, 0, from_ref(condition), users),
        None => range_of(alloc, source, 0, &[], users),
    }
}

/// The tables of a SELECT, each with the range of keys in which its rows are looked for: the one
/// that row security and the conditions leave of it, as [`table_range`] says, whatever rows the tables
/// before it have.
pub fn ranged<'a>(
    alloc: Global,
    sources: &'a [Source<'a>],
    conditions: &[Typed],
    users: &Users<'_>,
) -> Result<Items<RangedSource<'a>>, AllocError>
    ensures exact { IfOk result (λ ranged. map (λ r. r.range) ranged ≡ ranges_among
        (names_of users.now) (role_names users.now) conditions.now 0 sources.now) }
    ensures safe { IfOk result (AreRanged (names_of users.now) conditions.now 0 sources.now) }
{
    let mut ranged = Items::new(alloc);
    for (index, source) in sources.iter().enumerate() {
        let range = range_of(alloc, source, index, conditions, users)?;
        ranged.push(RangedSource { source, range })?;
    }
    Ok(ranged)
}

// The tables of a plan with their ranges, as what carries it out takes them.
pub(crate) fn targets<'a>(
    alloc: Global,
    tables: &'a [RangedSource<'a>],
    users: &'a Users<'a>,
) -> Result<Items<Target<'a>>, AllocError>
    ensures { IfOk result (AreTargetsOf (names_of users.now) tables.now) }
{
    let mut targets = Items::new(alloc);
    for table in tables {
        targets.push(table.target(users))?;
    }
    Ok(targets)
}

// The range that its guard and conditions leave of a table, which has this index in FROM.
fn range_of(
    alloc: Global,
    source: &Source<'_>,
    index: usize,
    conditions: &[Typed],
    users: &Users<'_>,
) -> Result<Option<KeyRange>, AllocError>
    ensures exact { IfOk result (λ range. range ≡ range_left index (names_of users.now)
        (role_names users.now) source.now conditions.now) }
    ensures safe { IfOk result (IsRangeAmong (names_of users.now) conditions.now index source.now) }
{
    let id = source.table.id();
    let columns = source.table.columns();
    let formulas = source.guard.existing.as_slice();
    table_range(alloc, id, columns, index, formulas, conditions, users)
}
