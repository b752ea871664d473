//! The columns that bound expressions read.

ghost use Rattle.std.specs.Prelude.{◌≡◌, option_to_list};
ghost use Rattle.std.specs.List.{list_any, list_all};
ghost use Rattle.abstract_database.specs.Needs.{has_any, columns_read, columns_of_query};
ghost use Rattle.catalogue.specs.Grants.{has_bit};
ghost use Rattle.gathering.specs.Queries.{list_of, bound_of};
ghost use Rattle.gathering.specs.Reads.{names};
ghost use Rattle.planner.specs.Changed.{where_of, expressions_in};
ghost use Rattle.planner.specs.Reading.{lacks, is_each_column};
ghost use Rattle.planner.specs.Rights.{covers as covers_column};

use crate::masks::{covers, covers_first, is_whole};
use expressions::types::Typed;
use gathering::query::{OutputList, Query, RowList};
use gathering::reads::{ColumnKind, any_names, names, reads};
use sql_ast::columns::Columns;
use sql_ast::scope::ColumnIndex;

/// The columns of the table of this number that a mask does not cover.
#[derive(Drop)]
struct Uncovered {
    number: usize,
    mask: u32,
}

impl ColumnKind for Uncovered {
    ghost has = { λ kind. lacks (has_bit kind.mask) kind.number };

    fn has(&self, column: ColumnIndex) -> bool {
        column.table == self.number && !covers(self.mask, column.column)
    }
}

/// Whether a list is `*`.
fn is_asterisk(list: &OutputList) -> bool
    ensures { result ≡ is_each_column (list_of list.now) }
{
    match list {
        OutputList::Rows(RowList::Columns(_)) => true,
        OutputList::Rows(RowList::Values(_)) | OutputList::Count => false,
    }
}

/// Whether a mask covers each column that a query reads of the table of this number.
pub(crate) fn covers_query(mask: u32, query: &Query, number: usize, layout: &Columns) -> bool
    ensures { result ≡ list_all (covers_column (has_bit mask))
        (columns_of_query (bound_of query.now) number layout.now) }
{
    if is_whole(mask) {
        return true;
    }
    if is_asterisk(&query.list) {
        return covers_first(mask, layout.len());
    }
    !reads(query, &Uncovered { number, mask })
}

/// Whether new values and a condition name a column of their table that a mask does not cover.
fn changes_lack(values: &[Typed], condition: &Option<Typed>, mask: u32) -> bool
    ensures { result ≡ list_any (names (lacks (has_bit mask) 0))
        (expressions_in values.now condition.now) }
{
    let uncovered = Uncovered { number: 0, mask };
    any_names(values, &uncovered) || condition_names(condition, &uncovered)
}

fn condition_names(condition: &Option<Typed>, kind: &Uncovered) -> bool
    ensures { result ≡ list_any (names (lacks (has_bit kind.now.mask) kind.now.number))
        (option_to_list (where_of condition.now)) }
{
    match condition {
        Some(condition) => names(condition.tree(), kind),
        None => false,
    }
}

/// Whether new values and a condition name a column of their table.
pub(crate) fn changes_read(values: &[Typed], condition: &Option<Typed>) -> bool
    ensures { result ≡ has_any (columns_read 0 (expressions_in values.now condition.now)) }
{
    changes_lack(values, condition, 0)
}

/// Whether a mask covers each column of their table that new values and a condition read.
pub(crate) fn covers_changes(mask: u32, values: &[Typed], condition: &Option<Typed>) -> bool
    ensures { result ≡ list_all (covers_column (has_bit mask))
        (columns_read 0 (expressions_in values.now condition.now)) }
{
    is_whole(mask) || !changes_lack(values, condition, mask)
}
