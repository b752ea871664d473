//! Columns of a table whose values are known of each row of a span of keys, and what row security and
//! conditions say that read no others.
ghost use Rattle.std.specs.Prelude.{◌≡◌, ℕ, IsTrue, IfOk, IfSome, OnOk, Ok, map};
ghost use Rattle.std.specs.Option.{option_map};
ghost use Rattle.sql_types.specs.Value.{owned};
ghost use Rattle.sql_types.specs.declared.value.Truth.TheVariants as truth;
ghost use Rattle.expressions.specs.Rows.{names_of, value_on};
ghost use Rattle.guards.specs.Truths.{and_all};
ghost use Rattle.executor.specs.Certain.{BeginsWithCell};
ghost use Rattle.executor.specs.Known.{formula_names, formulas_name, known_cell, known_value, lent_name, AreTrue, IsKnownInside, KnowsMore, LetsAllThrough, LetsSpanThrough, LetsSpansThrough};

use crate::certain::SpanRows;
use crate::found_order::{behind_prefix, shared_cell};
use expressions::eval::Users;
use expressions::types::Typed;
use gathering::reads::{ColumnKind, any_names, names};
use guards::conditions::are_all_met;
use guards::guard::Formula;
use key_ranges::{KeyRange, KeySpan};
use row_codec::key_cell_at;
use sql_ast::columns::{ColumnType, Columns};
use sql_ast::scope::ColumnIndex;
use sql_types::items::Items;
use sql_types::row::RowView;
use sql_types::value::{Truth, ValueRef};
use std::alloc::{AllocError, Global};
use table_rows::Target;

/// A column of a table by its index, and the value that it has in each row of a span.
#[derive(Clone, Copy)]
pub struct KnownColumn<'a> {
    pub index: usize,
    pub value: ValueRef<'a>,
}

/// What is known of each row of a span: the columns whose values are the same in all of them, and the
/// least and the greatest value that one more column may have. As a row it has null in each column that
/// is not known.
#[derive(Drop)]
pub struct KnownColumns<'a> {
    pub columns: Items<KnownColumn<'a>>,
    pub least: Option<KnownColumn<'a>>,
    pub greatest: Option<KnownColumn<'a>>,
}

/// The columns that are not known.
#[derive(Clone, Copy)]
pub struct Unknown<'a> {
    pub known: &'a KnownColumns<'a>,
}

impl<'a> RowView for KnownColumns<'a> {
    ghost use Rattle.executor.specs.Known.{known_cell};

    ghost cell = { known_cell };

    fn value(&self, table: usize, column: usize) -> ValueRef<'_> {
        if table > 0 {
            return ValueRef::Null;
        }
        match self.find(column) {
            Some(value) => value,
            None => ValueRef::Null,
        }
    }
}

impl<'a> ColumnKind for Unknown<'a> {
    ghost use Rattle.executor.specs.Known.{is_unknown};

    ghost has = { is_unknown };

    fn has(&self, column: ColumnIndex) -> bool {
        column.table != 0 || self.known.find(column.column).is_none()
    }
}

impl<'a> KnownColumns<'a> {
    /// The value of a column, if it is known.
    pub(crate) fn find(&self, index: usize) -> Option<ValueRef<'a>>
        ensures { option_map owned result ≡ known_value index self.now.columns }
    {
        for column in self.columns.as_slice() {
            if column.index == index {
                return Some(column.value);
            }
        }
        None
    }
}

/// Whether neither row security nor a condition leaves out a row that a target may find: there is
/// none of them, or they are true of each row in each span of the target's range, by what is known of the
/// rows of the span.
#[tactic(auto, using(crate::proofs::Known::none_stops))]
pub(crate) fn all_pass(
    alloc: Global,
    table: &Target<'_>,
    users: &Users<'_>,
    conditions: &[Typed],
) -> Result<bool, AllocError>
    ensures { IfOk result (λ all. IsTrue all → LetsAllThrough table.now (names_of users.now) conditions.now) }
{
    if table.guard.existing.is_empty() && conditions.is_empty() {
        return Ok(true);
    }
    match table.range {
        Some(KeyRange::Span { start, stop }) => {
            passes_in_span(
                alloc,
                table,
                users,
                conditions,
                start.as_slice(),
                stop.as_slice(),
            )
        }
        Some(KeyRange::Several(spans)) => {
            passes_in_spans(alloc, table, users, conditions, spans.as_slice())
        }
        _ => Ok(false),
    }
}

// The same of the rows whose keys are in one of these spans.
fn passes_in_spans(
    alloc: Global,
    table: &Target<'_>,
    users: &Users<'_>,
    conditions: &[Typed],
    spans: &[KeySpan],
) -> Result<bool, AllocError>
    ensures { IfOk result (λ all. IsTrue all
        → LetsSpansThrough table.now (names_of users.now) conditions.now spans.now) }
{
    for span in spans {
        let (start, stop) = (span.start.as_slice(), span.stop.as_slice());
        if !passes_in_span(alloc, table, users, conditions, start, stop)? {
            return Ok(false);
        }
    }
    Ok(true)
}

// The same of the rows whose keys are in a span.
fn passes_in_span(
    alloc: Global,
    table: &Target<'_>,
    users: &Users<'_>,
    conditions: &[Typed],
    start: &[u8],
    stop: &[u8],
) -> Result<bool, AllocError>
    ensures { IfOk result (λ all. IsTrue all
        → LetsSpanThrough table.now (names_of users.now) conditions.now start.now stop.now) }
{
    match known_inside(alloc, table.columns, start, stop)? {
        None => Ok(false),
        Some(known) => {
            Ok(
                are_true(&known, table, users, conditions)
                    || are_certain(&known, table, users, conditions),
            )
        }
    }
}

// What is known of each row whose key is in a span.
fn known_inside<'a>(
    alloc: Global,
    columns: &Columns,
    start: &'a [u8],
    stop: &'a [u8],
) -> Result<Option<KnownColumns<'a>>, AllocError>
    ensures { IfOk result (λ known. IfSome known (λ k. (id : ℕ)
        → IsKnownInside id columns.now start.now stop.now k)) }
{
    match behind_prefix(start, stop) {
        None => Ok(None),
        Some((start, stop)) => {
            let mut known = KnownColumns {
                columns: Items::new(alloc),
                least: None,
                greatest: None,
            };
            push_known(columns, columns.key(), start, stop, &mut known)?;
            Ok(Some(known))
        }
    }
}

// Puts to what is known the columns of a key, from these on, with whose cells `start` and `stop` both
// begin, and the bounds of the next column.
#[tactic(auto, using(crate::proofs::Known::none_more))]
fn push_known<'a>(
    columns: &Columns,
    key: &[usize],
    start: &'a [u8],
    stop: &'a [u8],
    known: &mut KnownColumns<'a>,
) -> Result<(), AllocError>
    ensures { OnOk result
        (KnowsMore columns.now start.now stop.now key.now known.old known.new) }
{
    let Some((first, others)) = key.split_first() else {
        return Ok(());
    };
    let Some(column) = columns.get(*first) else {
        return Ok(());
    };
    let kind = column.column_type;
    let Some(cell) = shared_cell(kind, start, stop) else {
        known.least = first_cell(*first, kind, start);
        known.greatest = first_cell(*first, kind, stop);
        return Ok(());
    };
    known.columns.push(KnownColumn {
        index: *first,
        value: cell.value,
    })?;
    push_known(columns, others, cell.start, cell.stop, known)
}

// The value of a column of this type with whose cell bytes begin, if they do.
fn first_cell(index: usize, kind: ColumnType, bytes: &[u8]) -> Option<KnownColumn<'_>>
    ensures { IfSome result (BeginsWithCell index kind bytes.now) }
{
    let (value, _) = key_cell_at(kind, bytes)?;
    Some(KnownColumn { index, value })
}

// Whether the guard of a table and the conditions are true by what is known.
fn are_certain<'x>(
    known: &'x KnownColumns<'x>,
    table: &'x Target<'x>,
    users: &'x Users<'x>,
    conditions: &'x [Typed],
) -> bool
    ensures { IsTrue result → AreTrue known.now table.now (names_of users.now) conditions.now }
{
    let guarded = SpanRows {
        known,
        users: table.users,
    };
    let rows = SpanRows { known, users };
    guarded.are_formulas_true(table.guard.existing.as_slice()) && rows.are_true(conditions)
}

// Whether the guard of a table and the conditions read no columns but these, and are true of them.
fn are_true(
    known: &KnownColumns<'_>,
    table: &Target<'_>,
    users: &Users<'_>,
    conditions: &[Typed],
) -> bool
    ensures { IsTrue result → AreTrue known.now table.now (names_of users.now) conditions.now }
{
    let unknown = Unknown { known };
    if formulas_name(table.guard.existing.as_slice(), &unknown) || any_names(conditions, &unknown) {
        return false;
    }
    match table.guard.sees(known, table.users) {
        Ok(true) => are_met(known, conditions, users),
        _ => false,
    }
}

// Whether all conditions are true of these columns.
fn are_met(known: &KnownColumns<'_>, conditions: &[Typed], users: &Users<'_>) -> bool
    ensures { IsTrue result → and_all truth.True
        (map (value_on (known_cell known.now) (names_of users.now)) conditions.now) ≡ Ok truth.True }
{
    match are_all_met(Truth::True, conditions, known, users) {
        Ok(Truth::True) => true,
        _ => false,
    }
}

// Whether one of these formulas names a column of a kind.
fn formulas_name<K: ColumnKind>(formulas: &[Formula<'_>], kind: &K) -> bool
    ensures { result ≡ formulas_name (K.has kind.now) formulas.now }
{
    for formula in formulas {
        if formula_names(formula, kind) {
            return true;
        }
    }
    false
}

fn formula_names<K: ColumnKind>(formula: &Formula<'_>, kind: &K) -> bool
    ensures { result ≡ formula_names (K.has kind.now) formula.now }
{
    lent_name(formula.permissive.as_slice(), kind)
        || lent_name(formula.restrictive.as_slice(), kind)
}

// Whether one of these conditions, which are lent, names a column of a kind.
fn lent_name<K: ColumnKind>(conditions: &[&Typed], kind: &K) -> bool
    ensures { result ≡ lent_name (K.has kind.now) conditions.now }
{
    for condition in conditions {
        if names(condition.tree(), kind) {
            return true;
        }
    }
    false
}
