//! A walk over the rows of a table, each read in place.
ghost use Rattle.std.specs.Prelude.{◌≡◌, ◌++◌, IfOk, ℕ, Bool, List, Result, MatchOption, IfSome, drop};
ghost use Rattle.sql_types.specs.Row.{Row};
ghost use Rattle.sql_types.specs.declared.state.SqlState.{SqlState as Code};
ghost use Rattle.sql_ast.specs.Layout.{Layout};
ghost use Rattle.sql_ast.specs.Fits.{FitsTable};
ghost use Rattle.store.specs.Walks.{span};
ghost use Rattle.row_codec.specs.Rows.{row_prefix, Spells};
ghost use Rattle.stored_database.specs.RecordFormat.{row_record};
ghost use Rattle.store.specs.StatementError.{ReadsMap};
ghost use Rattle.table_rows.specs.Failures.{ReadsNoMap};
ghost use Rattle.table_rows.specs.Visits.{VisitsAt, VisitsRecord, IsDoneOnlyIf, SpellsVisited};
ghost use Rattle.table_rows.specs.Walked.{WalksOn};
ghost use Rattle.table_rows.specs.Costs.{walk_cost};

use row_codec::{RowRef, push_row_prefix};
use sql_ast::columns::Columns;
use std::alloc::{AllocError, Global};
use store::{EntryRef, Fault, Map, StatementError};

/// Whether a walk goes on behind a row.
#[derive(Clone, Copy)]
pub enum Flow {
    /// The next row is visited.
    Continue,
    /// No more rows are visited: whatever they were, the same would be answered.
    Done,
}

/// What is done with the rows of a table, in the order of the keys.
pub trait RowVisitor {
    /// What is answered in the end.
    type Answer;

    /// Whether a walk may be done before its last row.
    ghost ends_early: { Bool };

    /// What is answered in the end if these rows of the table of this number and of these columns
    /// still come, or the refusal.
    ghost after: { Self → ℕ → Layout → List Row → Result Self.Answer Code };

    /// Visits a row, which has this key in the map, and says whether the walk goes on. An error ends
    /// the walk; it is no Device.
    fn visit(
        &mut self,
        columns: &Columns,
        key: &[u8],
        row: &RowRef<'_>,
    ) -> Result<Flow, StatementError>
        ensures visits { (id : ℕ) → VisitsAt id columns.now key.now result row.now
            (after self.old id columns.now) (after self.new id columns.now) }
        ensures ends { IsDoneOnlyIf ends_early result }
        ensures no_read { ReadsNoMap result };
}

/// What the keys of the rows of the table of this number begin with.
pub(crate) fn table_prefix(alloc: Global, id: u32) -> Result<Vec<u8>, AllocError>
    ensures { IfOk result (λ prefix. prefix.items ≡ row_prefix id) }
{
    let mut prefix = Vec::new(alloc);
    push_row_prefix(&mut prefix, id)?;
    Ok(prefix)
}

/// Visits the rows whose keys are in a span, in the order of the keys, and says whether the walk goes on
/// behind them: from the key `start` on, up to the last whose key comes before `stop` or begins with it.
/// The map lends what is visited. A failure ends the walk: the refusal of the first row that is refused;
/// Memory; Device; Damaged, where a record that is found spells no row that a table of these columns may
/// hold.
#[tactic(auto, using(crate::proofs::Fronts::walking_first))]
pub(crate) fn visit_rows<M: Map, V: RowVisitor>(
    records: &mut M,
    start: &[u8],
    stop: &[u8],
    columns: &Columns,
    visitor: &mut V,
) -> Result<Flow, StatementError>
    ensures preserved { M.preserved records.old records.new }
    ensures reads { ReadsMap result (M.state records.old) (M.state records.new) }
    ensures cost { (M.state records.old).sound → M.cost records.old records.new
        (walk_cost 1 (span start.now stop.now (M.state records.old).map)) }
    ensures walked { (M.state records.old).sound → (id : ℕ)
        → WalksOn id columns.now (span start.now stop.now (M.state records.old).map)
        (V.after visitor.old id columns.now) (V.after visitor.new id columns.now) result }
    ensures ends { IsDoneOnlyIf V.ends_early result }
{
    let mut place = records.seek(start)?;
    for _ in 0..u64::MAX {
        if !records.step_within(&mut place, stop)? {
            return Ok(Flow::Continue);
        }
        let entry = records.entry(&place);
        match visit_record(columns, &entry, visitor)? {
            Flow::Continue => {}
            Flow::Done => return Ok(Flow::Done),
        }
    }
    Err(StatementError::Failed(Fault::Memory))
}

/// Visits the row that a record spells, read in place. The failures are those of the visit, and
/// Damaged, where the record spells no row that a table of these columns may hold.
pub(crate) fn visit_record<V: RowVisitor>(
    columns: &Columns,
    entry: &EntryRef<'_>,
    visitor: &mut V,
) -> Result<Flow, StatementError>
    ensures visits { (id : ℕ) → VisitsRecord id columns.now entry.now result
        (V.after visitor.old id columns.now) (V.after visitor.new id columns.now) }
    ensures spelled { SpellsVisited columns.now entry.now result }
    ensures ends { IsDoneOnlyIf V.ends_early result }
    ensures no_read { ReadsNoMap result }
{
    // A row takes 400 bytes, so it is lent from where it is read.
    let mut row = RowRef::new();
    match read_row(&mut row, columns, entry.key, entry.value) {
        None => Err(StatementError::Failed(Fault::Damaged)),
        Some(()) => visitor.visit(columns, entry.key, &row),
    }
}

// Reads the row that a record spells in place of the one that was there, or `None` where it spells
// none.
fn read_row<'a>(
    row: &mut RowRef<'a>,
    columns: &Columns,
    key: &'a [u8],
    value: &'a [u8],
) -> Option<()>
    ensures found { IfSome result (λ _. Spells columns.now (drop 5 key.now) value.now row.new) }
    ensures only { (id : ℕ) (r : Row) → FitsTable columns.now r
        → (key.now, value.now) ≡ row_record id columns.now r → MatchOption result ⊥ (λ _. row.new ≡ r) }
{
    row.read(columns, after_prefix(key)?, value)
}

// What follows the prefix that the keys of a table's rows have.
fn after_prefix(key: &[u8]) -> Option<&[u8]>
    ensures found { IfSome result (λ rest. rest.now ≡ drop 5 key.now) }
    ensures only { (id : ℕ) (rest : List ℕ) → key.now ≡ row_prefix id ++ rest
        → MatchOption result ⊥ (λ found. found.now ≡ rest) }
{
    key.get(5..)
}
