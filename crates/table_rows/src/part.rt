//! A walk over the rows of a target in parts, between which other reads may stand.
ghost use Rattle.std.specs.Prelude.{◌≡◌, ◌++◌, ◌∷◌, [], false, IfErr, IfOk, ℕ, Err, List};
ghost use Rattle.sql_types.specs.Row.{Row};
ghost use Rattle.store.specs.StatementError.{ReadsMap};
ghost use Rattle.store.specs.Walks.{span};
ghost use Rattle.store.specs.Records.{entries_where};
ghost use Rattle.key_ranges.specs.Spans.{is_in_spans};
ghost use Rattle.table_rows.specs.Parts.{WalksPart, WalksTo};
ghost use Rattle.table_rows.specs.Ranged.{records_of, FindsRows};
ghost use Rattle.table_rows.specs.Visits.{VisitsAll};
ghost use Rattle.table_rows.specs.Walked.{WalksOn};

use crate::target::Target;
use crate::visit::{Flow, RowVisitor, table_prefix, visit_record};
use crate::walk::visit_key;
use key_ranges::{KeyRange, KeySpans};
use sql_ast::columns::Columns;
use sql_types::items::Items;
use std::alloc::{AllocError, Global};
use store::{Fault, Map, StatementError};

/// Visits the first rows of a target, up to so many, at least one, and gives the range of keys in
/// which the others are, or `None` where no row is left. A target with one key is visited whole. A
/// failure ends the walk, as in [`visit_target`](crate::visit_target).
pub fn visit_part<M: Map, V: RowVisitor>(
    alloc: Global,
    records: &mut M,
    target: &Target<'_>,
    most: u64,
    visitor: &mut V,
) -> Result<Option<KeyRange>, StatementError>
    ensures preserved { M.preserved records.old records.new }
    ensures reads { ReadsMap result (M.state records.old) (M.state records.new) }
    ensures part { (M.state records.old).sound → V.ends_early ≡ false → IfOk result
        (WalksPart target.now.id target.now.columns.now (M.state records.old).map
        (records_of target.now (M.state records.old).map)
        (V.after visitor.old target.now.id target.now.columns.now)
        (V.after visitor.new target.now.id target.now.columns.now)) }
    ensures fails { (M.state records.old).sound → (rows : List Row)
        → FindsRows target.now (M.state records.old).map rows
        → IfErr result (λ failure. VisitsAll (Err failure) rows
        (V.after visitor.old target.now.id target.now.columns.now)
        (V.after visitor.new target.now.id target.now.columns.now)) }
{
    match target.range {
        None => {
            let prefix = table_prefix(alloc, target.id)?;
            let all = prefix.as_slice();
            visit_first_of_span(alloc, records, all, all, target.columns, most, visitor)
        }
        Some(KeyRange::Point(key)) => {
            visit_key(alloc, records, key.as_slice(), target.columns, visitor)?;
            Ok(None)
        }
        Some(KeyRange::Span { start, stop }) => {
            let (start, stop) = (start.as_slice(), stop.as_slice());
            visit_first_of_span(alloc, records, start, stop, target.columns, most, visitor)
        }
        Some(KeyRange::Several(spans)) => {
            visit_first_of_spans(alloc, records, spans, target.columns, most, visitor)
        }
    }
}

// The same of the rows whose keys are in a span.
fn visit_first_of_span<M: Map, V: RowVisitor>(
    alloc: Global,
    records: &mut M,
    start: &[u8],
    stop: &[u8],
    columns: &Columns,
    most: u64,
    visitor: &mut V,
) -> Result<Option<KeyRange>, StatementError>
    ensures preserved { M.preserved records.old records.new }
    ensures reads { ReadsMap result (M.state records.old) (M.state records.new) }
    ensures part { (M.state records.old).sound → V.ends_early ≡ false → IfOk result
        (λ left. (id : ℕ) → WalksPart id columns.now (M.state records.old).map
        (span start.now stop.now (M.state records.old).map)
        (V.after visitor.old id columns.now) (V.after visitor.new id columns.now) left) }
    ensures fails { (M.state records.old).sound → (id : ℕ) → IfErr result
        (λ failure. WalksOn id columns.now (span start.now stop.now (M.state records.old).map)
        (V.after visitor.old id columns.now) (V.after visitor.new id columns.now) (Err failure)) }
{
    match visit_first_rows(alloc, records, start, stop, columns, most, visitor)? {
        SpanVisit::All(_) => Ok(None),
        SpanVisit::Before(start) => {
            let stop = Items::from_vec(Vec::from_slice(alloc, stop)?);
            Ok(Some(KeyRange::Span { start, stop }))
        }
        SpanVisit::Done => Ok(None),
    }
}

// The same of the rows whose keys are in several spans.
fn visit_first_of_spans<M: Map, V: RowVisitor>(
    alloc: Global,
    records: &mut M,
    spans: &KeySpans,
    columns: &Columns,
    most: u64,
    visitor: &mut V,
) -> Result<Option<KeyRange>, StatementError>
    ensures preserved { M.preserved records.old records.new }
    ensures reads { ReadsMap result (M.state records.old) (M.state records.new) }
    ensures part { (M.state records.old).sound → V.ends_early ≡ false → IfOk result
        (λ left. (id : ℕ) → WalksPart id columns.now (M.state records.old).map
        (entries_where (is_in_spans spans.now.spans) (M.state records.old).map)
        (V.after visitor.old id columns.now) (V.after visitor.new id columns.now) left) }
    ensures fails { (M.state records.old).sound → (id : ℕ) → IfErr result
        (λ failure. WalksOn id columns.now
        (entries_where (is_in_spans spans.now.spans) (M.state records.old).map)
        (V.after visitor.old id columns.now) (V.after visitor.new id columns.now) (Err failure)) }
{
    let all = spans.as_slice();
    let mut more = most;
    for (index, span) in all.iter().enumerate() {
        let (start, stop) = (span.start.as_slice(), span.stop.as_slice());
        match visit_first_rows(alloc, records, start, stop, columns, more, visitor)? {
            SpanVisit::All(others) => more = others,
            SpanVisit::Before(from) => {
                let left = spans.begun_at(alloc, index, from)?;
                return Ok(Some(KeyRange::Several(left)));
            }
            SpanVisit::Done => return Ok(None),
        }
    }
    Ok(None)
}

/// How far a walk over the first rows of a span came.
#[derive(Drop)]
pub enum SpanVisit {
    /// To its end, where so many more rows may be visited.
    All(u64),
    /// The other rows of the span are from this key on.
    Before(Items<u8>),
    /// The visitor is done.
    Done,
}

// Visits the first rows whose keys are in a span, up to so many, at least one.
#[tactic(auto, using(crate::proofs::Fronts::walking_first))]
fn visit_first_rows<M: Map, V: RowVisitor>(
    alloc: Global,
    records: &mut M,
    start: &[u8],
    stop: &[u8],
    columns: &Columns,
    most: u64,
    visitor: &mut V,
) -> Result<SpanVisit, StatementError>
    ensures preserved { M.preserved records.old records.new }
    ensures reads { ReadsMap result (M.state records.old) (M.state records.new) }
    ensures part { (M.state records.old).sound → IfOk result
        (λ visited. (id : ℕ) → WalksTo id columns.now start.now stop.now (M.state records.old).map
        (V.after visitor.old id columns.now) (V.after visitor.new id columns.now)
        V.ends_early visited) }
    ensures fails { (M.state records.old).sound → (id : ℕ) → IfErr result
        (λ failure. WalksOn id columns.now (span start.now stop.now (M.state records.old).map)
        (V.after visitor.old id columns.now) (V.after visitor.new id columns.now) (Err failure)) }
{
    let mut place = records.seek(start)?;
    for visited in 0..u64::MAX {
        if !records.step_within(&mut place, stop)? {
            return Ok(SpanVisit::All(most.saturating_sub(visited)));
        }
        let entry = records.entry(&place);
        match visit_record(columns, &entry, visitor)? {
            Flow::Continue => {}
            Flow::Done => return Ok(SpanVisit::Done),
        }
        if visited + 1 >= most {
            return Ok(SpanVisit::Before(key_behind(alloc, entry.key)?));
        }
    }
    Err(StatementError::Failed(Fault::Memory))
}

// The first key behind this one.
fn key_behind(alloc: Global, key: &[u8]) -> Result<Items<u8>, AllocError>
    ensures { IfOk result (λ behind. behind ≡ key.now ++ 0 ∷ []) }
{
    let mut behind = Vec::from_slice(alloc, key)?;
    behind.push(0)?;
    Ok(Items::from_vec(behind))
}
