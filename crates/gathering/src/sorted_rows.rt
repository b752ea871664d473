//! The rows of the combinations, in the order of ORDER BY.
ghost use Rattle.std.specs.Prelude.{◌≡◌, [], ◌∷◌, List, None, Ok, IfOk, OnOk, map};
ghost use Rattle.expressions.specs.Meaning.{UserNames};
ghost use Rattle.expressions.specs.Rows.{names_of};
ghost use Rattle.abstract_database.specs.Queries.{Combination};
ghost use Rattle.guards.specs.Guards.{Cells, cells_of};
ghost use Rattle.gathering.specs.Answers.{no_rows, rows_after};
ghost use Rattle.gathering.specs.Entries.{entry_in, entry_on, is_behind, keys_compared, keys_on, own_keys, row_of, worst_of};
ghost use Rattle.gathering.specs.Found.{keyed_after, keyed_answer, keys_of, AreFew};

use crate::answer::AnswerRows;
use crate::keyed_row::{KeyedRow, both, compare_key, compare_keys, key_on, keys_on};
use crate::outputs::output;
use crate::query::{RowList, TypedSortKey};
use crate::top_rows::TopRows;
use expressions::eval::Users;
use sql_types::items::Items;
use sql_types::row::RowView;
use sql_types::state::SqlState;
use sql_types::value::Value;
use std::alloc::{AllocError, Global};
use std::cmp::Ordering;

/// The rows of a SELECT with ORDER BY, or the first refusal of a key. Rows that are behind the limit, whatever still comes, are
/// let go: there are at most twice as many as it, and one.
#[derive(Drop)]
pub struct SortedRows<'a> {
    list: &'a RowList,
    first: &'a TypedSortKey,
    others: &'a [TypedSortKey],
    limit: Option<u64>,
    refused: Option<SqlState>,
    kept: TopRows,
}

impl<'a> SortedRows<'a> {
    /// No rows yet, and at most so many in the end, in the order of a first key and others behind it.
    pub fn new(
        alloc: Global,
        list: &'a RowList,
        first: &'a TypedSortKey,
        others: &'a [TypedSortKey],
        limit: Option<u64>,
    ) -> SortedRows<'a>
        ensures answer { (users : UserNames) (more : List Combination) → keyed_after users result more
            ≡ keyed_answer users list.now (first.now ∷ others.now) limit more }
        ensures few { AreFew result }
    {
        SortedRows {
            list,
            first,
            others,
            limit,
            refused: None,
            kept: TopRows::new(alloc),
        }
    }

    /// Adds the next combination that meets the conditions.
    pub fn add<R: RowView>(
        &mut self,
        alloc: Global,
        row: &R,
        users: &Users<'_>,
    ) -> Result<(), AllocError>
        ensures taken { OnOk result ((c : Combination) (more : List Combination) → R.cell row.now ≡ cells_of c
            → keyed_after (names_of users.now) self.old (c ∷ more)
            ≡ keyed_after (names_of users.now) self.new more) }
        ensures few { OnOk result (AreFew self.old → AreFew self.new) }
    {
        if self.refused.is_some() {
            return Ok(());
        }
        if self.is_behind(row, users) {
            return Ok(());
        }
        match self.keyed(alloc, row, users)? {
            Ok(keyed) => self.keep(keyed)?,
            Err(state) => self.refused = Some(state),
        }
        Ok(())
    }

    /// Puts the row of a combination behind the others, of which those behind the limit may be let go.
    fn keep(&mut self, keyed: KeyedRow) -> Result<(), AllocError>
        ensures taken { OnOk result ((users : UserNames) (cells : Cells) (c : Combination) (more : List Combination)
            → cells ≡ cells_of c
            → entry_in (Ok keyed) ≡ entry_on users self.old.list.now (keys_of self.old) cells
            → keyed_after users self.old (c ∷ more) ≡ keyed_after users self.new more) }
        ensures few { OnOk result (AreFew self.new) }
    {
        self.kept.push(keyed)?;
        self.kept.cut(self.limit)?;
        Ok(())
    }

    /// Whether a row is behind the limit, whatever still comes: it does not come before the last of the rows up to the limit. No
    /// memory is taken for it.
    fn is_behind<R: RowView>(&self, row: &R, users: &Users<'_>) -> bool
        ensures { result ≡ is_behind (keys_on (names_of users.now) (keys_of self.now) (R.cell row.now))
            (worst_of self.now.limit self.now.kept.sorted self.now.kept.rows.items) }
    {
        match self.kept.worst(self.limit) {
            None => false,
            Some(worst) => match self.compare(worst, row, users) {
                Ok(ordering) => !ordering.is_lt(),
                Err(_) => false,
            },
        }
    }

    /// How the keys of a row compare with those of a row that is kept, or the refusal of the first key that has one.
    fn compare<R: RowView>(
        &self,
        kept: &KeyedRow,
        row: &R,
        users: &Users<'_>,
    ) -> Result<Ordering, SqlState>
        ensures { result ≡ keys_compared
            (keys_on (names_of users.now) (keys_of self.now) (R.cell row.now)) (own_keys kept.now) }
    {
        let first = compare_key(self.first, row, users, &kept.first);
        both(
            first,
            compare_keys(self.others, row, users, kept.others.as_slice()),
        )
    }

    /// The row of a combination under its keys, or the refusal of the first key that has one.
    fn keyed<R: RowView>(
        &self,
        alloc: Global,
        row: &R,
        users: &Users<'_>,
    ) -> Result<Result<KeyedRow, SqlState>, AllocError>
        ensures { IfOk result (λ found. entry_in found
            ≡ entry_on (names_of users.now) self.now.list.now (keys_of self.now) (R.cell row.now)) }
    {
        let first = match key_on(alloc, self.first, row, users)? {
            Ok(first) => first,
            Err(state) => return Ok(Err(state)),
        };
        match keys_on(alloc, self.others, row, users)? {
            Ok(others) => {
                let row = output(alloc, self.list, row, users)?;
                let others = others.into_vec();
                Ok(Ok(KeyedRow { first, others, row }))
            }
            Err(state) => Ok(Err(state)),
        }
    }

    /// The rows in the order of their keys, of which those with the same keys stay in their order, up to the limit.
    pub fn into_rows(
        self,
        alloc: Global,
    ) -> Result<Result<Items<Items<Value>>, SqlState>, AllocError>
        ensures { IfOk result (λ rows. (users : UserNames) → rows ≡ keyed_after users self.entry []) }
    {
        match self.refused {
            Some(state) => Ok(Err(state)),
            None => {
                let rows = self.kept.into_sorted()?;
                first_rows(alloc, self.limit, rows)
            }
        }
    }
}

/// The rows up to the limit, or the first refusal among these.
fn first_rows(
    alloc: Global,
    limit: Option<u64>,
    rows: Vec<KeyedRow>,
) -> Result<Result<Items<Items<Value>>, SqlState>, AllocError>
    ensures { IfOk result (λ r. r ≡ rows_after (no_rows limit) (map row_of rows.items)) }
{
    let mut answer = AnswerRows::new(alloc, limit);
    for entry in rows {
        let KeyedRow {
            first: _,
            others: _,
            row,
        } = entry;
        answer.add(row)?;
    }
    Ok(answer.into_rows())
}
