//! Rows under their sort keys, of which those that are behind the limit are let go.
ghost use Rattle.std.specs.Prelude.{◌≡◌, ◌≤◌, ◌+◌, ◌-◌, ◌++◌, ◌∷◌, [], List, length, map, slice_get, true, IfOk, OnOk};
ghost use Rattle.std.specs.List.Sorted.{IsSortedWithin};
ghost use Rattle.std.specs.Option.{option_copied};
ghost use Rattle.abstract_database.specs.Queries.{sorted};
ghost use Rattle.gathering.specs.Entries.{comes_before, entry_of, follows, in_order, row_cmp, worst_of, Entry, HasFew};

use crate::keyed_row::KeyedRow;
use crate::row_order::in_order_of_keys;
use std::alloc::{AllocError, Global};

/// The rows, of which so many are in order, from the first on.
#[derive(Drop)]
pub struct TopRows {
    rows: Vec<KeyedRow>,
    sorted: usize,
    ghost within: { sorted ≤ length rows.items },
    ghost ordered: { IsSortedWithin comes_before rows.items 0 sorted },
}

impl TopRows {
    /// No rows yet.
    pub(crate) fn new(alloc: Global) -> TopRows
        ensures { result.rows.items ≡ [] }
    {
        TopRows {
            rows: Vec::new(alloc),
            sorted: 0,
        }
    }

    /// The last of the rows up to the limit, where so many are in order: a row that does not come before it is behind the limit.
    pub(crate) fn worst(&self, limit: Option<u64>) -> Option<&KeyedRow>
        ensures { option_copied result ≡ worst_of limit self.now.sorted self.now.rows.items }
    {
        match limit {
            None => None,
            Some(limit) => {
                if limit == 0 || (self.sorted as u64) < limit {
                    None
                } else {
                    self.rows.get((limit - 1) as usize)
                }
            }
        }
    }

    /// Puts a row behind the others.
    pub(crate) fn push(&mut self, row: KeyedRow) -> Result<(), AllocError>
        ensures { OnOk result (self.new.rows.items ≡ self.old.rows.items ++ row ∷ []) }
    {
        let sorted = self.sorted_with(&row);
        self.rows.push(row)?;
        self.sorted = sorted;
        Ok(())
    }

    /// How many rows are in order, from the first on, once a row stands behind them.
    fn sorted_with(&self, row: &KeyedRow) -> usize
        ensures within { result ≤ length self.now.rows.items + 1 }
        ensures ordered { IsSortedWithin comes_before (self.now.rows.items ++ row.now ∷ []) 0 result }
        ensures more { self.now.sorted ≡ length self.now.rows.items
            → follows (slice_get self.now.rows.items (length self.now.rows.items - 1)) row.now ≡ true
            → result ≡ self.now.sorted + 1 }
    {
        if self.sorted < self.rows.len() {
            return self.sorted;
        }
        if follows(self.rows.last(), row) {
            self.sorted + 1
        } else {
            self.sorted
        }
    }

    /// Lets the rows go that are behind the limit, where there are more than twice as many as it.
    pub(crate) fn cut(&mut self, limit: Option<u64>) -> Result<(), AllocError>
        ensures same { OnOk result ((more : List Entry)
            → in_order limit (map entry_of self.old.rows.items ++ more)
            ≡ in_order limit (map entry_of self.new.rows.items ++ more)) }
        ensures few { OnOk result (HasFew limit self.new.rows.items) }
    {
        let Some(limit) = limit else {
            return Ok(());
        };
        if self.rows.len() as u64 / 2 <= limit {
            return Ok(());
        }
        self.rows.sort()?;
        self.rows.truncate(limit as usize);
        self.sorted = self.rows.len();
        Ok(())
    }

    /// The rows in order, of which those with the same keys stay in their order.
    pub(crate) fn into_sorted(self) -> Result<Vec<KeyedRow>, AllocError>
        ensures { IfOk result (λ rows. rows.items ≡ sorted row_cmp self.rows.items) }
    {
        let sorted = self.sorted;
        let rows = self.rows;
        if sorted == rows.len() {
            return Ok(rows);
        }
        in_order_of_keys(rows)
    }
}

/// Whether a row may stand behind the last so far.
fn follows(last: Option<&KeyedRow>, row: &KeyedRow) -> bool
    ensures { result ≡ follows (option_copied last.entry) row.now }
{
    match last {
        None => true,
        Some(last) => !row.cmp(last).is_lt(),
    }
}
