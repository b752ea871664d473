//! The rows of the combinations, in their order.
ghost use Rattle.std.specs.Prelude.{◌≡◌, [], ◌∷◌, List, OnOk};
ghost use Rattle.expressions.specs.Meaning.{UserNames};
ghost use Rattle.expressions.specs.Rows.{names_of};
ghost use Rattle.abstract_database.specs.Queries.{Combination};
ghost use Rattle.guards.specs.Guards.{cells_of};
ghost use Rattle.gathering.specs.Answers.{is_open};
ghost use Rattle.gathering.specs.Found.{listed_after, listed_answer};

use crate::answer::AnswerRows;
use crate::outputs::output;
use crate::query::RowList;
use expressions::eval::Users;
use sql_types::items::Items;
use sql_types::row::RowView;
use sql_types::state::SqlState;
use sql_types::value::Value;
use std::alloc::{AllocError, Global};

/// The rows of a SELECT without ORDER BY. A row behind the limit, or behind a refusal, is not made.
#[derive(Drop)]
pub struct UnsortedRows<'a> {
    list: &'a RowList,
    answer: AnswerRows,
}

impl<'a> UnsortedRows<'a> {
    /// No rows yet, and at most so many in the end.
    pub fn new(alloc: Global, list: &'a RowList, limit: Option<u64>) -> UnsortedRows<'a>
        ensures { (users : UserNames) (more : List Combination) → listed_after users result more
            ≡ listed_answer users list.now limit more }
    {
        UnsortedRows {
            list,
            answer: AnswerRows::new(alloc, limit),
        }
    }

    /// Adds the next combination that meets the conditions.
    pub fn add<R: RowView>(
        &mut self,
        alloc: Global,
        row: &R,
        users: &Users<'_>,
    ) -> Result<(), AllocError>
        ensures { OnOk result ((c : Combination) (more : List Combination) → R.cell row.now ≡ cells_of c
            → listed_after (names_of users.now) self.old (c ∷ more)
            ≡ listed_after (names_of users.now) self.new more) }
    {
        if self.answer.is_open() {
            let values = output(alloc, self.list, row, users)?;
            self.answer.add(values)?;
        }
        Ok(())
    }

    /// Whether one more row may still count.
    pub fn is_open(&self) -> bool
        ensures { result ≡ is_open self.now.answer }
    {
        self.answer.is_open()
    }

    /// The rows, or the refusal.
    pub fn into_rows(self) -> Result<Items<Items<Value>>, SqlState>
        ensures { (users : UserNames) → result ≡ listed_after users self.entry [] }
    {
        self.answer.into_rows()
    }
}
