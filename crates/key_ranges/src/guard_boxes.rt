//! The boxes of what row security says of a table, and of conditions behind it.
ghost use Rattle.std.specs.Prelude.{◌≡◌, [], IfOk};
ghost use Rattle.abstract_database.specs.Guards.{any_of, formula as formula_term};
ghost use Rattle.guards.specs.Guards.{terms};
ghost use Rattle.expressions.specs.Rows.{names_of};
ghost use Rattle.key_ranges.specs.BoxCode.{role_names};
ghost use Rattle.key_ranges.specs.BoxLoops.{boxes_and_conditions, boxes_and_each, boxes_or_each};
ghost use Rattle.key_ranges.specs.Boxes.{boxes_of};
ghost use Rattle.key_ranges.specs.TableRanges.{boxes_of_guard, boxes_of_table, joined, terms_of};

use crate::box_search::BoxSearch;
use crate::boxes::{KeyBox, both_boxes, either_boxes, everything};
use crate::infallible::{are_formulas_infallible, are_lent_infallible, is_formula_infallible};
use expressions::eval::Users;
use expressions::infallible::is_infallible;
use expressions::types::Typed;
use guards::guard::Formula;
use sql_ast::columns::Columns;
use sql_types::items::Items;
use std::alloc::{AllocError, Global};

impl<'a> BoxSearch<'a> {
    // These boxes, and those of each of the conditions.
    fn boxes_or_each(
        &self,
        first: Items<KeyBox<'a>>,
        conditions: &'a [&'a Typed],
    ) -> Result<Items<KeyBox<'a>>, AllocError>
        ensures { IfOk result (λ boxes. boxes ≡ boxes_or_each self.now.columns.now self.now.table
            (names_of self.now.users.now) (role_names self.now.users.now) self.now.front.now first.entry conditions.now) }
    {
        let mut boxes = first;
        for condition in conditions {
            let more = self.boxes_of(condition.tree())?;
            boxes = either_boxes(self.alloc, boxes, more)?;
        }
        Ok(boxes)
    }

    // These boxes of a condition, which cannot fail if it is infallible, with those of each condition up to the first that may
    // fail.
    fn boxes_and_each(
        &self,
        infallible: bool,
        first: Items<KeyBox<'a>>,
        conditions: &'a [&'a Typed],
    ) -> Result<Items<KeyBox<'a>>, AllocError>
        ensures { IfOk result (λ boxes. boxes ≡ boxes_and_each self.now.columns.now self.now.table
            (names_of self.now.users.now) (role_names self.now.users.now) self.now.front.now infallible first.entry conditions.now) }
    {
        match conditions.split_first() {
            Some((condition, others)) if infallible => {
                let more = self.boxes_of(condition.tree())?;
                let boxes = both_boxes(self.alloc, first, more.as_slice())?;
                self.boxes_and_each(is_infallible(condition), boxes, others)
            }
            _ => Ok(first),
        }
    }

    /// The boxes of a formula of row security.
    #[tactic(auto, using(crate::proofs::BoxFormulas::formula_boxes))]
    pub(crate) fn boxes_of_formula(
        &self,
        formula: &'a Formula<'a>,
    ) -> Result<Items<KeyBox<'a>>, AllocError>
        ensures { IfOk result (λ boxes. boxes ≡ boxes_of self.now.columns.now self.now.table
            (names_of self.now.users.now) (role_names self.now.users.now) self.now.front.now
            (formula_term (terms formula.now.permissive) (terms formula.now.restrictive))) }
    {
        let permissive = formula.permissive.as_slice();
        let permitted = self.boxes_of_any(permissive)?;
        self.boxes_and_each(
            are_lent_infallible(permissive),
            permitted,
            formula.restrictive.as_slice(),
        )
    }

    // The boxes of conditions of which one is true.
    #[tactic(auto, using(crate::proofs::BoxFormulas::or_boxes))]
    fn boxes_of_any(&self, conditions: &'a [&'a Typed]) -> Result<Items<KeyBox<'a>>, AllocError>
        ensures { IfOk result (λ boxes. boxes ≡ boxes_of self.now.columns.now self.now.table
            (names_of self.now.users.now) (role_names self.now.users.now) self.now.front.now
            (any_of (terms conditions.now))) }
    {
        match conditions.split_first() {
            None => Ok(Items::new(self.alloc)),
            Some((condition, others)) => {
                let boxes = self.boxes_of(condition.tree())?;
                self.boxes_or_each(boxes, others)
            }
        }
    }
}

impl<'a> BoxSearch<'a> {
    /// The boxes of a guard: outside of them no row passes it, and it fails on none. They are of the table alone.
    pub(crate) fn boxes_of_guard(
        &self,
        formulas: &'a [Formula<'a>],
    ) -> Result<Items<KeyBox<'a>>, AllocError>
        requires table { self.now.table ≡ 0 }
        requires alone { self.now.front.now ≡ [] }
        ensures { IfOk result (λ boxes. boxes ≡ boxes_of_guard self.now.columns.now
            (names_of self.now.users.now) (role_names self.now.users.now) formulas.now) }
    {
        match formulas.split_first() {
            None => everything(self.alloc),
            Some((formula, others)) => {
                let boxes = self.boxes_of_formula(formula)?;
                if !is_formula_infallible(formula) {
                    return Ok(boxes);
                }
                let more = self.boxes_of_guard(others)?;
                both_boxes(self.alloc, boxes, more.as_slice())
            }
        }
    }

    // These boxes of a condition, which cannot fail if it is infallible, with those of each condition up to the first that may
    // fail.
    fn boxes_and_conditions(
        &self,
        infallible: bool,
        first: Items<KeyBox<'a>>,
        conditions: &'a [Typed],
    ) -> Result<Items<KeyBox<'a>>, AllocError>
        ensures { IfOk result (λ boxes. boxes ≡ boxes_and_conditions self.now.columns.now self.now.table
            (names_of self.now.users.now) (role_names self.now.users.now) self.now.front.now infallible first.entry conditions.now) }
    {
        match conditions.split_first() {
            Some((condition, others)) if infallible => {
                let more = self.boxes_of(condition.tree())?;
                let boxes = both_boxes(self.alloc, first, more.as_slice())?;
                self.boxes_and_conditions(is_infallible(condition), boxes, others)
            }
            _ => Ok(first),
        }
    }

    /// The boxes of conditions that are all true.
    #[tactic(auto, using(crate::proofs::BoxFormulas::condition_boxes))]
    fn boxes_of_conditions(&self, conditions: &'a [Typed]) -> Result<Items<KeyBox<'a>>, AllocError>
        ensures { IfOk result (λ boxes. boxes ≡ boxes_of self.now.columns.now self.now.table
            (names_of self.now.users.now) (role_names self.now.users.now) self.now.front.now
            (joined (terms_of conditions.now))) }
    {
        match conditions.split_first() {
            None => everything(self.alloc),
            Some((condition, others)) => {
                let boxes = self.boxes_of(condition.tree())?;
                self.boxes_and_conditions(is_infallible(condition), boxes, others)
            }
        }
    }
}

/// A table of a statement as its keys are bounded: its columns, its index in FROM, the formulas of its
/// guard, and the conditions of the statement, which are all true.
#[derive(Clone, Copy)]
pub(crate) struct BoundedTable<'a> {
    pub(crate) columns: &'a Columns,
    pub(crate) table: usize,
    pub(crate) formulas: &'a [Formula<'a>],
    pub(crate) conditions: &'a [Typed],
    pub(crate) users: &'a Users<'a>,
}

impl<'a> BoundedTable<'a> {
    /// The boxes of the guard and of the conditions behind it: outside of them no row counts, and
    /// nothing fails.
    pub(crate) fn boxes(&self, alloc: Global) -> Result<Items<KeyBox<'a>>, AllocError>
        ensures { IfOk result (λ boxes. boxes ≡ boxes_of_table self.now.columns.now self.now.table
            (names_of self.now.users.now) (role_names self.now.users.now) self.now.formulas.now
            (terms_of self.now.conditions.now)) }
    {
        let guard = BoxSearch {
            alloc,
            columns: self.columns,
            table: 0,
            users: self.users,
            front: &[],
        };
        let boxes = guard.boxes_of_guard(self.formulas)?;
        if !are_formulas_infallible(self.formulas) {
            return Ok(boxes);
        }
        let search = BoxSearch {
            table: self.table,
            ..guard
        };
        let more = search.boxes_of_conditions(self.conditions)?;
        both_boxes(alloc, boxes, more.as_slice())
    }
}
