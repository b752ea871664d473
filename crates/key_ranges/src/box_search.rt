//! The boxes of a condition: outside of all of them it is false, and does not fail.
ghost use Rattle.std.specs.Prelude.{◌≡◌, IfOk};
ghost use Rattle.std.specs.Option.{option_map};
ghost use Rattle.sql_ast.specs.Term.{term_of};
ghost use Rattle.sql_types.specs.Value.{owned};
ghost use Rattle.expressions.specs.Rows.{names_of};
ghost use Rattle.key_ranges.specs.Bounds.{constant};
ghost use Rattle.key_ranges.specs.BoxCode.{role_names};
ghost use Rattle.key_ranges.specs.Boxes.{boxes_at, boxes_by, boxes_compared, boxes_of, boxes_of_member, boxes_of_name};

use crate::bounds::{BoundKind, exchanged};
use crate::boxes::{
    ColumnBound, KeyBox, both_boxes, boxes_between, boxes_if, boxes_of_roles, either_boxes,
    everything, one_box,
};
use crate::comparable::{constant, is_comparable, is_in, kind_of};
use expressions::eval::Users;
use expressions::infallible::has_no_arithmetic;
use sql_ast::columns::Columns;
use sql_ast::expression::{Comparison, Expression};
use sql_ast::scope::ColumnIndex;
use sql_types::items::Items;
use sql_types::value::{Value, ValueRef};
use std::alloc::{AllocError, Global};

/// The tables of a statement as its boxes are looked for: the columns of one, its index in FROM, and the rows of the tables
/// before it, where these are known.
#[derive(Clone, Copy)]
pub(crate) struct BoxSearch<'a> {
    pub(crate) alloc: Global,
    pub(crate) columns: &'a Columns,
    pub(crate) table: usize,
    pub(crate) users: &'a Users<'a>,
    pub(crate) front: &'a [&'a [Value]],
}

impl<'a> BoxSearch<'a> {
    /// The boxes of a condition: outside of them it is false, and does not fail.
    pub(crate) fn boxes_of(
        &self,
        tree: &'a Expression<ColumnIndex>,
    ) -> Result<Items<KeyBox<'a>>, AllocError>
        ensures { IfOk result (λ boxes. boxes ≡ boxes_of self.now.columns.now self.now.table
            (names_of self.now.users.now) (role_names self.now.users.now) self.now.front.now (term_of tree.now)) }
    {
        match tree {
            Expression::And(left, right) => {
                let first = self.boxes_of(left)?;
                if !has_no_arithmetic(left) {
                    return Ok(first);
                }
                let second = self.boxes_of(right)?;
                both_boxes(self.alloc, first, second.as_slice())
            }
            Expression::Or(left, right) => {
                let first = self.boxes_of(left)?;
                let second = self.boxes_of(right)?;
                either_boxes(self.alloc, first, second)
            }
            Expression::Compare(operator, left, right) => self.boxes_compared(
                *operator, left, right,
            ),
            Expression::MemberOf(operand) => self.boxes_of_member(operand),
            Expression::Literal(value) => boxes_if(self.alloc, value.as_ref()),
            _ => everything(self.alloc),
        }
    }
}

impl<'a> BoxSearch<'a> {
    // The boxes of a comparison.
    fn boxes_compared(
        &self,
        operator: Comparison,
        left: &'a Expression<ColumnIndex>,
        right: &'a Expression<ColumnIndex>,
    ) -> Result<Items<KeyBox<'a>>, AllocError>
        ensures { IfOk result (λ boxes. boxes ≡ boxes_compared self.now.columns.now self.now.table
            (names_of self.now.users.now) self.now.front.now operator (term_of left.now) (term_of right.now)) }
    {
        if let Some(boxes) = self.boxes_at(operator, left, right)? {
            return Ok(boxes);
        }
        if let Some(boxes) = self.boxes_at(exchanged(operator), right, left)? {
            return Ok(boxes);
        }
        boxes_between(
            self.alloc,
            operator,
            self.constant(left),
            self.constant(right),
        )
    }

    // The boxes of a comparison whose left operand is a column of the table, and whose right one is known.
    fn boxes_at(
        &self,
        operator: Comparison,
        left: &'a Expression<ColumnIndex>,
        right: &'a Expression<ColumnIndex>,
    ) -> Result<Option<Items<KeyBox<'a>>>, AllocError>
        ensures { IfOk result (λ boxes. boxes ≡ boxes_at self.now.columns.now self.now.table
            (names_of self.now.users.now) self.now.front.now operator (term_of left.now) (term_of right.now)) }
    {
        match left {
            Expression::Column(index) if index.table == self.table => {
                self.boxes_by(index.column, kind_of(operator), self.constant(right))
            }
            _ => Ok(None),
        }
    }

    // The box of a column that has such a bound, where it compares to its value in each row.
    fn boxes_by(
        &self,
        column: usize,
        kind: Option<BoundKind>,
        value: Option<ValueRef<'a>>,
    ) -> Result<Option<Items<KeyBox<'a>>>, AllocError>
        ensures { IfOk result (λ boxes. boxes ≡ boxes_by self.now.columns.now column kind (option_map owned value.entry)) }
    {
        match (kind, value) {
            (Some(kind), Some(value)) => {
                if !is_comparable(self.columns, column, value) {
                    return Ok(None);
                }
                let boxes = one_box(
                    self.alloc,
                    ColumnBound {
                        kind,
                        column,
                        value,
                    },
                )?;
                Ok(Some(boxes))
            }
            _ => Ok(None),
        }
    }

    // The boxes of MEMBER OF this operand.
    fn boxes_of_member(
        &self,
        operand: &'a Expression<ColumnIndex>,
    ) -> Result<Items<KeyBox<'a>>, AllocError>
        ensures { IfOk result (λ boxes. boxes ≡ boxes_of_member self.now.columns.now self.now.table
            (names_of self.now.users.now) (role_names self.now.users.now) self.now.front.now (term_of operand.now)) }
    {
        match operand {
            Expression::Column(index) if index.table == self.table => {
                if is_comparable(self.columns, index.column, ValueRef::Text("")) {
                    boxes_of_roles(self.alloc, self.users.roles, index.column)
                } else {
                    everything(self.alloc)
                }
            }
            _ => self.boxes_of_name(self.constant(operand)),
        }
    }

    // Nothing where this is the name of a role that the current one is not in.
    fn boxes_of_name(&self, name: Option<ValueRef<'a>>) -> Result<Items<KeyBox<'a>>, AllocError>
        ensures { IfOk result (λ boxes. boxes ≡ boxes_of_name (names_of self.now.users.now) (option_map owned name.entry)) }
    {
        match name {
            Some(ValueRef::Text(name)) if !is_in(self.users.roles, name) => Ok(Items::new(
                self.alloc,
            )),
            _ => everything(self.alloc),
        }
    }

    // The value of an expression that is known before the table's row, where a key may hold it.
    fn constant(&self, tree: &'a Expression<ColumnIndex>) -> Option<ValueRef<'a>>
        ensures { option_map owned result ≡ constant
            (names_of self.now.users.now) self.now.front.now (term_of tree.now) }
    {
        constant(self.users, self.front, tree)
    }
}
