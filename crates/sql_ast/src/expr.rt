//! An expression as it is written, apart from the memory that holds it.

ghost use Rattle.std.specs.Prelude.{◌≡◌, ◌≤◌, ◌↔◌, IsTrue};
ghost use Rattle.sql_ast.specs.Term.{term_of};
ghost use Rattle.sql_ast.specs.Depth.{depth};

use crate::expression::{ColumnName, Expression};
use sql_types::try_copy::TryCopy;
use std::alloc::{AllocError, Global};
use std::marker::Model;

/// An expression as it is written, which contracts see as its term, without the memory that holds
/// it.
#[derive(Drop)]
pub struct Expr {
    tree: Expression<ColumnName>,
}

impl Model for Expr {
    ghost use Rattle.sql_ast.specs.Term.{Term, term_of};
    ghost use Rattle.sql_ast.specs.Code.{term_code};
    ghost use Rattle.sql_ast.specs.declared.expression.ColumnName.{ColumnName};

    ghost Value = { Term ColumnName };

    ghost coded = { term_code };

    ghost view = { λ e. term_of e.tree };
}

impl Expr {
    /// The expression that a tree is, in the tree's memory.
    pub fn new(tree: Expression<ColumnName>) -> Expr
        ensures { result ≡ term_of tree }
    {
        Expr { tree }
    }

    /// The tree, lent.
    pub fn tree(&self) -> &Expression<ColumnName>
        ensures { term_of result.now ≡ self.now }
    {
        &self.tree
    }

    /// Whether no operator stands deeper than the limit allows.
    pub fn is_within(&self, limit: usize) -> bool
        ensures { IsTrue result ↔ (depth self.now ≤ limit) }
    {
        self.tree.is_within(limit)
    }
}

impl TryCopy for Expr {
    fn try_copy(&self, alloc: Global) -> Result<Expr, AllocError> {
        let tree = self.tree.try_copy(alloc)?;
        Ok(Expr { tree })
    }
}
