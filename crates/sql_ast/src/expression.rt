//! Expressions as trees, their operators, and the columns that they name.

ghost use Rattle.std.specs.Prelude.{◌≡◌, ◌≤◌, ◌↔◌, IsTrue, IfOk};
ghost use Rattle.sql_ast.specs.Term.{term_of, comparison, operation, minus, conjunction, disjunction, negation, null_test, not_null_test, member_test};
ghost use Rattle.sql_ast.specs.Depth.{depth};

use sql_types::name::Name;
use sql_types::try_copy::TryCopy;
use sql_types::value::Value;
use std::alloc::{AllocError, Global};

/// The operator of a comparison (SQL:2016 Foundation, 8.2).
#[derive(Clone, Copy, PartialEq, Eq)]
pub enum Comparison {
    Equal,
    NotEqual,
    Less,
    LessOrEqual,
    Greater,
    GreaterOrEqual,
}

/// The operator between two numbers (SQL:2016 Foundation, 6.29; `%` as in the PostgreSQL manual,
/// "Mathematical Functions and Operators").
#[derive(Clone, Copy, PartialEq, Eq)]
pub enum Operation {
    Add,
    Subtract,
    Multiply,
    Divide,
    Remainder,
}

/// A column as it is written: its name, and before it the name of its table where that is given.
#[derive(Drop, PartialEq, Eq)]
pub struct ColumnName {
    pub table: Option<Name>,
    pub column: Name,
}

impl TryCopy for ColumnName {
    fn try_copy(&self, alloc: Global) -> Result<ColumnName, AllocError> {
        let table = self.table.try_copy(alloc)?;
        let column = self.column.try_copy(alloc)?;
        Ok(ColumnName { table, column })
    }
}

/// An expression, in which a column is given as a `C`: by its name as it is written, by its index
/// once it is resolved.
///
/// Make one with the functions below: they take the memory for its operands.
pub enum Expression<C> {
    Literal(Value),
    Column(C),
    CurrentUser,
    SessionUser,
    Compare(Comparison, Box<Expression<C>>, Box<Expression<C>>),
    Arithmetic(Operation, Box<Expression<C>>, Box<Expression<C>>),
    Negate(Box<Expression<C>>),
    And(Box<Expression<C>>, Box<Expression<C>>),
    Or(Box<Expression<C>>, Box<Expression<C>>),
    Not(Box<Expression<C>>),
    IsNull(Box<Expression<C>>),
    IsNotNull(Box<Expression<C>>),
    /// `MEMBER OF`: whether the current role is in the role that the operand names.
    MemberOf(Box<Expression<C>>),
}

// A chain of operators groups to the left, so the loop goes down the left side and only the right
// sides recurse: a chain takes no stack, however long it is.
impl<C: Drop> Drop for Expression<C> {
    fn drop(mut self) {
        loop {
            match self {
                Expression::Literal(_)
                | Expression::Column(_)
                | Expression::CurrentUser
                | Expression::SessionUser => return,
                Expression::Compare(_, left, right)
                | Expression::Arithmetic(_, left, right)
                | Expression::And(left, right)
                | Expression::Or(left, right) => {
                    drop(right);
                    self = Box::into_inner(left);
                }
                Expression::Negate(operand)
                | Expression::Not(operand)
                | Expression::IsNull(operand)
                | Expression::IsNotNull(operand)
                | Expression::MemberOf(operand) => self = Box::into_inner(operand),
            }
        }
    }
}

impl<C: Drop> Expression<C> {
    /// Two operands and the comparison between them.
    pub fn comparison(
        alloc: Global,
        operator: Comparison,
        left: Expression<C>,
        right: Expression<C>,
    ) -> Result<Expression<C>, AllocError>
        ensures { IfOk result (λ e. term_of e ≡ comparison operator (term_of left) (term_of right)) }
    {
        let (left, right) = boxed(alloc, left, right)?;
        Ok(Expression::Compare(operator, left, right))
    }

    /// Two operands and the arithmetic operator between them.
    pub fn operation(
        alloc: Global,
        operator: Operation,
        left: Expression<C>,
        right: Expression<C>,
    ) -> Result<Expression<C>, AllocError>
        ensures { IfOk result (λ e. term_of e ≡ operation operator (term_of left) (term_of right)) }
    {
        let (left, right) = boxed(alloc, left, right)?;
        Ok(Expression::Arithmetic(operator, left, right))
    }

    /// The minus sign before an operand.
    pub fn minus(alloc: Global, operand: Expression<C>) -> Result<Expression<C>, AllocError>
        ensures { IfOk result (λ e. term_of e ≡ minus (term_of operand)) }
    {
        Ok(Expression::Negate(Box::new(alloc, operand)?))
    }

    /// AND of two operands.
    pub fn conjunction(
        alloc: Global,
        left: Expression<C>,
        right: Expression<C>,
    ) -> Result<Expression<C>, AllocError>
        ensures { IfOk result (λ e. term_of e ≡ conjunction (term_of left) (term_of right)) }
    {
        let (left, right) = boxed(alloc, left, right)?;
        Ok(Expression::And(left, right))
    }

    /// OR of two operands.
    pub fn disjunction(
        alloc: Global,
        left: Expression<C>,
        right: Expression<C>,
    ) -> Result<Expression<C>, AllocError>
        ensures { IfOk result (λ e. term_of e ≡ disjunction (term_of left) (term_of right)) }
    {
        let (left, right) = boxed(alloc, left, right)?;
        Ok(Expression::Or(left, right))
    }

    /// NOT of an operand.
    pub fn negation(alloc: Global, operand: Expression<C>) -> Result<Expression<C>, AllocError>
        ensures { IfOk result (λ e. term_of e ≡ negation (term_of operand)) }
    {
        Ok(Expression::Not(Box::new(alloc, operand)?))
    }

    /// IS NULL of an operand.
    pub fn null_test(alloc: Global, operand: Expression<C>) -> Result<Expression<C>, AllocError>
        ensures { IfOk result (λ e. term_of e ≡ null_test (term_of operand)) }
    {
        Ok(Expression::IsNull(Box::new(alloc, operand)?))
    }

    /// IS NOT NULL of an operand.
    pub fn not_null_test(alloc: Global, operand: Expression<C>) -> Result<Expression<C>, AllocError>
        ensures { IfOk result (λ e. term_of e ≡ not_null_test (term_of operand)) }
    {
        Ok(Expression::IsNotNull(Box::new(alloc, operand)?))
    }

    /// MEMBER OF an operand.
    pub fn member_test(alloc: Global, operand: Expression<C>) -> Result<Expression<C>, AllocError>
        ensures { IfOk result (λ e. term_of e ≡ member_test (term_of operand)) }
    {
        Ok(Expression::MemberOf(Box::new(alloc, operand)?))
    }
}

impl<C> Expression<C> {
    /// Whether no operator stands deeper than the limit allows. The limit also bounds how far the
    /// test itself goes down, so it takes little stack whatever the expression is.
    pub fn is_within(&self, limit: usize) -> bool
        ensures { IsTrue result ↔ (depth (term_of self.now) ≤ limit) }
    {
        if limit == 0 {
            return false;
        }
        match self {
            Expression::Compare(_, left, right)
            | Expression::Arithmetic(_, left, right)
            | Expression::And(left, right)
            | Expression::Or(left, right) => {
                left.is_within(limit - 1) && right.is_within(limit - 1)
            }
            Expression::Negate(operand)
            | Expression::Not(operand)
            | Expression::IsNull(operand)
            | Expression::IsNotNull(operand)
            | Expression::MemberOf(operand) => operand.is_within(limit - 1),
            _ => true,
        }
    }
}

// Two operands, each in memory of its own.
fn boxed<C: Drop>(
    alloc: Global,
    left: Expression<C>,
    right: Expression<C>,
) -> Result<(Box<Expression<C>>, Box<Expression<C>>), AllocError>
    ensures left { IfOk result (λ operands. operands.0.value ≡ left) }
    ensures right { IfOk result (λ operands. operands.1.value ≡ right) }
{
    let left = Box::new(alloc, left)?;
    let right = Box::new(alloc, right)?;
    Ok((left, right))
}

impl<C: TryCopy + Drop> Expression<C> {
    /// The same expression again. It goes as deep as the expression is.
    #[cycle(copying)]
    pub fn try_copy(&self, alloc: Global) -> Result<Expression<C>, AllocError>
        ensures { IfOk result (λ copy. term_of copy ≡ term_of self.now) }
    {
        match self {
            Expression::Literal(value) => Ok(Expression::Literal(value.try_copy(alloc)?)),
            Expression::Column(column) => Ok(Expression::Column(column.try_copy(alloc)?)),
            Expression::CurrentUser => Ok(Expression::CurrentUser),
            Expression::SessionUser => Ok(Expression::SessionUser),
            Expression::Compare(operator, left, right) => {
                let (first, second) = copy_both(left, right, alloc)?;
                Ok(Expression::Compare(*operator, first, second))
            }
            Expression::Arithmetic(operator, left, right) => {
                let (first, second) = copy_both(left, right, alloc)?;
                Ok(Expression::Arithmetic(*operator, first, second))
            }
            Expression::Negate(operand) => Ok(Expression::Negate(copy_boxed(operand, alloc)?)),
            Expression::And(left, right) => {
                let (first, second) = copy_both(left, right, alloc)?;
                Ok(Expression::And(first, second))
            }
            Expression::Or(left, right) => {
                let (first, second) = copy_both(left, right, alloc)?;
                Ok(Expression::Or(first, second))
            }
            Expression::Not(operand) => Ok(Expression::Not(copy_boxed(operand, alloc)?)),
            Expression::IsNull(operand) => Ok(Expression::IsNull(copy_boxed(operand, alloc)?)),
            Expression::IsNotNull(operand) => {
                Ok(Expression::IsNotNull(copy_boxed(operand, alloc)?))
            }
            Expression::MemberOf(operand) => {
                Ok(Expression::MemberOf(copy_boxed(operand, alloc)?))
            }
        }
    }
}

// An operand again, in memory of its own.
#[cycle(copying)]
fn copy_boxed<C: TryCopy + Drop>(
    operand: &Expression<C>,
    alloc: Global,
) -> Result<Box<Expression<C>>, AllocError>
    ensures { IfOk result (λ copy. term_of copy.value ≡ term_of operand.now) }
{
    let copy = operand.try_copy(alloc)?;
    Ok(Box::new(alloc, copy)?)
}

// Both operands again, the left one first.
#[cycle(copying)]
fn copy_both<C: TryCopy + Drop>(
    left: &Expression<C>,
    right: &Expression<C>,
    alloc: Global,
) -> Result<(Box<Expression<C>>, Box<Expression<C>>), AllocError>
    ensures left { IfOk result (λ copies. term_of copies.0.value ≡ term_of left.now) }
    ensures right { IfOk result (λ copies. term_of copies.1.value ≡ term_of right.now) }
{
    let left = copy_boxed(left, alloc)?;
    let right = copy_boxed(right, alloc)?;
    Ok((left, right))
}
