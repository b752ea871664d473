//! Levels of precedence: operands are joined to chains, level by level.

ghost use Rattle.std.specs.Prelude.{◌≡◌, ◌<◌, IfOk, IfSome, Some, length};
ghost use Rattle.sql_lexer.specs.declared.token.TokenKind.TheVariants as kind;
ghost use Rattle.sql_lexer.specs.Lexeme.{lexemes, kind_at as kind_in};
ghost use Rattle.sql_ast.specs.Term.{term_of};
ghost use Rattle.expr_parser.specs.Grammar.{joined, joiner, comparer, chained};
ghost use Rattle.expr_parser.specs.Precedence.{token_precedence, part_precedence};

use crate::reader::kind_at;
use sql_ast::expression::{ColumnName, Comparison, Expression, Operation};
use sql_lexer::token::{Punctuation, Reserved, Token, TokenKind, Unreserved};
use std::alloc::{AllocError, Global};

/// A level of precedence, whose operators join operands to a chain that groups to the left: OR,
/// AND, `+` and `-`, or `*`, `/` and `%`.
#[derive(Clone, Copy, PartialEq, Eq)]
pub enum Level {
    Or,
    And,
    Sum,
    Term,
}

impl Level {
    /// How tightly the operators of the level bind.
    pub fn precedence(self) -> u8
        ensures { result ≡ part_precedence (chained self) }
    {
        match self {
            Level::Or => 1,
            Level::And => 2,
            Level::Sum => 6,
            Level::Term => 7,
        }
    }
}

/// What joins two operands of a chain.
#[derive(Clone, Copy)]
pub enum Connective {
    Or,
    And,
    Arithmetic(Operation),
}

/// Two operands and what joins them.
pub fn join(
    alloc: Global,
    connective: Connective,
    left: Expression<ColumnName>,
    right: Expression<ColumnName>,
) -> Result<Expression<ColumnName>, AllocError>
    ensures { IfOk result (λ tree.
        term_of tree ≡ joined connective (term_of left) (term_of right)) }
{
    match connective {
        Connective::Or => Expression::disjunction(alloc, left, right),
        Connective::And => Expression::conjunction(alloc, left, right),
        Connective::Arithmetic(operator) => Expression::operation(alloc, operator, left, right),
    }
}

/// What the token at an index joins in such a chain, or `None` where it joins nothing.
pub fn joiner_at(tokens: &[Token], at: usize, level: Level) -> Option<Connective>
    ensures value { result ≡ joiner level (kind_in (lexemes tokens.now) at) }
    ensures within { IfSome result (λ _. at < length tokens.now) }
{
    match (level, kind_at(tokens, at)?) {
        (Level::Or, TokenKind::Reserved(Reserved::Or)) => Some(Connective::Or),
        (Level::And, TokenKind::Reserved(Reserved::And)) => Some(Connective::And),
        (Level::Sum, TokenKind::Punctuation(Punctuation::Plus)) => Some(Connective::Arithmetic(
            Operation::Add,
        )),
        (Level::Sum, TokenKind::Punctuation(Punctuation::Minus)) => {
            Some(Connective::Arithmetic(Operation::Subtract))
        }
        (Level::Term, TokenKind::Punctuation(Punctuation::Star)) => {
            Some(Connective::Arithmetic(Operation::Multiply))
        }
        (Level::Term, TokenKind::Punctuation(Punctuation::Slash)) => {
            Some(Connective::Arithmetic(Operation::Divide))
        }
        (Level::Term, TokenKind::Punctuation(Punctuation::Percent)) => {
            Some(Connective::Arithmetic(Operation::Remainder))
        }
        _ => None,
    }
}

/// The comparison that the token at an index is, or `None` where it is none.
pub fn comparer_at(tokens: &[Token], at: usize) -> Option<Comparison>
    ensures value { result ≡ comparer (kind_in (lexemes tokens.now) at) }
    ensures within { IfSome result (λ _. at < length tokens.now) }
{
    match kind_at(tokens, at)? {
        TokenKind::Punctuation(Punctuation::Equal) => Some(Comparison::Equal),
        TokenKind::Punctuation(Punctuation::NotEqual) => Some(Comparison::NotEqual),
        TokenKind::Punctuation(Punctuation::Less) => Some(Comparison::Less),
        TokenKind::Punctuation(Punctuation::LessOrEqual) => Some(Comparison::LessOrEqual),
        TokenKind::Punctuation(Punctuation::Greater) => Some(Comparison::Greater),
        TokenKind::Punctuation(Punctuation::GreaterOrEqual) => Some(Comparison::GreaterOrEqual),
        _ => None,
    }
}

/// How tightly the token at an index binds to the operand before it: 1 for OR, which binds least,
/// and 0 where no operator stands (PostgreSQL manual, 4.1.6, "Operator Precedence").
pub fn precedence_at(tokens: &[Token], at: usize) -> u8
    ensures { result ≡ token_precedence (kind_in (lexemes tokens.now) at) }
{
    match kind_at(tokens, at) {
        Some(TokenKind::Reserved(word)) => match word {
            Reserved::Or => 1,
            Reserved::And => 2,
            Reserved::Is => 4,
            _ => 0,
        },
        Some(TokenKind::Punctuation(sign)) => sign_precedence(sign),
        Some(TokenKind::Unreserved(Unreserved::Of)) => 9,
        _ => 0,
    }
}

fn sign_precedence(sign: Punctuation) -> u8
    ensures { result ≡ token_precedence (Some (kind.Punctuation sign)) }
{
    match sign {
        Punctuation::Equal
        | Punctuation::NotEqual
        | Punctuation::Less
        | Punctuation::LessOrEqual
        | Punctuation::Greater
        | Punctuation::GreaterOrEqual => 5,
        Punctuation::Plus | Punctuation::Minus => 6,
        Punctuation::Star | Punctuation::Slash | Punctuation::Percent => 7,
        Punctuation::Dot => 9,
        _ => 0,
    }
}
