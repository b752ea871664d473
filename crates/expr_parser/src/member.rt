//! MEMBER OF, of which both words may be names: they are the predicate only where an operand of it
//! stands behind them.

ghost use Rattle.std.specs.Prelude.{◌+◌, ◌<◌, ◌↔◌, IfOk, IsTrue, length};
ghost use Rattle.sql_lexer.specs.Lexeme.{lexemes};
ghost use Rattle.expr_parser.specs.Grammar.{primary, IsMember, ReadsLongestPart};

use crate::leaf::column_at;
use crate::reader::has;
use sql_ast::expression::{ColumnName, Expression};
use sql_lexer::token::{Token, TokenKind, Unreserved};
use std::alloc::{AllocError, Global};

/// Whether the words MEMBER OF begin at an index.
pub fn member_at(tokens: &[Token], at: usize) -> bool
    ensures value { IsTrue result ↔ IsMember (lexemes tokens.now) at }
    ensures within { IsTrue result → at + 1 < length tokens.now }
{
    has(tokens, at, TokenKind::Unreserved(Unreserved::Member))
        && has(tokens, at + 1, TokenKind::Unreserved(Unreserved::Of))
}

/// The longest primary that begins with the words MEMBER OF, and its end: the predicate with the
/// longest primary behind them, or the column `member` where none stands there.
pub fn member_test_at(
    alloc: Global,
    tokens: &[Token],
    at: usize,
    operand: Option<(Expression<ColumnName>, usize)>,
) -> Result<Option<(Expression<ColumnName>, usize)>, AllocError>
    requires words { IsMember (lexemes tokens.now) at }
    requires operand { ReadsLongestPart (lexemes tokens.now) primary (at + 2) operand }
    ensures { IfOk result (λ found. ReadsLongestPart (lexemes tokens.now) primary at found) }
{
    match operand {
        Some((tree, end)) => Ok(Some((Expression::member_test(alloc, tree)?, end))),
        None => column_at(alloc, tokens, at),
    }
}
