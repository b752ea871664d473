//! Operands that stand alone: a token, or a comparison of two, which the next operator, if there is
//! one, joins as a whole. They are read without the descent.

ghost use Rattle.std.specs.Prelude.{◌<◌, IfOk, IfSome, Some, length};
ghost use Rattle.sql_lexer.specs.Lexeme.{lexemes};
ghost use Rattle.expr_parser.specs.Grammar.{operand, chained, ReadsLongestPart};
ghost use Rattle.expr_parser.specs.Precedence.{part_precedence};

use crate::leaf::leaf_at;
use crate::level::{Level, comparer_at, precedence_at};
use crate::reader::kind_at;
use sql_ast::expression::{ColumnName, Expression};
use sql_lexer::token::{Token, TokenKind};
use std::alloc::{AllocError, Global};

/// The operand of a level that stands alone at an index, and its end; `None` where none does, and
/// then it says nothing of what stands there.
pub fn operand_alone_at(
    alloc: Global,
    tokens: &[Token],
    at: usize,
    level: Level,
) -> Result<Option<(Expression<ColumnName>, usize)>, AllocError>
    ensures { IfOk result (λ found. IfSome found (λ read.
        ReadsLongestPart (lexemes tokens.now) (operand level) at (Some read))) }
{
    match kind_at(tokens, at) {
        None | Some(TokenKind::Punctuation(_)) => return Ok(None),
        Some(_) => {}
    }
    if precedence_at(tokens, at + 1) <= level.precedence() {
        return match leaf_at(alloc, tokens, at)? {
            Some(tree) => Ok(Some((tree, at + 1))),
            None => Ok(None),
        };
    }
    match level {
        Level::Or | Level::And => comparison_alone_at(alloc, tokens, at, level),
        Level::Sum | Level::Term => Ok(None),
    }
}

// The same where it is a comparison of two tokens.
fn comparison_alone_at(
    alloc: Global,
    tokens: &[Token],
    at: usize,
    level: Level,
) -> Result<Option<(Expression<ColumnName>, usize)>, AllocError>
    requires level { part_precedence (chained level) < 3 }
    requires within { at < length tokens.now }
    ensures { IfOk result (λ found. IfSome found (λ read.
        ReadsLongestPart (lexemes tokens.now) (operand level) at (Some read))) }
{
    let Some(operator) = comparer_at(tokens, at + 1) else {
        return Ok(None);
    };
    if precedence_at(tokens, at + 3) > level.precedence() {
        return Ok(None);
    }
    let Some(right) = leaf_at(alloc, tokens, at + 2)? else {
        return Ok(None);
    };
    let Some(left) = leaf_at(alloc, tokens, at)? else {
        return Ok(None);
    };
    let tree = Expression::comparison(alloc, operator, left, right)?;
    Ok(Some((tree, at + 3)))
}
