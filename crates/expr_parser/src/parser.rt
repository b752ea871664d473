//! Expressions by recursive descent: each function reads the longest front that spells its part of
//! the grammar.

ghost use Rattle.std.specs.Prelude.{◌≡◌, IfOk, Some};
ghost use Rattle.sql_lexer.specs.Lexeme.{lexemes, kind_at as kind_in};
ghost use Rattle.expr_parser.specs.Grammar.{chained, negation, test, comparison, signed, primary, operand, ReadsLongest, ReadsLongestPart, IsMember, IsMinus};

use crate::alone::operand_alone_at;
use crate::leaf::{column_at, literal_at, minus_at, negative, number_at};
use crate::level::{Level, comparer_at, join, joiner_at};
use crate::member::{member_at, member_test_at};
use crate::reader::has;
use sql_ast::expr::Expr;
use sql_ast::expression::{ColumnName, Expression};
use sql_lexer::token::{Punctuation, Reserved, Token, TokenKind};
use std::alloc::{AllocError, Global};

type Tree = Expression<ColumnName>;

/// The longest front of the tokens from `at` on that spells an expression, and its end, or `None`
/// where no front does.
///
/// Loops go over chains and prefix operators, and only parentheses go deeper.
pub fn expr_at(
    alloc: Global,
    tokens: &[Token],
    at: usize,
) -> Result<Option<(Expr, usize)>, AllocError>
    ensures { IfOk result (λ found. ReadsLongest (lexemes tokens.now) at found) }
{
    match chain_at(alloc, tokens, at, Level::Or)? {
        Some((tree, end)) => Ok(Some((Expr::new(tree), end))),
        None => Ok(None),
    }
}

#[cycle(descent)]
fn chain_at(
    alloc: Global,
    tokens: &[Token],
    at: usize,
    level: Level,
) -> Result<Option<(Tree, usize)>, AllocError>
    ensures { IfOk result (λ found.
        ReadsLongestPart (lexemes tokens.now) (chained level) at found) }
{
    let Some((mut left, mut end)) = operand_at(alloc, tokens, at, level)? else {
        return Ok(None);
    };
    while let Some(operator) = joiner_at(tokens, end, level) {
        let Some((right, next)) = operand_at(alloc, tokens, end + 1, level)? else {
            break;
        };
        left = join(alloc, operator, left, right)?;
        end = next;
    }
    Ok(Some((left, end)))
}

#[cycle(descent)]
fn operand_at(
    alloc: Global,
    tokens: &[Token],
    at: usize,
    level: Level,
) -> Result<Option<(Tree, usize)>, AllocError>
    ensures { IfOk result (λ found.
        ReadsLongestPart (lexemes tokens.now) (operand level) at found) }
{
    if let Some(found) = operand_alone_at(alloc, tokens, at, level)? {
        return Ok(Some(found));
    }
    match level {
        Level::Or => chain_at(alloc, tokens, at, Level::And),
        Level::And => negation_at(alloc, tokens, at),
        Level::Sum => chain_at(alloc, tokens, at, Level::Term),
        Level::Term => signed_at(alloc, tokens, at),
    }
}

#[cycle(descent)]
fn negation_at(
    alloc: Global,
    tokens: &[Token],
    at: usize,
) -> Result<Option<(Tree, usize)>, AllocError>
    ensures { IfOk result (λ found. ReadsLongestPart (lexemes tokens.now) negation at found) }
{
    let mut first = at;
    while has(tokens, first, TokenKind::Reserved(Reserved::Not)) {
        first += 1;
    }
    let Some((mut tree, end)) = test_at(alloc, tokens, first)? else {
        return Ok(None);
    };
    while first > at {
        tree = Expression::negation(alloc, tree)?;
        first -= 1;
    }
    Ok(Some((tree, end)))
}

#[cycle(descent)]
fn test_at(alloc: Global, tokens: &[Token], at: usize) -> Result<Option<(Tree, usize)>, AllocError>
    ensures { IfOk result (λ found. ReadsLongestPart (lexemes tokens.now) test at found) }
{
    let Some((mut tree, mut end)) = comparison_at(alloc, tokens, at)? else {
        return Ok(None);
    };
    while has(tokens, end, TokenKind::Reserved(Reserved::Is)) {
        if has(tokens, end + 1, TokenKind::Reserved(Reserved::Null)) {
            tree = Expression::null_test(alloc, tree)?;
            end += 2;
        } else if has(tokens, end + 1, TokenKind::Reserved(Reserved::Not))
            && has(tokens, end + 2, TokenKind::Reserved(Reserved::Null))
        {
            tree = Expression::not_null_test(alloc, tree)?;
            end += 3;
        } else {
            break;
        }
    }
    Ok(Some((tree, end)))
}

#[cycle(descent)]
fn comparison_at(
    alloc: Global,
    tokens: &[Token],
    at: usize,
) -> Result<Option<(Tree, usize)>, AllocError>
    ensures { IfOk result (λ found. ReadsLongestPart (lexemes tokens.now) comparison at found) }
{
    let Some((left, end)) = chain_at(alloc, tokens, at, Level::Sum)? else {
        return Ok(None);
    };
    let Some(operator) = comparer_at(tokens, end) else {
        return Ok(Some((left, end)));
    };
    let Some((right, next)) = chain_at(alloc, tokens, end + 1, Level::Sum)? else {
        return Ok(Some((left, end)));
    };
    let tree = Expression::comparison(alloc, operator, left, right)?;
    Ok(Some((tree, next)))
}

#[cycle(descent)]
fn signed_at(
    alloc: Global,
    tokens: &[Token],
    at: usize,
) -> Result<Option<(Tree, usize)>, AllocError>
    ensures { IfOk result (λ found. ReadsLongestPart (lexemes tokens.now) signed at found) }
{
    let mut first = at;
    while minus_at(tokens, first) {
        first += 1;
    }
    let Some((mut tree, end)) = unsigned_at(alloc, tokens, first)? else {
        return Ok(None);
    };
    while first > at {
        tree = Expression::minus(alloc, tree)?;
        first -= 1;
    }
    Ok(Some((tree, end)))
}

// A number with its minus, or what has none.
#[cycle(descent)]
fn unsigned_at(
    alloc: Global,
    tokens: &[Token],
    at: usize,
) -> Result<Option<(Tree, usize)>, AllocError>
    requires { IsMinus (lexemes tokens.now) at → ⊥ }
    ensures { IfOk result (λ found. ReadsLongestPart (lexemes tokens.now) signed at found) }
{
    if !has(tokens, at, TokenKind::Punctuation(Punctuation::Minus)) {
        return primary_at(alloc, tokens, at);
    }
    let Some(value) = number_at(tokens, at + 1) else {
        return Ok(None);
    };
    match negative(value) {
        Some(tree) => Ok(Some((tree, at + 2))),
        None => Ok(None),
    }
}

#[cycle(descent)]
fn primary_at(
    alloc: Global,
    tokens: &[Token],
    at: usize,
) -> Result<Option<(Tree, usize)>, AllocError>
    ensures { IfOk result (λ found. ReadsLongestPart (lexemes tokens.now) primary at found) }
{
    let mut first = at;
    while member_at(tokens, first) {
        first += 2;
    }
    let mut found = simple_at(alloc, tokens, first)?;
    while first > at {
        first -= 2;
        found = member_test_at(alloc, tokens, first, found)?;
    }
    Ok(found)
}

// A primary that does not begin with MEMBER OF.
#[cycle(descent)]
fn simple_at(
    alloc: Global,
    tokens: &[Token],
    at: usize,
) -> Result<Option<(Tree, usize)>, AllocError>
    requires { IsMember (lexemes tokens.now) at → ⊥ }
    ensures { IfOk result (λ found. ReadsLongestPart (lexemes tokens.now) primary at found) }
{
    if has(tokens, at, TokenKind::Punctuation(Punctuation::Open)) {
        return inside_at(alloc, tokens, at);
    }
    if let Some(found) = column_at(alloc, tokens, at)? {
        return Ok(Some(found));
    }
    match literal_at(alloc, tokens, at)? {
        Some(found) => Ok(Some((found, at + 1))),
        None => Ok(None),
    }
}

#[cycle(descent)]
fn inside_at(
    alloc: Global,
    tokens: &[Token],
    at: usize,
) -> Result<Option<(Tree, usize)>, AllocError>
    requires { kind_in (lexemes tokens.now) at ≡ Some (TokenKind.Punctuation Punctuation.Open) }
    ensures { IfOk result (λ found. ReadsLongestPart (lexemes tokens.now) primary at found) }
{
    let Some((tree, end)) = chain_at(alloc, tokens, at + 1, Level::Or)? else {
        return Ok(None);
    };
    if has(tokens, end, TokenKind::Punctuation(Punctuation::Close)) {
        Ok(Some((tree, end + 1)))
    } else {
        Ok(None)
    }
}
