//! Operands of one token, numbers with their minus, and columns after their table's name.

ghost use Rattle.std.specs.Prelude.{◌≡◌, ◌<◌, ◌↔◌, IfOk, IfSome, IsTrue, None, length, slice_get};
ghost use Rattle.std.specs.Option.{option_map};
ghost use Rattle.sql_lexer.specs.Lexeme.{lexemes, kind_at as kind_in};
ghost use Rattle.sql_lexer.specs.Content.{name};
ghost use Rattle.sql_ast.specs.Term.{term_of};
ghost use Rattle.expr_parser.specs.Grammar.{constant, counted, leaf, positive as positive_literal, negative as negative_literal, IsMinus, column_of, ReadsColumn};

use crate::reader::{has, kind_at, name_at};
use sql_ast::expression::{ColumnName, Expression};
use sql_lexer::content::text_of;
use sql_lexer::token::{Punctuation, Reserved, Token, TokenKind};
use sql_types::name::Name;
use sql_types::value::Value;
use std::alloc::{AllocError, Global};

/// The least BIGINT without its minus: a number that stands only after one.
const MIN_BIGINT_MAGNITUDE: u64 = 9223372036854775808;

// A number that stands alone, or `None` where it is no BIGINT.
fn positive(value: u64) -> Option<Expression<ColumnName>>
    ensures { option_map term_of result ≡ positive_literal value }
{
    if value < MIN_BIGINT_MAGNITUDE {
        Some(Expression::Literal(Value::Int(value as i64)))
    } else {
        None
    }
}

/// A number after its minus, or `None` where that is no BIGINT.
pub fn negative(value: u64) -> Option<Expression<ColumnName>>
    ensures { option_map term_of result ≡ negative_literal value }
{
    if value < MIN_BIGINT_MAGNITUDE {
        Some(Expression::Literal(Value::Int(-(value as i64))))
    } else if value == MIN_BIGINT_MAGNITUDE {
        Some(Expression::Literal(Value::Int(i64::MIN)))
    } else {
        None
    }
}

/// The value of the number at an index, or `None` where no number stands there.
pub fn number_at(tokens: &[Token], at: usize) -> Option<u64>
    ensures value { result ≡ counted (kind_in (lexemes tokens.now) at) }
    ensures within { IfSome result (λ _. at < length tokens.now) }
{
    match kind_at(tokens, at)? {
        TokenKind::Number(value) => Some(value),
        _ => None,
    }
}

/// Whether a minus stands at an index that is no number's.
pub fn minus_at(tokens: &[Token], at: usize) -> bool
    ensures value { IsTrue result ↔ IsMinus (lexemes tokens.now) at }
    ensures within { IsTrue result → at < length tokens.now }
{
    has(tokens, at, TokenKind::Punctuation(Punctuation::Minus))
        && number_at(tokens, at + 1).is_none()
}

// What a token of this kind is whatever its text is: a number, a truth value, NULL or a user, or
// `None` where it is none of these.
fn constant(kind: TokenKind) -> Option<Expression<ColumnName>>
    ensures { option_map term_of result ≡ constant kind }
{
    match kind {
        TokenKind::Reserved(Reserved::Null) => Some(Expression::Literal(Value::Null)),
        TokenKind::Reserved(Reserved::True) => Some(Expression::Literal(Value::Bool(true))),
        TokenKind::Reserved(Reserved::False) => Some(Expression::Literal(Value::Bool(false))),
        TokenKind::Reserved(Reserved::CurrentUser) => Some(Expression::CurrentUser),
        TokenKind::Reserved(Reserved::SessionUser) => Some(Expression::SessionUser),
        TokenKind::Number(value) => positive(value),
        _ => None,
    }
}

/// The literal or the user that the token at an index is, which is no name, or `None` where it is
/// none of these.
pub fn literal_at(
    alloc: Global,
    tokens: &[Token],
    at: usize,
) -> Result<Option<Expression<ColumnName>>, AllocError>
    requires { name (slice_get (lexemes tokens.now) at) ≡ None }
    ensures value { IfOk result (λ found.
        option_map term_of found ≡ leaf (slice_get (lexemes tokens.now) at)) }
    ensures within { IfOk result (λ found. IfSome found (λ _. at < length tokens.now)) }
{
    let Some(token) = tokens.get(at) else {
        return Ok(None);
    };
    match text_of(alloc, token)? {
        Some(text) => Ok(Some(Expression::Literal(Value::Text(text)))),
        None => Ok(constant(token.kind)),
    }
}

// A column by its name alone, or after its table's.
fn column(table: Option<Name>, column: Name) -> Expression<ColumnName>
    ensures { term_of result ≡ column_of table column }
{
    Expression::Column(ColumnName { table, column })
}

/// The column that begins at an index, `name "." name` before `name`, and its end, or `None` where
/// no name stands there. No primary from there is longer, MEMBER OF with its operand aside.
pub fn column_at(
    alloc: Global,
    tokens: &[Token],
    at: usize,
) -> Result<Option<(Expression<ColumnName>, usize)>, AllocError>
    ensures { IfOk result (λ found. ReadsColumn (lexemes tokens.now) at found) }
{
    let Some(first) = name_at(alloc, tokens, at)? else {
        return Ok(None);
    };
    if !has(tokens, at + 1, TokenKind::Punctuation(Punctuation::Dot)) {
        return Ok(Some((column(None, first), at + 1)));
    }
    match name_at(alloc, tokens, at + 2)? {
        Some(second) => Ok(Some((column(Some(first), second), at + 3))),
        None => Ok(Some((column(None, first), at + 1))),
    }
}

/// The expression that the token at an index is by itself, or `None` where it is none.
pub fn leaf_at(
    alloc: Global,
    tokens: &[Token],
    at: usize,
) -> Result<Option<Expression<ColumnName>>, AllocError>
    ensures value { IfOk result (λ found.
        option_map term_of found ≡ leaf (slice_get (lexemes tokens.now) at)) }
    ensures within { IfOk result (λ found. IfSome found (λ _. at < length tokens.now)) }
{
    match name_at(alloc, tokens, at)? {
        Some(name) => Ok(Some(column(None, name))),
        None => literal_at(alloc, tokens, at),
    }
}
