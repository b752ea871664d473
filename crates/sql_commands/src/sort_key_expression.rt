//! What rows are sorted by: an expression that is no number by itself.

ghost use Rattle.std.specs.Prelude.{◌↔◌, IsSome, IsTrue};
ghost use Rattle.sql_lexer.specs.Lexeme.{lexemes, kind_at as kind_in};
ghost use Rattle.expr_parser.specs.Grammar.{counted};
ghost use Rattle.sql_grammar.specs.Phrases.{IsLoneNumber, sort_key_expression as a_sort_key_expression};
ghost use Rattle.sql_grammar.specs.LookAhead.{Reads};

use crate::production::Readable;
use expr_parser::parse_error::ParseError;
use expr_parser::reader::{has, kind_at};
use sql_ast::expr::Expr;
use sql_lexer::token::{Punctuation, Token, TokenKind};
use std::alloc::Global;

// Whether a number stands at an index.
fn is_number(tokens: &[Token], at: usize) -> bool
    ensures { IsTrue result ↔ IsSome (counted (kind_in (lexemes tokens.now) at)) }
{
    match kind_at(tokens, at) {
        Some(TokenKind::Number(_)) => true,
        _ => false,
    }
}

// Whether the tokens from `at` to before `end` are a number by itself, or one after a minus.
fn is_lone_number(tokens: &[Token], at: usize, end: usize) -> bool
    ensures { IsTrue result ↔ IsLoneNumber (lexemes tokens.now) at end }
{
    if has(tokens, at, TokenKind::Punctuation(Punctuation::Minus)) {
        return end == at + 2 && is_number(tokens, at + 1);
    }
    is_number(tokens, at) && end == at + 1
}

/// An expression that is no number by itself, and its end: `ORDER BY 1` would be read as a column's
/// index elsewhere, and is refused here.
pub fn sort_key_expression(
    alloc: Global,
    tokens: &[Token],
    at: usize,
) -> Result<(Expr, usize), ParseError>
    ensures { Reads a_sort_key_expression (lexemes tokens.now) at result }
{
    let (value, end) = Expr::read(alloc, tokens, at)?;
    if is_lone_number(tokens, at, end) {
        return Err(ParseError::Syntax);
    }
    Ok((value, end))
}
