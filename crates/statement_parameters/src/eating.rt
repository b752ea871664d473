//! Whether tokens are those that were expected.

ghost use Rattle.std.specs.Prelude.{◌≡◌, ◌↔◌, ◌-◌, IsTrue, Some, drop, map, slice_get};
ghost use Rattle.std.specs.Option.{option_map};
ghost use Rattle.sql_lexer.specs.Lexeme.{lexemes};
ghost use Rattle.statement_parameters.specs.Eaten.{behind_all, behind_known, behind_one};
ghost use Rattle.statement_parameters.specs.Literals.{viewed_literal};
ghost use Rattle.statement_parameters.specs.Parts.{part_tokens, token_bytes, tokens_with};
ghost use Rattle.statement_parameters.specs.Spans.{fragment_in, fragments_in, viewed_spans};
ghost use Rattle.statement_parameters.specs.Templates.{parts_of};

use crate::literal::Literal;
use crate::span::{PartSpan, PartSpans, slice_of};
use sql_lexer::token::Token;

// The place behind a token, if it is the expected one.
fn behind_one(tokens: &[Token], at: usize, expected: &[u8]) -> Option<usize>
    ensures { option_map (λ n. drop n (token_bytes (lexemes tokens.now))) result ≡ behind_one expected.now (drop at (token_bytes (lexemes tokens.now))) }
{
    if tokens.len() <= at {
        return None;
    }
    if tokens[at].text.as_bytes() == expected {
        Some(at + 1)
    } else {
        None
    }
}

// The place behind the tokens of a literal.
fn behind_literal(tokens: &[Token], at: usize, literal: &Literal) -> Option<usize>
    ensures { option_map (λ n. drop n (token_bytes (lexemes tokens.now))) result ≡ behind_all (viewed_literal literal.now) (drop at (token_bytes (lexemes tokens.now))) }
{
    if !literal.negative {
        return behind_one(tokens, at, &literal.bytes);
    }
    let sign = behind_one(tokens, at, b"(")?;
    let digits = behind_one(tokens, sign, b"-")?;
    let end = behind_one(tokens, digits, &literal.bytes)?;
    behind_one(tokens, end, b")")
}

// The literal of a parameter.
pub(crate) fn literal_at(literals: &[Literal], number: u16) -> Option<&Literal>
    ensures { option_map (λ literal. viewed_literal literal.now) result ≡ slice_get (map viewed_literal literals.now) (number - 1) }
{
    literals.get(number.saturating_sub(1) as usize)
}

// The place behind the tokens of a part.
fn behind_part(
    tokens: &[Token],
    at: usize,
    masked: &[u8],
    span: &PartSpan,
    literals: &[Literal],
) -> Option<usize>
    ensures { option_map (λ n. drop n (token_bytes (lexemes tokens.now))) result
        ≡ behind_known (part_tokens (map viewed_literal literals.now) (fragment_in masked.now span.now).part) (drop at (token_bytes (lexemes tokens.now))) }
{
    match span.parameter {
        Some(number) => behind_literal(tokens, at, literal_at(literals, number)?),
        None => behind_one(tokens, at, slice_of(masked, span.start, span.end)),
    }
}

// Whether tokens are those of parts with literals.
pub(crate) fn are_tokens(tokens: &[Token], parts: PartSpans<'_>, literals: &[Literal]) -> bool
    ensures { IsTrue result ↔ (tokens_with (map viewed_literal literals.now) (parts_of (viewed_spans parts.entry)) ≡ Some (token_bytes (lexemes tokens.now))) }
{
    let mut at = 0;
    let mut rest = parts.spans;
    while let [span, after @ ..] = rest {
        match behind_part(tokens, at, parts.masked, span, literals) {
            Some(behind) => at = behind,
            None => return false,
        }
        rest = after;
    }
    tokens.len() <= at
}
