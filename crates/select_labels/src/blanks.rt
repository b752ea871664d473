//! A text with blanks in place of some of its tokens.

ghost use Rattle.std.specs.Prelude.{◌≡◌, ◌≤◌, ◌++◌, IfOk, OnOk, drop, length, replicate, slice_range, string_bytes};
ghost use Rattle.std.specs.Str.{IsCharBoundary};
ghost use Rattle.sql_lexer.specs.Lexeme.{IsPlaced, end_of, lexeme, lexemes};
ghost use Rattle.select_labels.specs.Standing.{StandIn};
ghost use Rattle.select_labels.specs.Unlabelled.{blanked};

use sql_lexer::token::Token;
use std::alloc::{AllocError, Global};

// The slice of a text from one place to another.
fn slice_between(text: &str, from: usize, to: usize) -> &str
    requires in_order { from ≤ to }
    requires begins { IsCharBoundary text.now from }
    requires ends { IsCharBoundary text.now to }
    ensures { result.now ≡ slice_range text.now from to }
{
    let (_, rest) = text.split_at(from);
    let (slice, _) = rest.split_at(to - from);
    slice
}

fn push_blanks(count: usize, made: &mut String) -> Result<(), AllocError>
    ensures { OnOk result (string_bytes made.new ≡ string_bytes made.old ++ replicate count 32) }
{
    let mut left = count;
    while 0 < left {
        made.push_str(" ")?;
        left -= 1;
    }
    Ok(())
}

// Puts what stands between a place and a token behind a text, and blanks for the token. The place behind it.
fn put_blanked(text: &str, at: usize, token: &Token, made: &mut String) -> Result<usize, AllocError>
    requires in_order { at ≤ token.now.start }
    requires begins { IsCharBoundary text.now at }
    requires placed { IsPlaced text.now (lexeme token.now) }
    ensures end { IfOk result (λ end. end ≡ end_of (lexeme token.now)) }
    ensures made { OnOk result (string_bytes made.new ≡ string_bytes made.old ++ (slice_range text.now at token.now.start ++ replicate (length token.now.text.now) 32)) }
{
    made.push_str(slice_between(text, at, token.start))?;
    push_blanks(token.text.len(), made)?;
    Ok(token.start + token.text.len())
}

// A text with blanks in place of these tokens.
pub(crate) fn blanked(alloc: Global, text: &str, tokens: &[Token]) -> Result<String, AllocError>
    requires { StandIn text.now 0 (lexemes tokens.now) }
    ensures { IfOk result (λ made. string_bytes made ≡ blanked text.now 0 (lexemes tokens.now)) }
{
    let mut made = String::new(alloc);
    let mut at = 0;
    let mut rest = tokens;
    while let [token, after @ ..] = rest {
        at = put_blanked(text, at, token, &mut made)?;
        rest = after;
    }
    let (_, behind) = text.split_at(at);
    made.push_str(behind)?;
    Ok(made)
}
