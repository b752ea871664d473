//! The search for the first token with which no statement begins.

ghost use Rattle.std.specs.Prelude.{◌≡◌, ◌<◌, ◌≤◌, ◌-◌, ◌^◌, IfOk, true, false, length, suc};
ghost use Rattle.sql_lexer.specs.Lexeme.{lexemes};
ghost use Rattle.sql_lexer.specs.Parentheses.{open_after, open_count};
ghost use Rattle.sql_parser.specs.Places.{AreTokensOf, place_at};
ghost use Rattle.syntax_places.specs.SyntaxPlaces.{GoesOnToAStatement, Halves};

use crate::beginnings::goes_on;
use crate::completions::completions;
use expr_parser::reader::kind_at;
use sql_lexer::token::{Punctuation, Token, TokenKind};
use std::alloc::{AllocError, Global};

// How many parentheses are open after one more token.
fn open_after(count: usize, kind: TokenKind) -> usize
    requires { count < 2 ^ 64 - 1 }
    ensures { result ≡ open_after count kind }
{
    match kind {
        TokenKind::Punctuation(Punctuation::Open) => count + 1,
        TokenKind::Punctuation(Punctuation::Close) => count.saturating_sub(1),
        _ => count,
    }
}

// How many parentheses are open after these tokens.
fn open_count(tokens: &[Token]) -> usize
    ensures { result ≡ open_count (lexemes tokens.now) }
{
    let mut count = 0;
    for token in tokens {
        count = open_after(count, token.kind);
    }
    count
}

// Where the token at an index begins, or the end where none stands there.
pub(crate) fn place_at(end: usize, tokens: &[Token], index: usize) -> usize
    ensures { result ≡ place_at end (lexemes tokens.now) index }
{
    if index < tokens.len() {
        return tokens[index].start;
    }
    end
}

// Whether the text before the token at an index goes on to a statement.
fn goes_on_at(alloc: Global, text: &str, tokens: &[Token], index: usize) -> Result<bool, AllocError>
    requires tokens { AreTokensOf text.now (lexemes tokens.now) }
    requires within { index ≤ length tokens.now }
    ensures yes { IfOk result (λ found. found ≡ true → GoesOnToAStatement text.now (lexemes tokens.now) index) }
    ensures no { IfOk result (λ found. found ≡ false → GoesOnToAStatement text.now (lexemes tokens.now) index → ⊥) }
{
    let place = place_at(text.len(), tokens, index);
    let (before, _) = text.split_at(place);
    let (front, _) = tokens.split_at(index);
    goes_on(
        alloc,
        before,
        open_count(front),
        completions(kind_at(tokens, 0)),
    )
}

// The index of the first token at which no statement goes on, or that behind the last.
pub(crate) fn wrong_index(alloc: Global, text: &str, tokens: &[Token]) -> Result<usize, AllocError>
    requires { AreTokensOf text.now (lexemes tokens.now) }
    ensures { IfOk result (λ index.
        Halves (GoesOnToAStatement text.now (lexemes tokens.now)) 0 (suc (length (lexemes tokens.now))) index) }
{
    let mut low = 0;
    let mut high = tokens.len() + 1;
    while high - low > 1 {
        let middle = low + (high - low) / 2;
        if goes_on_at(alloc, text, tokens, middle)? {
            low = middle;
        } else {
            high = middle;
        }
    }
    Ok(low)
}
