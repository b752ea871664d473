//! What stands at a place in a list of tokens.

ghost use Rattle.std.specs.Prelude.{◌≡◌, ◌<◌, ◌↔◌, IfOk, IfSome, IsTrue, Some, length, slice_get};
ghost use Rattle.sql_lexer.specs.Lexeme.{lexemes, kind_at as kind_in};
ghost use Rattle.sql_lexer.specs.Content.{name};

use sql_lexer::content::name_of;
use sql_lexer::token::{Token, TokenKind};
use sql_types::name::Name;
use std::alloc::{AllocError, Global};

/// The kind of the token at an index, or `None` after the last.
pub fn kind_at(tokens: &[Token], at: usize) -> Option<TokenKind>
    ensures value { result ≡ kind_in (lexemes tokens.now) at }
    ensures within { IfSome result (λ _. at < length tokens.now) }
{
    Some(tokens.get(at)?.kind)
}

// Written out, since each pair of enums without fields is proved by itself.
fn is_kind(found: TokenKind, expected: TokenKind) -> bool
    ensures { IsTrue result ↔ found ≡ expected }
{
    match (found, expected) {
        (TokenKind::Reserved(found), TokenKind::Reserved(expected)) => found == expected,
        (TokenKind::Unreserved(found), TokenKind::Unreserved(expected)) => found == expected,
        (TokenKind::Punctuation(found), TokenKind::Punctuation(expected)) => found == expected,
        (TokenKind::Number(found), TokenKind::Number(expected)) => found == expected,
        (TokenKind::Word, TokenKind::Word) => true,
        (TokenKind::QuotedIdentifier, TokenKind::QuotedIdentifier) => true,
        (TokenKind::Text, TokenKind::Text) => true,
        _ => false,
    }
}

/// Whether a token of this kind stands at an index.
pub fn has(tokens: &[Token], at: usize, kind: TokenKind) -> bool
    ensures value { IsTrue result ↔ kind_in (lexemes tokens.now) at ≡ Some kind }
    ensures within { IsTrue result → at < length tokens.now }
{
    match kind_at(tokens, at) {
        Some(found) => is_kind(found, kind),
        None => false,
    }
}

/// The name that the token at an index is, or `None` where it is no name.
pub fn name_at(alloc: Global, tokens: &[Token], at: usize) -> Result<Option<Name>, AllocError>
    ensures value { IfOk result (λ found. found ≡ name (slice_get (lexemes tokens.now) at)) }
    ensures within { IfOk result (λ found. IfSome found (λ _. at < length tokens.now)) }
{
    match tokens.get(at) {
        Some(token) => name_of(alloc, token),
        None => Ok(None),
    }
}
