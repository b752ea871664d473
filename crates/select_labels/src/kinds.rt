//! What tokens are.

ghost use Rattle.std.specs.Prelude.{◌≡◌, ◌+◌, ◌<◌, ◌^◌, IfOk, option_map};
ghost use Rattle.sql_lexer.specs.Lexeme.{lexeme};
ghost use Rattle.sql_lexer.specs.Parentheses.{open_after as counted};
ghost use Rattle.select_labels.specs.Labels.{is_as, is_dot, is_named, is_star, label_name};
ghost use Rattle.select_labels.specs.Lists.{ends_list, is_comma, is_select};
ghost use Rattle.select_labels.specs.Sorting.{is_order};

use sql_lexer::content::name_of;
use sql_lexer::token::{Punctuation, Reserved, Token, TokenKind};
use sql_types::name::Name;
use std::alloc::{AllocError, Global};

pub(crate) fn is_select(kind: TokenKind) -> bool
    ensures { result ≡ is_select kind }
{
    matches!(kind, TokenKind::Reserved(Reserved::Select))
}

pub(crate) fn is_as(kind: TokenKind) -> bool
    ensures { result ≡ is_as kind }
{
    matches!(kind, TokenKind::Reserved(Reserved::As))
}

pub(crate) fn is_order(kind: TokenKind) -> bool
    ensures { result ≡ is_order kind }
{
    matches!(kind, TokenKind::Reserved(Reserved::Order))
}

// Whether a token outside parentheses ends a list.
pub(crate) fn ends_list(kind: TokenKind) -> bool
    ensures { result ≡ ends_list kind }
{
    matches!(
        kind,
        TokenKind::Reserved(Reserved::From) | TokenKind::Punctuation(Punctuation::Semicolon)
    )
}

pub(crate) fn is_comma(kind: TokenKind) -> bool
    ensures { result ≡ is_comma kind }
{
    matches!(kind, TokenKind::Punctuation(Punctuation::Comma))
}

pub(crate) fn is_star(kind: TokenKind) -> bool
    ensures { result ≡ is_star kind }
{
    matches!(kind, TokenKind::Punctuation(Punctuation::Star))
}

pub(crate) fn is_dot(kind: TokenKind) -> bool
    ensures { result ≡ is_dot kind }
{
    matches!(kind, TokenKind::Punctuation(Punctuation::Dot))
}

// How many parentheses are open behind a token.
pub(crate) fn open_after(depth: usize, kind: TokenKind) -> usize
    requires { depth + 1 < 2 ^ 64 }
    ensures { result ≡ counted depth kind }
{
    match kind {
        TokenKind::Punctuation(Punctuation::Open) => depth + 1,
        TokenKind::Punctuation(Punctuation::Close) => depth.saturating_sub(1),
        _ => depth,
    }
}

// Whether a token is this name.
pub(crate) fn is_named(alloc: Global, name: &Name, token: &Token) -> Result<bool, AllocError>
    ensures { IfOk result (λ is. is ≡ is_named name.now (lexeme token.now)) }
{
    match name_of(alloc, token)? {
        Some(other) => Ok(other == *name),
        None => Ok(false),
    }
}

// The name that a token is behind AS, if it is a word or stands between double quotes.
pub(crate) fn label_name(alloc: Global, token: &Token) -> Result<Option<Name>, AllocError>
    ensures { IfOk result (λ name. name ≡ label_name token.now.kind token.now.text.now) }
{
    match token.kind {
        TokenKind::Reserved(_) => {
            let word = Token {
                kind: TokenKind::Word,
                text: token.text,
                start: token.start,
            };
            name_of(alloc, &word)
        }
        _ => name_of(alloc, token),
    }
}
