//! One word of several.

ghost use Rattle.std.specs.Prelude.{◌≡◌, ◌<◌, ◌↔◌, IsTrue, IfSome, true, false, length};
ghost use Rattle.sql_lexer.specs.Lexeme.{lexemes, kind_at as kind_in};
ghost use Rattle.sql_grammar.specs.Phrases.{optional, word_of as word_of_table};
ghost use Rattle.sql_grammar.specs.LookAhead.{CanBegin, IsReading, Reads, FindsWord, has_no_doubles, has_words};

use expr_parser::parse_error::ParseError;
use expr_parser::reader::has;
use sql_lexer::token::{Token, TokenKind};

/// The value beside the word of the table that stands at an index, or `None` where none of its
/// words does. The caller's table has words alone, and no word twice.
pub fn find_word<T: Copy>(tokens: &[Token], at: usize, mut table: &[(TokenKind, T)]) -> Option<T>
    ensures value { FindsWord table.entry.now (kind_in (lexemes tokens.now) at) result }
    ensures within { IfSome result (λ _. at < length tokens.now) }
{
    while let [entry, rest @ ..] = table {
        if has(tokens, at, entry.0) {
            return Some(entry.1);
        }
        table = rest;
    }
    None
}

/// One of the words of a table, for the value beside it, and the index after it.
pub fn word_of<T: Copy>(
    tokens: &[Token],
    at: usize,
    table: &[(TokenKind, T)],
) -> Result<(T, usize), ParseError>
    requires { has_no_doubles table.now ≡ true }
    ensures { Reads (word_of_table table.now) (lexemes tokens.now) at result }
{
    match find_word(tokens, at, table) {
        Some(value) => Ok((value, at + 1)),
        None => Err(ParseError::Syntax),
    }
}

/// One of the words of a table, for the value beside it, or nothing where none stands, and the
/// index after it.
pub fn optional_word_of<T: Copy>(
    tokens: &[Token],
    at: usize,
    table: &[(TokenKind, T)],
) -> (Option<T>, usize)
    requires { has_no_doubles table.now ≡ true }
    ensures { IsReading (optional (word_of_table table.now))
        (lexemes tokens.now) at result.1 result.0 }
{
    match find_word(tokens, at, table) {
        Some(value) => (Some(value), at + 1),
        None => (None, at),
    }
}

/// Whether one of the words of a table stands at an index.
pub fn begins_word<T: Copy>(tokens: &[Token], at: usize, table: &[(TokenKind, T)]) -> bool
    requires { has_words table.now ≡ true }
    ensures value { IsTrue result
        ↔ CanBegin (word_of_table table.now) (kind_in (lexemes tokens.now) at) }
    ensures within { IsTrue result → at < length tokens.now }
{
    match find_word(tokens, at, table) {
        Some(_) => true,
        None => false,
    }
}
