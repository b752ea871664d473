//! Phrases step by step: each function here takes what is read so far, and reads one part more.
//!
//! What is read so far is the values and the index after them, or why there are none: then nothing
//! more is read, and that stays the reason.

ghost use Rattle.sql_lexer.specs.Lexeme.{lexemes};
ghost use Rattle.sql_grammar.specs.Phrases.{after, noise, optional, three_words as three_words_phrase};
ghost use Rattle.sql_commands.specs.Steps.{PassesToken, ReadsNext};

use crate::production::Readable;
use expr_parser::parse_error::ParseError;
use expr_parser::reader::has;
use sql_grammar::expect::expect;
use sql_grammar::words;
use sql_lexer::token::{Token, TokenKind};
use std::alloc::Global;

/// A token of this kind.
pub fn token<A: Drop>(
    tokens: &[Token],
    read: Result<(A, usize), ParseError>,
    kind: TokenKind,
) -> Result<(A, usize), ParseError>
    ensures { PassesToken kind (lexemes tokens.now) read result }
{
    let (values, at) = read?;
    let end = expect(tokens, at, kind)?;
    Ok((values, end))
}

/// A part of the grammar.
pub fn then<A: Drop, P: Readable>(
    alloc: Global,
    tokens: &[Token],
    read: Result<(A, usize), ParseError>,
) -> Result<((A, P::Value), usize), ParseError>
    ensures { ReadsNext P.phrase (lexemes tokens.now) read result }
{
    let (values, at) = read?;
    let (value, end) = P::read(alloc, tokens, at)?;
    Ok(((values, value), end))
}

/// `[WORD phrase]`: the part after a word, or nothing where the word does not stand.
pub fn after_word<A: Drop, P: Readable>(
    alloc: Global,
    tokens: &[Token],
    read: Result<(A, usize), ParseError>,
    word: TokenKind,
) -> Result<((A, Option<P::Value>), usize), ParseError>
    ensures { ReadsNext (optional (after word P.phrase)) (lexemes tokens.now) read result }
{
    let (values, at) = read?;
    if !has(tokens, at, word) {
        return Ok(((values, None), at));
    }
    let (value, end) = P::read(alloc, tokens, at + 1)?;
    Ok(((values, Some(value)), end))
}

/// `[WORD]`: a word that changes nothing.
pub fn skip<A: Drop>(
    tokens: &[Token],
    read: Result<(A, usize), ParseError>,
    word: TokenKind,
) -> Result<((A, ()), usize), ParseError>
    ensures { ReadsNext (noise word) (lexemes tokens.now) read result }
{
    let (values, at) = read?;
    Ok(((values, ()), words::skip(tokens, at, word)))
}

/// `[WORD WORD WORD]`: whether three words stand.
pub fn three_words<A: Drop>(
    tokens: &[Token],
    read: Result<(A, usize), ParseError>,
    first: TokenKind,
    second: TokenKind,
    third: TokenKind,
) -> Result<((A, bool), usize), ParseError>
    ensures { ReadsNext (three_words_phrase first second third) (lexemes tokens.now) read result }
{
    let (values, at) = read?;
    let (stand, end) = words::three_words(tokens, at, first, second, third)?;
    Ok(((values, stand), end))
}
