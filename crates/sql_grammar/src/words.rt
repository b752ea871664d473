//! Words that may be left out.

ghost use Rattle.sql_lexer.specs.Lexeme.{lexemes};
ghost use Rattle.sql_grammar.specs.Phrases.{noise, three_words as three_words_phrase};
ghost use Rattle.sql_grammar.specs.LookAhead.{IsReading, Reads};

use crate::expect::expect;
use expr_parser::parse_error::ParseError;
use expr_parser::reader::has;
use sql_lexer::token::{Token, TokenKind};

/// `[WORD]`: the index after a word that changes nothing, if it stands at `at`, else `at`.
pub fn skip(tokens: &[Token], at: usize, word: TokenKind) -> usize
    ensures { IsReading (noise word) (lexemes tokens.now) at result tt }
{
    if has(tokens, at, word) { at + 1 } else { at }
}

/// `[WORD WORD WORD]`: whether the first of three words stands at `at`, and the index after all
/// three. `Syntax` comes where the first stands and not the others.
pub fn three_words(
    tokens: &[Token],
    at: usize,
    first: TokenKind,
    second: TokenKind,
    third: TokenKind,
) -> Result<(bool, usize), ParseError>
    ensures { Reads (three_words_phrase first second third) (lexemes tokens.now) at result }
{
    if !has(tokens, at, first) {
        return Ok((false, at));
    }
    let end = expect(tokens, at + 1, second)?;
    let end = expect(tokens, end, third)?;
    Ok((true, end))
}
