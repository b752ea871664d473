//! Words and signs that have to stand where they do.

ghost use Rattle.sql_lexer.specs.Lexeme.{lexemes};
ghost use Rattle.sql_grammar.specs.Productions.{Expects};

use expr_parser::parse_error::ParseError;
use expr_parser::reader::has;
use sql_lexer::token::{Punctuation, Reserved, Token, TokenKind, Unreserved};

/// The index after a token of this kind, which stands at `at`, or `Syntax` where it does not.
pub fn expect(tokens: &[Token], at: usize, kind: TokenKind) -> Result<usize, ParseError>
    ensures { Expects (lexemes tokens.now) at kind result }
{
    if has(tokens, at, kind) {
        Ok(at + 1)
    } else {
        Err(ParseError::Syntax)
    }
}

/// The index after a reserved word, as [`expect`].
pub fn reserved(tokens: &[Token], at: usize, word: Reserved) -> Result<usize, ParseError>
    ensures { Expects (lexemes tokens.now) at (TokenKind.Reserved word) result }
{
    expect(tokens, at, TokenKind::Reserved(word))
}

/// The index after a keyword that is not reserved, as [`expect`].
pub fn unreserved(tokens: &[Token], at: usize, word: Unreserved) -> Result<usize, ParseError>
    ensures { Expects (lexemes tokens.now) at (TokenKind.Unreserved word) result }
{
    expect(tokens, at, TokenKind::Unreserved(word))
}

/// The index after a sign, as [`expect`].
pub fn punctuation(tokens: &[Token], at: usize, sign: Punctuation) -> Result<usize, ParseError>
    ensures { Expects (lexemes tokens.now) at (TokenKind.Punctuation sign) result }
{
    expect(tokens, at, TokenKind::Punctuation(sign))
}
