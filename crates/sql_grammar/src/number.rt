//! Numbers.

ghost use Rattle.sql_lexer.specs.Lexeme.{lexemes};
ghost use Rattle.sql_grammar.specs.Phrases.{number as a_number};
ghost use Rattle.sql_grammar.specs.LookAhead.{Reads};

use expr_parser::parse_error::ParseError;
use expr_parser::reader::kind_at;
use sql_lexer::token::{Token, TokenKind};

/// The number below 2^63 that stands at an index, and the index after it.
pub fn number(tokens: &[Token], at: usize) -> Result<(u64, usize), ParseError>
    ensures { Reads a_number (lexemes tokens.now) at result }
{
    match kind_at(tokens, at) {
        Some(TokenKind::Number(value)) => {
            if value < 9223372036854775808 {
                Ok((value, at + 1))
            } else {
                Err(ParseError::Syntax)
            }
        }
        _ => Err(ParseError::Syntax),
    }
}
