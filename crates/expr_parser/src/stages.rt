//! The stages that a text goes through, whatever grammar it is parsed by.

ghost use Rattle.std.specs.Prelude.{◌≡◌, IfOk};
ghost use Rattle.sql_lexer.specs.Lexeme.{ArePlaced, lexeme, lexemes};
ghost use Rattle.expr_parser.specs.Stages.{zero_if_least as zero_if_least_lexeme, least_as_zero as least_as_zero_lexemes, Answers, Parses, Refuses};

use crate::grammar::Grammar;
use crate::parse_error::ParseError;
use sql_lexer::lexer;
use sql_lexer::parentheses::opens_too_many;
use sql_lexer::token::{Token, TokenKind};
use sql_types::state::{Refusal, SqlState};
use std::alloc::{AllocError, Global};

/// The most bytes that a text which is parsed may have: a statement, or a condition that is stored.
pub const MAX_STATEMENT_LENGTH: usize = 65536;

/// The greatest depth that an expression may have: a leaf has depth 1, an operator one more than
/// its deepest operand, and parentheses add none.
pub const MAX_DEPTH: usize = 64;

// The number that stands only after a minus, made one that stands anywhere.
fn zero_if_least<'a>(token: &Token<'a>) -> Token<'a>
    ensures { lexeme result ≡ zero_if_least_lexeme (lexeme token.now) }
{
    match token.kind {
        TokenKind::Number(9223372036854775808) => Token {
            kind: TokenKind::Number(0),
            text: token.text,
            start: token.start,
        },
        _ => *token,
    }
}

// The tokens with each 9223372036854775808 made 0: what they spell then and not before has this
// number where it is out of range.
fn least_as_zero<'a>(alloc: Global, tokens: &[Token<'a>]) -> Result<Vec<Token<'a>>, AllocError>
    ensures { IfOk result (λ made.
        lexemes made.items ≡ least_as_zero_lexemes (lexemes tokens.now)) }
{
    let mut made = Vec::new(alloc);
    for token in tokens {
        made.push(zero_if_least(token))?;
    }
    Ok(made)
}

// Why tokens that mean nothing are refused: a number out of range is found once all else is right.
fn late_refusal<G: Grammar>(alloc: Global, source: &str, tokens: &[Token]) -> Refusal
    requires { ArePlaced source.now (lexemes tokens.now) }
    ensures { Refuses (G.Means source.now) (lexemes tokens.now) result }
{
    let Ok(made) = least_as_zero(alloc, tokens) else {
        return Refusal(SqlState::OutOfMemory);
    };
    match G::read(alloc, source, &made) {
        Ok(_) => Refusal(SqlState::NumericValueOutOfRange),
        Err(ParseError::Syntax) => Refusal(SqlState::SyntaxError),
        Err(ParseError::Memory) => Refusal(SqlState::OutOfMemory),
    }
}

// What tokens mean, or the refusal of the first stage that refuses them.
fn parse_tokens<G: Grammar>(
    alloc: Global,
    source: &str,
    tokens: &[Token],
) -> Result<G::Value, Refusal>
    requires { ArePlaced source.now (lexemes tokens.now) }
    ensures { Answers (G.Means source.now) G.IsWithinDepth (lexemes tokens.now) result }
{
    if opens_too_many(tokens) {
        return Err(Refusal(SqlState::ProgramLimitExceeded));
    }
    match G::read(alloc, source, tokens) {
        Ok(value) => {
            if G::is_within_depth(&value) {
                Ok(value)
            } else {
                Err(Refusal(SqlState::ProgramLimitExceeded))
            }
        }
        Err(ParseError::Memory) => Err(Refusal(SqlState::OutOfMemory)),
        Err(ParseError::Syntax) => Err(late_refusal::<G>(alloc, source, tokens)),
    }
}

/// What a text means in a grammar, or the refusal of the first stage that refuses it.
///
/// The stages are, in this order: the length, at most 65,536 bytes, else `54000`; the tokens, whose
/// first fault from the left is answered; at most 64 parentheses open at once, else `54000`; the
/// grammar, `42601`; a number out of range, `22003`: 9223372036854775808 without a minus before it;
/// an expression deeper than 64, `54000`. `53200` comes where memory is refused. The time is in
/// proportion to the text.
pub fn parse_text<G: Grammar>(alloc: Global, text: &str) -> Result<G::Value, Refusal>
    ensures { Parses (G.Means text.now) G.IsWithinDepth text.now result }
{
    if text.len() > MAX_STATEMENT_LENGTH {
        return Err(Refusal(SqlState::ProgramLimitExceeded));
    }
    let tokens = lexer::tokens(alloc, text)?;
    parse_tokens::<G>(alloc, text, &tokens)
}
