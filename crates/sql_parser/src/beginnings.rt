//! Beginnings of statements: texts that are one with some more.

ghost use Rattle.std.specs.Prelude.{◌≡◌, ◌++◌, All, Err, IfOk, true, false, is_ok, string_bytes};
ghost use Rattle.sql_lexer.specs.Lexeme.{ArePlaced, lexemes};
ghost use Rattle.sql_parser.specs.Places.{IsBeginning, IsSpelled, SpellSome, closed, rest_of};

use crate::completions::Completion;
use crate::fronts::tokens_of;
use expr_parser::parse_error::ParseError;
use sql_commands::whole::statement;
use sql_lexer::laws::one_lexing;
use sql_lexer::token::Token;
use std::alloc::{AllocError, Global};

// Whether something was read; where memory was refused, that is no answer.
fn was_read<T: Drop>(read: Result<T, ParseError>) -> Result<bool, AllocError>
    ensures yes { IfOk result (λ found. found ≡ true → is_ok read ≡ true) }
    ensures no { IfOk result (λ found. found ≡ false → read ≡ Err ParseError.Syntax) }
{
    match read {
        Ok(_) => Ok(true),
        Err(ParseError::Syntax) => Ok(false),
        Err(ParseError::Memory) => Err(AllocError),
    }
}

// Whether these tokens of a text, all of them, spell a statement.
fn are_statement(alloc: Global, text: &str, tokens: &[Token]) -> Result<bool, AllocError>
    requires { ArePlaced text.now (lexemes tokens.now) }
    ensures yes { IfOk result (λ found. found ≡ true
        → SpellSome text.now (lexemes tokens.now)) }
    ensures no { IfOk result (λ found. found ≡ false
        → SpellSome text.now (lexemes tokens.now) → ⊥) }
{
    was_read(statement(alloc, text, tokens))
}

// Whether a text has tokens, and they spell a statement.
fn is_spelled(alloc: Global, text: &str) -> Result<bool, AllocError>
    ensures yes { IfOk result (λ found. found ≡ true → IsSpelled text.now) }
    ensures no { IfOk result (λ found. found ≡ false → IsSpelled text.now → ⊥) }
{
    // For the proof: a text has one list of tokens.
    one_lexing();
    match tokens_of(alloc, text)? {
        Some(tokens) => are_statement(alloc, text, tokens.as_slice()),
        None => Ok(false),
    }
}

// So many parentheses that close, after a text.
fn close(text: String, opened: usize) -> Result<String, AllocError>
    ensures { IfOk result (λ made. string_bytes made ≡ string_bytes text ++ closed opened) }
{
    let mut made = text;
    for _ in 0..opened {
        made.push_str(")")?;
    }
    Ok(made)
}

// What follows a beginning that leaves so many parentheses open.
fn rest_of(alloc: Global, opened: usize, words: &Completion) -> Result<String, AllocError>
    ensures { IfOk result (λ made.
        string_bytes made ≡ rest_of opened (words.now.0.now, words.now.1.now)) }
{
    let mut inside = String::from_str(alloc, "\n")?;
    inside.push_str(words.0)?;
    let mut rest = close(inside, opened)?;
    rest.push_str(" ")?;
    rest.push_str(words.1)?;
    Ok(rest)
}

// Whether a text is spelled with such words after it.
fn completes(
    alloc: Global,
    text: &str,
    opened: usize,
    words: &Completion,
) -> Result<bool, AllocError>
    ensures yes { IfOk result (λ found. found ≡ true → IsBeginning text.now) }
    ensures no { IfOk result (λ found. found ≡ false
        → IsSpelled (text.now ++ rest_of opened (words.now.0.now, words.now.1.now)) → ⊥) }
{
    let rest = rest_of(alloc, opened, words)?;
    let mut whole = String::from_str(alloc, text)?;
    whole.push_str(rest.as_str())?;
    is_spelled(alloc, whole.as_str())
}

/// Whether one of the completions makes a statement of a text that leaves so many parentheses open.
pub fn goes_on(
    alloc: Global,
    text: &str,
    opened: usize,
    completions: &[Completion],
) -> Result<bool, AllocError>
    ensures yes { IfOk result (λ found. found ≡ true → IsBeginning text.now) }
    ensures no { IfOk result (λ found. found ≡ false
        → All (λ c. IsSpelled (text.now ++ rest_of opened (c.0.now, c.1.now)) → ⊥) completions.now) }
{
    for words in completions {
        if completes(alloc, text, opened, words)? {
            return Ok(true);
        }
    }
    Ok(false)
}
