//! Beginnings of statements: texts that are one with some more.

ghost use Rattle.std.specs.Prelude.{◌≡◌, ◌++◌, Err, IfOk, IfSome, IfNone, None, map, true, false, is_ok, string_bytes};
ghost use Rattle.sql_types.specs.declared.state.SqlState.TheVariants.{OutOfMemory};
ghost use Rattle.sql_lexer.specs.Lexeme.{ArePlaced, lexemes};
ghost use Rattle.sql_parser.specs.Places.{AreTokensOf, HasNoTokens, IsSpelled, SpellSome, closed, rest_of};
ghost use Rattle.syntax_places.specs.SyntaxPlaces.{IsCompletedBy};

use crate::completions::CompletingWords;
use expr_parser::parse_error::ParseError;
use sql_commands::whole::statement;
use sql_lexer::laws::one_lexing;
use sql_lexer::lexer;
use sql_lexer::token::Token;
use sql_types::state::{Refusal, SqlState};
use std::alloc::{AllocError, Global};

// Whether a text was refused for a fault; where memory was refused, that is no answer.
fn no_tokens<T: Drop>(refusal: Refusal) -> Result<Option<T>, AllocError>
    ensures { IfOk result (λ found. (found ≡ None) × (refusal.0 ≡ OutOfMemory → ⊥)) }
{
    match refusal {
        Refusal(SqlState::OutOfMemory) => Err(AllocError),
        _ => Ok(None),
    }
}

// The tokens of a text, or `None` where it has a fault.
pub(crate) fn tokens_of<'a>(
    alloc: Global,
    text: &'a str,
) -> Result<Option<Vec<Token<'a>>>, AllocError>
    ensures some { IfOk result (λ found.
        IfSome found (λ tokens. AreTokensOf text.now (lexemes tokens.items))) }
    ensures none { IfOk result (λ found. IfNone found (HasNoTokens text.now)) }
{
    // For the proof: a text has one list of tokens.
    one_lexing();
    match lexer::tokens(alloc, text) {
        Ok(tokens) => Ok(Some(tokens)),
        Err(refusal) => no_tokens(refusal),
    }
}

// Whether something was read; where memory was refused, that is no answer.
fn was_read<T: Drop>(read: Result<T, ParseError>) -> Result<bool, AllocError>
    ensures yes { IfOk result (λ found. found ≡ true → is_ok read ≡ true) }
    ensures no { IfOk result (λ found. found ≡ false → read ≡ Err ParseError.Syntax) }
{
    match read {
        Ok(_) => Ok(true),
        Err(ParseError::Syntax) => Ok(false),
        Err(ParseError::Memory) => Err(AllocError),
    }
}

// Whether these tokens of a text, all of them, spell a statement.
fn are_statement(alloc: Global, text: &str, tokens: &[Token]) -> Result<bool, AllocError>
    requires { ArePlaced text.now (lexemes tokens.now) }
    ensures yes { IfOk result (λ found. found ≡ true
        → SpellSome text.now (lexemes tokens.now)) }
    ensures no { IfOk result (λ found. found ≡ false
        → SpellSome text.now (lexemes tokens.now) → ⊥) }
{
    was_read(statement(alloc, text, tokens))
}

// Whether a text has tokens, and they spell a statement.
fn is_spelled(alloc: Global, text: &str) -> Result<bool, AllocError>
    ensures yes { IfOk result (λ found. found ≡ true → IsSpelled text.now) }
    ensures no { IfOk result (λ found. found ≡ false → IsSpelled text.now → ⊥) }
{
    // For the proof: a text has one list of tokens.
    one_lexing();
    match tokens_of(alloc, text)? {
        Some(tokens) => are_statement(alloc, text, tokens.as_slice()),
        None => Ok(false),
    }
}

// So many parentheses that close, after a text.
fn close(text: String, opened: usize) -> Result<String, AllocError>
    ensures { IfOk result (λ made. string_bytes made ≡ string_bytes text ++ closed opened) }
{
    let mut made = text;
    for _ in 0..opened {
        made.push_str(")")?;
    }
    Ok(made)
}

// What follows a beginning that leaves so many parentheses open.
fn rest_of(alloc: Global, opened: usize, words: &CompletingWords) -> Result<String, AllocError>
    ensures { IfOk result (λ made.
        string_bytes made ≡ rest_of opened (words.now.0.now, words.now.1.now)) }
{
    let mut inside = String::from_str(alloc, "\n")?;
    inside.push_str(words.0)?;
    let mut rest = close(inside, opened)?;
    rest.push_str(" ")?;
    rest.push_str(words.1)?;
    Ok(rest)
}

// Whether a text is spelled with such words after it.
fn completes(
    alloc: Global,
    text: &str,
    opened: usize,
    words: &CompletingWords,
) -> Result<bool, AllocError>
    ensures yes { IfOk result (λ found. found ≡ true
        → IsSpelled (text.now ++ rest_of opened (words.now.0.now, words.now.1.now))) }
    ensures no { IfOk result (λ found. found ≡ false
        → IsSpelled (text.now ++ rest_of opened (words.now.0.now, words.now.1.now)) → ⊥) }
{
    let rest = rest_of(alloc, opened, words)?;
    let mut whole = String::from_str(alloc, text)?;
    whole.push_str(rest.as_str())?;
    is_spelled(alloc, whole.as_str())
}

// Whether one of the completions makes a statement of a text that leaves so many parentheses open.
pub(crate) fn goes_on(
    alloc: Global,
    text: &str,
    opened: usize,
    completions: &[CompletingWords],
) -> Result<bool, AllocError>
    ensures yes { IfOk result (λ found. found ≡ true
        → IsCompletedBy text.now opened (map (λ c. (c.0.now, c.1.now)) completions.now)) }
    ensures no { IfOk result (λ found. found ≡ false
        → IsCompletedBy text.now opened (map (λ c. (c.0.now, c.1.now)) completions.now) → ⊥) }
{
    let mut left = completions;
    while let [words, others @ ..] = left {
        if completes(alloc, text, opened, words)? {
            return Ok(true);
        }
        left = others;
    }
    Ok(false)
}
