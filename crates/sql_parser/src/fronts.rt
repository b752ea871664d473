//! Fronts of a text that have tokens.

ghost use Rattle.std.specs.Prelude.{◌≡◌, ◌≤◌, None, length, take, IfOk, IfSome, IfNone};
ghost use Rattle.sql_types.specs.declared.state.SqlState.TheVariants.{OutOfMemory};
ghost use Rattle.sql_lexer.specs.Lexeme.{lexemes};
ghost use Rattle.sql_parser.specs.Places.{AreTokensOf, HasNoTokens, IsFront};

use memchr::memchr;
use sql_lexer::laws::one_lexing;
use sql_lexer::lexer;
use sql_lexer::token::Token;
use sql_types::state::{Refusal, SqlState};
use std::alloc::{AllocError, Global};

/// A front of a text, and its tokens.
#[derive(Drop)]
pub struct Front<'a> {
    /// The front.
    pub text: &'a str,
    /// Its tokens.
    pub tokens: Vec<Token<'a>>,
}

// Whether a text was refused for a fault; where memory was refused, that is no answer.
fn no_tokens<T: Drop>(refusal: Refusal) -> Result<Option<T>, AllocError>
    ensures { IfOk result (λ found. (found ≡ None) × (refusal.0 ≡ OutOfMemory → ⊥)) }
{
    match refusal {
        Refusal(SqlState::OutOfMemory) => Err(AllocError),
        _ => Ok(None),
    }
}

/// The tokens of a text, or `None` where it has a fault.
pub fn tokens_of<'a>(alloc: Global, text: &'a str) -> Result<Option<Vec<Token<'a>>>, AllocError>
    ensures some { IfOk result (λ found.
        IfSome found (λ tokens. AreTokensOf text.now (lexemes tokens.items))) }
    ensures none { IfOk result (λ found. IfNone found (HasNoTokens text.now)) }
{
    // For the proof: a text has one list of tokens.
    one_lexing();
    match lexer::tokens(alloc, text) {
        Ok(tokens) => Ok(Some(tokens)),
        Err(refusal) => no_tokens(refusal),
    }
}

// The text before an index and its tokens, or `None` where it has none: a token is cut there, or
// one before it is at fault.
fn front_before<'a>(
    alloc: Global,
    text: &'a str,
    end: usize,
) -> Result<Option<Front<'a>>, AllocError>
    ensures front { IfOk result (λ found. IfSome found (λ front.
        (end ≤ length text.now) × (front.text.now ≡ take end text.now)
        × AreTokensOf front.text.now (lexemes front.tokens.items))) }
{
    let Some((text, _)) = text.split_at_checked(end) else {
        return Ok(None);
    };
    match tokens_of(alloc, text)? {
        Some(tokens) => Ok(Some(Front { text, tokens })),
        None => Ok(None),
    }
}

// The index after the next such byte from an index on, or the index itself where there is none.
fn after_next(text: &str, at: usize, byte: u8) -> usize {
    let Some((_, rest)) = text.as_bytes().split_at_checked(at) else {
        return at;
    };
    match memchr(byte, rest) {
        Some(before) => at + before + 1,
        None => at,
    }
}

// Whether no fault stands before an index: what is cut there is whole a few bytes later, or after
// the next quote.
fn is_readable_to(alloc: Global, text: &str, at: usize) -> Result<bool, AllocError> {
    let ends = [
        at,
        at.saturating_add(1),
        at.saturating_add(2),
        at.saturating_add(3),
        after_next(text, at, b'\''),
        after_next(text, at, b'"'),
    ];
    for end in &ends {
        if front_before(alloc, text, *end)?.is_some() {
            return Ok(true);
        }
    }
    Ok(false)
}

// The end of the longest front that has tokens, of a text that has none.
fn readable_end(alloc: Global, text: &str) -> Result<usize, AllocError> {
    let mut low = 0;
    let mut high = text.len();
    while high - low > 1 {
        let middle = low + (high - low) / 2;
        if is_readable_to(alloc, text, middle)? {
            low = middle;
        } else {
            high = middle;
        }
    }
    Ok(low)
}

// Whether a letter stands at an index. Each character past ASCII is one.
fn has_letter(text: &str, at: usize) -> bool {
    match text.as_bytes().get(at) {
        Some(byte) => byte.is_ascii_alphabetic() || *byte == b'_' || *byte >= 128,
        None => false,
    }
}

// Where the last token of a front begins, or its end where it has none.
fn last_place(front: &Front) -> usize {
    match front.tokens.last() {
        Some(token) => token.start,
        None => front.text.len(),
    }
}

// Where the first fault of a text begins: a number before a letter is at fault itself.
fn fault_at(alloc: Global, text: &str) -> Result<usize, AllocError> {
    let end = readable_end(alloc, text)?;
    if !has_letter(text, end) {
        return Ok(end);
    }
    match front_before(alloc, text, end)? {
        Some(front) => Ok(last_place(&front)),
        None => Ok(end),
    }
}

// What stands before the first fault of a text.
fn front_of_faulty<'a>(alloc: Global, text: &'a str) -> Result<Front<'a>, AllocError>
    requires { HasNoTokens text.now }
    ensures front { IfOk result (λ front. IsFront text.now front.text.now) }
    ensures tokens { IfOk result (λ front.
        AreTokensOf front.text.now (lexemes front.tokens.items)) }
{
    let end = fault_at(alloc, text)?;
    match front_before(alloc, text, end)? {
        Some(front) => Ok(front),
        None => Ok(Front {
            text: "",
            tokens: Vec::new(alloc),
        }),
    }
}

/// The whole text with its tokens, or what stands before its first fault.
pub fn readable_front<'a>(alloc: Global, text: &'a str) -> Result<Front<'a>, AllocError>
    ensures front { IfOk result (λ front. IsFront text.now front.text.now) }
    ensures tokens { IfOk result (λ front.
        AreTokensOf front.text.now (lexemes front.tokens.items)) }
{
    match tokens_of(alloc, text)? {
        Some(tokens) => Ok(Front { text, tokens }),
        None => front_of_faulty(alloc, text),
    }
}
