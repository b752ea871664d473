//! Where a text that is refused for its syntax goes wrong.

ghost use Rattle.std.specs.Prelude.{◌≡◌, ◌≤◌, IfOk, IfSome, true, false, length};
ghost use Rattle.sql_lexer.specs.Lexeme.{lexemes};
ghost use Rattle.sql_parser.specs.Places.{AreTokensOf};
ghost use Rattle.syntax_places.specs.SyntaxPlaces.{IsMisread, IsWrongPlace, IsSyntaxPlace, max_length};

use crate::beginnings::tokens_of;
use crate::search::{place_at, wrong_index};
use sql_lexer::token::Token;
use sql_parser::laws::one_answer;
use sql_parser::parse::parse;
use sql_types::state::{Refusal, SqlState};
use std::alloc::{AllocError, Global};

/// The most bytes of a text in which a place is looked for.
const MAX_LENGTH: usize = 2048;

// Whether its syntax is why a text is refused.
fn is_misread(alloc: Global, text: &str) -> Result<bool, AllocError>
    ensures yes { IfOk result (λ found. found ≡ true → IsMisread text.now) }
    ensures no { IfOk result (λ found. found ≡ false → IsMisread text.now → ⊥) }
{
    // For the proof: a text is parsed with one answer.
    one_answer();
    match parse(alloc, text) {
        Err(Refusal(SqlState::SyntaxError)) => Ok(true),
        Err(Refusal(SqlState::OutOfMemory)) => Err(AllocError),
        _ => Ok(false),
    }
}

// Where a text with these tokens goes wrong, which is refused for its syntax.
fn place_among(alloc: Global, text: &str, tokens: &[Token]) -> Result<usize, AllocError>
    requires short { length text.now ≤ max_length }
    requires misread { IsMisread text.now }
    requires tokens { AreTokensOf text.now (lexemes tokens.now) }
    ensures place { IfOk result (λ place. IsWrongPlace text.now place) }
    ensures within { IfOk result (λ place. place ≤ length text.now) }
{
    let index = wrong_index(alloc, text, tokens)?;
    Ok(place_at(text.len(), tokens, index))
}

fn place_of(alloc: Global, text: &str) -> Result<Option<usize>, AllocError>
    requires short { length text.now ≤ max_length }
    requires misread { IsMisread text.now }
    ensures place { IfOk result (λ found. IsSyntaxPlace text.now found) }
    ensures within { IfOk result (λ found. IfSome found (λ place. (place ≤ length text.now) × (length text.now ≤ max_length))) }
{
    match tokens_of(alloc, text)? {
        None => Ok(None),
        Some(tokens) => {
            let place = place_among(alloc, text, tokens.as_slice())?;
            Ok(Some(place))
        }
    }
}

/// Where a text of at most 2,048 bytes goes wrong that [`parse`] refuses for its syntax, `42601`: the index of the
/// first byte of the first token with which none of the words in `completions` makes a statement, or the length of the
/// text where it ends too early. `None` where `parse` answers anything else, where the text is longer, and where it has
/// a fault that is no token, as a quote that nothing closes.
///
/// It is looked for by halves, so the time is that of [`parse`] some tens of times. `AllocError` comes only where memory
/// is refused.
pub fn syntax_place(alloc: Global, text: &str) -> Result<Option<usize>, AllocError>
    ensures place { IfOk result (λ found. IsSyntaxPlace text.now found) }
    ensures within { IfOk result (λ found. IfSome found (λ place. (place ≤ length text.now) × (length text.now ≤ max_length))) }
{
    if text.len() > MAX_LENGTH || !is_misread(alloc, text)? {
        return Ok(None);
    }
    place_of(alloc, text)
}
