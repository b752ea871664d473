//! Where a text that is refused for its syntax goes wrong.

ghost use Rattle.std.specs.Prelude.{◌≡◌, ◌<◌, ◌≤◌, ◌-◌, ◌^◌, ◌↔◌, IfOk, IfSome, IsSome, true, false, length, map, take, Err};
ghost use Rattle.sql_types.specs.declared.state.SqlState.TheVariants.{SyntaxError};
ghost use Rattle.sql_lexer.specs.Lexeme.{lexemes};
ghost use Rattle.sql_lexer.specs.Parentheses.{open_after, open_count};
ghost use Rattle.expr_parser.specs.Stages.{Parses, refusal};
ghost use Rattle.sql_parser.specs.Forms.{Means, IsStatementWithinDepth};
ghost use Rattle.sql_parser.specs.Places.{AreTokensOf, GoesWrongAt, IsBeginning, IsPlaceAmong, NoneCompletes, place_at};

use crate::beginnings::goes_on;
use crate::completions::{Completion, completions};
use crate::fronts::{Front, readable_front};
use crate::laws::one_answer;
use crate::parse::parse;
use expr_parser::reader::kind_at;
use sql_lexer::token::{Punctuation, Token, TokenKind};
use sql_types::state::{Refusal, SqlState};
use std::alloc::{AllocError, Global};

// How many parentheses are open after one more token.
fn open_after(count: usize, kind: TokenKind) -> usize
    requires { count < 2 ^ 64 - 1 }
    ensures { result ≡ open_after count kind }
{
    match kind {
        TokenKind::Punctuation(Punctuation::Open) => count + 1,
        TokenKind::Punctuation(Punctuation::Close) => count.saturating_sub(1),
        _ => count,
    }
}

// How many parentheses are open after these tokens.
fn open_count(tokens: &[Token]) -> usize
    ensures { result ≡ open_count (lexemes tokens.now) }
{
    let mut count = 0;
    for token in tokens {
        count = open_after(count, token.kind);
    }
    count
}

// Where the token at an index begins, or the end where none stands there.
fn place_at(end: usize, tokens: &[Token], index: usize) -> usize
    ensures { result ≡ place_at end (lexemes tokens.now) index }
{
    if index < tokens.len() {
        return tokens[index].start;
    }
    end
}

// Whether the text before the token at an index goes on to a statement.
fn begins(
    alloc: Global,
    front: &Front,
    index: usize,
    completions: &[Completion],
) -> Result<bool, AllocError>
    requires tokens { AreTokensOf front.now.text.now (lexemes front.now.tokens.items) }
    requires within { index ≤ length front.now.tokens.items }
    ensures yes { IfOk result (λ found. found ≡ true → IsBeginning (take
        (place_at (length front.now.text.now) (lexemes front.now.tokens.items) index)
        front.now.text.now)) }
    ensures no { IfOk result (λ found. found ≡ false → NoneCompletes
        (take (place_at (length front.now.text.now) (lexemes front.now.tokens.items) index)
        front.now.text.now)
        (open_count (take index (lexemes front.now.tokens.items)))
        (map (λ c. (c.0.now, c.1.now)) completions.now)) }
{
    let place = place_at(front.text.len(), front.tokens.as_slice(), index);
    let (before, _) = front.text.split_at(place);
    let (tokens, _) = front.tokens.as_slice().split_at(index);
    goes_on(alloc, before, open_count(tokens), completions)
}

// The place of the first token at which no statement goes on, or the end of the front.
fn place_in(alloc: Global, front: &Front) -> Result<usize, AllocError>
    requires { AreTokensOf front.now.text.now (lexemes front.now.tokens.items) }
    ensures among { IfOk result
        (IsPlaceAmong front.now.text.now (lexemes front.now.tokens.items)) }
    ensures within { IfOk result (λ place. place ≤ length front.now.text.now) }
{
    let completions = completions(kind_at(front.tokens.as_slice(), 0));
    let mut low = 0;
    let mut high = front.tokens.len() + 1;
    while high - low > 1 {
        let middle = low + (high - low) / 2;
        if begins(alloc, front, middle, completions)? {
            low = middle;
        } else {
            high = middle;
        }
    }
    Ok(place_at(front.text.len(), front.tokens.as_slice(), low))
}

// Where a text goes wrong that is refused for its syntax.
fn place_of(alloc: Global, text: &str) -> Result<usize, AllocError>
    ensures wrong { IfOk result (GoesWrongAt text.now) }
    ensures within { IfOk result (λ place. place ≤ length text.now) }
{
    let front = readable_front(alloc, text)?;
    place_in(alloc, &front)
}

/// Where a text goes wrong that [`parse`] refuses for its syntax, `42601`: the index of the first byte
/// of the first token with which no statement begins, or the length of the text where it ends too
/// early. `None` where `parse` answers anything else; nothing here changes what it answers.
///
/// Proved is that the place is that of a token or the end, that what stands before it begins a
/// statement unless no token does, and that none of the words in `completions` makes one of it with
/// the token. That these words are enough, so that no text does, is tested. A fault that is no token, as a quote
/// that nothing closes, counts as one, and 9223372036854775808 without a minus is no expression. A
/// text that breaks a rule of form alone goes wrong at its end.
///
/// `AllocError` comes only where memory is refused. The time is that of [`parse`] some hundred times
/// for the longest texts, and some tens of times for short ones.
pub fn error_place(alloc: Global, text: &str) -> Result<Option<usize>, AllocError>
    ensures refused { IfOk result (λ found. IsSome found
        ↔ Parses (Means text.now) IsStatementWithinDepth text.now (Err (refusal SyntaxError))) }
    ensures wrong { IfOk result (λ found. IfSome found (GoesWrongAt text.now)) }
    ensures within { IfOk result (λ found. IfSome found (λ place. place ≤ length text.now)) }
{
    // For the proof: a text is parsed with one answer.
    one_answer();
    match parse(alloc, text) {
        Err(Refusal(SqlState::SyntaxError)) => Ok(Some(place_of(alloc, text)?)),
        Err(Refusal(SqlState::OutOfMemory)) => Err(AllocError),
        _ => Ok(None),
    }
}
