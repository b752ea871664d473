//! A statement with values for its parameters.

ghost use Rattle.std.specs.Prelude.{◌≡◌, ◌↔◌, ◌++◌, ◌<◌, List, ℕ, map, length, is_some, IfOk, IsTrue, Some, None, IsUtf8};
ghost use Rattle.sql_types.specs.declared.value.Value.{Value as TheValue};
ghost use Rattle.statement_parameters.specs.Bindings.{IsTemplateBinding, fragment_text, text_with};
ghost use Rattle.statement_parameters.specs.BindingViews.{IsCheckedText, IsMadeText, PutsPart};
ghost use Rattle.statement_parameters.specs.Literals.{viewed_literal};
ghost use Rattle.statement_parameters.specs.Parts.{HasExactTokens, literal_tokens, part_tokens, tokens_with};
ghost use Rattle.statement_parameters.specs.Spans.{fragment_in, viewed_spans};
ghost use Rattle.statement_parameters.specs.Templates.{parts_of};

use crate::eating::{are_tokens, literal_at};
use crate::fault::BindFault;
use crate::literal::{Literal, literals_of};
use crate::span::{PartSpan, PartSpans, slice_of};
use crate::template::Template;
use sql_lexer::laws::one_lexing;
use sql_lexer::lexer;
use sql_types::state::{Refusal, SqlState};
use sql_types::text::Text;
use sql_types::value::Value;
use std::alloc::{AllocError, Global};

/// The most bytes of a statement with values.
const MAX_BOUND: usize = 65_536;

/// A statement with values for its parameters: a text whose tokens are those of the written text, where each parameter is the tokens of
/// one literal. The text is made, and its tokens are compared with those that it is to have. Where a parameter has no value it is
/// `NoValue`. Else it is `TooLong` where the text has over 65,536 bytes, and `OtherTokens` where it has other tokens.
pub fn bound_text(
    alloc: Global,
    template: &Template,
    values: &[Value],
) -> Result<Result<Text, BindFault>, AllocError>
    ensures { IfOk result (λ bound. IsTemplateBinding template.now values.now bound) }
{
    let literals = literals_of(alloc, values)?;
    bound_with(alloc, template.spans(), &literals)
}

// A statement with literals for its parameters.
fn bound_with(
    alloc: Global,
    parts: PartSpans<'_>,
    literals: &[Literal],
) -> Result<Result<Text, BindFault>, AllocError>
    ensures { IfOk result (λ bound. (values : List TheValue) → map viewed_literal literals.now ≡ map literal_tokens values
        → IsTemplateBinding (viewed_spans parts.entry) values bound) }
{
    if !have_literals(parts, literals) {
        return Ok(Err(BindFault::NoValue));
    }
    match made_text(alloc, parts, literals)? {
        Ok(made) => checked_text(alloc, made, parts, literals),
        Err(fault) => Ok(Err(fault)),
    }
}

// Whether each parameter has a literal.
fn have_literals(parts: PartSpans<'_>, literals: &[Literal]) -> bool
    ensures { result ≡ is_some (tokens_with (map viewed_literal literals.now) (parts_of (viewed_spans parts.entry))) }
{
    let mut rest = parts.spans;
    while let [span, after @ ..] = rest {
        if !has_literal(span, literals) {
            return false;
        }
        rest = after;
    }
    true
}

// Whether a part is a token, or a parameter that has a literal.
fn has_literal(span: &PartSpan, literals: &[Literal]) -> bool
    ensures { (text : List ℕ) → result ≡ is_some (part_tokens (map viewed_literal literals.now) (fragment_in text span.now).part) }
{
    match span.parameter {
        Some(number) => literal_at(literals, number).is_some(),
        None => true,
    }
}

// Puts a part behind bytes, with the blanks before it, unless it has no literal.
fn put_part(
    masked: &[u8],
    span: &PartSpan,
    literals: &[Literal],
    out: &mut Vec<u8>,
) -> Result<bool, AllocError>
    ensures { IfOk result (λ put. PutsPart put (fragment_text (map viewed_literal literals.now) (fragment_in masked.now span.now)) out.old.items out.new.items) }
{
    out.extend_from_slice(slice_of(masked, span.from, span.start))?;
    let Some(number) = span.parameter else {
        out.extend_from_slice(slice_of(masked, span.start, span.end))?;
        return Ok(true);
    };
    let Some(literal) = literal_at(literals, number) else {
        return Ok(false);
    };
    out.extend_from_slice(b" ")?;
    literal.put(out)?;
    out.push(b' ')?;
    Ok(true)
}

// The text with literals.
pub(crate) fn made_text(
    alloc: Global,
    parts: PartSpans<'_>,
    literals: &[Literal],
) -> Result<Result<Vec<u8>, BindFault>, AllocError>
    ensures { IfOk result (λ made. IsMadeText (text_with (map viewed_literal literals.now) (viewed_spans parts.entry)) made) }
{
    let mut made = Vec::new(alloc);
    let mut rest = parts.spans;
    while let [span, after @ ..] = rest {
        if !put_part(parts.masked, span, literals, &mut made)? {
            return Ok(Err(BindFault::NoValue));
        }
        if MAX_BOUND < made.len() {
            return Ok(Err(BindFault::TooLong));
        }
        rest = after;
    }
    Ok(Ok(made))
}

// The text, if it has the tokens of the parts with literals.
fn checked_text(
    alloc: Global,
    made: Vec<u8>,
    parts: PartSpans<'_>,
    literals: &[Literal],
) -> Result<Result<Text, BindFault>, AllocError>
    ensures { IfOk result (λ checked. (expected : List (List ℕ)) → tokens_with (map viewed_literal literals.now) (parts_of (viewed_spans parts.entry)) ≡ Some expected → IsCheckedText expected made.items checked) }
{
    let Ok(text) = String::from_utf8(made) else {
        return Ok(Err(BindFault::OtherTokens));
    };
    if has_tokens(alloc, text.as_str(), parts, literals)? {
        Ok(Ok(Text::from_string(text)))
    } else {
        Ok(Err(BindFault::OtherTokens))
    }
}

// Whether a text has the tokens of the parts with literals.
fn has_tokens(
    alloc: Global,
    text: &str,
    parts: PartSpans<'_>,
    literals: &[Literal],
) -> Result<bool, AllocError>
    ensures { IfOk result (λ has. (expected : List (List ℕ)) → tokens_with (map viewed_literal literals.now) (parts_of (viewed_spans parts.entry)) ≡ Some expected → (IsTrue has ↔ HasExactTokens expected text.now)) }
{
    // For the proof: a text has one list of tokens.
    one_lexing();
    match lexer::tokens(alloc, text) {
        Ok(tokens) => Ok(are_tokens(&tokens, parts, literals)),
        Err(Refusal(SqlState::OutOfMemory)) => Err(AllocError),
        Err(Refusal(_)) => Ok(false),
    }
}
