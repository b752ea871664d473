//! Written statements, the parameters in them, and the labels of their columns.

ghost use Rattle.std.specs.Prelude.{◌≡◌, ◌-◌, IfOk, IfSome, All, List, ℕ, max, slice_index, string_bytes};
ghost use Rattle.std.specs.Option.{ok_or, option_map};
ghost use Rattle.std.specs.Str.{str_eq_ignore_ascii_case};
ghost use Rattle.sql_lexer.specs.Lexeme.{IsPlaced, end_of, lexeme, lexemes};
ghost use Rattle.statement_parameters.specs.Masks.{is_plain, masked};
ghost use Rattle.statement_parameters.specs.Spans.{fragment_in, fragments_in, part_in, viewed_spans};
ghost use Rattle.statement_parameters.specs.Templates.{IsTemplateOf, fragment_of, fragments_from, begins_with, follows_limit, has_parameter, is_word, number_behind, number_of, parameter_count, template_of};
ghost use Rattle.statement_parameters.specs.Readings.{IsShownReading, IsTemplateReading, IsTemplateWith};
ghost use Rattle.statement_parameters.specs.TemplateViews.{viewed_template};

use crate::fault::TemplateFault;
use crate::place::masked;
use crate::span::{PartSpan, PartSpans, slice_of};
use select_labels::unlabelled::without_labels;
use sql_lexer::lexer;
use sql_lexer::token::{Token, TokenKind};
use sql_types::items::Items;
use sql_types::name::Name;
use sql_types::state::{Refusal, SqlState};
use sql_types::text::Text;
use sql_types::try_copy::TryCopy;
use std::alloc::{AllocError, Global};
use std::marker::Model;

/// A written statement, which contracts see as its parts, each with the blanks before it.
#[derive(Drop)]
pub struct Template {
    masked: Text,
    spans: Vec<PartSpan>,
}

/// A written statement without the labels of its columns, and those labels.
#[derive(Drop)]
pub struct LabelledTemplate {
    pub template: Template,
    /// For each item of a SELECT's list its label, if it has one; none where no item has one.
    pub labels: Items<Option<Name>>,
}

impl Model for Template {
    ghost use Rattle.std.specs.Prelude.{List};
    ghost use Rattle.statement_parameters.specs.Templates.{Fragment};
    ghost use Rattle.statement_parameters.specs.Spans.{fragments_in};

    ghost Value = { List Fragment };

    ghost view = { λ t. fragments_in t.masked t.spans.items };
}

impl Template {
    /// Reads a written statement (PostgreSQL 15 manual, 4.1, "Lexical Structure"). A parameter, `$` and its number, may stand wherever a
    /// token may begin; a comment between `/*` and `*/`, which may have others in it, counts as a blank. All else is as the language has it.
    /// The labels of a SELECT's list (PostgreSQL 15 manual, SELECT, "SELECT List") are no part of it.
    ///
    /// `AllocError` comes only where memory is refused.
    pub fn read(
        alloc: Global,
        text: &str,
    ) -> Result<Result<LabelledTemplate, TemplateFault>, AllocError>
        ensures { IfOk result (λ read. IsTemplateReading text.now read) }
    {
        let shown = masked(alloc, text.as_bytes())?;
        match String::from_utf8(shown) {
            Ok(shown) => of_masked(alloc, text, shown),
            Err(_) => Ok(Err(TemplateFault::NotText)),
        }
    }

    /// How many parameters there are: the greatest number of one.
    pub fn parameter_count(&self) -> u16
        ensures { result ≡ parameter_count self.now }
    {
        parameter_count(self.spans())
    }

    /// Whether the parameter of a number stands somewhere.
    pub fn has_parameter(&self, number: usize) -> bool
        ensures { result ≡ has_parameter self.now number }
    {
        has_parameter(self.spans(), number)
    }

    /// Whether a parameter stands right behind the word LIMIT somewhere.
    pub fn follows_limit(&self, number: usize) -> bool
        ensures { result ≡ follows_limit self.now number }
    {
        follows_limit(self.spans(), number)
    }

    /// Whether its first part is this word, in any case.
    pub fn begins_with(&self, word: &[u8]) -> bool
        ensures { result ≡ begins_with word.now self.now }
    {
        begins_with(self.spans(), word)
    }

    // Where its parts stand.
    pub(crate) fn spans(&self) -> PartSpans<'_>
        ensures { viewed_spans result ≡ self.now }
    {
        PartSpans {
            masked: self.masked.as_str().as_bytes(),
            spans: self.spans.as_slice(),
        }
    }
}

fn parameter_count(parts: PartSpans<'_>) -> u16
    ensures { result ≡ parameter_count (viewed_spans parts.entry) }
{
    let mut count = 0;
    let mut rest = parts.spans;
    while let [span, after @ ..] = rest {
        count = greater(count, number_of(span));
        rest = after;
    }
    count
}

fn has_parameter(parts: PartSpans<'_>, number: usize) -> bool
    ensures { result ≡ has_parameter (viewed_spans parts.entry) number }
{
    let mut rest = parts.spans;
    while let [span, after @ ..] = rest {
        if number_of(span) as usize == number {
            return true;
        }
        rest = after;
    }
    false
}

fn follows_limit(parts: PartSpans<'_>, number: usize) -> bool
    ensures { result ≡ follows_limit (viewed_spans parts.entry) number }
{
    let mut behind = false;
    let mut rest = parts.spans;
    while let [span, after @ ..] = rest {
        if behind && number_of(span) as usize == number {
            return true;
        }
        behind = is_word(b"limit", parts.masked, span);
        rest = after;
    }
    false
}

fn begins_with(parts: PartSpans<'_>, word: &[u8]) -> bool
    ensures { result ≡ begins_with word.now (viewed_spans parts.entry) }
{
    match parts.spans {
        [] => false,
        [first, ..] => is_word(word, parts.masked, first),
    }
}

impl TryCopy for Template {
    fn try_copy(&self, alloc: Global) -> Result<Template, AllocError> {
        let masked = self.masked.try_copy(alloc)?;
        let spans = Vec::from_slice(alloc, self.spans.as_slice())?;
        Ok(Template { masked, spans })
    }
}

/// Whether a text has no sign of a parameter and no slash, so that it is masked as it stands and needs no template.
pub fn is_plain(text: &str) -> bool
    ensures { result ≡ is_plain text.now }
{
    let bytes = text.as_bytes();
    !bytes.contains(&b'$') && !bytes.contains(&b'/')
}

// Reads a written text by its masked text, from which the labels of its columns are taken out.
fn of_masked(
    alloc: Global,
    text: &str,
    shown: String,
) -> Result<Result<LabelledTemplate, TemplateFault>, AllocError>
    ensures { IfOk result (λ read. IsShownReading text.now (string_bytes shown) read) }
{
    match without_labels(alloc, shown.as_str())? {
        None => of_shown(alloc, text, Text::from_string(shown), Items::new(alloc)),
        Some(unlabelled) => of_shown(alloc, text, unlabelled.text, unlabelled.labels),
    }
}

fn of_shown(
    alloc: Global,
    text: &str,
    shown: Text,
    labels: Items<Option<Name>>,
) -> Result<Result<LabelledTemplate, TemplateFault>, AllocError>
    ensures { IfOk result (λ read. IsTemplateWith text.now shown labels read) }
{
    match spans_in(alloc, text.as_bytes(), shown.as_str())? {
        Ok(spans) => Ok(Ok(LabelledTemplate {
            template: Template {
                masked: shown,
                spans,
            },
            labels,
        })),
        Err(fault) => Ok(Err(fault)),
    }
}

// Where the parts of a text stand, by its masked text.
fn spans_in(
    alloc: Global,
    text: &[u8],
    shown: &str,
) -> Result<Result<Vec<PartSpan>, TemplateFault>, AllocError>
    ensures { IfOk result (λ spans. IsTemplateOf text.now shown.now (viewed_template shown.now spans)) }
{
    match lexer::tokens(alloc, shown) {
        Ok(tokens) => spans_of(alloc, text, shown, &tokens),
        Err(Refusal(SqlState::OutOfMemory)) => Err(AllocError),
        Err(Refusal(state)) => Ok(Err(TemplateFault::Refused(state))),
    }
}

fn spans_of(
    alloc: Global,
    text: &[u8],
    shown: &str,
    tokens: &[Token],
) -> Result<Result<Vec<PartSpan>, TemplateFault>, AllocError>
    requires { All (IsPlaced shown.now) (lexemes tokens.now) }
    ensures { IfOk result (λ spans. viewed_template shown.now spans ≡ ok_or (fragments_from text.now shown.now 0 (lexemes tokens.now)) TemplateFault.UnknownParameter) }
{
    let mut spans = Vec::new(alloc);
    let mut from = 0;
    let mut rest = tokens;
    while let [token, after @ ..] = rest {
        let Some(span) = span_of(text, shown, token, from) else {
            return Ok(Err(TemplateFault::UnknownParameter));
        };
        spans.push(span)?;
        from = span.end;
        rest = after;
    }
    Ok(Ok(spans))
}

// Where a part stands that is a token of the masked text, or None where a parameter has no such number.
fn span_of(text: &[u8], shown: &str, token: &Token, from: usize) -> Option<PartSpan>
    requires { IsPlaced shown.now (lexeme token.now) }
    ensures value { option_map (fragment_in shown.now) result ≡ fragment_of text.now shown.now from (lexeme token.now) }
    ensures end { IfSome result (λ span. span.end ≡ end_of (lexeme token.now)) }
{
    let parameter = match number_behind(text, token) {
        Some(number) if number == 0 || 65535 < number => return None,
        Some(number) => Some(number as u16),
        None => None,
    };
    Some(PartSpan {
        from,
        start: token.start,
        end: token.start + token.text.len(),
        parameter,
    })
}

// The number of a token behind the sign of a parameter.
fn number_behind(text: &[u8], token: &Token) -> Option<u64>
    ensures { result ≡ number_behind text.now (lexeme token.now) }
{
    match token.kind {
        TokenKind::Number(number) if byte_before(text, token.start) == b'$' => Some(number),
        _ => None,
    }
}

// The byte before a place, or the first one, or 0 past the end.
fn byte_before(text: &[u8], at: usize) -> u8
    ensures { result ≡ slice_index text.now (at - 1) }
{
    let before = at.saturating_sub(1);
    if before < text.len() { text[before] } else { 0 }
}

fn greater(left: u16, right: u16) -> u16
    ensures { result ≡ max left right }
{
    if left < right { right } else { left }
}

// The number of a parameter, or 0 for a token.
fn number_of(span: &PartSpan) -> u16
    ensures { (text : List ℕ) → result ≡ number_of (fragment_in text span.now).part }
{
    match span.parameter {
        Some(number) => number,
        None => 0,
    }
}

fn is_word(word: &[u8], shown: &[u8], span: &PartSpan) -> bool
    ensures { result ≡ is_word word.now (fragment_in shown.now span.now).part }
{
    match span.parameter {
        Some(_) => false,
        None => word.eq_ignore_ascii_case(slice_of(shown, span.start, span.end)),
    }
}
