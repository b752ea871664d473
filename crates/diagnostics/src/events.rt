//! What standard error is told of an event of a script, beside its answer.

ghost use Rattle.std.specs.Prelude.{◌≡◌, ◌≢◌, ◌≤◌, [], IfOk, OnOk, Some, length, true};
ghost use Rattle.std.specs.Io.KnownBytes.{Appends};
ghost use Rattle.std.specs.Option.{option_map};
ghost use Rattle.sql_lexer.specs.Lexeme.{lexemes};
ghost use Rattle.sql_types.specs.declared.state.SqlState.TheVariants.{OutOfMemory};
ghost use Rattle.sql_parser.specs.Places.{GoesWrongAt};
ghost use Rattle.diagnostics.specs.Aliases.{taken_text};
ghost use Rattle.diagnostics.specs.Events.{IsAliasTold, IsCauseTold, IsEventTold, IsRefusalTold, IsSyntaxTold, OfStatement, HasTokens, ShowsPlace, TellsOf, left_out_text, place_of, refused_text, statement_of, told_at, told_if};
ghost use Rattle.diagnostics.specs.LeftOut.{left_out};
ghost use Rattle.diagnostics.specs.Marks.{marked};

use crate::aliases::{TakenAlias, first_alias};
use crate::left_out::left_out;
use crate::marks::spaces;
use crate::meanings::refusal_meaning;
use sql_lexer::lexer;
use sql_lexer::token::Token;
use sql_parser::places::error_place;
use sql_types::answer::Answer;
use sql_types::state::{Refusal, SqlState};
use std::alloc::{AllocError, Global};
use std::io;
use std::io::Write;

/// Where in a script an event stands.
#[derive(Clone, Copy)]
pub struct EventLine<'a> {
    /// What messages call the script.
    pub script: &'a str,
    /// The number of the line, counted from 1.
    pub number: usize,
    /// The statement of the line, where it has one.
    pub statement: Option<&'a str>,
}

/// Tells on `err` what there is to say of an event that was answered so. Of a refusal that is its code and
/// what this means. Of a statement that is refused for its syntax it is the text, with a mark below the first
/// word or sign at which no statement goes on, and what is left out of the language by the word there or
/// before it; of any other statement the first word that is taken for the alias of a table and is a keyword
/// elsewhere.
///
/// The answer is `false` where `err` did not take it, or memory was refused.
pub fn tell_event<E: Write>(
    alloc: Global,
    event: EventLine<'_>,
    answer: &Answer,
    err: &mut E,
) -> bool
    ensures { TellsOf (IsEventTold (place_of event.entry) (statement_of event.entry) answer.now) result
        (E.contents err.old) (E.contents err.new) }
{
    match answer {
        Answer::Refused(state) => tell_refusal(alloc, event, *state, err),
        _ => tell_alias(alloc, event, err),
    }
}

// Tells of a refusal.
fn tell_refusal<E: Write>(alloc: Global, event: EventLine<'_>, state: SqlState, err: &mut E) -> bool
    ensures { TellsOf (IsRefusalTold (place_of event.entry) (statement_of event.entry) state) result
        (E.contents err.old) (E.contents err.new) }
{
    if write_refusal(event, state, err).is_err() {
        return false;
    }
    tell_cause(alloc, event, state, err)
}

fn write_refusal<E: Write>(event: EventLine<'_>, state: SqlState, err: &mut E) -> io::Result<()>
    ensures { OnOk result (Appends (E.contents err.old) (E.contents err.new)
        (told_at (place_of event.entry) (refused_text state))) }
{
    let EventLine {
        script,
        number,
        statement: _,
    } = event;
    let (code, meaning) = (state.code(), refusal_meaning(state));
    writeln!(
        err,
        "guarddb: {script}: line {number}: refused {code}: {meaning}"
    )
}

// Tells what in the statement may be the cause.
fn tell_cause<E: Write>(alloc: Global, event: EventLine<'_>, state: SqlState, err: &mut E) -> bool
    ensures { TellsOf (IsCauseTold (place_of event.entry) (statement_of event.entry) state) result
        (E.contents err.old) (E.contents err.new) }
{
    match state {
        SqlState::SyntaxError => tell_syntax(alloc, event, err),
        _ => tell_alias(alloc, event, err),
    }
}

// Tells where a statement goes wrong, where its syntax is why it was refused.
fn tell_syntax<E: Write>(alloc: Global, event: EventLine<'_>, err: &mut E) -> bool
    ensures { TellsOf (OfStatement (IsSyntaxTold (place_of event.entry)) (statement_of event.entry)) result
        (E.contents err.old) (E.contents err.new) }
{
    match event.statement {
        Some(text) => tell_syntax_of(alloc, event, text, err),
        None => true,
    }
}

fn tell_syntax_of<E: Write>(alloc: Global, event: EventLine<'_>, text: &str, err: &mut E) -> bool
    ensures { TellsOf (IsSyntaxTold (place_of event.entry) text.now) result
        (E.contents err.old) (E.contents err.new) }
{
    match error_place(alloc, text) {
        Ok(Some(place)) => tell_place(alloc, event, text, place, err),
        Ok(None) => true,
        Err(_) => false,
    }
}

// Shows the place at which a statement goes wrong, and what is left out by a word there.
fn tell_place<E: Write>(
    alloc: Global,
    event: EventLine<'_>,
    text: &str,
    place: usize,
    err: &mut E,
) -> bool
    requires within { place ≤ length text.now }
    requires wrong { GoesWrongAt text.now place }
    ensures { TellsOf (ShowsPlace (place_of event.entry) text.now) result
        (E.contents err.old) (E.contents err.new) }
{
    let Ok(tokens) = tokens_of(alloc, text) else {
        return false;
    };
    if !write_mark(alloc, text, place, err) {
        return false;
    }
    write_left_out(event, left_out(tokens.as_slice(), place), err)
}

// Writes a text, and below it a mark at a place.
fn write_mark<E: Write>(alloc: Global, text: &str, place: usize, err: &mut E) -> bool
    requires { place ≤ length text.now }
    ensures { result ≡ true → Appends (E.contents err.old) (E.contents err.new)
        (marked text.now place) }
{
    let (before, _) = text.as_bytes().split_at(place);
    match spaces(alloc, before) {
        Ok(spaces) => writeln!(err, "    {text}\n    {spaces}^").is_ok(),
        Err(_) => false,
    }
}

// Writes what is left out, where that is known.
fn write_left_out<E: Write>(event: EventLine<'_>, line: Option<&str>, err: &mut E) -> bool
    ensures { result ≡ true → Appends (E.contents err.old) (E.contents err.new)
        (told_if (place_of event.entry)
        (option_map left_out_text (option_map (λ text. text.now) line.entry))) }
{
    let EventLine {
        script,
        number,
        statement: _,
    } = event;
    match line {
        Some(line) => {
            writeln!(err, "guarddb: {script}: line {number}: left out: {line}").is_ok()
        }
        None => true,
    }
}

// Tells of the first word of a statement that is taken for the alias of a table.
fn tell_alias<E: Write>(alloc: Global, event: EventLine<'_>, err: &mut E) -> bool
    ensures { TellsOf (OfStatement (IsAliasTold (place_of event.entry)) (statement_of event.entry)) result
        (E.contents err.old) (E.contents err.new) }
{
    match event.statement {
        Some(text) => tell_alias_in(alloc, event, text, err),
        None => true,
    }
}

fn tell_alias_in<E: Write>(alloc: Global, event: EventLine<'_>, text: &str, err: &mut E) -> bool
    ensures { TellsOf (IsAliasTold (place_of event.entry) text.now) result
        (E.contents err.old) (E.contents err.new) }
{
    let Ok(tokens) = tokens_of(alloc, text) else {
        return false;
    };
    write_alias(event, first_alias(tokens.as_slice()), err)
}

fn write_alias<E: Write>(event: EventLine<'_>, alias: Option<TakenAlias<'_>>, err: &mut E) -> bool
    ensures { result ≡ true → Appends (E.contents err.old) (E.contents err.new)
        (told_if (place_of event.entry) (option_map taken_text alias.entry)) }
{
    let EventLine {
        script,
        number,
        statement: _,
    } = event;
    match alias {
        Some(alias) => writeln!(err, "guarddb: {script}: line {number}: {alias}").is_ok(),
        None => true,
    }
}

// No tokens, for a text with a fault; where memory was refused, that is no answer.
fn no_tokens<'a>(alloc: Global, refusal: Refusal) -> Result<Vec<Token<'a>>, AllocError>
    ensures { IfOk result (λ tokens. (lexemes tokens.items ≡ []) × (refusal.0 ≢ OutOfMemory)) }
{
    match refusal {
        Refusal(SqlState::OutOfMemory) => Err(AllocError),
        _ => Ok(Vec::new(alloc)),
    }
}

// The tokens of a text, or none, where it has a fault.
fn tokens_of<'a>(alloc: Global, text: &'a str) -> Result<Vec<Token<'a>>, AllocError>
    ensures { IfOk result (λ tokens. HasTokens text.now (lexemes tokens.items)) }
{
    match lexer::tokens(alloc, text) {
        Ok(tokens) => Ok(tokens),
        Err(refusal) => no_tokens(alloc, refusal),
    }
}
