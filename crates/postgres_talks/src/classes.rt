//! What the tokens of a statement make of it.

ghost use Rattle.std.specs.Prelude.{◌≡◌, ◌++◌, ◌∷◌, IfOk, OnOk, string_bytes};
ghost use Rattle.std.specs.List.{flat_map};
ghost use Rattle.sql_lexer.specs.Lexeme.{lexeme, lexemes};
ghost use Rattle.postgres_talks.specs.Pieces.{asked, by_settled, begins_control, begins_select, by_substitute, has_reserved, is_catalogue, is_control, is_dot, is_joining, is_reserved_as, is_select, joins_catalogue, line_of, mentions, mentions_catalogue, names_catalogue, piece_of, plain, substituted};

use crate::fault::TalkFault;
use crate::piece::{LabelledText, StatementPiece};
use crate::settled::{Settled, Substitute, substitute_of};
use crate::words::is_same_word;
use postgres_texts::reserved::is_reserved;
use sql_lexer::token::{Punctuation, Reserved, Token, TokenKind};
use sql_types::items::Items;
use sql_types::text::Text;
use std::alloc::{AllocError, Global};

// What a slice of a text is that has these tokens.
pub(crate) fn piece_of(
    alloc: Global,
    slice: &str,
    tokens: &[Token],
) -> Result<StatementPiece, AllocError>
    ensures { IfOk result (λ piece. piece ≡ piece_of slice.now (lexemes tokens.now)) }
{
    let line = line_of(alloc, tokens)?;
    match Settled::of_line(line.as_str()) {
        Some(settled) => Ok(StatementPiece::Settled(settled, Items::new(alloc))),
        None => by_substitute(alloc, substitute_of(line.as_str()), slice, tokens),
    }
}

fn by_substitute(
    alloc: Global,
    substitute: Option<Substitute>,
    slice: &str,
    tokens: &[Token],
) -> Result<StatementPiece, AllocError>
    ensures { IfOk result (λ piece. piece ≡ by_substitute substitute slice.now (lexemes tokens.now)) }
{
    match substitute {
        Some(substitute) => substituted(alloc, substitute),
        None => plain(alloc, slice, tokens),
    }
}

fn substituted(alloc: Global, substitute: Substitute) -> Result<StatementPiece, AllocError>
    ensures { IfOk result (λ piece. piece ≡ substituted substitute) }
{
    match substitute {
        Substitute::Begin => Ok(StatementPiece::Control(Text::from_str(alloc, "BEGIN")?)),
        Substitute::BeginReadOnly => Ok(StatementPiece::BeginReadOnly),
        Substitute::Commit => Ok(StatementPiece::Control(Text::from_str(alloc, "COMMIT")?)),
        Substitute::Rollback => Ok(StatementPiece::Control(Text::from_str(alloc, "ROLLBACK")?)),
        Substitute::DiscardAll => Ok(StatementPiece::DiscardAll),
    }
}

fn plain(alloc: Global, slice: &str, tokens: &[Token]) -> Result<StatementPiece, AllocError>
    ensures { IfOk result (λ piece. piece ≡ plain slice.now (lexemes tokens.now)) }
{
    if names_catalogue(tokens) {
        return Ok(StatementPiece::Faulty(TalkFault::Catalogue));
    }
    if has_reserved(tokens) {
        return Ok(StatementPiece::Faulty(TalkFault::ReservedWord));
    }
    let text = Text::from_str(alloc, slice)?;
    Ok(asked(alloc, text, tokens))
}

// A statement that the machine is asked.
fn asked(alloc: Global, text: Text, tokens: &[Token]) -> StatementPiece
    ensures { result ≡ asked text (lexemes tokens.now) }
{
    if begins_select(tokens) {
        return StatementPiece::Select(LabelledText::bare(alloc, text));
    }
    if begins_control(tokens) {
        return StatementPiece::Control(text);
    }
    StatementPiece::Statement(text)
}

// Whether a statement writes no row, by its first token.
fn begins_control(tokens: &[Token]) -> bool
    ensures { result ≡ begins_control (lexemes tokens.now) }
{
    match tokens {
        [] => false,
        [first, ..] => is_control(first.text.as_bytes()),
    }
}

fn is_control(word: &[u8]) -> bool
    ensures { result ≡ is_control word.now }
{
    is_same_word(b"begin", word)
        || is_same_word(b"start", word)
        || is_same_word(b"commit", word)
        || is_same_word(b"rollback", word)
        || is_same_word(b"set", word)
        || is_same_word(b"reset", word)
}

// Whether a statement is a SELECT, by its first token.
fn begins_select(tokens: &[Token]) -> bool
    ensures { result ≡ begins_select (lexemes tokens.now) }
{
    match tokens {
        [] => false,
        [first, ..] => is_select(first.kind),
    }
}

fn is_select(kind: TokenKind) -> bool
    ensures { result ≡ is_select kind }
{
    matches!(kind, TokenKind::Reserved(Reserved::Select))
}

// Tokens as a line, with one blank between two.
fn line_of(alloc: Global, tokens: &[Token]) -> Result<String, AllocError>
    ensures { IfOk result (λ line. string_bytes line ≡ line_of (lexemes tokens.now)) }
{
    let mut line = String::new(alloc);
    if let [first, others @ ..] = tokens {
        line.push_str(first.text)?;
        push_others(others, &mut line)?;
    }
    Ok(line)
}

// Puts tokens behind a line, each behind a blank.
fn push_others(tokens: &[Token], line: &mut String) -> Result<(), AllocError>
    ensures { OnOk result (string_bytes line.new ≡ string_bytes line.old ++ flat_map (λ t. 32 ∷ t.bytes) (lexemes tokens.now)) }
{
    for token in tokens {
        line.push_str(" ")?;
        line.push_str(token.text)?;
    }
    Ok(())
}

// Whether one of the tokens is a word that PostgreSQL reserves, and the language takes for a name.
fn has_reserved(mut tokens: &[Token]) -> bool
    ensures { result ≡ has_reserved (lexemes tokens.entry.now) }
{
    while let [token, rest @ ..] = tokens {
        if is_reserved_as(token.kind, token.text.as_bytes()) {
            return true;
        }
        tokens = rest;
    }
    false
}

fn is_reserved_as(kind: TokenKind, bytes: &[u8]) -> bool
    ensures { result ≡ is_reserved_as kind bytes.now }
{
    match kind {
        TokenKind::Word => is_reserved(bytes),
        _ => false,
    }
}

// Whether the name of a catalogue and a dot stand behind FROM or JOIN.
fn names_catalogue(mut tokens: &[Token]) -> bool
    ensures { result ≡ names_catalogue (lexemes tokens.entry.now) }
{
    while let [first, rest @ ..] = tokens {
        if joins_catalogue(first, rest) {
            return true;
        }
        tokens = rest;
    }
    false
}

fn joins_catalogue(first: &Token, rest: &[Token]) -> bool
    ensures { result ≡ joins_catalogue (lexeme first.now) (lexemes rest.now) }
{
    match rest {
        [name, dot, ..] => {
            is_joining(first.kind) && is_catalogue(name.text.as_bytes()) && is_dot(dot.kind)
        }
        _ => false,
    }
}

fn is_joining(kind: TokenKind) -> bool
    ensures { result ≡ is_joining kind }
{
    matches!(kind, TokenKind::Reserved(Reserved::From | Reserved::Join))
}

fn is_dot(kind: TokenKind) -> bool
    ensures { result ≡ is_dot kind }
{
    matches!(kind, TokenKind::Punctuation(Punctuation::Dot))
}

fn is_catalogue(word: &[u8]) -> bool
    ensures { result ≡ is_catalogue word.now }
{
    is_same_word(b"pg_catalog", word) || is_same_word(b"information_schema", word)
}

// Whether a text has the name of a catalogue and a dot.
pub(crate) fn mentions_catalogue(text: &str) -> bool
    ensures { result ≡ mentions_catalogue text.now }
{
    mentions(b"pg_catalog.", text.as_bytes()) || mentions(b"information_schema.", text.as_bytes())
}

fn mentions(name: &[u8], mut bytes: &[u8]) -> bool
    ensures { result ≡ mentions name.now bytes.entry.now }
{
    while let [_, rest @ ..] = bytes {
        if bytes.starts_with(name) {
            return true;
        }
        bytes = rest;
    }
    false
}
