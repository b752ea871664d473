//! The statements of a text.

ghost use Rattle.std.specs.Prelude.{◌≡◌, ◌∷◌, [], ◌<◌, ◌≤◌, IfOk, OnOk, Some, length, take};
ghost use Rattle.sql_lexer.specs.Lexeme.{ArePlaced, lexemes};
ghost use Rattle.sql_lexer.specs.Slices.{start_at};
ghost use Rattle.postgres_talks.specs.Pieces.{ArePieces, ArePiecesOf, ArePiecesOrEmpty, IsLabelledPiece, IsPiece, IsWholePiece, PutsPieces, TheSlice, faulty, is_semicolon, labelled, slice_between, slices_from};

use crate::classes::{mentions_catalogue, piece_of};
use crate::fault::TalkFault;
use crate::piece::{LabelledText, PieceQueue, StatementPiece};
use crate::placing::own_piece;
use select_labels::unlabelled::{Unlabelled, may_have_labels, without_labels};
use sql_lexer::lexer;
use sql_lexer::slice::text_between;
use sql_lexer::token::{Punctuation, Token, TokenKind};
use sql_types::items::Items;
use sql_types::name::Name;
use sql_types::state::{Refusal, SqlState};
use sql_types::text::Text;
use std::alloc::{AllocError, Global};

// The statements of a text, which stand between semicolons. A text that has a fault is one statement. Of a text that is as
// its client wrote it a statement tells where its syntax goes wrong.
pub(crate) fn pieces_of(
    alloc: Global,
    text: &str,
    is_written: bool,
) -> Result<PieceQueue, AllocError>
    ensures { IfOk result (λ pieces. ArePiecesOf is_written text.now pieces) }
{
    match lexer::tokens(alloc, text) {
        Ok(tokens) => pieces_or_empty(alloc, text, is_written, &tokens),
        Err(Refusal(SqlState::OutOfMemory)) => Err(AllocError),
        Err(Refusal(_)) => one_faulty(alloc, text),
    }
}

fn one_faulty(alloc: Global, text: &str) -> Result<PieceQueue, AllocError>
    ensures { IfOk result (λ pieces. pieces ≡ faulty text.now ∷ []) }
{
    let mut pieces = PieceQueue::new(alloc);
    pieces.push(faulty(alloc, text)?)?;
    Ok(pieces)
}

// The one statement of a text that has a fault: the machine refuses it.
fn faulty(alloc: Global, text: &str) -> Result<StatementPiece, AllocError>
    ensures { IfOk result (λ piece. piece ≡ faulty text.now) }
{
    if mentions_catalogue(text) {
        Ok(StatementPiece::Faulty(TalkFault::Catalogue))
    } else {
        Ok(StatementPiece::Statement(Text::from_str(alloc, text)?))
    }
}

fn pieces_or_empty(
    alloc: Global,
    text: &str,
    is_written: bool,
    tokens: &[Token],
) -> Result<PieceQueue, AllocError>
    requires { ArePlaced text.now (lexemes tokens.now) }
    ensures { IfOk result (λ pieces. ArePiecesOrEmpty is_written (slices_from text.now (lexemes tokens.now) 0 0 (lexemes tokens.now)) pieces) }
{
    let mut pieces = pieces_between(alloc, text, is_written, tokens)?;
    if pieces.len() == 0 {
        pieces.push(StatementPiece::Empty)?;
    }
    Ok(pieces)
}

fn pieces_between(
    alloc: Global,
    text: &str,
    is_written: bool,
    tokens: &[Token],
) -> Result<PieceQueue, AllocError>
    requires { ArePlaced text.now (lexemes tokens.now) }
    ensures { IfOk result (λ pieces. ArePieces is_written (slices_from text.now (lexemes tokens.now) 0 0 (lexemes tokens.now)) pieces) }
{
    let mut pieces = PieceQueue::new(alloc);
    let mut first = 0;
    let mut at = 0;
    let mut rest = tokens;
    while let [token, after @ ..] = rest {
        if is_semicolon(token.kind) {
            put_piece(alloc, text, is_written, tokens, first, at, &mut pieces)?;
            first = at + 1;
        }
        at += 1;
        rest = after;
    }
    put_piece(alloc, text, is_written, tokens, first, at, &mut pieces)?;
    Ok(pieces)
}

// Puts what stands from one token up to another, if there is one between.
fn put_piece(
    alloc: Global,
    text: &str,
    is_written: bool,
    tokens: &[Token],
    first: usize,
    at: usize,
    pieces: &mut PieceQueue,
) -> Result<(), AllocError>
    requires placed { ArePlaced text.now (lexemes tokens.now) }
    requires within { at ≤ length tokens.now }
    ensures { OnOk result (PutsPieces is_written (slice_between text.now (lexemes tokens.now) first at) pieces.old pieces.new) }
{
    if first < at {
        let before = before_token(text, tokens, first);
        let slice = text_between(text, tokens, first, at - 1);
        let piece = labelled_piece(alloc, is_written, before, slice, &tokens[first..at])?;
        pieces.push(piece)?;
    }
    Ok(())
}

// What stands in a text before the token at an index.
fn before_token<'a>(text: &'a str, tokens: &[Token], index: usize) -> &'a str
    requires placed { ArePlaced text.now (lexemes tokens.now) }
    requires within { index < length tokens.now }
    ensures { result.now ≡ take (start_at (lexemes tokens.now) index) text.now }
{
    let (before, _) = text.split_at(tokens[index].start);
    before
}

// What a slice of a text is that has these tokens: labels of its columns are taken out.
fn labelled_piece(
    alloc: Global,
    is_written: bool,
    before: &str,
    slice: &str,
    tokens: &[Token],
) -> Result<StatementPiece, AllocError>
    ensures { IfOk result (λ piece. IsPiece is_written (record { before = before.now; text = slice.now; tokens = lexemes tokens.now }) piece) }
{
    if !may_have_labels(tokens) {
        let piece = piece_of(alloc, slice, tokens)?;
        return own_piece(alloc, is_written, before, piece);
    }
    match without_labels(alloc, slice)? {
        None => {
            let piece = piece_of(alloc, slice, tokens)?;
            own_piece(alloc, is_written, before, piece)
        }
        Some(unlabelled) => piece_without(alloc, unlabelled),
    }
}

// What a text is of which these labels were taken out.
fn piece_without(alloc: Global, unlabelled: Unlabelled) -> Result<StatementPiece, AllocError>
    ensures { IfOk result (λ piece. IsLabelledPiece unlabelled piece) }
{
    let Unlabelled { text, labels } = unlabelled;
    let piece = whole_piece(alloc, text.as_str())?;
    Ok(labelled(labels, piece))
}

// What a text is as a whole.
fn whole_piece(alloc: Global, text: &str) -> Result<StatementPiece, AllocError>
    ensures { IfOk result (λ piece. IsWholePiece text.now piece) }
{
    match lexer::tokens(alloc, text) {
        Ok(tokens) => piece_of(alloc, text, &tokens),
        Err(Refusal(SqlState::OutOfMemory)) => Err(AllocError),
        Err(Refusal(_)) => faulty(alloc, text),
    }
}

// A SELECT has these labels, and so has one that is answered without the machine.
pub(crate) fn labelled(labels: Items<Option<Name>>, piece: StatementPiece) -> StatementPiece
    ensures { result ≡ labelled labels piece }
{
    match piece {
        StatementPiece::Select(LabelledText { text, labels: _ }) => {
            StatementPiece::Select(LabelledText { text, labels })
        }
        StatementPiece::Settled(settled, _) => StatementPiece::Settled(settled, labels),
        other => other,
    }
}

fn is_semicolon(kind: TokenKind) -> bool
    ensures { result ≡ is_semicolon kind }
{
    matches!(kind, TokenKind::Punctuation(Punctuation::Semicolon))
}
