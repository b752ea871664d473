//! Where the syntax of a statement goes wrong, counted in the characters of its client's text.

ghost use Rattle.std.specs.Prelude.{◌≡◌, ◌<◌, ◌≤◌, ◌-◌, ◌^◌, IfOk, length};
ghost use Rattle.std.specs.Option.{option_map};
ghost use Rattle.postgres_talks.specs.Pieces.{IsOwnPiece, IsPlacedIn, asked_text, begins_character, character_after, character_count, position_at};

use crate::fault::TalkFault;
use crate::piece::StatementPiece;
use std::alloc::{AllocError, Global};
use syntax_places::places::syntax_place;

/// The most bytes of a message.
const MAX_MESSAGE: usize = 131072;

// What a piece of a text is by its own tokens, behind what stands before it.
pub(crate) fn own_piece(
    alloc: Global,
    is_written: bool,
    before: &str,
    piece: StatementPiece,
) -> Result<StatementPiece, AllocError>
    ensures { IfOk result (λ own. IsOwnPiece is_written before.now piece own) }
{
    if is_written && before.len() <= MAX_MESSAGE {
        placed_piece(alloc, before, piece)
    } else {
        Ok(piece)
    }
}

// One whose syntax goes wrong has a fault there.
fn placed_piece(
    alloc: Global,
    before: &str,
    piece: StatementPiece,
) -> Result<StatementPiece, AllocError>
    requires { length before.now ≤ 131072 }
    ensures { IfOk result (λ placed. IsPlacedIn (asked_text piece) before.now piece placed) }
{
    let Some(text) = asked_text(&piece) else {
        return Ok(piece);
    };
    match syntax_place(alloc, text)? {
        None => Ok(piece),
        Some(place) => {
            let position = position_at(before, text, place);
            Ok(StatementPiece::Faulty(TalkFault::SyntaxAt(position)))
        }
    }
}

// The statement of which the machine would be asked, if it would be.
fn asked_text(piece: &StatementPiece) -> Option<&str>
    ensures { option_map (λ text. text.now) result ≡ asked_text piece.now }
{
    match piece {
        StatementPiece::Statement(text) => Some(text.as_str()),
        StatementPiece::Control(text) => Some(text.as_str()),
        StatementPiece::Select(labelled) => Some(labelled.text.as_str()),
        _ => None,
    }
}

// The number of a character of a text behind another, counted from 1.
fn position_at(before: &str, text: &str, place: usize) -> u32
    requires before { length before.now ≤ 131072 }
    requires place { place ≤ length text.now }
    requires text { length text.now ≤ 131072 }
    ensures { result ≡ position_at before.now text.now place }
{
    let (front, _) = text.as_bytes().split_at(place);
    character_count(before.as_bytes()) + character_count(front) + 1
}

// How many characters there are.
fn character_count(bytes: &[u8]) -> u32
    requires { length bytes.now ≤ 131072 }
    ensures count { result ≡ character_count bytes.now }
    ensures within { result ≤ 131072 }
{
    let mut count = 0;
    for byte in bytes {
        count = character_after(count, *byte);
    }
    count
}

fn character_after(count: u32, byte: u8) -> u32
    requires { count < 2 ^ 32 - 1 }
    ensures { result ≡ character_after count byte }
{
    if begins_character(byte) {
        count + 1
    } else {
        count
    }
}

// Whether a byte begins a character.
fn begins_character(byte: u8) -> bool
    ensures { result ≡ begins_character byte }
{
    byte < 128 || byte >= 192
}
