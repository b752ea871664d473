//! What portals keep of an answer: the rows behind those that Execute asked for.

ghost use Rattle.std.specs.Prelude.{◌≡◌, ◌≤◌, IfOk, OnOk, drop, is_some, length, Some, None};
ghost use Rattle.postgres_talks.specs.Moments.{after_resuming, block_after, keeps_answer, keeps_rows, ran, resumed, still_reads, within_room};
ghost use Rattle.postgres_talks.specs.Portals.{emptied, has_room, held_behind, holds, is_discard, is_kept, is_limited, kept_outcome, rest_of, room_behind, room_behind_rest, room_behind_row, room_behind_rows, rows_in, rows_left, value_size};

use crate::blocks::{block_after, still_reads};
use crate::fault::TalkFault;
use crate::moment::{Mode, TalkBlock, TalkMoment, TalkStage};
use crate::named_pieces::{NamedPiece, NamedPieces};
use crate::outcome::{Outcome, outcome_of, table_outcome};
use crate::piece::StatementPiece;
use sql_types::answer::Answer;
use sql_types::items::Items;
use sql_types::state::SqlState;
use sql_types::tag::Tag;
use sql_types::try_copy::TryCopy;
use sql_types::value::Value;
use std::alloc::{AllocError, Global};
use std::mem;
use talks::want::BlockStanding;

/// The most that the portals of a connection keep, in bytes.
const MAX_KEPT: usize = 4194304;

// How many bytes a value counts.
fn value_size(value: &Value) -> usize
    ensures { result ≡ value_size value.now }
{
    match value {
        Value::Text(text) => 64 + text.as_str().len(),
        _ => 64,
    }
}

// What is left of so many bytes behind the values of a row.
fn room_behind_row(mut room: usize, mut row: &[Value]) -> Option<usize>
    ensures { result ≡ room_behind_row room row.entry.now }
{
    while let [value, rest @ ..] = row {
        let size = value_size(value);
        if size > room {
            return None;
        }
        room -= size;
        row = rest;
    }
    Some(room)
}

fn room_behind_rows(mut room: usize, mut rows: &[Items<Value>]) -> Option<usize>
    ensures { result ≡ room_behind_rows room rows.entry.now }
{
    while let [row, rest @ ..] = rows {
        match room_behind_row(room, row.as_slice()) {
            None => return None,
            Some(left) => room = left,
        }
        rows = rest;
    }
    Some(room)
}

fn room_behind_rest(room: usize, rest: &Option<Items<Items<Value>>>) -> Option<usize>
    ensures { result ≡ room_behind_rest room rest.now }
{
    match rest {
        None => Some(room),
        Some(rows) => room_behind_rows(room, rows.as_slice()),
    }
}

// What is left behind what portals keep.
pub(crate) fn room_behind(mut room: usize, mut portals: &[NamedPiece]) -> Option<usize>
    ensures { result ≡ room_behind room portals.entry.now }
{
    while let [portal, rest @ ..] = portals {
        match room_behind_rest(room, &portal.rest) {
            None => return None,
            Some(left) => room = left,
        }
        portals = rest;
    }
    Some(room)
}

// Whether all that portals keep is within its bound, with these rows.
fn has_room(portals: &NamedPieces, rows: &[Items<Value>]) -> bool
    ensures { result ≡ has_room portals.now rows.now }
{
    match portals.room_behind(MAX_KEPT) {
        None => false,
        Some(left) => room_behind_rows(left, rows).is_some(),
    }
}

// Whether there are as many rows as Execute asks for at most, or more.
fn is_limited(mode: Mode, most: u32, count: usize) -> bool
    ensures { result ≡ is_limited mode most count }
{
    match mode {
        Mode::Query => false,
        _ => !(most == 0 || count < most as usize),
    }
}

// Whether a block has portals.
pub(crate) fn holds(block: TalkBlock) -> bool
    ensures { result ≡ holds block }
{
    matches!(block, TalkBlock::Implicit | TalkBlock::Open)
}

fn is_kept(block: TalkBlock, mode: Mode, most: u32, count: usize) -> bool
    ensures { result ≡ is_kept block mode most count }
{
    holds(block) && is_limited(mode, most, count)
}

// The rows that are left of the answer to a portal.
pub(crate) fn rows_in(found: &Option<NamedPiece>) -> &[Items<Value>]
    ensures { result.now ≡ rows_in found.now }
{
    match found {
        None => &[],
        Some(entry) => rows_left(&entry.rest),
    }
}

fn rows_left(rest: &Option<Items<Items<Value>>>) -> &[Items<Value>]
    ensures { result.now ≡ rows_left rest.now }
{
    match rest {
        None => &[],
        Some(rows) => rows.as_slice(),
    }
}

// Whether there are such rows, if only none.
pub(crate) fn is_resumed(found: &Option<NamedPiece>) -> bool
    ensures { result ≡ is_some (rest_of found.now) }
{
    match found {
        None => false,
        Some(entry) => entry.rest.is_some(),
    }
}

// Whether it is DISCARD ALL that is carried out, which begins no block.
pub(crate) fn is_discard(found: &Option<NamedPiece>) -> bool
    ensures { result ≡ is_discard found.now }
{
    match found {
        None => false,
        Some(entry) => matches!(entry.piece, StatementPiece::DiscardAll),
    }
}

// What the answer to a statement of a client comes to.
pub(crate) fn ran(moment: &TalkMoment, answer: &Answer) -> Outcome
    ensures { result ≡ ran moment.now answer.now }
{
    match answer {
        Answer::Rows(rows) => within_room(
            table_outcome(moment.mode, &moment.columns, rows.as_slice()),
            moment,
            rows.as_slice(),
        ),
        _ => outcome_of(moment.block, answer),
    }
}

fn within_room(outcome: Outcome, moment: &TalkMoment, rows: &[Items<Value>]) -> Outcome
    ensures { result ≡ within_room outcome moment.now rows.now }
{
    match outcome {
        Outcome::Done => room_outcome(moment, rows),
        _ => outcome,
    }
}

// Whether what is left of rows has its place.
fn room_outcome(moment: &TalkMoment, rows: &[Items<Value>]) -> Outcome
    ensures { result ≡ within_room Outcome.Done moment.now rows.now }
{
    if is_kept(moment.block, moment.mode, moment.most, rows.len())
        && !has_room(&moment.portals, &rows[moment.most as usize..])
    {
        Outcome::Refused(TalkFault::Refused(SqlState::ProgramLimitExceeded))
    } else {
        Outcome::Done
    }
}

// What it comes to that a portal is carried out which was carried out before.
pub(crate) fn resumed(moment: &TalkMoment, standing: Option<BlockStanding>) -> Outcome
    ensures { result ≡ resumed moment.now standing }
{
    match standing {
        None => Outcome::Breaks(TalkFault::Refused(SqlState::ConnectionDoesNotExist)),
        Some(BlockStanding::Outside) => Outcome::Refused(TalkFault::UnknownPortal),
        Some(BlockStanding::Failed) => {
            Outcome::Refused(TalkFault::Refused(SqlState::InFailedTransaction))
        }
        Some(BlockStanding::Inside) => {
            table_outcome(moment.mode, &moment.columns, rows_in(&moment.portal))
        }
    }
}

// A copy of rows.
fn copied_rows(alloc: Global, rows: &[Items<Value>]) -> Result<Items<Items<Value>>, AllocError>
    ensures { IfOk result (λ copy. copy ≡ rows.now) }
{
    let mut copy = Items::new(alloc);
    for row in rows {
        copy.push(row.try_copy(alloc)?)?;
    }
    Ok(copy)
}

// Takes the rows out of a portal.
fn rows_taken(alloc: Global, portal: &mut Option<NamedPiece>) -> Items<Items<Value>>
    ensures rows { result ≡ rows_in portal.old }
    ensures left { portal.new ≡ emptied portal.old }
{
    match portal {
        None => Items::new(alloc),
        Some(entry) => match mem::replace(&mut entry.rest, None) {
            None => Items::new(alloc),
            Some(rows) => rows,
        },
    }
}

// The rows from an index on.
fn rows_behind(rows: Items<Items<Value>>, count: usize) -> Items<Items<Value>>
    requires { count ≤ length rows }
    ensures { result ≡ drop count rows }
{
    let mut rows = rows.into_vec();
    rows.drain(..count);
    Items::from_vec(rows)
}

impl TalkMoment {
    // Keeps what is left of an answer, or takes away what its block has kept.
    pub(crate) fn keep_answer(&mut self, alloc: Global, answer: &Answer) -> Result<(), AllocError>
        ensures { OnOk result (self.new ≡ keeps_answer answer.now self.old) }
    {
        match answer {
            Answer::Rows(rows) => self.keep_rows(alloc, rows.as_slice()),
            Answer::Done {
                tag,
                count: _,
                warning: _,
            } => {
                self.keep_behind(*tag);
                Ok(())
            }
            Answer::Refused(_) => Ok(()),
        }
    }

    fn keep_rows(&mut self, alloc: Global, rows: &[Items<Value>]) -> Result<(), AllocError>
        ensures { OnOk result (self.new ≡ keeps_rows rows.now self.old) }
    {
        let portal = mem::replace(&mut self.portal, None);
        if is_kept(self.block, self.mode, self.most, rows.len()) {
            let rest = copied_rows(alloc, &rows[self.most as usize..])?;
            self.portals.suspend(portal, rest)?;
        }
        Ok(())
    }

    // A statement that ends a block ends its portals.
    fn keep_behind(&mut self, tag: Tag)
        ensures { self.new ≡ record self.old { block = block_after self.old.block tag; portals = held_behind tag self.old.portals; read_only = still_reads (block_after self.old.block tag) self.old.read_only } }
    {
        if matches!(tag, Tag::Commit | Tag::Rollback) {
            self.portals.clear();
        }
        self.block = block_after(self.block, tag);
        self.read_only = still_reads(self.block, self.read_only);
    }

    // Keeps what is left behind a piece of it.
    fn keep_rest(&mut self, alloc: Global) -> Result<(), AllocError>
        ensures { OnOk result (self.new ≡ keeps_rows (rows_in self.old.portal) self.old) }
    {
        let mut portal = mem::replace(&mut self.portal, None);
        let rows = rows_taken(alloc, &mut portal);
        if is_kept(self.block, self.mode, self.most, rows.len()) {
            let rest = rows_behind(rows, self.most as usize);
            self.portals.suspend(portal, rest)?;
        }
        Ok(())
    }

    // Takes in how the block stands of a portal which was carried out before.
    pub(crate) fn take_resuming(
        &mut self,
        alloc: Global,
        standing: Option<BlockStanding>,
    ) -> Result<(), AllocError>
        ensures { OnOk result (self.new ≡ after_resuming self.old standing) }
    {
        match resumed(self, standing) {
            Outcome::Done => {
                self.keep_rest(alloc)?;
                self.go_on(alloc)
            }
            Outcome::Refused(fault) => {
                self.look(TalkStage::Refusing(fault));
                Ok(())
            }
            Outcome::Breaks(_) => {
                self.end();
                Ok(())
            }
        }
    }
}
