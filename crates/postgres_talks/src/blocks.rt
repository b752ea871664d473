//! Blocks, and by which rules messages are answered.

ghost use Rattle.std.specs.Prelude.{◌≡◌};
ghost use Rattle.postgres_talks.specs.Moments.{block_after, came_out, entered, is_several, is_several_in, skipping, spares, spoiled_by, still_reads};

use crate::fault::TalkFault;
use crate::moment::{Mode, TalkBlock};
use sql_types::tag::Tag;

// Whether statements outside a block are one block.
pub(crate) fn is_several(block: TalkBlock, mode: Mode, left: usize) -> bool
    ensures { result ≡ is_several block mode left }
{
    match block {
        TalkBlock::Outside => is_several_in(mode, left),
        _ => false,
    }
}

fn is_several_in(mode: Mode, left: usize) -> bool
    ensures { result ≡ is_several_in mode left }
{
    match mode {
        Mode::Query => left > 1,
        _ => left > 0,
    }
}

// What follows an error in a batch is passed over.
pub(crate) fn skipping(mode: Mode) -> Mode
    ensures { result ≡ skipping mode }
{
    match mode {
        Mode::Query => Mode::Query,
        _ => Mode::Skipping,
    }
}

// Whether a fault leaves a block as it is: nothing was done.
pub(crate) fn spares(fault: TalkFault) -> bool
    ensures { result ≡ spares fault }
{
    matches!(fault, TalkFault::Catalogue)
}

// The block that a statement leaves, by what it has done.
pub(crate) fn block_after(block: TalkBlock, tag: Tag) -> TalkBlock
    ensures { result ≡ block_after block tag }
{
    match tag {
        Tag::Commit | Tag::Rollback => TalkBlock::Outside,
        Tag::Begin => match block {
            TalkBlock::Failed => TalkBlock::Failed,
            _ => TalkBlock::Open,
        },
        _ => block,
    }
}

// A block of the connection's own is begun.
pub(crate) fn entered(block: TalkBlock) -> TalkBlock
    ensures { result ≡ entered block }
{
    match block {
        TalkBlock::Outside => TalkBlock::Implicit,
        _ => block,
    }
}

// It has ended.
pub(crate) fn came_out(block: TalkBlock) -> TalkBlock
    ensures { result ≡ came_out block }
{
    match block {
        TalkBlock::Implicit => TalkBlock::Outside,
        _ => block,
    }
}

// That nothing is written holds up to the end of a block.
pub(crate) fn still_reads(block: TalkBlock, reads: bool) -> bool
    ensures { result ≡ still_reads block reads }
{
    match block {
        TalkBlock::Outside => false,
        _ => reads,
    }
}

// A block of the client's in which an error was said.
pub(crate) fn spoiled_by(spared: bool, block: TalkBlock) -> TalkBlock
    ensures { result ≡ spoiled_by spared block }
{
    match block {
        TalkBlock::Open if !spared => TalkBlock::Failed,
        _ => block,
    }
}
