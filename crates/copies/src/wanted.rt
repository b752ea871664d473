//! How many pages a copy wants.

ghost use Rattle.std.specs.Prelude.{◌≡◌, ◌≢◌, ◌≤◌, Err, IfErr, IfOk};
ghost use Rattle.store.specs.Readers.{HasRead};
ghost use Rattle.store.specs.Store.{OnlyReads};
ghost use Rattle.copies.specs.RecordCopies.{behind_mark};
ghost use Rattle.copies.specs.declared.fault.CopyFault.TheVariants.{Read};
ghost use Rattle.copies.specs.DeviceCopies.{HasSourceCause};
ghost use Rattle.copies.specs.Wanted.{TellsWanted, cell_size, leaves_of, placed, wanted};

use crate::fault::CopyFault;
use crate::mark::FIRST;
use kv_store::{Fault, Map, StoreFault};
use storage_sizes::{MAX_KEY_LENGTH, MAX_VALUE_LENGTH, PAGE_SIZE};
use store::EntryRef;

// The bytes that a leaf has beside its cells, and a cell beside its key and its value.
const LEAF_HEAD: usize = 4;

const CELL_HEAD: usize = 4;

// The pages of a copy that are no leaves, at least: that of the roots, and one of the map.
const OTHER_PAGES: u64 = 2;

// The records that are counted, at most: more than any device has room for.
const MOST_RECORDS: u64 = 1 << 62;

// The bytes of a record in a leaf.
fn cell_size(entry: &EntryRef<'_>) -> usize
    ensures size { result ≡ cell_size entry.now }
    ensures most { result ≤ 1409 }
{
    CELL_HEAD + entry.key.len().min(MAX_KEY_LENGTH) + entry.value.len().min(MAX_VALUE_LENGTH)
}

// How many leaves are begun for a cell, behind so many bytes of cells in a leaf, and how many bytes are in the last leaf then.
fn place_cell(used: usize, cell: usize) -> (u64, usize)
    requires used { used ≤ 4092 }
    requires cell { cell ≤ 1409 }
    ensures placed { result ≡ placed used cell }
    ensures most { result.1 ≤ 4092 }
    ensures one { result.0 ≤ 1 }
{
    if PAGE_SIZE - LEAF_HEAD < used + cell {
        (1, cell)
    } else {
        (0, used + cell)
    }
}

// How many leaves the records of a map fill, one after the other: those behind the mark.
fn count_leaves<M: Map>(source: &mut M) -> Result<u64, Fault>
    ensures preserved { M.preserved source.old source.new }
    ensures read { HasRead result (M.state source.old) (M.state source.new) }
    ensures undamaged { result ≢ Err Fault.Damaged }
    ensures counted { (M.state source.old).sound
        → IfOk result (λ leaves. leaves ≡ leaves_of (behind_mark (M.state source.old).map)) }
    ensures few { IfOk result (λ leaves. leaves ≤ 4611686018427387905) }
{
    let mut place = source.seek(&FIRST)?;
    let mut leaves: u64 = 1;
    let mut used = 0;
    for _ in 0..MOST_RECORDS {
        if !source.step(&mut place)? {
            return Ok(leaves);
        }
        let cell = cell_size(&source.entry(&place));
        let (begun, last) = place_cell(used, cell);
        leaves += begun;
        used = last;
    }
    Err(Fault::Memory)
}

/// The fault of a copy where the target had no room, which was found on so many pages; of any other that an allocation failed. The
/// map is only read.
pub(crate) fn no_room_fault<M: Map>(
    source: &mut M,
    pages: u32,
    copied: Result<(), CopyFault>,
) -> CopyFault
    ensures preserved { M.preserved source.old source.new }
    ensures reads { OnlyReads (M.state source.old) (M.state source.new) }
    ensures told { (M.state source.old).sound
        → TellsWanted pages (behind_mark (M.state source.old).map) result }
    ensures cause { HasSourceCause result (M.state source.old) (M.state source.new) }
    ensures undamaged { result ≢ Read Fault.Damaged }
{
    match copied {
        Err(CopyFault::Write(StoreFault::Full | StoreFault::Number)) => full_fault(source, pages),
        _ => CopyFault::Write(StoreFault::Memory),
    }
}

// The fault of a copy that found no room on so many pages: `Full`, with the number of pages that the copy wants at least.
// Where the records were not counted: that the source failed, or an allocation.
fn full_fault<M: Map>(source: &mut M, pages: u32) -> CopyFault
    ensures preserved { M.preserved source.old source.new }
    ensures reads { OnlyReads (M.state source.old) (M.state source.new) }
    ensures told { (M.state source.old).sound
        → TellsWanted pages (behind_mark (M.state source.old).map) result }
    ensures cause { HasSourceCause result (M.state source.old) (M.state source.new) }
    ensures undamaged { result ≢ Read Fault.Damaged }
{
    match count_leaves(source) {
        Ok(leaves) => CopyFault::Full((leaves + OTHER_PAGES).max(u64::from(pages) + 1)),
        Err(Fault::Memory) => CopyFault::Write(StoreFault::Memory),
        Err(Fault::Device | Fault::Damaged) => CopyFault::Read(Fault::Device),
    }
}
