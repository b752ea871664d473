//! How a batch is committed.
ghost use Rattle.std.specs.Prelude.{◌≡◌, ◌-◌, ◌^◌, ◌∷◌, [], Err, IsSome, false, OnOk};
ghost use Rattle.std.specs.List.{AllByRecursion};
ghost use Rattle.sector_device.specs.Device.{KeepsHistory};
ghost use Rattle.cow_pages.specs.Cow.{device_below, root_of, has_failed, working_array, IsOpen, LeavesBeforeOrAfter};
ghost use Rattle.cow_pages.specs.Calls.{Commits};
ghost use Rattle.cow_pages.specs.Preserved.{IsPreserved};
ghost use Rattle.page_roots.specs.Formats.{record_format_of, has_journal};
ghost use Rattle.store.specs.Records.{IsChangeSize};
ghost use Rattle.store.specs.Contents.{changed_in};
ghost use Rattle.store.specs.Batch.{all_changes};
ghost use Rattle.store.specs.Store.{Contents};
ghost use Rattle.kv_store.specs.Contents.{HoldsContents, is_journaled};
ghost use Rattle.kv_store.specs.Batches.{MakesChanges, IsFullFor, Finishes, CommitsBatch};
ghost use Rattle.kv_store.specs.Numbered.{LeavesNumbered};
ghost use Rattle.kv_store.specs.Switches.{IsAnew, KeepsKind};

use crate::reserve::{Reserve, may_commit};
use cow_pages::{CommitFault, CowPages, Format, PageFault, preserved_stays};
use page_tree::{Scratch, change_first};
use sector_device::Device;
use store::{Batch, Change, Piece, StoreFault};

// Makes changes one after another, from the first on: as many at a time as belong into one leaf.
fn make_changes<D: Device>(
    pages: &mut CowPages<D>,
    scratch: &mut Scratch,
    changes: &[Change],
) -> Result<(), PageFault>
    requires { AllByRecursion IsChangeSize changes.now }
    ensures preserved { IsPreserved pages.old pages.new }
    ensures works { has_failed pages.old ≡ false → OnOk result (has_failed pages.new ≡ false) }
    ensures made { MakesChanges changes.now result pages.old pages.new }
    ensures room { IsFullFor changes.now result pages.old }
{
    let mut made = 0;
    while made < changes.len() {
        let rest = &changes[made..];
        let more = change_first(pages, scratch, rest)?;
        made += more;
    }
    Ok(())
}

// Makes the changes of one piece after another, from the first on: so keys that rise fill the leaves that they are put into.
fn make_pieces<D: Device>(
    pages: &mut CowPages<D>,
    scratch: &mut Scratch,
    pieces: &[Piece],
) -> Result<(), PageFault>
    requires { AllByRecursion IsChangeSize (all_changes pieces.now) }
    ensures preserved { IsPreserved pages.old pages.new }
    ensures works { has_failed pages.old ≡ false → OnOk result (has_failed pages.new ≡ false) }
    ensures made { MakesChanges (all_changes pieces.now) result pages.old pages.new }
    ensures room { IsFullFor (all_changes pieces.now) result pages.old }
{
    for piece in pieces {
        make_changes(pages, scratch, piece.as_slice())?;
    }
    Ok(())
}

// When a root is written.
#[derive(Clone, Copy, PartialEq, Eq)]
pub(crate) enum RootWrite {
    // Where the map or the format is not the durable one.
    IfChanged,
    // Always.
    Always,
}

// Makes the working array the durable one, in this format.
fn commit_pages<D: Device>(
    pages: &mut CowPages<D>,
    format: Format,
    switch: RootWrite,
) -> Result<(), CommitFault>
    ensures history { KeepsHistory (device_below pages.old) (device_below pages.new) }
    ensures any_moment { IsOpen pages.old → LeavesBeforeOrAfter format pages.old pages.new }
    ensures outcome { Commits format result pages.old pages.new }
    ensures anew { IsAnew switch result pages.old pages.new }
    ensures kind { KeepsKind format pages.old pages.new }
{
    match switch {
        RootWrite::IfChanged => pages.commit(format),
        RootWrite::Always => pages.commit_anew(format),
    }
}

// Makes the working array the durable one, in this format, or gives it up.
pub(crate) fn finish<D: Device>(
    pages: &mut CowPages<D>,
    format: Format,
    switch: RootWrite,
) -> Result<(), StoreFault>
    ensures history { KeepsHistory (device_below pages.old) (device_below pages.new) }
    ensures number { result ≡ Err StoreFault.Number → (root_of pages.old).number ≡ 2 ^ 64 - 1 }
    ensures anew { IsAnew switch result pages.old pages.new }
    ensures kind { KeepsKind format pages.old pages.new }
    ensures finished { IsOpen pages.old → IsSome (working_array pages.old 0)
        → Finishes format result pages.old pages.new }
{
    match commit_pages(pages, format, switch) {
        Ok(()) => Ok(()),
        Err(fault) => {
            pages.abandon();
            Err(match fault {
                CommitFault::Full => StoreFault::Full,
                CommitFault::Number => StoreFault::Number,
                CommitFault::NoFirstPage | CommitFault::Device => StoreFault::Device,
            })
        }
    }
}

// Commits all changes of a batch, in this format, or none of them. A batch that is to keep the reserve is Full where it would take
// some of it. Over pages that hold no map nothing is said of the answer, but that Number comes at the last number alone, and that the
// root says of a journal what it said.
pub(crate) fn commit_batch<D: Device>(
    pages: &mut CowPages<D>,
    scratch: &mut Scratch,
    format: Format,
    switch: RootWrite,
    reserve: Reserve,
    batch: &Batch,
) -> Result<(), StoreFault>
    requires { has_journal format ≡ is_journaled pages.old }
    ensures history { KeepsHistory (device_below pages.old) (device_below pages.new) }
    ensures kind { is_journaled pages.new ≡ is_journaled pages.old }
    ensures number { result ≡ Err StoreFault.Number → (root_of pages.old).number ≡ 2 ^ 64 - 1 }
    ensures anew { IsAnew switch result pages.old pages.new }
    ensures numbered { (contents : Contents) → HoldsContents contents pages.old
        → LeavesNumbered result contents (changed_in (record_format_of format) batch.now contents)
        pages.old pages.new }
    ensures batch { (contents : Contents) → HoldsContents contents pages.old
        → CommitsBatch reserve batch.now result contents
        (changed_in (record_format_of format) batch.now contents) pages.old pages.new }
{
    let free = pages.free_pages();
    let made = make_pieces(pages, scratch, batch.pieces());
    // For the proof: what the calls before left alone is still as it was.
    preserved_stays(pages);
    match made {
        Ok(()) => {
            if !may_commit(pages, reserve, free) {
                pages.abandon();
                return Err(StoreFault::Full);
            }
            finish(pages, format, switch)
        }
        Err(fault) => {
            pages.abandon();
            if pages.has_failed() {
                return Err(StoreFault::Device);
            }
            Err(match fault {
                PageFault::Full => StoreFault::Full,
                PageFault::Memory => StoreFault::Memory,
                PageFault::Device | PageFault::Malformed => StoreFault::Device,
            })
        }
    }
}
