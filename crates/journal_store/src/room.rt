//! Whether the pages have room for what waits, and for a batch behind it.
ghost use Rattle.std.specs.Prelude.{◌≡◌, ◌+◌, IsTrue, IfSome, length};
ghost use Rattle.journal_store.specs.Room.{changes_in, reserve_for, AreEnough, HasRoomFor};

use crate::stores::JournalStore;
use kv_store::Reserve;
use page_roots::ENTRIES_PER_MAP_PAGE;
use sector_device::{Device, SECTORS_PER_PAGE};
use store::Batch;

// Whether a commit to the pages of what waits and a batch keeps the reserve. What waits may take it by itself.
pub(crate) fn reserve_with(batch: &Batch) -> Reserve
    ensures { result ≡ reserve_for batch.now }
{
    if batch.is_empty() {
        Reserve::Open
    } else {
        Reserve::Kept
    }
}

// What is left of so many changes after those of a batch, or `None` where the batch has more.
fn left_after(most: usize, batch: &Batch) -> Option<usize>
    ensures { IfSome result (λ left. left + length batch.now ≡ most) }
{
    let mut left = most;
    let pieces = batch.pieces();
    for piece in pieces {
        let count = piece.as_slice().len();
        if count > left {
            return None;
        }
        left -= count;
    }
    Some(left)
}

// What is left of so many changes after those of lists, or `None` where they have more.
fn left_after_all(most: usize, lists: &[Batch]) -> Option<usize>
    ensures { IfSome result (λ left. left + changes_in lists.now ≡ most) }
{
    let mut left = most;
    for list in lists {
        left = left_after(left, list)?;
    }
    Some(left)
}

// How many changes so many free pages of a device of so many are enough for. `None`: not even the map has room.
fn most_changes(pages: u32, free: u32) -> Option<u32>
    ensures { IfSome result (λ most. AreEnough pages free most) }
{
    if pages <= free {
        return None;
    }
    let levels = (pages - free).ilog2();
    let maps = pages / ENTRIES_PER_MAP_PAGE as u32 + 1;
    if free < maps {
        return None;
    }
    Some((free - maps) / (2 * (levels + 1) + 1))
}

impl<D: Device> JournalStore<D> {
    // Whether the free pages are enough for what waits and a batch.
    pub(crate) fn has_pages_for(&self, batch: &Batch) -> bool
        ensures { IsTrue result → HasRoomFor (changes_in self.now.waiting + length batch.now) self.now }
    {
        let pages = self.store.device().sectors() / SECTORS_PER_PAGE;
        let Some(most) = most_changes(pages, self.store.free_pages()) else {
            return false;
        };
        match left_after_all(most as usize, self.waiting.as_slice()) {
            Some(left) => left_after(left, batch).is_some(),
            None => false,
        }
    }
}
