//! The last free pages of a device, which are kept for commits that remove.
ghost use Rattle.std.specs.Prelude.{◌≡◌, ◌<◌, ◌≤◌, false, IsTrue};
ghost use Rattle.cow_pages.specs.Cow.{root_of, durable_map, working_map};
ghost use Rattle.cow_pages.specs.Used.{grown};
ghost use Rattle.kv_store.specs.declared.reserve.Reserve.TheVariants.{Kept};
ghost use Rattle.kv_store.specs.Reserve.{IsReserve, Spares, TakesReserve};

use cow_pages::CowPages;
use page_roots::ENTRIES_PER_MAP_PAGE;
use sector_device::Device;

/// Whether a commit may take the reserve: pages that stay free on a device that puts have filled, so that it can be emptied.
#[derive(Clone, Copy, PartialEq, Eq)]
pub enum Reserve {
    /// The reserve is kept: a commit after which more pages are in use than before leaves it free.
    Kept,
    /// The commit may take it.
    Open,
}

// How many pages the reserve of a device of so many has.
fn reserve_of(pages: u32) -> u32
    requires { 0 < pages }
    ensures { IsReserve pages result }
{
    pages.ilog2() + pages / ENTRIES_PER_MAP_PAGE as u32 + 1
}

// Whether a commit may take so many pages more of a device of so many, of which so many were free before it.
fn may_take(reserve: Reserve, pages: u32, free: u32, more: u32) -> bool
    requires { 0 < pages }
    ensures spares { IsTrue result → Spares reserve pages free more }
    ensures takes { result ≡ false → (reserve ≡ Kept) × TakesReserve pages free more }
{
    if reserve == Reserve::Open || more == 0 {
        return true;
    }
    let left = reserve_of(pages);
    more <= free && left <= free - more
}

// Whether the working array may be committed, of pages of which so many were free before its changes.
pub(crate) fn may_commit<D: Device>(pages: &CowPages<D>, reserve: Reserve, free: u32) -> bool
    ensures spares { IsTrue result → Spares reserve (root_of pages.now).pages free
        (grown (durable_map pages.now) (working_map pages.now)) }
    ensures takes { result ≡ false → (reserve ≡ Kept) × TakesReserve (root_of pages.now).pages free
        (grown (durable_map pages.now) (working_map pages.now)) }
{
    may_take(reserve, pages.pages(), free, pages.grown_pages())
}
