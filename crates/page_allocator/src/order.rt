//! The pages in an order, and the place of each page in it.
ghost use Rattle.std.specs.Prelude.{◌≡◌, ◌≢◌, ◌+◌, ◌<◌, ◌≤◌, ℕ, length, slice_index, IfOk, vec_len};
ghost use Rattle.page_allocator.specs.Order.{AreInverse};

use std::alloc::{AllocError, Global};

// The pages from the last one down to page 0.
pub(crate) fn descending(alloc: Global, pages: u32) -> Result<Vec<u32>, AllocError>
    ensures count { IfOk result (λ order. vec_len order ≡ pages) }
    ensures pages { IfOk result (λ order.
        (i : ℕ) → i < pages → slice_index order.items i + (i + 1) ≡ pages) }
{
    let mut order = Vec::with_capacity(alloc, pages as usize)?;
    for page in 0..pages {
        order.push(pages - 1 - page)?;
    }
    Ok(order)
}

// Puts a page at a place of the order, and the page that stood there at the page's own place.
pub(crate) fn exchange(order: &mut [u32], places: &mut [u32], page: u32, place: u32)
    requires inverse { AreInverse order.old places.old }
    requires page { page < length order.old }
    requires place { place < length order.old }
    ensures inverse { AreInverse order.new places.new }
    ensures page { slice_index places.new page ≡ place }
    ensures other { slice_index places.new (slice_index order.old place)
        ≡ slice_index places.old page }
    ensures others { (p : ℕ) → p ≢ page → p ≢ slice_index order.old place
        → slice_index places.new p ≡ slice_index places.old p }
{
    let other = order[place as usize];
    let was = places[page as usize];
    order[place as usize] = page;
    order[was as usize] = other;
    places[page as usize] = place;
    places[other as usize] = was;
}
