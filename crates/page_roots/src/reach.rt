//! The test of a root's reach: the pages that the root names.
ghost use Rattle.std.specs.List.{list_any};
ghost use Rattle.std.specs.Prelude.{◌≡◌, ◌==◌, ◌↔◌, ◌⊎◌, ◌<◌, ℕ, Bool, List, length, get_or, slice_index, slice_set, true, false, IsTrue, IfOk};
ghost use Rattle.page_roots.specs.Claims.{CanClaim, IsClaimed};
ghost use Rattle.page_roots.specs.Reach.{IsSound, is_sound};

use std::alloc::{AllocError, Global};

// Claims a page. False where it is no page of the device, and where it is claimed already.
fn claim(claimed: &mut [bool], page: u32) -> bool
    ensures free { IsTrue result ↔ (get_or claimed.old page true ≡ false) }
    ensures claimed { claimed.new ≡ slice_set claimed.old page true }
{
    if page as usize >= claimed.len() || claimed[page as usize] {
        return false;
    }
    claimed[page as usize] = true;
    true
}

// Claims each page that is named, where 0 names none. False where one of them cannot be claimed.
fn claim_all(claimed: &mut [bool], named: &[u32]) -> bool
    ensures can { IsTrue result ↔ CanClaim claimed.old named.now }
    ensures claimed { result ≡ true → IsClaimed claimed.old named.now claimed.new }
{
    for page in named {
        if *page != 0 && !claim(claimed, *page) {
            return false;
        }
    }
    true
}

// Whether one of the numbers is 0.
fn has_zero(numbers: &[u32]) -> bool
    ensures { result ≡ list_any (λ number. number == 0) numbers.now }
{
    numbers.contains(&0)
}

/// Whether a root of a device of so many pages may name these map pages and entries: logical page 0
/// is in use, and the map pages and all entries that are not 0 are at least 1, below the number of
/// pages, and differ from each other. It takes one step for each page of the device and each entry.
pub fn is_sound_reach(
    alloc: Global,
    pages: u32,
    maps: &[u32],
    entries: &[u32],
) -> Result<bool, AllocError>
    ensures exact { IfOk result (λ sound. sound ≡ is_sound pages maps.now entries.now) }
    ensures sound { IfOk result (λ sound. IsTrue sound ↔ IsSound pages maps.now entries.now) }
{
    if entries.is_empty() || entries[0] == 0 || has_zero(maps) {
        return Ok(false);
    }
    let mut claimed = vec![in alloc; false; pages as usize]?;
    if !claim_all(&mut claimed, maps) {
        return Ok(false);
    }
    Ok(claim_all(&mut claimed, entries))
}
