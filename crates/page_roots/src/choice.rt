//! Which of two roots is chosen.
ghost use Rattle.std.specs.Prelude.{◌≡◌, ◌↔◌, ℕ, List, Some, IsNone};
ghost use Rattle.page_roots.specs.Root.{RootFields};
ghost use Rattle.page_roots.specs.Sector.{root_at};
ghost use Rattle.page_roots.specs.Chosen.{IsChosen, HasNoRoot, chosen};

use crate::root::Root;
use crate::sector::RootSector;

/// The root of greater number of the root sectors 0 and 1. None where one of them is malformed, and
/// where both are empty.
pub fn choose(even: RootSector, odd: RootSector) -> Option<Root>
    ensures exact { result ≡ chosen even odd }
    ensures none { IsNone result ↔ HasNoRoot even odd }
    // A root is chosen exactly where it is that of an image with these root sectors.
    ensures chosen { (image : ℕ → List ℕ) → root_at 0 (image 0) ≡ even → root_at 1 (image 1) ≡ odd
        → (root : RootFields) → (result ≡ Some root) ↔ IsChosen image root }
{
    match (even, odd) {
        (RootSector::Found(root), RootSector::Empty) => Some(root),
        (RootSector::Empty, RootSector::Found(root)) => Some(root),
        (RootSector::Found(root), RootSector::Found(next)) => {
            if next.number() < root.number() {
                Some(root)
            } else {
                Some(next)
            }
        }
        _ => None,
    }
}
