//! Spans of the entries of a map.

ghost use Rattle.std.specs.Prelude.{◌≢◌, ◌<◌, ℕ};

use crate::open::MAX_ENTRIES;

// Entries of a map: from one on, those before another.
#[derive(Clone, Copy, Drop)]
pub(crate) struct Span {
    pub(crate) from: u32,
    pub(crate) to: u32,
}

impl Span {
    ghost use Rattle.cow_pages.specs.PageMap.{IsOutside};

    // No entry.
    pub(crate) fn none() -> Span
        ensures { (l : ℕ) → IsOutside result l }
    {
        Span {
            from: MAX_ENTRIES as u32,
            to: 0,
        }
    }

    // These entries and one more.
    pub(crate) fn including(self, entry: u32) -> Span
        requires { entry < 65536 }
        ensures { (l : ℕ) → IsOutside result l → IsOutside self l × (l ≢ entry) }
    {
        Span {
            from: self.from.min(entry),
            to: self.to.max(entry + 1),
        }
    }
}
