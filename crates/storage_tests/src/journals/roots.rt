//! What the root sectors of a device say.

use crate::journals::images::TestImage;
use page_roots::{RootSector, read_root};

/// What the root sectors of a device say.
#[derive(Clone, Copy)]
pub struct Roots {
    /// The number of the root in force.
    pub number: u64,
    /// Whether that root says that there is a journal.
    pub has_journal: bool,
    /// Whether the other one says so.
    pub had_journal: bool,
}

impl Roots {
    /// Those of a device that holds this.
    pub fn of(image: &TestImage) -> Roots {
        let (even, is_even) = root_in(image, 0);
        let (odd, is_odd) = root_in(image, 1);
        if even > odd {
            Roots {
                number: even,
                has_journal: is_even,
                had_journal: is_odd,
            }
        } else {
            Roots {
                number: odd,
                has_journal: is_odd,
                had_journal: is_even,
            }
        }
    }
}

/// The number of the root in a sector, and whether it says that there is a journal. Of a sector without a root the number is 0.
fn root_in(image: &TestImage, sector: u32) -> (u64, bool) {
    match read_root(sector, &image.last_content(sector)) {
        RootSector::Found(root) => (root.number(), root.format().has_journal()),
        RootSector::Empty | RootSector::Malformed => (0, false),
    }
}
