//! Calls of a tree. What they answer is told and compared, and no proof here speaks of it: so these say nothing of it, and what
//! calls them need not know what a tree promises.

use page_tree::{TreeCursor, first_from, get, next};
use pages::{MemPages, PageFault};

/// Reads the value of a key. Answers whether there is one.
pub fn look_up(pages: &mut MemPages, key: &[u8], value: &mut Vec<u8>) -> Result<bool, PageFault> {
    get(pages, key, value)
}

/// Reads the first entry. Answers whether there is one.
pub fn first(pages: &mut MemPages, cursor: &mut TreeCursor) -> Result<bool, PageFault> {
    first_from(pages, &[], cursor)
}

/// Reads the entry behind the one that was read last. Answers whether there is one.
pub fn following(pages: &mut MemPages, cursor: &mut TreeCursor) -> Result<bool, PageFault> {
    next(pages, cursor)
}
