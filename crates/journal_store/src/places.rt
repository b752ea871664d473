//! Places at which walks over a store on a device go on.

use page_tree::TreeWalk;
use transactions::ViewPlace;

/// Where a walk goes on, over a store of either kind. A store goes on with the places of its own kind alone.
#[derive(Drop)]
pub enum StorePlace {
    /// In pages without a journal.
    InPages(TreeWalk),
    /// In pages under the changes that wait.
    UnderChanges(ViewPlace<TreeWalk>),
}
