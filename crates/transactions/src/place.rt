//! Where a walk of a view goes on.

use crate::merge::MergedPlace;

/// Where a walk of a view goes on. It borrows neither the map nor the lists.
#[derive(Drop)]
pub enum ViewPlace<P> {
    /// No list changes the map: at a place of the map.
    Below(P),
    /// Between the records ahead of a place of the map and the changes of the lists.
    Merged(MergedPlace<P>),
}
