//! The elements that chains lead to, where keys are values of any type.
ghost use Rattle.std.specs.Prelude.{◌≡◌, IfOk};
ghost use Rattle.reachability.specs.Keyed.{AreReachedByKeys};

use crate::elements::{Elements, reached};
use crate::numbered::number_all;
use std::alloc::{AllocError, Global};
use std::hash::Hash;

/// An element: whether it is a start, the key that it waits for, and the key that it gives once it is reached, if any.
#[derive(Drop)]
pub struct Element<K> {
    pub is_start: bool,
    pub waits_for: K,
    pub gives: Option<K>,
}

/// Which elements are reached: the starts, and each that waits for a key which one that is reached gives. Time and memory
/// grow in proportion to the elements, as far as keys hash apart.
pub fn reached_by_keys<K: Eq + Hash + Copy + Drop>(
    alloc: Global,
    elements: &[Element<K>],
) -> Result<Vec<bool>, AllocError>
    ensures { IfOk result (λ marks. AreReachedByKeys K.eq elements.now marks.items) }
{
    let numbered = number_all(alloc, elements)?;
    let parts = Elements {
        starts: numbered.starts.as_slice(),
        waits_for: numbered.waits_for.as_slice(),
        gives: numbered.gives.as_slice(),
    };
    reached(alloc, &parts, numbered.keys)
}
