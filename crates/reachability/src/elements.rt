//! The elements that chains lead to.
ghost use Rattle.std.specs.Prelude.{◌≡◌, ◌<◌, ◌↔◌, ℕ, true, false, length, get_or, IfOk, OnOk};
ghost use Rattle.reachability.specs.Reached.{AreReached, HaveKeysBelow, LeadsTo, elements_of};
ghost use Rattle.reachability.specs.Found.{Finds, IsMarked, IsQueueOf};
ghost use Rattle.reachability.specs.Waiting.{Wait};

use crate::found::Visited;
use crate::waiting::waiting;
use std::alloc::{AllocError, Global};

/// Elements, by their index: element `i` is a start where `starts[i]`, it waits for the key `waits_for[i]`, and once it
/// is reached it gives the key `gives[i]`, if any.
#[derive(Drop)]
pub struct Elements<'a> {
    pub starts: &'a [bool],
    pub waits_for: &'a [usize],
    pub gives: &'a [Option<usize>],
}

/// The starts are found.
fn find_starts(alloc: Global, starts: &[bool]) -> Result<Visited, AllocError>
    ensures count { IfOk result (λ found. length found.marks.items ≡ length starts.now) }
    ensures queue { IfOk result (λ found. IsQueueOf found.marks.items found.queue.items) }
    ensures starts { IfOk result (λ found. (i : ℕ) → IsMarked found.marks.items i ↔ IsMarked starts.now i) }
{
    let mut found = Visited::none(alloc, starts.len())?;
    for element in 0..starts.len() {
        if starts[element] {
            found.add(element)?;
        }
    }
    Ok(found)
}

/// Finds the elements that an element leads to, by the lists of those that wait for each key.
fn follow(
    found: &mut Visited,
    elements: &Elements<'_>,
    lists: &[Vec<usize>],
    element: usize,
) -> Result<(), AllocError>
    requires keys { HaveKeysBelow (length lists.now) (elements_of elements.now) }
    requires wait { Wait (length elements.now.waits_for.now) elements.now.waits_for.now lists.now }
    requires inside { element < length elements.now.starts.now }
    requires count { length found.old.marks.items ≡ length elements.now.starts.now }
    ensures found { OnOk result (Finds (LeadsTo (elements_of elements.now) element)
        found.old.marks.items found.old.queue.items found.new.marks.items found.new.queue.items) }
    ensures queue { IsQueueOf found.old.marks.items found.old.queue.items
        → OnOk result (IsQueueOf found.new.marks.items found.new.queue.items) }
    ensures count { length found.new.marks.items ≡ length found.old.marks.items }
{
    match elements.gives[element] {
        Some(key) => found.add_all(lists[key].as_slice()),
        None => Ok(()),
    }
}

/// Which elements are reached: the starts, and each that waits for a key which one that is reached gives. Keys are
/// numbers below `keys`. Time and memory grow in proportion to the elements and keys.
pub fn reached(alloc: Global, elements: &Elements<'_>, keys: usize) -> Result<Vec<bool>, AllocError>
    requires { HaveKeysBelow keys (elements_of elements.now) }
    ensures { IfOk result (λ marks. AreReached (elements_of elements.now) marks.items) }
{
    let lists = waiting(alloc, elements.waits_for, keys)?;
    let mut found = find_starts(alloc, elements.starts)?;
    for at in 0..elements.starts.len() {
        let Some(element) = found.at(at) else {
            break;
        };
        follow(&mut found, elements, lists.as_slice(), element)?;
    }
    Ok(found.into_marks())
}
