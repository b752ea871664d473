//! Which elements wait for each key.
ghost use Rattle.std.specs.Prelude.{◌≡◌, ◌<◌, ℕ, [], All, length, get_or, replicate, IfOk, OnOk};
ghost use Rattle.reachability.specs.Waiting.{Wait, bucket_at};

use std::alloc::{AllocError, Global};

/// An empty list for each of so many keys.
fn no_lists(alloc: Global, keys: usize) -> Result<Vec<Vec<usize>>, AllocError>
    ensures count { IfOk result (λ lists. length lists.items ≡ keys) }
    ensures empty { IfOk result (λ lists. (key : ℕ) → bucket_at lists.items key ≡ []) }
{
    let mut lists = Vec::with_capacity(alloc, keys)?;
    for _key in 0..keys {
        lists.push(Vec::new(alloc))?;
    }
    Ok(lists)
}

/// For each of so many keys the elements that wait for it, in rising order.
pub(crate) fn waiting(
    alloc: Global,
    waits_for: &[usize],
    keys: usize,
) -> Result<Vec<Vec<usize>>, AllocError>
    requires { All (λ key. key < keys) waits_for.now }
    ensures count { IfOk result (λ lists. length lists.items ≡ keys) }
    ensures waiting { IfOk result (λ lists. Wait (length waits_for.now) waits_for.now lists.items) }
{
    let mut lists = no_lists(alloc, keys)?;
    for element in 0..waits_for.len() {
        lists[waits_for[element]].push(element)?;
    }
    Ok(lists)
}
