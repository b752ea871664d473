//! How many bytes the changes of a batch take in a record, counted before anything is encoded.
ghost use Rattle.std.specs.Prelude.{◌≡◌, ◌<◌, ◌+◌, ◌∷◌, [], MatchOption};
ghost use Rattle.journal_store.specs.Encoded.{encoded_length};

use store::{Batch, Change};

// In front of the key and the value of a put: its kind, and the two lengths.
const PUT_FRONT: usize = 5;

// In front of the key of a removal: its kind, and the length.
const REMOVAL_FRONT: usize = 3;

// What is left of so many bytes after those of a change, or `None` where the change takes more.
fn left_after_change(most: usize, change: &Change) -> Option<usize>
    ensures { MatchOption result (most < encoded_length (change.now ∷ []))
        (λ left. left + encoded_length (change.now ∷ []) ≡ most) }
{
    let left = most.checked_sub(change.key().len())?;
    match change.value() {
        Some(value) => left.checked_sub(value.len())?.checked_sub(PUT_FRONT),
        None => left.checked_sub(REMOVAL_FRONT),
    }
}

// What is left of so many bytes after those of changes, or `None` where these take more.
fn left_after_changes(most: usize, changes: &[Change]) -> Option<usize>
    ensures { MatchOption result (most < encoded_length changes.now)
        (λ left. left + encoded_length changes.now ≡ most) }
{
    let mut left = most;
    for change in changes {
        left = left_after_change(left, change)?;
    }
    Some(left)
}

/// What is left of so many bytes after those that the changes of a batch take in a record, or `None` where these take more.
/// It looks at no change behind the first for which there is no room.
pub(crate) fn left_after_encoded(most: usize, batch: &Batch) -> Option<usize>
    ensures { MatchOption result (most < encoded_length batch.now)
        (λ left. left + encoded_length batch.now ≡ most) }
{
    let mut left = most;
    let pieces = batch.pieces();
    for piece in pieces {
        left = left_after_changes(left, piece.as_slice())?;
    }
    Some(left)
}
