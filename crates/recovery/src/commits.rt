//! The commit that spells a store's records in record format 2.

ghost use Rattle.std.specs.Prelude.{◌≡◌, List, [], ◌∷◌, Ok};
ghost use Rattle.storage_sizes.specs.declared.record_format.RecordFormat.TheVariants.{V2};
ghost use Rattle.store.specs.Records.{Changes};
ghost use Rattle.store.specs.Store.{Commits, stored};
ghost use Rattle.store.specs.Contents.{changed_in};

use store::{Batch, Store, StoreFault};

/// Commits the one list that there is and with it that the records are of record format 2, or
/// does nothing where there is no list. The faults are those of a commit.
pub fn commit_migrated<S: Store>(store: &mut S, lists: &[Batch]) -> Result<(), StoreFault>
    ensures none { lists.now ≡ [] → (result ≡ Ok tt) × (store.new ≡ store.old) }
    ensures some { (changes : Changes) (others : List Changes) → lists.now ≡ changes ∷ others
        → Commits result (changed_in V2 changes (stored (S.state store.old)))
        (S.state store.old) (S.state store.new) }
{
    match lists.first() {
        Some(batch) => store.commit_migration(batch),
        None => Ok(()),
    }
}
