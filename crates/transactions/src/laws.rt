//! Laws of changes in lists.
ghost use Rattle.std.specs.Prelude.{◌≡◌, ℕ, List};
ghost use Rattle.store.specs.Records.{Changes, Records, IsOrdered, lookup, applied};
ghost use Rattle.transactions.specs.Views.{applied_all, latest};

/// Changes that say of each key what the lists say of it make of records what the lists make of
/// them, one after the other.
pub fn joined_changes()
    ensures { (cs : Changes) (lists : List Changes) (es : Records) → IsOrdered es
        → ((key : List ℕ) → lookup key cs ≡ latest key lists)
        → applied cs es ≡ applied_all lists es }
{}
