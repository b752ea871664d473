//! Laws of differences: the changes that take records to others.
ghost use Rattle.std.specs.Prelude.{◌≡◌, ℕ, Bool, List, []};
ghost use Rattle.store.specs.Records.{Records, IsOrdered, entries_where};
ghost use Rattle.entry_differences.specs.Differences.{differences, applied_in_turn};

/// The differences between records take the ones to the others, also where they are those records
/// of more that pass a test.
pub fn differences_lead_to_records()
    ensures all { (es fs : Records) → IsOrdered es → IsOrdered fs
        → applied_in_turn (differences es fs) es ≡ fs }
    ensures part { (q : List ℕ → Bool) (es fs records : Records) → IsOrdered records
        → IsOrdered fs → entries_where q records ≡ es → entries_where q fs ≡ fs
        → entries_where q (applied_in_turn (differences es fs) records) ≡ fs }
{}

/// The differences between records that do not pass a test leave those that pass as they are.
pub fn differences_are_elsewhere()
    ensures { (q : List ℕ → Bool) (es fs records : Records) → IsOrdered records
        → entries_where q es ≡ [] → entries_where q fs ≡ []
        → entries_where q (applied_in_turn (differences es fs) records)
        ≡ entries_where q records }
{}
