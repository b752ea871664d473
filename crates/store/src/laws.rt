//! Laws of records and changes: the lemmas of proofs/Changes.antt and proofs/Scans.antt.
ghost use Rattle.std.specs.Prelude.{◌≡◌, ℕ, Bool, List, [], ◌∷◌, ◌++◌, Some, None, Option, true, false};
ghost use Rattle.store.specs.Store.{HasCause, HasReadCause};
ghost use Rattle.store.specs.MemoryStore.{memory_store_state};
ghost use Rattle.store.specs.Records.{Records, Changes, IsOrdered, IsBefore, applied, changed, entry_at, entry_of, first, first_from, has_prefix, is_from, entries_where, with_front, lookup, value_under};

use crate::{MemStore, StoreFault};

/// Records with the same value at each key are the same.
pub fn records_are_their_values()
    ensures { (xs ys : Records) → IsOrdered xs → IsOrdered ys
        → ((key : List ℕ) → lookup key xs ≡ lookup key ys) → xs ≡ ys }
{}

/// The value at a key under changes is what the changes say of it, or else the value before.
pub fn value_of_changes()
    ensures { (key : List ℕ) (cs : Changes) (es : Records) → IsOrdered es
        → lookup key (applied cs es) ≡ value_under (lookup key cs) (lookup key es) }
{}

/// The entry of a key under changes is what the changes say of it, or else the entry before.
pub fn entry_of_changes()
    ensures changed { (key k : List ℕ) (v : Option (List ℕ)) (cs : Changes) (es : Records)
        → IsOrdered es
        → entry_at key cs ≡ Some (k, v) → entry_at key (applied cs es) ≡ entry_of key v }
    ensures unchanged { (key : List ℕ) (cs : Changes) (es : Records) → IsOrdered es
        → entry_at key cs ≡ None → entry_at key (applied cs es) ≡ entry_at key es }
{}

/// A change that a batch takes in is a change of what the batch makes of records.
pub fn changes_are_put()
    ensures { (key : List ℕ) (value : Option (List ℕ)) (cs : Changes) (es : Records) → IsOrdered cs
        → IsOrdered es
        → applied (changed key (Some value) cs) es ≡ changed key value (applied cs es) }
{}

/// The changed records whose keys pass a test are those that pass, under the changes that pass.
pub fn changes_are_filtered()
    ensures { (q : List ℕ → Bool) (cs : Changes) (es : Records) → IsOrdered es
        → entries_where q (applied cs es) ≡ applied (entries_where q cs) (entries_where q es) }
{}

/// An entry that is found by its key is what a scan from that key finds.
pub fn entry_begins_a_scan()
    ensures { (key value : List ℕ) (es : Records) → IsOrdered es
        → entry_at key es ≡ Some (key, value) → first_from key es ≡ Some (key, value) }
{}

/// A scan goes on after the key that it found.
pub fn scan_goes_on()
    ensures { (k : List ℕ) (es : Records) (e : List ℕ × List ℕ) → IsOrdered es
        → first_from k es ≡ Some e
        → entries_where (is_from k) es ≡ e ∷ entries_where (is_from (e.0 ++ 0 ∷ [])) es }
{}

/// All keys of a prefix are at it or after it, and a scan that finds another key is past them.
pub fn prefix_is_a_range()
    ensures begins { (p : List ℕ) (es : Records)
        → entries_where (has_prefix p) (entries_where (is_from p) es)
        ≡ entries_where (has_prefix p) es }
    ensures ends { (p n : List ℕ) (es : Records) (e : List ℕ × List ℕ) → IsOrdered es
        → has_prefix p n ≡ true → first_from n es ≡ Some e → has_prefix p e.0 ≡ false
        → entries_where (has_prefix p) (entries_where (is_from n) es) ≡ [] }
{}

/// The least entry under changes, where all of them lie after it, and where the first of them is
/// before it or at it.
pub fn first_under_changes()
    ensures entry { (e : List ℕ × List ℕ) (cs : Changes) (es : Records) → IsBefore e.0 cs
        → first (applied cs (e ∷ es)) ≡ Some e }
    ensures change { (k : List ℕ) (v : Option (List ℕ)) (cs : Changes) (es : Records)
        → IsBefore k cs → IsBefore k es
        → applied ((k, v) ∷ cs) es ≡ with_front k v (applied cs es) }
    ensures both { (k w : List ℕ) (v : Option (List ℕ)) (cs : Changes) (es : Records)
        → IsBefore k cs → IsBefore k es → applied ((k, v) ∷ cs) ((k, w) ∷ es)
        ≡ with_front k v (applied cs es) }
{}

/// Of changes in order the first may be made first.
pub fn first_change_first()
    ensures { (c : List ℕ × Option (List ℕ)) (cs : Changes) (es : Records)
        → IsOrdered (c ∷ cs) → IsOrdered es
        → applied (c ∷ cs) es ≡ applied cs (changed c.0 c.1 es) }
{}

/// Of changes in order a first part may be made before the others. Both parts are in order.
pub fn changes_in_turn()
    ensures made { (cs ds : Changes) (es : Records) → IsOrdered (cs ++ ds) → IsOrdered es
        → applied (cs ++ ds) es ≡ applied ds (applied cs es) }
    ensures first { (cs ds : Changes) → IsOrdered (cs ++ ds) → IsOrdered cs }
    ensures second { (cs ds : Changes) → IsOrdered (cs ++ ds) → IsOrdered ds }
{}

/// Over a store in memory no fault but Memory has a cause.
pub fn memory_alone_is_refused(old: &MemStore, new: &MemStore, fault: StoreFault)
    ensures read { HasReadCause fault (memory_store_state old.now) (memory_store_state new.now)
        → fault ≡ StoreFault.Memory }
    ensures commit { HasCause fault (memory_store_state old.now) (memory_store_state new.now)
        → fault ≡ StoreFault.Memory }
{}
