//! Laws of the items that records hold: the lemmas of proofs/HeldItems.antt.
ghost use Rattle.std.specs.Prelude.{◌≡◌, ℕ, List, [], ◌++◌, Some, None, true};
ghost use Rattle.std.specs.declared.cmp.Ordering.{Ordering};
ghost use Rattle.store.specs.Records.{Records, Changes, IsOrdered, applied, changed, has_prefix, entries_where, key_cmp};
ghost use Rattle.store.specs.Items.{Holds, KeysAgree, drop_item, put_item};

/// Records in which an item is put hold it among the others, in place of one that is equal to it.
pub fn put_items_are_held<Item>()
    ensures { (cmp : Item → Item → Ordering) (spell : Item → List ℕ × List ℕ)
        (prefix : List ℕ) (records : Records) (item : Item) (items : List Item)
        → IsOrdered records → has_prefix prefix (spell item).0 ≡ true
        → KeysAgree cmp spell item items → Holds records prefix spell items
        → Holds (changed (spell item).0 (Some (spell item).1) records) prefix spell
        (put_item cmp item items) }
{}

/// Records from which an item is removed hold the others.
pub fn removed_items_are_dropped<Item>()
    ensures { (cmp : Item → Item → Ordering) (spell : Item → List ℕ × List ℕ)
        (prefix : List ℕ) (records : Records) (item : Item) (items : List Item)
        → IsOrdered records → has_prefix prefix (spell item).0 ≡ true
        → KeysAgree cmp spell item items → Holds records prefix spell items
        → Holds (changed (spell item).0 None records) prefix spell (drop_item cmp item items) }
{}

/// Records hold the items of a kind still where nothing with its prefix is changed.
pub fn items_elsewhere_stay<Item>()
    ensures { (prefix : List ℕ) (spell : Item → List ℕ × List ℕ) (changes : Changes)
        (records : Records) (items : List Item)
        → IsOrdered records → entries_where (has_prefix prefix) changes ≡ []
        → Holds records prefix spell items → Holds (applied changes records) prefix spell items }
{}

/// Keys with one front begin with it, and are ordered by what follows.
pub fn fronts_do_not_order()
    ensures prefix { (p k : List ℕ) → has_prefix p (p ++ k) ≡ true }
    ensures order { (p a b : List ℕ) → key_cmp (p ++ a) (p ++ b) ≡ key_cmp a b }
{}
