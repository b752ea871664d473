//! Laws of the definitions, for all bytes, whether they were read or not.
ghost use Rattle.std.specs.Prelude.{◌≡◌, ◌↔◌, ℕ, List, IsTrue, Some};
ghost use Rattle.page_roots.specs.Chosen.{IsChosen, chosen};
ghost use Rattle.page_roots.specs.Reach.{InReach, is_reached};
ghost use Rattle.page_roots.specs.Root.{RootFields, IsRootOf, home, root_bytes};
ghost use Rattle.page_roots.specs.Sector.{root_at, zeros};
ghost use Rattle.page_roots.specs.declared.sector.RootSector.TheVariants.{Empty, Found};

/// A root is read from its own bytes, in the sector of its number; zeros are an empty sector.
pub fn root_spelling_law()
    ensures read { (sector : ℕ) (root : RootFields) → IsRootOf sector root
        → root_at sector (root_bytes root) ≡ Found root }
    ensures parity { (sector : ℕ) (bytes : List ℕ) (root : RootFields)
        → root_at sector bytes ≡ Found root → home root.number ≡ sector }
    ensures empty { (sector : ℕ) → root_at sector zeros ≡ Empty }
{}

/// What is chosen of the two root sectors of an image is its root of greater number, and there is
/// at most one such root.
pub fn chosen_root_law()
    ensures chosen { (image : ℕ → List ℕ) (root : RootFields)
        → (chosen (root_at 0 (image 0)) (root_at 1 (image 1)) ≡ Some root) ↔ IsChosen image root }
    ensures once { (image : ℕ → List ℕ) (root other : RootFields)
        → IsChosen image root → IsChosen image other → root ≡ other }
{}

/// A page is in the reach of a root exactly where it is one of its map pages or an entry names it.
pub fn reach_law()
    ensures { (maps entries : List ℕ) (page : ℕ)
        → IsTrue (is_reached maps entries page) ↔ InReach maps entries page }
{}
