//! What holds of arrays and of the maps that they represent, whatever the program does.
ghost use Rattle.std.specs.Prelude.{◌≡◌, ℕ, List, [], Some, IsSome};
ghost use Rattle.pages.specs.State.{Array};
ghost use Rattle.page_nodes.specs.Map.{Entry, IsRising};
ghost use Rattle.page_nodes.specs.Node.{IsNode};
ghost use Rattle.page_nodes.specs.declared.cell.NodeKind.TheVariants.{Leaf};
ghost use Rattle.page_tree.specs.Forest.{Represents};
ghost use Rattle.page_tree.specs.Walk.{HasFewPages, records_of};

/// An array represents one map at most, and its keys rise. The map is what a walk of the tree from left to right meets; it
/// stays while the pages stay. Logical page 0 is in use.
pub fn represented_map()
    ensures walked { (array : Array) (map : List Entry) → HasFewPages array
        → Represents map array → records_of array ≡ map }
    ensures one { (array : Array) (map other : List Entry) → HasFewPages array
        → Represents map array → Represents other array → map ≡ other }
    ensures rising { (array : Array) (map : List Entry) → Represents map array → IsRising map }
    ensures root { (array : Array) (map : List Entry) → HasFewPages array
        → Represents map array → IsSome (array 0) }
    ensures same { (array other : Array) (map : List Entry) → ((l : ℕ) → array l ≡ other l)
        → Represents map array → Represents map other }
{}

/// An array whose logical page 0 alone is in use, and holds a leaf, represents the entries of the leaf.
pub fn leaf_alone()
    ensures { (array : Array) (map : List Entry) (bytes : List ℕ) → array 0 ≡ Some bytes
        → ((l : ℕ) → IsSome (array l) → l ≡ 0) → IsNode Leaf [] map bytes → IsRising map
        → Represents map array }
{}
