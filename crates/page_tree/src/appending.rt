//! Changes of the tree: a leaf that is full gets another one behind it.

ghost use Rattle.std.specs.Prelude.{◌≡◌, ◌↔◌, ◌<◌, ◌≤◌, [], List, IfOk, IfSome, IsTrue, OnOk, length};
ghost use Rattle.std.specs.List.{AllByRecursion};
ghost use Rattle.page_nodes.specs.Map.{Entry};
ghost use Rattle.page_nodes.specs.Node.{IsNode};
ghost use Rattle.page_nodes.specs.declared.cell.NodeKind.TheVariants.{Leaf};
ghost use Rattle.store.specs.Records.{IsChangeSize};
ghost use Rattle.page_tree.specs.Appending.{AppendsToLeaf, ComesLast};
ghost use Rattle.page_tree.specs.Removal.{HasSeparator};
ghost use Rattle.page_tree.specs.Taking.{TakesAtMost, most_changed};

use crate::bound::KeyBound;
use crate::changes::{Changed, copy_changed};
use crate::puts::write_back;
use crate::removal::Underflow;
use crate::scratch::NodeScratch;
use page_nodes::{NodeKind, seek, write_node};
use pages::{PageFault, Pages};
use storage_sizes::PAGE_SIZE;
use store::Change;

/// Whether these bytes are a leaf with cells, after all of which a key comes.
fn ends_before(bytes: &[u8; PAGE_SIZE], key: &[u8]) -> bool
    ensures { (es : List Entry) → IsNode Leaf [] es bytes.now
        → (IsTrue result ↔ ComesLast key.now es) }
{
    let Some(place) = seek(bytes, NodeKind::Leaf, key) else {
        return false;
    };
    if place.left > 0 {
        return false;
    }
    if place.index == 0 {
        return false;
    }
    true
}

/// Makes changes behind a leaf that has been read and has no room for the first of them, which puts a value: as many as a new
/// leaf takes. So keys that rise fill a leaf at a time. None: no change is made, since the first one does not come after the
/// cells of the leaf.
pub(crate) fn append_leaf<P: Pages>(
    pages: &mut P,
    bytes: &[u8; PAGE_SIZE],
    page: u32,
    changes: &[Change],
    bound: &KeyBound,
    scratch: &mut NodeScratch,
) -> Result<Option<Changed>, PageFault>
    requires { AllByRecursion IsChangeSize changes.now }
    ensures preserved { P.preserved pages.old pages.new }
    ensures works { P.works pages.old → OnOk result (P.works pages.new) }
    ensures size { IfOk result (λ changed. IfSome changed
        (λ c. HasSeparator c.left scratch.new.separator.items)) }
    ensures most { IfOk result (λ changed. IfSome changed
        (λ c. (0 < c.made) × (c.made ≤ length changes.now))) }
    ensures changed { AppendsToLeaf P.Pages pages.old pages.new page bytes.now
        scratch.new.separator.items bound.now changes.now result }
    ensures takes { TakesAtMost P.Pages pages.old pages.new result (λ c. most_changed 0 c) 0 }
{
    if changes.is_empty() {
        return Ok(None);
    }
    if !ends_before(bytes, changes[0].key()) {
        return Ok(None);
    }
    write_node(&mut scratch.page, NodeKind::Leaf, b"", b"", 0);
    let leaf = copy_changed(&scratch.page, changes, bound, &mut scratch.cells)?;
    let made = leaf.made;
    let count = leaf.count;
    if made == 0 || count == 0 {
        return Ok(None);
    }
    let second = write_back(
        pages,
        &mut scratch.page,
        NodeKind::Leaf,
        scratch.cells.as_slice(),
        count,
        &mut scratch.separator,
    )?;
    Ok(Some(Changed {
        made,
        left: Underflow::Trees(Some(second)),
    }))
}
