//! Scans: the first entry from a key on, and the entry after one.
ghost use Rattle.std.specs.Prelude.{◌≡◌, ◌≢◌, ◌++◌, ◌∷◌, [], List, Ok, false, OnOk, IfOk, IfErr};
ghost use Rattle.page_nodes.specs.Map.{Entry, first_at};
ghost use Rattle.page_tree.specs.Search.{key_of, value_of, first_after};
ghost use Rattle.page_tree.specs.Kept.{KeepsPlace, TellsNext};
ghost use Rattle.page_tree.specs.Calls.{LeavesPages, LeavesPlace, Finds, FindsOn, TakesNext, TakesEntry, Steps, FindsLeast, FindsBelow};

use crate::leaf::KeptLeaf;
use crate::search::{MAX_HEIGHT, fetch_node};
use page_nodes::{NodeKind, cell_at, child_for, first_child, is_less, seek};
use pages::{PageFault, Pages};
use std::alloc::{AllocError, Global};

/// A position in a scan: the entry that was found last, and the leaf in which it was found, as long as the map stays as it
/// is. So the entry behind it is found without a page being read.
pub struct TreeCursor {
    key: Vec<u8>,
    value: Vec<u8>,
    // The leaf of the entry: the cells behind the entry come next.
    pub(crate) leaf: KeptLeaf,
}

// Written and not derived: where a value is dropped this is one call, and not its parts one by one.
impl Drop for TreeCursor {
    fn drop(self) {
        let TreeCursor {
            key: _,
            value: _,
            leaf: _,
        } = self;
    }
}

// Puts bytes in place of others.
fn replace(bytes: &mut Vec<u8>, by: &[u8]) -> Result<(), AllocError>
    ensures { OnOk result (bytes.new.items ≡ by.now) }
{
    bytes.clear();
    bytes.extend_from_slice(by)
}

impl TreeCursor {
    /// A cursor before any entry is found.
    pub fn new(alloc: Global) -> Self
        ensures key { key_of result ≡ [] }
        ensures place { (map : List Entry) → KeepsPlace map result }
    {
        TreeCursor {
            key: Vec::new(alloc),
            value: Vec::new(alloc),
            leaf: KeptLeaf::none(),
        }
    }

    /// The key of the entry.
    pub fn key(&self) -> &[u8]
        ensures { result.now ≡ key_of self.now }
    {
        self.key.as_slice()
    }

    /// The value of the entry.
    pub fn value(&self) -> &[u8]
        ensures { result.now ≡ value_of self.now }
    {
        self.value.as_slice()
    }

    /// Gives up the leaf, as must be done before the map changes: the next entry is looked for from the root on.
    pub fn reset(&mut self)
        ensures { (map : List Entry) → KeepsPlace map self.new }
    {
        self.leaf.left = 0;
    }

    // Takes the first of the cells that are left. False: none is.
    fn take_next(&mut self) -> Result<bool, PageFault>
        ensures taken { TakesNext self.old self.new result }
        ensures faults { IfErr result (λ f. f ≢ PageFault.Full) }
    {
        if self.leaf.left == 0 {
            return Ok(false);
        }
        let left = self.leaf.left - 1;
        self.leaf.left = 0;
        let leaf = &self.leaf;
        let Some(cell) = cell_at(&leaf.page, NodeKind::Leaf, leaf.at) else {
            return Err(PageFault::Malformed);
        };
        replace(&mut self.key, cell.key)?;
        replace(&mut self.value, cell.payload)?;
        self.leaf.at = cell.end;
        self.leaf.left = left;
        Ok(true)
    }

    // Takes from the leaf in the page its first entry at or after a key. False: there is none.
    fn take_entry(&mut self, key: &[u8]) -> Result<bool, PageFault>
        ensures taken { TakesEntry self.old.leaf.page key.now self.new result }
        ensures faults { IfErr result (λ f. f ≢ PageFault.Full) }
    {
        let Some(sought) = seek(&self.leaf.page, NodeKind::Leaf, key) else {
            return Err(PageFault::Malformed);
        };
        self.leaf.at = sought.at;
        self.leaf.left = sought.left;
        self.take_next()
    }

    // Goes on to the entry behind, where that is the first one at or after a key. False: the leaf does not tell which one
    // is, and the cursor stays as it was.
    fn step(&mut self, key: &[u8]) -> Result<bool, PageFault>
        ensures stepped { Steps key.now self.old self.new result }
        ensures tells { TellsNext key.now self.old → result ≢ Ok false }
        ensures faults { IfErr result (λ f. f ≢ PageFault.Full) }
    {
        if self.leaf.left == 0 || !is_less(&self.key, key) {
            return Ok(false);
        }
        let Some(cell) = cell_at(&self.leaf.page, NodeKind::Leaf, self.leaf.at) else {
            return Ok(false);
        };
        if is_less(cell.key, key) {
            return Ok(false);
        }
        self.take_next()
    }
}

/// Finds the first entry of a tree, from its page on.
fn least_below<P: Pages>(
    pages: &mut P,
    page: u32,
    levels: u32,
    cursor: &mut TreeCursor,
) -> Result<bool, PageFault>
    ensures preserved { P.preserved pages.old pages.new }
    ensures works { OnOk result (P.works pages.new) }
    ensures only_reads { LeavesPages P.Pages pages.old pages.new }
    ensures found { FindsLeast P.Pages pages.old pages.new page levels cursor.new result }
    ensures faults { IfErr result (λ f. f ≢ PageFault.Full) }
{
    if levels == 0 {
        return Err(PageFault::Malformed);
    }
    match fetch_node(pages, page)? {
        NodeKind::Leaf => {
            cursor.leaf.page = *pages.fetched().bytes();
            cursor.take_entry(b"")
        }
        NodeKind::Inner => {
            let child = first_child(pages.fetched().bytes());
            least_below(pages, child, levels - 1, cursor)
        }
    }
}

/// Finds the first entry of a tree at or after a key, from its page on.
fn entry_below<P: Pages>(
    pages: &mut P,
    page: u32,
    levels: u32,
    key: &[u8],
    cursor: &mut TreeCursor,
) -> Result<bool, PageFault>
    ensures preserved { P.preserved pages.old pages.new }
    ensures works { OnOk result (P.works pages.new) }
    ensures only_reads { LeavesPages P.Pages pages.old pages.new }
    ensures found { FindsBelow P.Pages pages.old pages.new page levels key.now cursor.new result }
    ensures faults { IfErr result (λ f. f ≢ PageFault.Full) }
{
    if levels == 0 {
        return Err(PageFault::Malformed);
    }
    match fetch_node(pages, page)? {
        NodeKind::Leaf => {
            cursor.leaf.page = *pages.fetched().bytes();
            cursor.take_entry(key)
        }
        NodeKind::Inner => {
            let Some(branch) = child_for(pages.fetched(), key) else {
                return Err(PageFault::Malformed);
            };
            let found = entry_below(pages, branch.child, levels - 1, key, cursor)?;
            if found {
                return Ok(true);
            }
            let Some(later) = branch.later else {
                return Ok(false);
            };
            least_below(pages, later, levels - 1, cursor)
        }
    }
}

/// Finds the first entry at or after a key, which the cursor then lends, and keeps the leaf in which it was found. False:
/// there is none. After false or a fault nothing is known of the entry that the cursor lends. A fault comes from the pages,
/// or is Memory where an allocation failed, and is never Full; the pages stay as they are, also then.
pub fn first_from<P: Pages>(
    pages: &mut P,
    key: &[u8],
    cursor: &mut TreeCursor,
) -> Result<bool, PageFault>
    ensures preserved { P.preserved pages.old pages.new }
    ensures works { OnOk result (P.works pages.new) }
    ensures only_reads { LeavesPages P.Pages pages.old pages.new }
    ensures found { Finds P.Pages pages.old pages.new (first_at key.now) cursor.new result }
    ensures place { LeavesPlace P.Pages pages.old cursor.new }
    ensures faults { IfErr result (λ f. f ≢ PageFault.Full) }
{
    match entry_below(pages, 0, MAX_HEIGHT, key, cursor) {
        Ok(found) => Ok(found),
        Err(fault) => {
            cursor.reset();
            Err(fault)
        }
    }
}

/// Finds the first entry at or after a key as `first_from` does. No page is read where it is the one behind the cursor's in
/// the leaf that the cursor keeps. A cursor that kept a leaf of this map, or none, does so afterwards, whatever is answered.
pub fn first_on<P: Pages>(
    pages: &mut P,
    key: &[u8],
    cursor: &mut TreeCursor,
) -> Result<bool, PageFault>
    ensures preserved { P.preserved pages.old pages.new }
    ensures works { P.works pages.old → OnOk result (P.works pages.new) }
    ensures only_reads { LeavesPages P.Pages pages.old pages.new }
    ensures unread { TellsNext key.now cursor.old → pages.new ≡ pages.old }
    ensures found { FindsOn P.Pages pages.old pages.new (first_at key.now) cursor.old cursor.new
        result }
    ensures faults { IfErr result (λ f. f ≢ PageFault.Full) }
{
    if cursor.step(key)? {
        return Ok(true);
    }
    first_from(pages, key, cursor)
}

/// The least key after a key: the key with a zero byte.
fn key_after(key: &Vec<u8>) -> Result<Vec<u8>, AllocError>
    ensures { IfOk result (λ after. after.items ≡ key.now.items ++ (0 ∷ [])) }
{
    let mut after = key.clone()?;
    after.push(0)?;
    Ok(after)
}

/// Finds the first entry after the cursor's, which the cursor then lends. False: there is none. After false or a fault
/// nothing is known of the cursor. A fault comes as from `first_from`.
pub fn next<P: Pages>(pages: &mut P, cursor: &mut TreeCursor) -> Result<bool, PageFault>
    ensures preserved { P.preserved pages.old pages.new }
    ensures works { OnOk result (P.works pages.new) }
    ensures only_reads { LeavesPages P.Pages pages.old pages.new }
    ensures found { Finds P.Pages pages.old pages.new (first_after (key_of cursor.old)) cursor.new
        result }
    ensures faults { IfErr result (λ f. f ≢ PageFault.Full) }
{
    match key_after(&cursor.key) {
        Ok(key) => first_from(pages, key.as_slice(), cursor),
        Err(_) => Err(PageFault::Memory),
    }
}
