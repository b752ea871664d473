//! The check of a whole tree: whether the pages hold one, and no other page is in use.
ghost use Rattle.std.specs.Prelude.{◌≡◌, ◌⊎◌, ◌<◌, ◌↔◌, [], ℕ, true, List, Ok, IsTrue, IfSome, IfOk, IfErr, length};
ghost use Rattle.storage_sizes.specs.Sizes.{max_pages};
ghost use Rattle.page_nodes.specs.Map.{Entry, IsRising, lent_bytes};
ghost use Rattle.page_nodes.specs.Node.{IsNode};
ghost use Rattle.page_nodes.specs.Ends.{AreEnds};
ghost use Rattle.page_tree.specs.Check.{OnlyReadsBelow, MarksPage, ReadsIfUsed, MeasuresDepth, AreBetween, IsLeafBetween, ChecksLeaf, ChecksLeafAlone, ChecksTree, ChecksChildren, ChecksRoot, AreNoMarks, HasMetAll, ChecksMap};

use crate::search::MAX_HEIGHT;
use page_nodes::{
    EndKeys, NodeKind, cell_at, child_of, first_child, is_less, kind_of, node_kind, seek,
    whole_node,
};
use pages::{PageFault, Pages};
use std::alloc::{AllocError, Global};
use storage_sizes::{MAX_PAGES, PAGE_SIZE};

/// Marks a page as met. False: it was met before, or its number has more than 16 bits.
fn mark(met: &mut [bool], page: u32) -> bool
    requires { length met.old ≡ max_pages }
    ensures { MarksPage page result met.old met.new }
{
    let at = page as usize;
    if at >= met.len() || met[at] {
        return false;
    }
    met[at] = true;
    true
}

/// Reads a page that is in use. False: it is not in use.
fn read_if_used<P: Pages>(
    pages: &mut P,
    page: u32,
    bytes: &mut [u8; PAGE_SIZE],
) -> Result<bool, PageFault>
    ensures reads { OnlyReadsBelow P.Pages pages.old pages.new }
    ensures works { result ≡ Ok true → P.works pages.new }
    ensures found { ReadsIfUsed P.Pages pages.old pages.new page bytes.new result }
    ensures faults { IfErr result (λ f. f ≡ PageFault.Device) }
{
    match pages.read(page, bytes) {
        Ok(()) => Ok(true),
        Err(PageFault::Malformed) => Ok(false),
        Err(fault) => Err(fault),
    }
}

/// Fetches a page that is in use. False: it is not in use.
fn fetch_if_used<P: Pages>(pages: &mut P, page: u32) -> Result<bool, PageFault>
    ensures reads { OnlyReadsBelow P.Pages pages.old pages.new }
    ensures works { result ≡ Ok true → P.works pages.new }
    ensures found { ReadsIfUsed P.Pages pages.old pages.new page (P.fetched pages.new) result }
    ensures faults { IfErr result (λ f. f ≡ PageFault.Device) }
{
    match pages.fetch(page) {
        Ok(()) => Ok(true),
        Err(PageFault::Malformed) => Ok(false),
        Err(fault) => Err(fault),
    }
}

/// How many inner nodes lie above the leaves of the tree under a page, read down its first children. None: a page on that
/// way holds no node, or there are too many.
fn depth_below<P: Pages>(
    pages: &mut P,
    bytes: &mut [u8; PAGE_SIZE],
    page: u32,
    levels: u32,
) -> Result<Option<u32>, PageFault>
    ensures reads { OnlyReadsBelow P.Pages pages.old pages.new }
    ensures measured { MeasuresDepth P.Pages pages.old pages.new page levels result }
    ensures below { IfOk result (λ depth. IfSome depth (λ d. d < levels)) }
    ensures faults { IfErr result (λ f. f ≡ PageFault.Device) }
{
    if levels == 0 {
        return Ok(None);
    }
    if !read_if_used(pages, page, bytes)? {
        return Ok(None);
    }
    match kind_of(bytes) {
        None => Ok(None),
        Some(NodeKind::Leaf) => Ok(Some(0)),
        Some(NodeKind::Inner) => {
            let child = first_child(bytes);
            match depth_below(pages, bytes, child, levels - 1)? {
                Some(depth) => Ok(Some(depth + 1)),
                None => Ok(None),
            }
        }
    }
}

/// Whether there are entries, by their end keys, and all of their keys are at least `low`, and below `high` if there is one.
fn are_between(keys: Option<EndKeys<'_>>, low: &[u8], high: Option<&[u8]>) -> bool
    ensures { (es : List Entry) → AreEnds es keys.entry → IsRising es
        → AreBetween low.now (lent_bytes high.entry) es result }
{
    let Some(keys) = keys else {
        return false;
    };
    if is_less(keys.first, low) {
        return false;
    }
    match high {
        Some(high) => is_less(keys.last, high),
        None => true,
    }
}

/// Whether a page is a leaf that has entries, and all of their keys are at least `low`, and below `high` if there is one.
fn is_leaf_between(bytes: &[u8; PAGE_SIZE], low: &[u8], high: Option<&[u8]>) -> bool
    ensures { IsLeafBetween bytes.now low.now (lent_bytes high.entry) result }
{
    let Some(node) = whole_node(bytes) else {
        return false;
    };
    match node.kind {
        NodeKind::Leaf => are_between(node.keys, low, high),
        NodeKind::Inner => false,
    }
}

/// Checks a leaf where it is: its page is in use, it has entries, and all of their keys are at least `low`, and below `high`
/// if there is one.
fn check_leaf<P: Pages>(
    pages: &mut P,
    page: u32,
    low: &[u8],
    high: Option<&[u8]>,
) -> Result<bool, PageFault>
    ensures reads { OnlyReadsBelow P.Pages pages.old pages.new }
    ensures works { result ≡ Ok true → P.works pages.new }
    ensures checked { ChecksLeaf P.Pages pages.old pages.new page low.now (lent_bytes high.entry) result }
    ensures faults { IfErr result (λ f. f ≡ PageFault.Device) }
{
    if !fetch_if_used(pages, page)? {
        return Ok(false);
    }
    Ok(is_leaf_between(pages.fetched().bytes(), low, high))
}

/// Checks the tree under a page: it has this depth, each node is one, no leaf is empty, all keys are at least `low`, and
/// below `high` if there is one, and no page is met twice. Its pages are marked.
#[cycle(check)]
fn check_below<P: Pages>(
    pages: &mut P,
    met: &mut [bool],
    page: u32,
    depth: u32,
    low: &[u8],
    high: Option<&[u8]>,
) -> Result<bool, PageFault>
    requires { length met.old ≡ max_pages }
    ensures reads { OnlyReadsBelow P.Pages pages.old pages.new }
    ensures works { result ≡ Ok true → P.works pages.new }
    ensures checked { ChecksTree P.Pages pages.old pages.new met.old met.new page depth low.now
        (lent_bytes high.entry) result }
    ensures faults { IfErr result (λ f. f ≡ PageFault.Device) }
{
    if !mark(met, page) {
        return Ok(false);
    }
    if depth == 0 {
        return check_leaf(pages, page, low, high);
    }
    let mut bytes = [0; PAGE_SIZE];
    if !read_if_used(pages, page, &mut bytes)? {
        return Ok(false);
    }
    match node_kind(&bytes) {
        None => Ok(false),
        Some(NodeKind::Leaf) => Ok(false),
        Some(NodeKind::Inner) => check_children(pages, met, &bytes, depth - 1, low, high),
    }
}

/// Checks the trees under the children of an inner node, each between its key and the next one.
#[cycle(check)]
fn check_children<P: Pages>(
    pages: &mut P,
    met: &mut [bool],
    bytes: &[u8; PAGE_SIZE],
    depth: u32,
    low: &[u8],
    high: Option<&[u8]>,
) -> Result<bool, PageFault>
    requires { length met.old ≡ max_pages }
    ensures reads { OnlyReadsBelow P.Pages pages.old pages.new }
    ensures works { result ≡ Ok true → P.works pages.new }
    ensures checked { ChecksChildren P.Pages pages.old pages.new met.old met.new bytes.now depth
        low.now (lent_bytes high.entry) result }
    ensures faults { IfErr result (λ f. f ≡ PageFault.Device) }
{
    let Some(cells) = seek(bytes, NodeKind::Inner, b"") else {
        return Ok(false);
    };
    let mut at = cells.at;
    let mut key = low;
    let mut child = first_child(bytes);
    for i in 0..cells.left {
        let Some(cell) = cell_at(bytes, NodeKind::Inner, at) else {
            return Ok(false);
        };
        if !check_below(pages, met, child, depth, key, Some(cell.key))? {
            return Ok(false);
        }
        key = cell.key;
        child = child_of(cell.payload);
        at = cell.end;
    }
    check_below(pages, met, child, depth, key, high)
}

/// Checks that the root is a leaf, and marks it.
fn check_leaf_alone<P: Pages>(pages: &mut P, met: &mut [bool]) -> Result<bool, PageFault>
    requires { length met.old ≡ max_pages }
    ensures reads { OnlyReadsBelow P.Pages pages.old pages.new }
    ensures works { result ≡ Ok true → P.works pages.new }
    ensures checked { ChecksLeafAlone P.Pages pages.old pages.new met.old met.new result }
    ensures faults { IfErr result (λ f. f ≡ PageFault.Device) }
{
    if !mark(met, 0) {
        return Ok(false);
    }
    let mut bytes = [0; PAGE_SIZE];
    if !read_if_used(pages, 0, &mut bytes)? {
        return Ok(false);
    }
    match node_kind(&bytes) {
        None => Ok(false),
        Some(NodeKind::Leaf) => Ok(true),
        Some(NodeKind::Inner) => Ok(false),
    }
}

/// Checks the tree under the root, of this depth. A leaf alone may be empty.
fn check_root<P: Pages>(pages: &mut P, met: &mut [bool], depth: u32) -> Result<bool, PageFault>
    requires { length met.old ≡ max_pages }
    ensures reads { OnlyReadsBelow P.Pages pages.old pages.new }
    ensures works { result ≡ Ok true → P.works pages.new }
    ensures checked { ChecksRoot P.Pages pages.old pages.new met.old met.new depth result }
    ensures faults { IfErr result (λ f. f ≡ PageFault.Device) }
{
    if depth == 0 {
        check_leaf_alone(pages, met)
    } else {
        check_below(pages, met, 0, depth, b"", None)
    }
}

/// Marks for so many pages, none of which is met.
fn no_marks(alloc: Global, count: usize) -> Result<Vec<bool>, AllocError>
    ensures { IfOk result (λ met. AreNoMarks count met.items) }
{
    let marks = vec![in alloc; false; count]?;
    Ok(marks)
}

/// Whether each page in use is marked.
fn has_met_all<P: Pages>(pages: &P, met: &[bool]) -> bool
    requires { length met.now ≡ max_pages }
    ensures { (P.state pages.now).sound
        → (IsTrue result ↔ HasMetAll (P.state pages.now).array met.now) }
{
    for page in 0..MAX_PAGES {
        if !met[page as usize] && pages.is_used(page) {
            return false;
        }
    }
    true
}

/// Whether the pages hold the tree of a map from logical page 0 on, and no other page is in use: each node is well formed,
/// its keys are within its bounds, all leaves are at one depth, none but a lone one is empty, and no page is met twice.
/// Nothing below is written. Memory: the list of the pages met was not allocated. Device: a read failed.
pub fn check_tree<P: Pages>(alloc: Global, pages: &mut P) -> Result<bool, PageFault>
    ensures reads { OnlyReadsBelow P.Pages pages.old pages.new }
    ensures works { result ≡ Ok true → P.works pages.new }
    ensures checked { ChecksMap P.Pages pages.old pages.new result }
    ensures faults { IfErr result (λ f. (f ≡ PageFault.Memory) ⊎ (f ≡ PageFault.Device)) }
{
    let mut met = no_marks(alloc, MAX_PAGES as usize)?;
    let mut bytes = [0; PAGE_SIZE];
    let Some(depth) = depth_below(pages, &mut bytes, 0, MAX_HEIGHT)? else {
        return Ok(false);
    };
    if !check_root(pages, &mut met, depth)? {
        return Ok(false);
    }
    Ok(has_met_all(pages, &met))
}
