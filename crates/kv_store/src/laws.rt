//! What holds of contents, whatever the program does.
ghost use Rattle.std.specs.Prelude.{◌≡◌, ◌/◌, ℕ, List, Some, None, false};
ghost use Rattle.sector_device.specs.Device.{Image, IsLeft};
ghost use Rattle.cow_pages.specs.Cow.{device_below};
ghost use Rattle.page_nodes.specs.Map.{value_for, first_at, with_entry, without, IsRising};
ghost use Rattle.store.specs.Records.{Records, IsOrdered, lookup, first_from, changed};
ghost use Rattle.store.specs.Store.{Contents, stored};
ghost use Rattle.kv_store.specs.Contents.{HasContents};
ghost use Rattle.kv_store.specs.PageStore.{pages_of, store_state};

use crate::page_store::PageStore;
use sector_device::Device;

/// The map of a tree is records: its edits are changes of them, its look-ups are those of records, and keys that rise are
/// ordered.
pub fn tree_and_records()
    ensures put { (key value : List ℕ) (es : Records)
        → with_entry key value es ≡ changed key (Some value) es }
    ensures removed { (key : List ℕ) (es : Records) → without key es ≡ changed key None es }
    ensures found { (key : List ℕ) (es : Records) → IsRising es
        → value_for key es ≡ lookup key es }
    ensures first { (key : List ℕ) (es : Records) → first_at key es ≡ first_from key es }
    ensures ordered { (es : Records) → IsRising es → IsOrdered es }
{}

/// An image has one contents at most.
pub fn one_contents()
    ensures { (image : Image) (pages others : ℕ) (contents other : Contents)
        → HasContents pages contents image → HasContents others other image → contents ≡ other }
{}

/// Each image that a stop may leave of a sound store that has not answered Device has the contents of the store. So what the
/// next opening finds is decided: one contents at most is that of an image.
pub fn sound_images<D: Device>(store: &PageStore<D>)
    ensures { (store_state store.now).sound → (store_state store.now).has_failed ≡ false
        → (image : Image) → IsLeft (device_below (pages_of store.now)) image
        → HasContents ((device_below (pages_of store.now)).sectors / 8)
        (stored (store_state store.now)) image }
{}
