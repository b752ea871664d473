//! What holds of contents, whatever the program does.
ghost use Rattle.std.specs.Prelude.{◌≡◌, ◌/◌, ℕ, false};
ghost use Rattle.sector_device.specs.Device.{Image, IsLeft};
ghost use Rattle.store.specs.Store.{Contents, stored};
ghost use Rattle.journal_store.specs.DeviceImages.{HasContents};
ghost use Rattle.journal_store.specs.DeviceStores.{state_under, store_state};

use crate::device_stores::DeviceStore;
use sector_device::Device;

/// An image has one contents at most, whether its root says that there is a journal or not.
pub fn one_contents()
    ensures { (image : Image) (pages others : ℕ) (contents other : Contents)
        → HasContents pages contents image → HasContents others other image → contents ≡ other }
{}

/// Each image that a stop may leave of a sound store that has not answered Device has the contents of the store. So what the
/// next opening finds is decided: one contents at most is that of an image.
pub fn sound_images<D: Device>(store: &DeviceStore<D>)
    ensures { (store_state store.now).sound → (store_state store.now).has_failed ≡ false
        → (image : Image) → IsLeft (state_under store.now) image
        → HasContents ((state_under store.now).sectors / 8) (stored (store_state store.now)) image }
{}
