//! What holds of images, whatever the program does.

ghost use Rattle.std.specs.Prelude.{◌≡◌, ◌⊎◌, ◌<◌, ◌+◌, ◌/◌, ◌≤◌, ℕ, List, None, IsSome, true};
ghost use Rattle.storage_sizes.specs.Sizes.{max_pages};
ghost use Rattle.sector_device.specs.Device.{Image, IsLeft};
ghost use Rattle.page_roots.specs.declared.format.Format.{Format};
ghost use Rattle.page_roots.specs.Chosen.{IsChosen};
ghost use Rattle.page_roots.specs.Root.{RootFields};
ghost use Rattle.pages.specs.State.{Array};
ghost use Rattle.cow_pages.specs.Image.{Means, array_of, first_fault, is_size};
ghost use Rattle.cow_pages.specs.Agreeing.{AgreesOn};
ghost use Rattle.cow_pages.specs.Held.{IsSettled, IsRecoverable};

use sector_device::Device;

/// An image means one array at most, in one format and under one number.
pub fn one_meaning()
    ensures { (image : Image) (pages others : ℕ) (f g : Format) (m n : ℕ) (a b : Array)
        → Means pages f m a image → Means others g n b image → (f ≡ g) × (m ≡ n) × ((l : ℕ) → a l ≡ b l) }
{}

/// The number under which an image means an array is at least 1.
pub fn first_number()
    ensures { (image : Image) (pages : ℕ) (format : Format) (number : ℕ) (array : Array)
        → Means pages format number array image → 1 ≤ number }
{}

/// A page in use of an array that an image means has a number of 16 bits.
pub fn few_pages()
    ensures { (image : Image) (pages : ℕ) (format : Format) (number : ℕ) (array : Array) (l : ℕ)
        → Means pages format number array image → IsSome (array l) → l < max_pages }
{}

/// Images that agree on the root sectors and on each page of the root's reach mean the same array, in one format and under one number.
pub fn agreeing_images()
    ensures { (image other : Image) (root : RootFields) (pages : ℕ) (format : Format) (number : ℕ) (array : Array)
        → IsChosen image root → AgreesOn root image other
        → Means pages format number array image → Means pages format number array other }
{}

/// An image has no fault exactly where it has as many sectors as a device may have, and means an array.
pub fn faultless_images()
    ensures size { (sectors : ℕ) (image : Image) → first_fault sectors image ≡ None
        → is_size sectors ≡ true }
    ensures meaning { (sectors : ℕ) (image : Image) → first_fault sectors image ≡ None
        → (format : Format) × (number : ℕ) × (array : Array) × Means (sectors / 8) format number array image }
    ensures no_fault { (sectors : ℕ) (format : Format) (number : ℕ) (array : Array) (image : Image) → is_size sectors ≡ true
        → Means (sectors / 8) format number array image → first_fault sectors image ≡ None }
{}

/// Between two commits each image that a stop may leave means the durable array.
pub fn settled_images<D: Device>(device: &D)
    ensures { (root : RootFields) (entries : List ℕ) (image : Image)
        → IsSettled (D.state device.now) root entries
        → IsLeft (D.state device.now) image
        → Means root.pages root.format root.number (array_of (D.state device.now).content entries) image }
{}

/// Each image that a stop may leave of a recoverable device means the durable array, or an array of the next number.
pub fn recoverable_images<D: Device>(device: &D)
    ensures { (root : RootFields) (entries : List ℕ) (image : Image)
        → IsRecoverable (D.state device.now) root entries
        → IsLeft (D.state device.now) image
        → Means root.pages root.format root.number (array_of (D.state device.now).content entries) image
        ⊎ ((format : Format) × (next : Array) × Means root.pages format (root.number + 1) next image) }
{}

/// A settled device is recoverable.
pub fn settled_is_recoverable<D: Device>(device: &D)
    ensures { (root : RootFields) (entries : List ℕ) → IsSettled (D.state device.now) root entries
        → IsRecoverable (D.state device.now) root entries }
{}
