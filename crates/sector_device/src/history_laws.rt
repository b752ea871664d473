//! What the device with a history shows of the law of devices: that it is not empty.
ghost use Rattle.std.specs.Prelude.{◌≡◌, ◌<◌, ◌≤◌, ◌++◌, ◌∷◌, ℕ, List, take};
ghost use Rattle.sector_device.specs.History.{after, MayLeave, HasNoSync};
ghost use Rattle.sector_device.specs.HistoryDevice.{calls_of, history_device_state};
ghost use Rattle.sector_device.specs.Device.{Image};

use crate::{Call, HistoryDevice};

/// After a write and before a sync that succeeds, a stop may leave in that sector the bytes
/// written, and what it held before.
pub fn both_contents_are_left(device: &HistoryDevice)
    ensures { (before since : List Call) (sector : ℕ) (bytes : List ℕ)
        → calls_of device.now ≡ before ++ Call.Write sector bytes ∷ since → HasNoSync since
        → (history_device_state device.now).left sector bytes
        × (history_device_state device.now).left sector ((after before).content sector) }
{}

/// The stops between two moments hold whatever a stop at a moment between may leave and nothing
/// else, and the content of that moment is among it.
pub fn each_moment_is_kept(device: &HistoryDevice)
    ensures images { (first moment last : ℕ) (image : Image)
        → first ≤ moment → moment ≤ last → last ≤ (history_device_state device.now).moment
        → MayLeave (history_device_state device.now).sectors
        (take moment (calls_of device.now)) image
        → (history_device_state device.now).stops first last image }
    ensures only { (first last : ℕ) (image : Image)
        → (history_device_state device.now).stops first last image
        → (moment : ℕ) × (first ≤ moment) × (moment ≤ last)
        × MayLeave (history_device_state device.now).sectors
        (take moment (calls_of device.now)) image }
    ensures content { (first moment last : ℕ)
        → first ≤ moment → moment ≤ last → last ≤ (history_device_state device.now).moment
        → (history_device_state device.now).stops first last
        (after (take moment (calls_of device.now))).content }
{}
