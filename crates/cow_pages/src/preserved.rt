//! What the calls between two commits leave, however many there are.

ghost use Rattle.std.specs.Prelude.{◌≡◌, false};
ghost use Rattle.cow_pages.specs.Cow.{has_failed, IsOpen, LeavesDurable, StaysDurable};
ghost use Rattle.cow_pages.specs.Preserved.{IsPreserved};

use crate::cow::CowPages;
use sector_device::Device;

/// Where the pages were open before any number of calls of `Pages`, a stop at any moment within or after them leaves the
/// durable array, and the device holds it still. The pages are open after the calls unless the device failed.
pub fn preserved_stays<D: Device>(pages: &CowPages<D>)
    ensures leaves { (old : _) → IsOpen old → IsPreserved old pages.now
        → LeavesDurable old pages.now }
    ensures stays { (old : _) → IsOpen old → IsPreserved old pages.now
        → StaysDurable old pages.now }
    ensures open { (old : _) → IsOpen old → IsPreserved old pages.now
        → has_failed pages.now ≡ false → IsOpen pages.now }
{}
