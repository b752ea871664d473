//! Why a store is not opened.
ghost use Rattle.kv_store.specs.Refusals.{RefusesOpen};

use cow_pages::{OpenFault, PageFault};

// Why a store is not opened where the check of its tree failed, over pages that have failed or work still.
pub(crate) fn refuse_open(fault: PageFault, has_failed: bool) -> OpenFault
    ensures { RefusesOpen fault has_failed result }
{
    if has_failed {
        return OpenFault::Device;
    }
    match fault {
        PageFault::Memory => OpenFault::Memory,
        PageFault::Full | PageFault::Device | PageFault::Malformed => OpenFault::Damaged,
    }
}
