//! The journal of the database in a file, which is turned on or off.

ghost use Rattle.cli.specs.Switching.{Switches, SwitchesDevice, SwitchesFile};

use crate::fault::CommandFault;
use crate::reading::read_definitions;
use journal_store::{
    JournalDevice, SwitchFault, image_has_one_contents as one_contents, turn_off, turn_on,
};
use sector_device::Device;
use std::alloc::Global;
use systems::{Access, System};

/// Gives the database in the file at `path` a journal, or takes its journal away, and closes the file.
/// All definitions and all rows are read and checked first, so that not one sector is written of a file
/// that holds no database. Where it is so already, nothing is written, but that `off` empties an older
/// root that says that there is a journal. The database stays the same at every moment.
///
/// The faults are those of `read_file`, whatever the file's format, or that a call of its device failed
/// or an allocation did; and then three more. `FirstFormat`: a journal is asked for, and the database is
/// of format 1. `NoSwitchRoom`: no room is left in it for what waits in the journal, or for a root.
/// `NoSwitchNumber`: no commit number is left for the roots that it takes. After these three the file has
/// no other records than before, and a journal exactly where it had one.
pub fn switch_journal<Y: System>(
    system: &mut Y,
    alloc: Global,
    path: &str,
    on: bool,
) -> Result<(), CommandFault>
    ensures { SwitchesFile Y.Device.Device (Y.state system.old) path.now on result
        (Y.state system.new) }
{
    let device = match system.open(path, Access::Write) {
        Ok(device) => device,
        Err(fault) => return Err(CommandFault::from(fault)),
    };
    let (left, switched) = switch_on_device(alloc, device, on);
    system.close(path, left);
    switched
}

// Reads the database that a device holds, and then turns its journal on or off. Of a device that holds none no sector is written.
fn switch_on_device<D: JournalDevice>(
    alloc: Global,
    device: D,
    on: bool,
) -> (D, Result<(), CommandFault>)
    ensures { SwitchesDevice D.Device on (D.state device) result.1 (D.state result.0) }
{
    // For the proof: an image has one contents at most.
    one_contents();
    let (mid, read) = read_definitions(alloc, device);
    match read {
        Ok(_definitions) => {
            let (left, switched) = turn(alloc, mid, on);
            match switched {
                Ok(_number) => (left, Ok(())),
                Err(fault) => (left, Err(CommandFault::from(fault))),
            }
        }
        Err(fault) => (mid, Err(CommandFault::from(fault))),
    }
}

// Turns the journal of a store on a device on or off.
fn turn<D: JournalDevice>(alloc: Global, device: D, on: bool) -> (D, Result<u64, SwitchFault>)
    ensures { Switches D.Device on (D.state device) result.1 (D.state result.0) }
{
    if on {
        turn_on(alloc, device)
    } else {
        turn_off(alloc, device)
    }
}
