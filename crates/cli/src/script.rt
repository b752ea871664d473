//! What is read of a script, and why it is not run: it was not read, or is not UTF-8.

ghost use Rattle.std.specs.Prelude.{◌≡◌, ◌<◌, length, take};
ghost use Rattle.std.specs.IoError.{error_kind};
ghost use Rattle.cli.specs.Script.{IsScriptRead, fault_of_reading, not_utf8_after, script_fault_of, source_of};

use crate::fault::CommandFault;
use sector_device::SystemCause;
use std::alloc::Global;
use std::io;
use systems::{System, TextFault};

/// Reads the script that a path of a system names. The fault is `Memory` where memory was refused,
/// else `Script`.
pub(crate) fn read_script<Y: System>(
    system: &mut Y,
    alloc: Global,
    path: &str,
) -> Result<Vec<u8>, CommandFault>
    ensures { IsScriptRead (Y.state system.old) path.now result (Y.state system.new) }
{
    match system.read_text(alloc, path) {
        Ok(read) => Ok(read),
        Err(fault) => Err(reading_fault(fault)),
    }
}

// The fault that one of reading a text is.
fn reading_fault(fault: TextFault) -> CommandFault
    ensures { result ≡ fault_of_reading fault }
{
    match fault {
        TextFault::Missing => CommandFault::ScriptUnread(SystemCause::NotFound),
        TextFault::Memory => CommandFault::Memory,
        TextFault::Device(cause) => CommandFault::ScriptUnread(cause),
    }
}

/// What a reader gave of a script, or the fault that its error is.
pub(crate) fn read_by(script: io::Result<Vec<u8>>) -> Result<Vec<u8>, CommandFault>
    ensures { result ≡ source_of script }
{
    match script {
        Ok(read) => Ok(read),
        Err(error) => Err(script_fault(&error)),
    }
}

// The fault that an error of reading a script is: `Memory` where memory was refused, else
// `Script`.
fn script_fault(error: &io::Error) -> CommandFault
    ensures { result ≡ script_fault_of (error_kind error.now) }
{
    match error.kind() {
        io::ErrorKind::OutOfMemory => CommandFault::Memory,
        _ => CommandFault::ScriptUnread(SystemCause::of(error)),
    }
}

/// The fault that a script is whose first bytes, so many, are UTF-8, and no more.
pub(crate) fn not_utf8(script: &[u8], valid: usize) -> CommandFault
    requires { valid < length script.now }
    ensures { result ≡ not_utf8_after 1 1 (take valid script.now) }
{
    let (mut line, mut byte) = (1usize, 1usize);
    let front = &script[..valid];
    for read in front {
        if *read == b'\n' {
            line += 1;
            byte = 1;
        } else {
            byte += 1;
        }
    }
    CommandFault::ScriptNotUtf8 { line, byte }
}
