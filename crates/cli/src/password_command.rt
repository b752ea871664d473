//! What the program does for `password`.

ghost use Rattle.std.specs.Prelude.{◌≡◌, IfOk, IfErr, OnOk};
ghost use Rattle.cli.specs.Ending.{subject_text};
ghost use Rattle.cli.specs.PasswordCommand.{DrawsOne, IsDraw, IsUndrawn, MakesText, MakesVerifier, OnlyCounts, PrintsMade, TellsMade, fault_of_making, input_fault, making_subject};

use crate::ending::{Ending, Exit, Subject, exit_with};
use crate::fault::CommandFault;
use crate::password_words::VerifierOf;
use crate::printing::print_text;
use new_verifiers::password_lines::{
    has_more_lines, new_lines, nobodys_line, password_in, verifier_line,
};
use sector_device::SystemCause;
use std::alloc::{AllocError, Global};
use std::io::Write;
use systems::{InputFault, System};
use wire::sink::Sink;
use wire::text_sink::TakesText;

/// How many bytes are read of standard input: one more than the longest line of a password has.
const MOST_INPUT: u64 = 1026;

/// Why no verifier was made.
#[derive(Clone, Copy, PartialEq, Eq)]
pub enum MakingFault {
    /// Standard input was not read, for this cause.
    Unread(SystemCause),
    /// Standard input is the line of no password.
    NoPassword,
    /// Standard input has more than one line.
    ManyLines,
    /// The system drew no bytes.
    Undrawn,
    /// Memory was refused.
    Memory,
}

/// Makes a verifier and prints it in a line, or tells why not: that of the password which stands on standard input, with a salt
/// that is drawn; that of a password which is drawn, after a line with the password; or one whose keys are drawn.
///
/// Where no password stands on standard input the fault is `NoPassword`, or `ManyLines`; where that is not read or nothing is
/// drawn, `Device`; where standard output fails, `Output`. No message has anything of a password.
pub(crate) fn make_verifier<Y: System, K: TakesText, E: Write>(
    system: &mut Y,
    alloc: Global,
    whose: VerifierOf,
    out: &mut K,
    err: &mut E,
) -> Exit
    ensures { MakesVerifier (Y.state system.old) whose result (Y.state system.new) (K.held out.old)
        (K.held out.new) (E.contents err.old) (E.contents err.new) }
{
    let made = make_text(system, alloc, whose);
    tell_made(made, out, err)
}

// Prints what was made, or tells why nothing was.
fn tell_made<K: TakesText, E: Write>(
    made: Result<String, MakingFault>,
    out: &mut K,
    err: &mut E,
) -> Exit
    ensures { TellsMade made result (K.held out.old) (K.held out.new) (E.contents err.old)
        (E.contents err.new) }
{
    match made {
        Ok(text) => print_made(text.as_str(), out, err),
        Err(fault) => exit_with(Ending::Fault(command_fault(fault)), subject_of(fault), err),
    }
}

// Prints what was made.
fn print_made<K: TakesText, E: Write>(text: &str, out: &mut K, err: &mut E) -> Exit
    ensures { PrintsMade text.now result (K.held out.old) (K.held out.new) (E.contents err.old)
        (E.contents err.new) }
{
    let about = Subject::Named("standard output");
    exit_with(print_text(text, out), about, err)
}

// The fault of the command.
fn command_fault(fault: MakingFault) -> CommandFault
    ensures { result ≡ fault_of_making fault }
{
    match fault {
        MakingFault::Unread(cause) => CommandFault::Device(cause),
        MakingFault::NoPassword => CommandFault::NoPassword,
        MakingFault::ManyLines => CommandFault::ManyLines,
        MakingFault::Undrawn => CommandFault::Device(SystemCause::Other),
        MakingFault::Memory => CommandFault::Memory,
    }
}

// What it is about.
fn subject_of(fault: MakingFault) -> Subject<'static>
    ensures { subject_text result ≡ making_subject fault }
{
    match fault {
        MakingFault::Undrawn => Subject::Named("random bytes"),
        MakingFault::Unread(_)
        | MakingFault::NoPassword
        | MakingFault::ManyLines
        | MakingFault::Memory => Subject::Named("standard input"),
    }
}

// Makes the text that is to be printed.
fn make_text<Y: System>(
    system: &mut Y,
    alloc: Global,
    whose: VerifierOf,
) -> Result<String, MakingFault>
    ensures made { MakesText (Y.state system.old) whose result (Y.state system.new) }
    ensures left { OnlyCounts (Y.state system.old) (Y.state system.new) }
{
    match whose {
        VerifierOf::Input => make_of_input(system, alloc),
        VerifierOf::New => make_new(system, alloc),
        VerifierOf::Nobody => make_nobodys(system, alloc),
    }
}

// The line of the verifier of the password that stands on standard input.
fn make_of_input<Y: System>(system: &mut Y, alloc: Global) -> Result<String, MakingFault>
    ensures made { MakesText (Y.state system.old) VerifierOf.Input result (Y.state system.new) }
    ensures left { OnlyCounts (Y.state system.old) (Y.state system.new) }
{
    let input = match system.read_input(alloc, MOST_INPUT) {
        Ok(input) => input,
        Err(InputFault::Memory) => return Err(MakingFault::Memory),
        Err(InputFault::Device(cause)) => return Err(MakingFault::Unread(cause)),
    };
    let Some(password) = password_in(input.as_slice()) else {
        return Err(input_fault(input.as_slice()));
    };
    let salt = match draw(system) {
        Ok(salt) => salt,
        Err(fault) => return Err(fault),
    };
    match verifier_line(alloc, password, &salt) {
        Ok(text) => Ok(text),
        Err(AllocError) => Err(MakingFault::Memory),
    }
}

// What is wrong with input that is the line of no password.
fn input_fault(input: &[u8]) -> MakingFault
    ensures { result ≡ input_fault input.now }
{
    if has_more_lines(input) {
        MakingFault::ManyLines
    } else {
        MakingFault::NoPassword
    }
}

// A password that is drawn, and in the next line its verifier.
fn make_new<Y: System>(system: &mut Y, alloc: Global) -> Result<String, MakingFault>
    ensures made { MakesText (Y.state system.old) VerifierOf.New result (Y.state system.new) }
    ensures left { OnlyCounts (Y.state system.old) (Y.state system.new) }
{
    let (secret, salt) = match draw_two(system) {
        Ok(drawn) => drawn,
        Err(fault) => return Err(fault),
    };
    match new_lines(alloc, &secret, &salt) {
        Ok(text) => Ok(text),
        Err(AllocError) => Err(MakingFault::Memory),
    }
}

// The line of a verifier whose keys are drawn.
fn make_nobodys<Y: System>(system: &mut Y, alloc: Global) -> Result<String, MakingFault>
    ensures made { MakesText (Y.state system.old) VerifierOf.Nobody result (Y.state system.new) }
    ensures left { OnlyCounts (Y.state system.old) (Y.state system.new) }
{
    let salt = match draw(system) {
        Ok(salt) => salt,
        Err(fault) => return Err(fault),
    };
    let (stored_key, server_key) = match draw_two(system) {
        Ok(drawn) => drawn,
        Err(fault) => return Err(fault),
    };
    match nobodys_line(alloc, &salt, stored_key, server_key) {
        Ok(text) => Ok(text),
        Err(AllocError) => Err(MakingFault::Memory),
    }
}

// Draws 32 bytes, and 32 after them.
fn draw_two<Y: System>(system: &mut Y) -> Result<([u8; 32], [u8; 32]), MakingFault>
    ensures drawn { IfOk result (λ it. IsDraw (Y.state system.old) 0 it.0
        × IsDraw (Y.state system.old) 1 it.1) }
    ensures refused { IfErr result (IsUndrawn (Y.state system.old) (Y.state system.new)) }
    ensures left { OnlyCounts (Y.state system.old) (Y.state system.new) }
{
    let first = match draw(system) {
        Ok(first) => first,
        Err(fault) => return Err(fault),
    };
    match draw(system) {
        Ok(second) => Ok((first, second)),
        Err(fault) => Err(fault),
    }
}

// Draws 32 bytes.
fn draw<Y: System>(system: &mut Y) -> Result<[u8; 32], MakingFault>
    ensures drawn { IfOk result (IsDraw (Y.state system.old) 0) }
    ensures later { OnOk result (DrawsOne (Y.state system.old) (Y.state system.new)) }
    ensures refused { IfErr result (IsUndrawn (Y.state system.old) (Y.state system.new)) }
    ensures left { OnlyCounts (Y.state system.old) (Y.state system.new) }
{
    match system.draw() {
        Some(drawn) => Ok(drawn),
        None => Err(MakingFault::Undrawn),
    }
}
