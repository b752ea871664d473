//! What a script may mean otherwise than it was read, as it is told after its run.

ghost use Rattle.std.specs.Prelude.{◌≡◌, ◌++◌, IfOk, OnOk, Some, None, true};
ghost use Rattle.std.specs.Io.KnownBytes.{Appends};
ghost use Rattle.wire.specs.ScriptRun.{lines_of};
ghost use Rattle.wire.specs.SessionNames.{texts_of};
ghost use Rattle.cli.specs.ScriptNotes.{first_login, line_fault, line_note_text, login_fault, note_of_end, note_of_line, note_of_login, note_text, notes, rule_text, HasNoNote, HasToldNotes};

use crate::ending::{Ending, Exit, Subject};
use std::alloc::{AllocError, Global};
use std::io::Write;
use std::{fmt, io};

/// Why a line of a script is invalid, or what in it is taken letter for letter.
#[derive(Clone, Copy, Debug, PartialEq, Eq)]
pub enum LineFault {
    /// It is invalid, and begins with a byte order mark.
    Mark,
    /// It is invalid, and ends in a carriage return.
    Return,
    /// It is none of the three forms of a line.
    Form,
    /// It opens a session for a role whose name ends in a blank.
    BlankInRole,
    /// It opens a session for a role whose name ends in a carriage return.
    ReturnInRole,
}

impl fmt::Display for LineFault {
    ghost output = { λ fault. Some (rule_text fault) };

    fn fmt<W: fmt::Write>(&self, f: &mut fmt::Formatter<W>) -> fmt::Result {
        match self {
            LineFault::Mark => write!(
                f,
                "begins with a byte order mark; save the script as UTF-8 without one"
            ),
            LineFault::Return => write!(
                f,
                "ends in a carriage return; end the lines of a script with a newline alone"
            ),
            LineFault::Form => write!(
                f,
                "not 'open SESSION ROLE', 'SESSION: STATEMENT' or 'close SESSION', with one blank after the colon; a statement is one line"
            ),
            LineFault::BlankInRole => {
                write!(f, "ends in a blank, which is read as part of ROLE")
            }
            LineFault::ReturnInRole => write!(
                f,
                "ends in a carriage return, which is read as part of ROLE; end the lines of a script with a newline alone"
            ),
        }
    }
}

/// What is said of a line of a script: its number, counted from 1, and what it is.
#[derive(Clone, Copy, Debug, PartialEq, Eq)]
pub struct LineNote {
    pub number: u64,
    pub fault: LineFault,
}

/// Tells on `err`, after the message of a script's end, what that leaves open, and answers the exit with
/// it: of an invalid line why it is none, and of the first line that opens a session for a role whose name
/// ends in a blank or a carriage return that it does. Messages name the script as `about`. Nothing is told
/// where there is neither, nor after a fault. The status stays; `told` is `false`, too, where memory was
/// refused.
pub fn note_after<E: Write>(
    exit: Exit,
    alloc: Global,
    script: &str,
    about: Subject<'_>,
    ending: Ending,
    err: &mut E,
) -> Exit
    ensures { HasToldNotes exit about.entry script.now ending result (E.contents err.old)
        (E.contents err.new) }
{
    let told = tell_notes(alloc, script, about, ending, err);
    Exit {
        status: exit.status,
        told: exit.told && told,
    }
}

// Tells what is to be said of a script, and answers whether `err` took it.
fn tell_notes<E: Write>(
    alloc: Global,
    script: &str,
    about: Subject<'_>,
    ending: Ending,
    err: &mut E,
) -> bool
    ensures told { result ≡ true → Appends (E.contents err.old) (E.contents err.new)
        (notes about.entry script.now ending) }
    ensures silent { HasNoNote script.now ending → E.contents err.new ≡ E.contents err.old }
{
    let Ok(lines) = split_lines(alloc, script) else {
        return false;
    };
    tell_both(lines.as_slice(), about, ending, err)
}

// The lines of a script, which newlines separate.
pub(crate) fn split_lines(alloc: Global, script: &str) -> Result<Vec<&str>, AllocError>
    ensures { IfOk result (λ lines. texts_of lines.items ≡ lines_of script.now) }
{
    script.split('\n').collect(alloc)
}

// Tells what is to be said of the lines of a script that ended so.
fn tell_both<E: Write>(lines: &[&str], about: Subject<'_>, ending: Ending, err: &mut E) -> bool
    ensures told { result ≡ true → Appends (E.contents err.old) (E.contents err.new)
        (note_text about.entry (note_of_end ending (texts_of lines.now))
        ++ note_text about.entry (note_of_login ending (texts_of lines.now))) }
    ensures silent { note_of_end ending (texts_of lines.now) ≡ None
        → note_of_login ending (texts_of lines.now) ≡ None
        → E.contents err.new ≡ E.contents err.old }
{
    let of_end = tell_note(note_of_end(ending, lines), about, err);
    let of_login = tell_note(note_of_login(ending, lines), about, err);
    of_end && of_login
}

// What is to be said of the line at which a script ended.
fn note_of_end(ending: Ending, lines: &[&str]) -> Option<LineNote>
    ensures { result ≡ note_of_end ending (texts_of lines.now) }
{
    match ending {
        Ending::BadLine(number) => note_of_line(number, lines),
        _ => None,
    }
}

// What is to be said of the line of this number, which is invalid.
fn note_of_line(number: u64, lines: &[&str]) -> Option<LineNote>
    ensures { result ≡ note_of_line number (texts_of lines.now) }
{
    let at = number.saturating_sub(1) as usize;
    if at < lines.len() {
        let fault = line_fault(lines[at]);
        return Some(LineNote { number, fault });
    }
    None
}

// What is to be said of a role in a script that was run and ended so.
fn note_of_login(ending: Ending, lines: &[&str]) -> Option<LineNote>
    ensures { result ≡ note_of_login ending (texts_of lines.now) }
{
    match ending {
        Ending::Fault(_) => None,
        _ => first_login(lines),
    }
}

// The first line whose ROLE ends in a blank or a carriage return.
fn first_login(lines: &[&str]) -> Option<LineNote>
    ensures { result ≡ first_login 1 (texts_of lines.now) }
{
    let mut number: u64 = 0;
    for line in lines {
        number += 1;
        if let Some(fault) = login_fault(*line) {
            return Some(LineNote { number, fault });
        }
    }
    None
}

// Why a line is invalid.
fn line_fault(line: &str) -> LineFault
    ensures { result ≡ line_fault line.now }
{
    let bytes = line.as_bytes();
    if bytes.starts_with(b"\xEF\xBB\xBF") {
        return LineFault::Mark;
    }
    if bytes.ends_with(b"\r") {
        return LineFault::Return;
    }
    LineFault::Form
}

// What a line that opens a session has at the end of its role.
fn login_fault(line: &str) -> Option<LineFault>
    ensures { result ≡ login_fault line.now }
{
    let bytes = line.as_bytes();
    if !bytes.starts_with(b"open ") {
        return None;
    }
    if bytes.ends_with(b" ") {
        return Some(LineFault::BlankInRole);
    }
    if bytes.ends_with(b"\r") {
        return Some(LineFault::ReturnInRole);
    }
    None
}

// Tells what is to be said of a line, where there is anything.
fn tell_note<E: Write>(note: Option<LineNote>, about: Subject<'_>, err: &mut E) -> bool
    ensures told { result ≡ true → Appends (E.contents err.old) (E.contents err.new)
        (note_text about.entry note) }
    ensures silent { note ≡ None → E.contents err.new ≡ E.contents err.old }
{
    match note {
        None => true,
        Some(note) => write_note(note, about, err).is_ok(),
    }
}

fn write_note<E: Write>(note: LineNote, about: Subject<'_>, err: &mut E) -> io::Result<()>
    ensures { OnOk result (Appends (E.contents err.old) (E.contents err.new)
        (line_note_text about.entry note)) }
{
    let LineNote { number, fault } = note;
    writeln!(err, "guarddb: {about}: line {number}: {fault}")
}
