//! How the program's work ends: its exit status, and the lines that it writes to standard error.

ghost use Rattle.std.specs.Prelude.{◌≡◌, OnOk, Some, true};
ghost use Rattle.std.specs.Io.KnownBytes.{Appends};
ghost use Rattle.cli.specs.Ending.{fault_message, subject_text, bad_line_message, ending_message, exit_status, ending_of, ending_of_serving, done_message, stopped_message, ExitsAfter, HasTold, OwesNothing};

use crate::fault::{CommandFault, Reason};
use sector_device::SystemCause;
use std::io::Write;
use std::{fmt, io};
use wire::listener::Served;
use wire::script_run::ScriptEnd;

/// What the end of the program's work is about.
#[derive(Clone, Copy)]
pub enum Subject<'a> {
    /// A file, a script or a socket, by its path.
    Named(&'a str),
    /// The file of a copy that is not whole, by the path of the copy.
    Partial(&'a str),
    /// A port of 127.0.0.1.
    Port(u16),
    /// A statement of the command line.
    Statement,
    /// The socket of a folder for PostgreSQL's clients.
    PostgresFolder(&'a str),
}

impl fmt::Display for Subject<'_> {
    ghost output = { λ about. Some (subject_text about) };

    fn fmt<W: fmt::Write>(&self, f: &mut fmt::Formatter<W>) -> fmt::Result {
        match self {
            Subject::Named(name) => write!(f, "{name}"),
            Subject::Partial(name) => write!(f, "{name}.partial"),
            Subject::Port(port) => write!(f, "127.0.0.1:{port}"),
            Subject::Statement => write!(f, "the statement"),
            Subject::PostgresFolder(folder) => write!(f, "{folder}/.s.PGSQL.5432"),
        }
    }
}

/// How the program's work ended.
#[derive(Clone, Copy, PartialEq, Eq)]
pub enum Ending {
    /// It was done.
    Done,
    /// The line of the script with this number, counted from 1, is invalid. The lines before it
    /// were run.
    BadLine(u64),
    /// The server has stopped: it refused the last event with 58030.
    Stopped,
    /// As many connections were served as were asked for.
    Served,
    /// The server has stopped while it served connections.
    ServerStopped,
    /// The script was to end at the first refusal, and did.
    Refused,
    /// Two databases were compared, and differ.
    Differs,
    /// Nobody reads standard output any more: a pipe was closed at its other end, as `head` does once it
    /// has its lines.
    ReaderLeft,
    /// A fault ended it.
    Fault(CommandFault),
}

impl From<ScriptEnd> for Ending {
    ghost from_gives = { λ end given. given ≡ ending_of end };

    fn from(end: ScriptEnd) -> Ending {
        match end {
            ScriptEnd::Done => Ending::Done,
            ScriptEnd::BadLine(number) => Ending::BadLine(number),
            ScriptEnd::Stopped => Ending::Stopped,
            ScriptEnd::Writer => Ending::Fault(CommandFault::Output),
            ScriptEnd::Memory => Ending::Fault(CommandFault::Memory),
        }
    }
}

impl From<Served> for Ending {
    ghost from_gives = { λ served given. given ≡ ending_of_serving served };

    fn from(served: Served) -> Ending {
        match served {
            Served::Done => Ending::Served,
            Served::Stopped => Ending::ServerStopped,
            Served::Net => Ending::Fault(CommandFault::Net(SystemCause::Other)),
        }
    }
}

/// The exit status of the program, and whether standard error took the lines that it is owed.
#[derive(Clone, Copy, PartialEq, Eq)]
pub struct Exit {
    pub status: u8,
    pub told: bool,
}

/// How a command ended, and the writers that it told.
#[derive(Drop)]
pub struct Performed<K, E> {
    pub exit: Exit,
    pub out: K,
    pub err: E,
}

/// Tells on `err` how the program's work ended, where it did not end well: `guarddb: ` and the name
/// of a fault, or `guarddb: line N` for an invalid line of the script. After the name of a fault,
/// but `Memory`, there is a second line, which says what the fault is about and why it came:
/// `guarddb: shop.db: permission denied`. The end of a server is told too, as `guarddb: done` or
/// `guarddb: stopped`. Where a reader has left, nothing is told, and nothing at a refusal at which a script
/// was to end, since it was told before. The exit status is 0 where the work was done, 1 after a fault,
/// where the server has stopped and where a reader has left, 2 after an invalid line, and 3 at such a
/// refusal and where two databases that were compared differ. An error of `err` changes no status. Where nothing is told, nothing is written.
pub fn exit_with<E: Write>(ending: Ending, about: Subject<'_>, err: &mut E) -> Exit
    ensures status { result.status ≡ exit_status ending }
    ensures told { HasTold result (ending_message about.entry ending)
        (E.contents err.old) (E.contents err.new) }
    ensures silent { OwesNothing ending
        → (result.told ≡ true) × (E.contents err.new ≡ E.contents err.old) }
{
    match ending {
        Ending::Done => Exit {
            status: 0,
            told: true,
        },
        Ending::Stopped | Ending::ReaderLeft => Exit {
            status: 1,
            told: true,
        },
        Ending::Refused | Ending::Differs => Exit {
            status: 3,
            told: true,
        },
        Ending::Served => Exit {
            status: 0,
            told: write_done(err).is_ok(),
        },
        Ending::ServerStopped => Exit {
            status: 1,
            told: write_stopped(err).is_ok(),
        },
        Ending::BadLine(number) => Exit {
            status: 2,
            told: write_bad_line(number, err).is_ok(),
        },
        Ending::Fault(fault) => Exit {
            status: 1,
            told: write_fault(fault, about, err).is_ok(),
        },
    }
}

/// Tells the end as `exit_with` does, after lines of which `err` took all or not: the exit says of
/// them, too, whether it did.
pub(crate) fn exit_after<E: Write>(
    told: bool,
    ending: Ending,
    about: Subject<'_>,
    err: &mut E,
) -> Exit
    ensures { ExitsAfter told about.entry ending result (E.contents err.old) (E.contents err.new) }
{
    let exit = exit_with(ending, about, err);
    Exit {
        status: exit.status,
        told: told && exit.told,
    }
}

fn write_bad_line<E: Write>(number: u64, err: &mut E) -> io::Result<()>
    ensures { OnOk result (Appends (E.contents err.old) (E.contents err.new)
        (bad_line_message number)) }
{
    writeln!(err, "guarddb: line {number}")
}

fn write_done<E: Write>(err: &mut E) -> io::Result<()>
    ensures { OnOk result (Appends (E.contents err.old) (E.contents err.new) done_message) }
{
    writeln!(err, "guarddb: done")
}

fn write_stopped<E: Write>(err: &mut E) -> io::Result<()>
    ensures { OnOk result (Appends (E.contents err.old) (E.contents err.new) stopped_message) }
{
    writeln!(err, "guarddb: stopped")
}

// What cannot be printed is about no file, and where memory is refused there is no more to say.
fn write_fault<E: Write>(fault: CommandFault, about: Subject<'_>, err: &mut E) -> io::Result<()>
    ensures { OnOk result (Appends (E.contents err.old) (E.contents err.new)
        (fault_message about.entry fault)) }
{
    let reason = Reason(fault);
    match fault {
        CommandFault::Memory => writeln!(err, "guarddb: {fault}"),
        CommandFault::Output => {
            writeln!(err, "guarddb: {fault}\nguarddb: standard output: {reason}")
        }
        _ => writeln!(err, "guarddb: {fault}\nguarddb: {about}: {reason}"),
    }
}
