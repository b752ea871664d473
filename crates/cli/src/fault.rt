//! Why a command was not carried out, and how that is told.

ghost use Rattle.std.specs.Prelude.{◌≡◌, Some};
ghost use Rattle.cli.specs.Ending.{fault_name, reason_text};
ghost use Rattle.cli.specs.Faults.{of_commit, of_file, of_opening, of_pages, of_path, of_read, of_records, of_switch};

use databases::DatabaseFault;
use diagnostics::meanings::refusal_meaning;
use journal_store::{OpenFault, SwitchFault};
use recovery::OpeningFault;
use sector_device::{FileFault, SystemCause};
use sql_types::state::SqlState;
use std::error::Error;
use std::fmt;
use store::{Fault, StoreFault};
use systems::OpenPathFault;

/// Why a command was not carried out: what a file, a device, a script or a place did to it. Each command says which of these it can
/// give.
#[derive(Clone, Copy, Debug, PartialEq, Eq)]
pub enum CommandFault {
    /// Memory was refused.
    Memory,
    /// The file of the database cannot be opened or made, for this cause, or its device failed.
    Device(SystemCause),
    /// The records of the database stand for none.
    Damaged,
    /// The records of the database are of format 1, and find no room in format 2.
    Full,
    /// The records of the database are of format 1, and no commit number is left for format 2.
    Number,
    /// The file does not have 64 to 65,536 whole pages, or another number than its root says.
    WrongSize,
    /// The file is no database.
    NotADatabase,
    /// The file is of this format, above those that this program knows.
    NewerFormat(u32),
    /// There is something of the name of a new file already.
    Exists,
    /// There is something of the name that a copy has until it is whole.
    Partial,
    /// The database to be copied does not fit in so many pages. It wants so many at least.
    NoRoom { pages: u32, least: u64 },
    /// The file is no dump.
    NotADump,
    /// The file is a dump whose form is of this version, which is not the one that this program knows.
    OtherDump(u32),
    /// The dump was cut off or is damaged, or its records stand for no database.
    DamagedDump,
    /// The database that a dump makes does not fit in so many pages.
    NoDumpRoom(u32),
    /// Another process has the file open.
    InUse,
    /// The port or the socket cannot be bound, for this cause, or a connection cannot be taken.
    Net(SystemCause),
    /// The system does not open or read the script, for this cause.
    ScriptUnread(SystemCause),
    /// The script is not UTF-8 from this byte of this line on, both counted from 1.
    ScriptNotUtf8 { line: usize, byte: usize },
    /// No password stands on standard input, in one line.
    NoPassword,
    /// Standard input has more than one line, and a password is asked for.
    ManyLines,
    /// The database has no role of the name that was asked for.
    NoRole,
    /// The statement that is to be explained is refused before it reads a row, with this code.
    StatementRefused(SqlState),
    /// The statement that is to be explained neither reads nor changes rows.
    NotOverRows,
    /// A journal is asked for, and the records of the database are of format 1.
    FirstFormat,
    /// The file has no room left for what waits in its journal, or for a root.
    NoSwitchRoom,
    /// No commit number is left for the roots that a journal takes, or the end of one.
    NoSwitchNumber,
    /// Standard output or standard error goes to the file of the database.
    PrintedTo,
    /// Standard output failed, or standard error, where `serve` tells on it where it listens.
    Output,
}

impl fmt::Display for CommandFault {
    ghost output = { λ fault. Some (fault_name fault) };

    fn fmt<W: fmt::Write>(&self, f: &mut fmt::Formatter<W>) -> fmt::Result {
        match self {
            CommandFault::Memory => write!(f, "Memory"),
            CommandFault::Device(_) => write!(f, "Device"),
            CommandFault::Damaged => write!(f, "Damaged"),
            CommandFault::Full => write!(f, "Full"),
            CommandFault::Number => write!(f, "Number"),
            CommandFault::WrongSize => write!(f, "WrongSize"),
            CommandFault::NotADatabase => write!(f, "NotADatabase"),
            CommandFault::NewerFormat(_) => write!(f, "Format"),
            CommandFault::Exists | CommandFault::Partial => write!(f, "Exists"),
            CommandFault::NoRoom { pages: _, least: _ } => write!(f, "Full"),
            CommandFault::NotADump => write!(f, "NotADump"),
            CommandFault::OtherDump(_) => write!(f, "Format"),
            CommandFault::DamagedDump => write!(f, "Damaged"),
            CommandFault::NoDumpRoom(_) => write!(f, "Full"),
            CommandFault::InUse => write!(f, "InUse"),
            CommandFault::Net(_) => write!(f, "Net"),
            CommandFault::ScriptUnread(_) => write!(f, "Script"),
            CommandFault::ScriptNotUtf8 { line: _, byte: _ } => write!(f, "Script"),
            CommandFault::NoPassword | CommandFault::ManyLines => write!(f, "Password"),
            CommandFault::NoRole => write!(f, "NoRole"),
            CommandFault::StatementRefused(_) | CommandFault::NotOverRows => write!(f, "Statement"),
            CommandFault::FirstFormat => write!(f, "Format"),
            CommandFault::NoSwitchRoom => write!(f, "Full"),
            CommandFault::NoSwitchNumber => write!(f, "Number"),
            CommandFault::PrintedTo | CommandFault::Output => write!(f, "Output"),
        }
    }
}

impl Error for CommandFault {}

/// What a fault means for the file or the place that it is about, and what to do.
#[derive(Clone, Copy)]
pub struct Reason(pub CommandFault);

impl fmt::Display for Reason {
    ghost output = { λ reason. Some (reason_text reason.0) };

    fn fmt<W: fmt::Write>(&self, f: &mut fmt::Formatter<W>) -> fmt::Result {
        match self.0 {
            CommandFault::Memory => write!(f, "no memory is left"),
            CommandFault::Device(cause) => write!(f, "{cause}"),
            CommandFault::Damaged => write!(f, "the database is damaged; restore it from a copy"),
            CommandFault::Full => write!(
                f,
                "of format 1, with no room for its records in format 2; make some with an older guarddb"
            ),
            CommandFault::Number => write!(
                f,
                "of format 1, with no commit number left to bring it to format 2"
            ),
            CommandFault::WrongSize => write!(
                f,
                "not 64 to 65536 pages of 4096 bytes, or not as many as it was made with"
            ),
            CommandFault::NotADatabase => {
                write!(
                    f,
                    "not a database; 'guarddb format' makes one in a new file"
                )
            }
            CommandFault::NewerFormat(format) => write!(
                f,
                "of format {format}, and this guarddb knows 1 to 3; open it with the guarddb that made it, or restore a copy"
            ),
            CommandFault::Exists => {
                write!(f, "the name is taken; this command makes a new file")
            }
            CommandFault::Partial => write!(
                f,
                "a copy is made there, or was stopped; once none is made it can be removed"
            ),
            CommandFault::NoRoom { pages, least } => write!(
                f,
                "the database does not fit in {pages} pages; it wants at least {least}"
            ),
            CommandFault::NotADump => {
                write!(
                    f,
                    "no dump, or one that is cut off; 'guarddb dump' makes one of a database"
                )
            }
            CommandFault::OtherDump(version) => write!(
                f,
                "a dump of version {version}, and this guarddb knows 1; restore it with the guarddb that made it"
            ),
            CommandFault::DamagedDump => write!(
                f,
                "the dump is cut off or damaged, or is of no database; restore another"
            ),
            CommandFault::NoDumpRoom(pages) => {
                write!(
                    f,
                    "the database does not fit in {pages} pages; ask for more"
                )
            }
            CommandFault::InUse => write!(f, "another process has it open"),
            CommandFault::Net(cause) => write!(f, "{cause}"),
            CommandFault::ScriptUnread(cause) => write!(f, "{cause}"),
            CommandFault::ScriptNotUtf8 { line, byte } => {
                write!(f, "line {line}, byte {byte}: not UTF-8")
            }
            CommandFault::NoPassword => write!(
                f,
                "a password has 1 to 1,024 characters of ASCII, from the space to the tilde"
            ),
            CommandFault::ManyLines => write!(f, "it has more than the line of a password"),
            CommandFault::NoRole => write!(f, "no role of the database has this name"),
            CommandFault::StatementRefused(state) => {
                let (code, meaning) = (state.code(), refusal_meaning(state));
                write!(f, "refused with {code}, {meaning}")
            }
            CommandFault::NotOverRows => write!(f, "no SELECT, INSERT, UPDATE or DELETE"),
            CommandFault::FirstFormat => {
                write!(
                    f,
                    "of format 1; 'guarddb check' brings it to format 2, which can have a journal"
                )
            }
            CommandFault::NoSwitchRoom => {
                write!(f, "no room is left for this; copy it to a larger file")
            }
            CommandFault::NoSwitchNumber => write!(f, "no commit number is left for this"),
            CommandFault::PrintedTo => write!(
                f,
                "standard output or standard error goes to it; send that elsewhere"
            ),
            CommandFault::Output => write!(f, "closed, or it takes no more"),
        }
    }
}

impl From<OpenFault> for CommandFault {
    ghost from_gives = { λ fault given. given ≡ of_pages fault };

    fn from(fault: OpenFault) -> CommandFault {
        match fault {
            OpenFault::WrongSize => CommandFault::WrongSize,
            OpenFault::NotADatabase => CommandFault::NotADatabase,
            OpenFault::NewerFormat(format) => CommandFault::NewerFormat(format),
            OpenFault::Damaged => CommandFault::Damaged,
            OpenFault::Device => CommandFault::Device(SystemCause::Other),
            OpenFault::Memory => CommandFault::Memory,
        }
    }
}

impl From<Fault> for CommandFault {
    ghost from_gives = { λ fault given. given ≡ of_read fault };

    fn from(fault: Fault) -> CommandFault {
        match fault {
            Fault::Memory => CommandFault::Memory,
            Fault::Device => CommandFault::Device(SystemCause::Other),
            Fault::Damaged => CommandFault::Damaged,
        }
    }
}

impl From<StoreFault> for CommandFault {
    ghost from_gives = { λ fault given. given ≡ of_commit fault };

    fn from(fault: StoreFault) -> CommandFault {
        match fault {
            StoreFault::Full => CommandFault::Full,
            StoreFault::Memory => CommandFault::Memory,
            StoreFault::Device => CommandFault::Device(SystemCause::Other),
            StoreFault::Number => CommandFault::Number,
        }
    }
}

impl From<OpeningFault> for CommandFault {
    ghost from_gives = { λ fault given. given ≡ of_records fault };

    fn from(fault: OpeningFault) -> CommandFault {
        match fault {
            OpeningFault::Read(fault) => CommandFault::from(fault),
            OpeningFault::Commit(fault) => CommandFault::from(fault),
        }
    }
}

impl From<DatabaseFault> for CommandFault {
    ghost from_gives = { λ fault given. given ≡ of_opening fault };

    fn from(fault: DatabaseFault) -> CommandFault {
        match fault {
            DatabaseFault::Pages(fault) => CommandFault::from(fault),
            DatabaseFault::Records(fault) => CommandFault::from(fault),
        }
    }
}

impl From<SwitchFault> for CommandFault {
    ghost from_gives = { λ fault given. given ≡ of_switch fault };

    fn from(fault: SwitchFault) -> CommandFault {
        match fault {
            SwitchFault::Unopened(fault) => CommandFault::from(fault),
            SwitchFault::NotMigrated => CommandFault::FirstFormat,
            SwitchFault::Refused(StoreFault::Full) => CommandFault::NoSwitchRoom,
            SwitchFault::Refused(StoreFault::Number) => CommandFault::NoSwitchNumber,
            SwitchFault::Refused(StoreFault::Memory) => CommandFault::Memory,
            SwitchFault::Refused(StoreFault::Device) => CommandFault::Device(SystemCause::Other),
        }
    }
}

impl From<OpenPathFault> for CommandFault {
    ghost from_gives = { λ fault given. given ≡ of_path fault };

    fn from(fault: OpenPathFault) -> CommandFault {
        match fault {
            OpenPathFault::Missing => CommandFault::Device(SystemCause::NotFound),
            OpenPathFault::InUse => CommandFault::InUse,
            OpenPathFault::PrintedTo => CommandFault::PrintedTo,
            OpenPathFault::Memory => CommandFault::Memory,
            OpenPathFault::Device(cause) => CommandFault::Device(cause),
        }
    }
}

impl From<FileFault> for CommandFault {
    ghost from_gives = { λ fault given. given ≡ of_file fault };

    fn from(fault: FileFault) -> CommandFault {
        match fault {
            FileFault::Exists => CommandFault::Exists,
            FileFault::Memory => CommandFault::Memory,
            FileFault::Device(cause) => CommandFault::Device(cause),
        }
    }
}
