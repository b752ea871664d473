//! The words of a command line, and the order that they give.

ghost use Rattle.std.specs.Prelude.{◌≡◌, ◌↔◌, IsTrue, IfOk, IfErr, Some, codes};
ghost use Rattle.clap.specs.Words.{found_of, rows_of};
ghost use Rattle.sql_types.specs.Name.{IsName};
ghost use Rattle.cli.specs.CommandLine.{IsAtRefusal, Asks, Refuses, Journal, GivesAs, IsOrdered, IsUnfit, IsNoNumber, IsReadFrom, lent_words};
ghost use Rattle.cli.specs.Numbers.{IsNumberFor};
ghost use Rattle.cli.specs.PlaceWords.{IsSocketPath};
ghost use Rattle.cli.specs.Usage.{usage_reason};

use crate::describe_words::{DescribeAsked, read_describe};
use crate::dump_words::{read_dump, read_restore};
use crate::error_reason::ErrorReason;
use crate::explain_command::AskedStatement;
use crate::explain_words::read_explain;
use crate::grammar::program_command;
use crate::number::NumberOption;
use crate::password_words::{VerifierOf, read_password};
use crate::refusals::{OnRefusal, at_refusal};
use crate::serve_clients::ManyClients;
use crate::serve_words::read_serve;
use crate::served_place::{NamedPlace, ServedPlace};
use clap::ArgMatches;
use clap::error::{Error, ErrorKind};
use sql_types::name::MAX_NAME_LENGTH;
use std::alloc::Global;
use std::fmt;

/// What a command line asks for. Words are as they were given; numbers are in the range of their
/// option.
#[derive(Drop)]
pub enum Invocation<'a> {
    /// `format FILE --pages N --admin NAME`: makes FILE, a database of N pages whose one role is the
    /// superuser NAME. With `--journal` it has a journal.
    Format {
        file: &'a str,
        pages: u32,
        admin: &'a str,
        journal: bool,
    },
    /// `copy FILE NEW --pages N`: copies the database in FILE to NEW, a new file of N pages. With
    /// `--journal` NEW has a journal.
    Copy {
        file: &'a str,
        new: &'a str,
        pages: u32,
        journal: bool,
    },
    /// `dump FILE OUT`: writes a dump of the database in FILE to OUT, a new file.
    Dump {
        file: &'a str,
        out: &'a str,
    },
    /// `restore DUMP NEW --pages N`: makes NEW, a new file of N pages, a database of the dump in DUMP. With
    /// `--journal` NEW has a journal.
    Restore {
        dump: &'a str,
        new: &'a str,
        pages: u32,
        journal: bool,
    },
    /// `journal FILE on` and `journal FILE off`: gives the database in FILE a journal, or takes its
    /// journal away.
    Journal {
        file: &'a str,
        on: bool,
    },
    /// `password`: prints the verifier of the password that stands on standard input, with `--new` a password
    /// that is drawn and its verifier, and with `--mock` a verifier of nobody's password.
    Password {
        whose: VerifierOf,
    },
    /// `run FILE SCRIPT`: runs the file SCRIPT over the database in FILE. With `--explain` refusals are told
    /// of, and with `--stop` it ends at the first.
    Run {
        file: &'a str,
        script: &'a str,
        on_refusal: OnRefusal,
    },
    /// `run --memory NAME SCRIPT`: runs the file SCRIPT over an empty database in memory whose one
    /// role is the superuser NAME, with `--explain` or `--stop` or without.
    RunMemory {
        admin: &'a str,
        script: &'a str,
        on_refusal: OnRefusal,
    },
    /// `serve FILE --port P --connections K`: serves K connections on port P of 127.0.0.1, one after
    /// another, over the database in FILE. With `--idle SECONDS` a connection ends that sends nothing
    /// for so long.
    Serve {
        file: &'a str,
        port: u16,
        connections: u32,
        idle: Option<u32>,
    },
    /// `serve FILE --socket PATH --connections K`: the same on a Unix socket, whose file is made at
    /// PATH.
    ServeSocket {
        file: &'a str,
        socket: &'a str,
        connections: u32,
        idle: Option<u32>,
    },
    /// `serve FILE --port P --clients N` or `serve FILE --socket PATH --clients N`: serves so many clients
    /// at once, with `--connections K` so many in all. With `--wait SECONDS` a statement may wait for the
    /// writer lock, and with `--idle SECONDS` a client ends that sends nothing for so long. One ends, too,
    /// that keeps another from writing for `--block SECONDS`, or half a minute. `serve FILE --at PLACE
    /// --clients N` is the same with `port:P` and `socket:PATH`; with `pgport:P` and `pgsocket:FOLDER` clients
    /// are spoken to by PostgreSQL's protocol. What stands behind a comma of PLACE says whom it lets in.
    ServeClients {
        file: &'a str,
        place: ServedPlace<'a>,
        many: ManyClients,
    },
    /// `serve FILE --at PLACE --clients N` with more than one `--at`, or with a place that admits no
    /// superuser: the same at up to eight places at once, each with its own words.
    ServePlaces {
        file: &'a str,
        places: Vec<NamedPlace<'a>>,
        many: ManyClients,
    },
    /// `check FILE`: opens the database in FILE, and says whether it is whole.
    Check {
        file: &'a str,
    },
    /// `describe FILE`: prints who may do what in the database in FILE, or what of that is asked for. With
    /// `--json` it prints JSON.
    Describe {
        file: &'a str,
        asked: DescribeAsked<'a>,
        json: bool,
    },
    /// `explain FILE ROLE STATEMENT`: prints in which keys STATEMENT looks for rows of the database in FILE
    /// as ROLE, and which policies apply. With `--session LOGIN` the session was opened for LOGIN, and with
    /// `--json` it prints JSON.
    Explain {
        file: &'a str,
        asked: AskedStatement<'a>,
    },
    /// `--help` or `-h`, also after a command: prints the help.
    Help,
    /// `--version` or `-V`: prints the version.
    Version,
}

/// Why a command line is refused.
#[derive(Drop)]
pub enum UsageFault<'a> {
    /// The words do not fit the grammar. The error's text names the wrong word.
    Grammar(Error),
    /// The words after `run` are neither FILE SCRIPT nor `--memory` NAME SCRIPT.
    Form,
    /// The words after `serve` are not FILE, either `--port` P or `--socket` PATH, and `--connections`
    /// K.
    Serving,
    /// Beside `--clients` N the words after `serve` are not FILE, and either `--port` P or `--socket` PATH.
    ServingClients,
    /// Beside `--at` PLACE the words after `serve` are not FILE and `--clients` N, or they have a port or a
    /// socket, or PLACE is none.
    ServingAt,
    /// The word for a number is no decimal number in the range of its option.
    Number { option: NumberOption, word: &'a str },
    /// PATH of a socket is empty or has over 107 bytes.
    Path(&'a str),
    /// FOLDER of a socket for PostgreSQL's clients is empty or has over 93 bytes.
    Folder(&'a str),
    /// What stands behind the comma of PLACE is not `role=NAME`, `passwords=TABLE` with `mock=ROLE`, `mode=600` or
    /// `mode=660`, each once at most; a mode is of a socket alone.
    Options(&'a str),
    /// One of several words of `--at` names no place, or does not say whom it lets in. A port of several places is
    /// not 0.
    Place(&'a str),
    /// More places are named than eight.
    Places,
    /// NAME is empty, has over 63 bytes or a zero byte.
    Name(&'a str),
    /// The word after FILE of `journal` is neither `on` nor `off`.
    Switch(&'a str),
    /// The words after `password` are more than one of `--new` and `--mock`.
    Making,
    /// Beside FILE of `describe` there is more than one of ROLE, `--table` T, `--powers` and `--since` OLD.
    Describing,
    /// A word is not UTF-8.
    Encoding,
    /// Memory was refused.
    Memory,
}

impl fmt::Display for UsageFault<'_> {
    ghost output = { usage_reason };

    fn fmt<W: fmt::Write>(&self, f: &mut fmt::Formatter<W>) -> fmt::Result {
        match self {
            UsageFault::Grammar(error) => write!(f, "{}", ErrorReason(error)),
            UsageFault::Form => write!(f, "run takes FILE SCRIPT, or --memory NAME SCRIPT"),
            UsageFault::Serving => {
                write!(
                    f,
                    "serve takes FILE, either --port P or --socket PATH, and --connections K"
                )
            }
            UsageFault::ServingClients => {
                write!(
                    f,
                    "serve --clients N takes FILE, and either --port P or --socket PATH"
                )
            }
            UsageFault::ServingAt => {
                write!(
                    f,
                    "serve --at PLACE takes FILE and --clients N, and no port or socket; PLACE is port:P, socket:PATH, pgport:P or pgsocket:FOLDER"
                )
            }
            UsageFault::Number { option, word } => write!(f, "{option}, not '{word}'"),
            UsageFault::Path(path) => {
                write!(f, "'{path}' cannot name a socket: PATH has 1 to 107 bytes")
            }
            UsageFault::Folder(folder) => {
                write!(
                    f,
                    "'{folder}' cannot have the file of a socket: FOLDER has 1 to 93 bytes"
                )
            }
            UsageFault::Options(words) => {
                write!(
                    f,
                    "behind a comma PLACE takes role=NAME, or passwords=TABLE with mock=ROLE, and of a socket mode=600 or mode=660, each once, not '{words}'"
                )
            }
            UsageFault::Place(word) => {
                write!(
                    f,
                    "'{word}' is none of several places: PLACE is port:P, with P from 1 to 65535, socket:PATH, pgport:P or pgsocket:FOLDER, and behind a comma it takes role=NAME, or passwords=TABLE with mock=ROLE, and of a socket mode=600 or mode=660, each once, and last no-superuser"
                )
            }
            UsageFault::Places => write!(f, "serve takes up to eight places"),
            UsageFault::Name(name) => {
                write!(
                    f,
                    "'{name}' is no name: NAME has 1 to 63 bytes and no zero byte"
                )
            }
            UsageFault::Switch(word) => {
                write!(f, "journal takes FILE on, or FILE off, not '{word}'")
            }
            UsageFault::Making => write!(
                f,
                "password takes --new, or --mock, or neither; a password stands on standard input alone"
            ),
            UsageFault::Describing => {
                write!(
                    f,
                    "describe takes FILE, and at most one of ROLE, --table T, --powers and --since OLD"
                )
            }
            UsageFault::Encoding => write!(f, "a word is not UTF-8"),
            UsageFault::Memory => write!(f, "memory was refused"),
        }
    }
}

/// The order that the words after the program's name give, as `clap` reads them: one of the commands
/// `format`, `copy`, `dump`, `restore`, `journal`, `password`, `run`, `serve`, `check`, `describe` and `explain` with its words and
/// options, each given once; or a flag for help or the version. Words that give none are refused: by `Grammar`, `Form`, `Serving`,
/// `ServingClients`, `ServingAt`, `Number`, `Path`, `Folder`, `Options`, `Place`, `Places`, `Name`, `Switch`, `Making` or `Describing`.
/// `Memory` may come of any words.
pub fn read_command<'a>(
    alloc: Global,
    words: &'a [&'a str],
) -> Result<Invocation<'a>, UsageFault<'a>>
    ensures asked { IfOk result (Asks (lent_words words.entry.now)) }
    ensures refused { IfErr result (Refuses (lent_words words.entry.now)) }
{
    let Ok(command) = program_command(alloc) else {
        return Err(UsageFault::Memory);
    };
    let matches = match command.try_get_matches_from(words) {
        Ok(matches) => matches,
        Err(error) => return read_error(error),
    };
    match matches.subcommand() {
        Some((name, given)) => read_given(alloc, name, given),
        None => Err(UsageFault::Form),
    }
}

/// What an error of `clap` is: a request for help or the version, or a fault.
fn read_error<'a>(error: Error) -> Result<Invocation<'a>, UsageFault<'a>>
    ensures { IsReadFrom error result }
{
    match error.kind() {
        ErrorKind::DisplayHelp => Ok(Invocation::Help),
        ErrorKind::DisplayVersion => Ok(Invocation::Version),
        ErrorKind::OutOfMemory => Err(UsageFault::Memory),
        _ => Err(UsageFault::Grammar(error)),
    }
}

/// The order that the words after the command of this name give.
fn read_given<'a>(
    alloc: Global,
    name: &str,
    given: &ArgMatches<'a>,
) -> Result<Invocation<'a>, UsageFault<'a>>
    ensures asked { IfOk result (IsOrdered (GivesAs name.now (rows_of (found_of given.now)))) }
    ensures refused { IfErr result (IsUnfit (GivesAs name.now (rows_of (found_of given.now)))) }
{
    match name {
        "format" => read_format(given),
        "copy" => read_copy(given),
        "dump" => read_dump(given),
        "restore" => read_restore(given),
        "journal" => read_journal(given),
        "password" => read_password(given),
        "run" => read_run(given),
        "serve" => read_serve(alloc, given),
        "check" => read_check(given),
        "describe" => read_describe(given),
        "explain" => read_explain(given),
        _ => Err(UsageFault::Form),
    }
}

/// The order that the words after `format` give.
fn read_format<'a>(given: &ArgMatches<'a>) -> Result<Invocation<'a>, UsageFault<'a>>
    ensures asked { IfOk result (IsOrdered (GivesAs (codes "format") (rows_of (found_of given.now)))) }
    ensures refused { IfErr result (IsUnfit (GivesAs (codes "format") (rows_of (found_of given.now)))) }
{
    let Some(file) = given.get_str("file") else {
        return Err(UsageFault::Form);
    };
    let Some(word) = given.get_str("pages") else {
        return Err(UsageFault::Form);
    };
    let Some(admin) = given.get_str("admin") else {
        return Err(UsageFault::Form);
    };
    let journal = given.get_flag("journal");
    let option = NumberOption::Pages;
    let Some(pages) = option.read(word) else {
        return Err(UsageFault::Number { option, word });
    };
    if !is_name(admin) {
        return Err(UsageFault::Name(admin));
    }
    Ok(Invocation::Format {
        file,
        pages,
        admin,
        journal,
    })
}

/// The order that the words after `copy` give.
fn read_copy<'a>(given: &ArgMatches<'a>) -> Result<Invocation<'a>, UsageFault<'a>>
    ensures asked { IfOk result (IsOrdered (GivesAs (codes "copy") (rows_of (found_of given.now)))) }
    ensures refused { IfErr result (IsUnfit (GivesAs (codes "copy") (rows_of (found_of given.now)))) }
{
    let Some(file) = given.get_str("file") else {
        return Err(UsageFault::Form);
    };
    let Some(new) = given.get_str("new") else {
        return Err(UsageFault::Form);
    };
    let Some(word) = given.get_str("pages") else {
        return Err(UsageFault::Form);
    };
    let journal = given.get_flag("journal");
    let pages = read_number(NumberOption::Pages, word)?;
    Ok(Invocation::Copy {
        file,
        new,
        pages,
        journal,
    })
}

/// The order that the words after `journal` give.
fn read_journal<'a>(given: &ArgMatches<'a>) -> Result<Invocation<'a>, UsageFault<'a>>
    ensures asked { IfOk result (IsOrdered (GivesAs (codes "journal") (rows_of (found_of given.now)))) }
    ensures refused { IfErr result (IsUnfit (GivesAs (codes "journal") (rows_of (found_of given.now)))) }
{
    let Some(file) = given.get_str("file") else {
        return Err(UsageFault::Form);
    };
    let Some(word) = given.get_str("state") else {
        return Err(UsageFault::Form);
    };
    switch_journal(file, word)
}

/// The order to give a file a journal, or to take its journal away.
fn switch_journal<'a>(file: &'a str, word: &'a str) -> Result<Invocation<'a>, UsageFault<'a>>
    ensures asked { IfOk result (IsOrdered (λ given. given ≡ Journal file.now word.now)) }
    ensures refused { IfErr result (IsUnfit (λ given. given ≡ Journal file.now word.now)) }
{
    match word {
        "on" => Ok(Invocation::Journal { file, on: true }),
        "off" => Ok(Invocation::Journal { file, on: false }),
        _ => Err(UsageFault::Switch(word)),
    }
}

/// What `--stop` and `--explain` ask for.
fn refusal_flags(given: &ArgMatches<'_>) -> OnRefusal
    ensures { IsAtRefusal (rows_of (found_of given.now)) result }
{
    let stop = given.get_flag("stop");
    let explain = given.get_flag("explain");
    at_refusal(stop, explain)
}

/// The order that the words after `run` give.
fn read_run<'a>(given: &ArgMatches<'a>) -> Result<Invocation<'a>, UsageFault<'a>>
    ensures asked { IfOk result (IsOrdered (GivesAs (codes "run") (rows_of (found_of given.now)))) }
    ensures refused { IfErr result (IsUnfit (GivesAs (codes "run") (rows_of (found_of given.now)))) }
{
    let on_refusal = refusal_flags(given);
    let Some(first) = given.get_str("first") else {
        return Err(UsageFault::Form);
    };
    let Some(admin) = given.get_str("memory") else {
        let Some(script) = given.get_str("second") else {
            return Err(UsageFault::Form);
        };
        return Ok(Invocation::Run {
            file: first,
            script,
            on_refusal,
        });
    };
    if given.get_str("second").is_some() {
        return Err(UsageFault::Form);
    }
    if !is_name(admin) {
        return Err(UsageFault::Name(admin));
    }
    Ok(Invocation::RunMemory {
        admin,
        script: first,
        on_refusal,
    })
}

/// The number that a word gives to an option.
pub(crate) fn read_number<'a>(option: NumberOption, word: &'a str) -> Result<u32, UsageFault<'a>>
    ensures read { IfOk result (IsNumberFor option word.now) }
    ensures refused { IfErr result (IsNoNumber option (Some word.now)) }
{
    match option.read(word) {
        Some(number) => Ok(number),
        None => Err(UsageFault::Number { option, word }),
    }
}

/// The order that the word after `check` gives.
fn read_check<'a>(given: &ArgMatches<'a>) -> Result<Invocation<'a>, UsageFault<'a>>
    ensures asked { IfOk result (IsOrdered (GivesAs (codes "check") (rows_of (found_of given.now)))) }
    ensures refused { IfErr result (IsUnfit (GivesAs (codes "check") (rows_of (found_of given.now)))) }
{
    match given.get_str("file") {
        Some(file) => Ok(Invocation::Check { file }),
        None => Err(UsageFault::Form),
    }
}

/// Whether a role can have this name: it has 1 to 63 bytes, none of them zero.
pub fn is_name(name: &str) -> bool
    ensures { IsTrue result ↔ IsName name.now }
{
    !name.is_empty() && name.len() <= MAX_NAME_LENGTH && !name.as_bytes().contains(&0)
}

/// How many bytes the path of a socket has at most.
const MAX_SOCKET_PATH_LENGTH: usize = 107;

/// Whether the system takes this path for a socket: it has 1 to 107 bytes.
pub fn is_socket_path(path: &str) -> bool
    ensures { IsTrue result ↔ IsSocketPath path.now }
{
    !path.is_empty() && path.len() <= MAX_SOCKET_PATH_LENGTH
}
