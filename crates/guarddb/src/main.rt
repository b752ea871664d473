//! The program `guarddb`.
#![tactic(auto)]

use cli::carrying_out::carry_out;
use cli::command::{Invocation, UsageFault, read_command};
use cli::command_name::command_named;
use cli::describe_words::DescribeAsked;
use cli::ending::Subject;
use cli::runs::run_for;
use cli::usage::{report_fault, report_usage, words_fault};
use real_system::{NULL_DEVICE, RealSystem};
use sessions::SessionHandler;
use statements::Statements;
use std::alloc::Global;
use std::io::{BufWriter, LineWriter, Read, Write};
use std::process::ExitCode;
use std::{env, io};
use wire::text_sink::TextSink;

/// The administrator of the database that a script on standard input runs over.
const ADMIN: &str = "root";

fn main(rt: HostRuntime) -> ExitCode {
    match RealSystem::start(&rt, rt.alloc()) {
        Ok(mut system) => ExitCode::from(run_or_report(&rt, &mut system)),
        Err(error) => {
            let told = report_fault(&error, Subject::Named(NULL_DEVICE), &mut rt.stderr());
            ExitCode::from(told.status)
        }
    }
}

/// Does the program's work, and answers the exit status.
fn run_or_report(rt: &HostRuntime, system: &mut RealSystem<'_, HostRuntime>) -> u8 {
    match run(rt, rt.alloc(), system) {
        Ok(status) => status,
        Err(fault) => report_usage(fault, None, &mut rt.stderr()).status,
    }
}

/// Does what the words ask for, or without words runs the script on standard input, and answers the
/// exit status. An error is a fault of the words before they are read.
fn run(
    rt: &HostRuntime,
    alloc: Global,
    system: &mut RealSystem<'_, HostRuntime>,
) -> Result<u8, UsageFault<'static>> {
    let words = match words(rt, alloc) {
        Ok(words) => words,
        Err(error) => return Err(words_fault(&error)),
    };
    let Ok(words) = words.iter().map(|word| word.as_str()).collect(alloc) else {
        return Err(UsageFault::Memory);
    };
    let words: Vec<&str> = words;
    if words.is_empty() {
        return run_standard_input(rt, alloc);
    }
    match read_command(alloc, words.as_slice()) {
        Ok(order) => carry_out_on_streams(rt, alloc, system, &order),
        Err(fault) => {
            let command = command_named(words[0]);
            Ok(report_usage(fault, command, &mut rt.stderr()).status)
        }
    }
}

/// Runs the script on standard input over a new database in memory.
fn run_standard_input(rt: &HostRuntime, alloc: Global) -> Result<u8, UsageFault<'static>> {
    let Ok(out) = BufWriter::new(alloc, rt.stdout()) else {
        return Err(UsageFault::Memory);
    };
    let mut out = TextSink::new(out);
    let (script, about) = (
        read_to_end(alloc, rt.stdin()),
        Subject::Named("standard input"),
    );
    let (handler, mut err) = (SessionHandler::new(Statements), rt.stderr());
    Ok(run_for(alloc, handler, ADMIN, script, about, &mut out, &mut err).status)
}

/// All that a reader gives.
fn read_to_end<R: Read + Drop>(alloc: Global, mut reader: R) -> io::Result<Vec<u8>> {
    let mut read = Vec::new(alloc);
    reader.read_to_end(&mut read)?;
    Ok(read)
}

/// Carries an order out with the standard streams. The answers of a script over a file go out line by
/// line: whoever reads that a COMMIT was made may count on it.
fn carry_out_on_streams(
    rt: &HostRuntime,
    alloc: Global,
    system: &mut RealSystem<'_, HostRuntime>,
    order: &Invocation<'_>,
) -> Result<u8, UsageFault<'static>> {
    let handler = SessionHandler::new(Statements);
    let err = Messages {
        writer: rt.stderr(),
        are_lost: are_told_to_database(system, order),
    };
    if let Invocation::Run {
        file: _,
        script: _,
        on_refusal: _,
    } = order
    {
        let Ok(out) = LineWriter::new(alloc, rt.stdout()) else {
            return Err(UsageFault::Memory);
        };
        let out = TextSink::new(out);
        return Ok(
            carry_out(system, alloc, handler, order, out, err)
                .exit
                .status,
        );
    }
    let Ok(out) = BufWriter::new(alloc, rt.stdout()) else {
        return Err(UsageFault::Memory);
    };
    let out = TextSink::new(out);
    Ok(
        carry_out(system, alloc, handler, order, out, err)
            .exit
            .status,
    )
}

/// Whether messages on standard error would be written to a file that an order names as a database.
fn are_told_to_database(system: &RealSystem<'_, HostRuntime>, order: &Invocation<'_>) -> bool {
    match order {
        Invocation::Format {
            file,
            pages: _,
            admin: _,
            journal: _,
        }
        | Invocation::Journal { file, on: _ }
        | Invocation::Run {
            file,
            script: _,
            on_refusal: _,
        }
        | Invocation::Serve {
            file,
            port: _,
            connections: _,
            idle: _,
        }
        | Invocation::ServeSocket {
            file,
            socket: _,
            connections: _,
            idle: _,
        }
        | Invocation::ServeClients {
            file,
            place: _,
            many: _,
        }
        | Invocation::ServePlaces {
            file,
            places: _,
            many: _,
        }
        | Invocation::Check { file }
        | Invocation::Explain { file, asked: _ } => system.tells_to(*file),
        Invocation::Describe {
            file,
            asked,
            json: _,
        } => system.tells_to(*file) || is_told_to_old(system, asked),
        Invocation::Copy {
            file,
            new,
            pages: _,
            journal: _,
        } => system.tells_to(*file) || system.tells_to(*new),
        Invocation::Dump { file, out } => system.tells_to(*file) || system.tells_to(*out),
        Invocation::Restore {
            dump,
            new,
            pages: _,
            journal: _,
        } => system.tells_to(*dump) || system.tells_to(*new),
        Invocation::RunMemory {
            admin: _,
            script: _,
            on_refusal: _,
        }
        | Invocation::Password { whose: _ }
        | Invocation::Help
        | Invocation::Version => false,
    }
}

/// Whether they would be written to the old file of a description.
fn is_told_to_old(system: &RealSystem<'_, HostRuntime>, asked: &DescribeAsked<'_>) -> bool {
    match asked {
        DescribeAsked::Since(old) => system.tells_to(*old),
        _ => false,
    }
}

/// The words after the program's name.
fn words(rt: &HostRuntime, alloc: Global) -> io::Result<Vec<String>> {
    Ok(env::args(rt)?.skip(1).collect(alloc)?)
}

/// What takes messages, unless they are lost: then each is refused, as by a stream that is closed.
#[derive(Drop)]
struct Messages<W> {
    writer: W,
    are_lost: bool,
}

impl<W: Write> Write for Messages<W> {
    fn write(&mut self, bytes: &[u8]) -> io::Result<usize> {
        if self.are_lost {
            return Err(io::Error::from(io::ErrorKind::BrokenPipe));
        }
        self.writer.write(bytes)
    }

    fn flush(&mut self) -> io::Result<()> {
        self.writer.flush()
    }
}
