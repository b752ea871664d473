//! What the program does for `explain`.

ghost use Rattle.std.specs.Prelude.{◌≡◌};
ghost use Rattle.cli.specs.ExplainCommand.{ExplainsStatement, IsStatementExplained, IsStatementExplainedBy, acting_of, fault_of_statement, statement_subject};

use crate::ending::{Ending, Exit, Subject, exit_with};
use crate::fault::CommandFault;
use crate::printing::show_text;
use crate::reading::read_file;
use catalogue::definitions::Catalogue;
use sector_device::Device;
use statement_explanations::{Acting, ExplainFault, explain};
use std::alloc::Global;
use std::io::Write;
use systems::System;
use wire::sink::Sink;
use wire::text_sink::TakesText;

/// A statement that is to be explained, and who would run it.
#[derive(Clone, Copy)]
pub struct AskedStatement<'a> {
    /// The current role.
    pub role: &'a str,
    /// The role that the session was opened for: the current one, where none is given.
    pub session: Option<&'a str>,
    pub statement: &'a str,
    pub json: bool,
}

/// Prints how a statement looks for rows of the database in a file, and which policies apply, or tells why
/// not.
pub(crate) fn explain_statement<Y: System, K: TakesText, E: Write>(
    system: &mut Y,
    alloc: Global,
    file: &str,
    asked: AskedStatement<'_>,
    out: &mut K,
    err: &mut E,
) -> Exit
    ensures { ExplainsStatement Y.Device.Device (Y.state system.old) file.entry asked.entry result
        (Y.state system.new) (K.held out.old) (K.held out.new) (E.contents err.old)
        (E.contents err.new) }
{
    let read = read_file(system, alloc, file);
    let (ending, about) = print_explanation(alloc, read, file, asked, out);
    exit_with(ending, about, err)
}

// Prints the explanation of a statement over definitions that were read from a file, or answers why not. It
// answers what that is about, too.
fn print_explanation<'a, K: TakesText>(
    alloc: Global,
    read: Result<Catalogue, CommandFault>,
    file: &'a str,
    asked: AskedStatement<'a>,
    out: &mut K,
) -> (Ending, Subject<'a>)
    ensures { IsStatementExplainedBy read file.entry asked.entry (K.held out.old) result (K.held out.new) }
{
    match read {
        Ok(catalogue) => print_over(alloc, &catalogue, file, asked, out),
        Err(fault) => (Ending::Fault(fault), Subject::Named(file)),
    }
}

// The same over these definitions.
fn print_over<'a, K: TakesText>(
    alloc: Global,
    catalogue: &Catalogue,
    file: &'a str,
    asked: AskedStatement<'a>,
    out: &mut K,
) -> (Ending, Subject<'a>)
    ensures { IsStatementExplained catalogue.now file.entry asked.entry (K.held out.old) result (K.held out.new) }
{
    match explain(
        alloc,
        catalogue,
        acting_of(asked),
        asked.statement,
        asked.json,
    ) {
        Ok(Ok(text)) => (show_text(text.as_str(), out), Subject::Named(file)),
        Ok(Err(fault)) => (
            Ending::Fault(fault_of_statement(fault)),
            subject_of(asked, fault),
        ),
        Err(_) => (Ending::Fault(CommandFault::Memory), Subject::Named(file)),
    }
}

// By whom the statement would be run.
fn acting_of<'a>(asked: AskedStatement<'a>) -> Acting<'a>
    ensures { result ≡ acting_of asked.entry }
{
    Acting {
        role: asked.role,
        session: asked.session,
    }
}

// Why a statement is not explained, as a fault of the command.
fn fault_of_statement(fault: ExplainFault) -> CommandFault
    ensures { result ≡ fault_of_statement fault }
{
    match fault {
        ExplainFault::NoRole | ExplainFault::NoSession => CommandFault::NoRole,
        ExplainFault::NotOverRows => CommandFault::NotOverRows,
        ExplainFault::Refused(code) => CommandFault::StatementRefused(code),
    }
}

// What that is about: the role that is missing, or the statement.
fn subject_of<'a>(asked: AskedStatement<'a>, fault: ExplainFault) -> Subject<'a>
    ensures { result ≡ statement_subject asked.entry fault }
{
    match fault {
        ExplainFault::NoRole => Subject::Named(asked.role),
        ExplainFault::NoSession => Subject::Named(asked.session.unwrap_or(asked.role)),
        ExplainFault::NotOverRows | ExplainFault::Refused(_) => Subject::Statement,
    }
}
