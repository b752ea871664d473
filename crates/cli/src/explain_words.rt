//! The words after `explain`.

ghost use Rattle.std.specs.Prelude.{IfOk, IfErr, codes};
ghost use Rattle.clap.specs.Words.{found_of, rows_of};
ghost use Rattle.cli.specs.CommandLine.{GivesAs, IsOrdered, IsUnfit};

use crate::command::{Invocation, UsageFault};
use crate::explain_command::AskedStatement;
use clap::ArgMatches;

/// The order that the words after `explain` give.
pub(crate) fn read_explain<'a>(given: &ArgMatches<'a>) -> Result<Invocation<'a>, UsageFault<'a>>
    ensures asked { IfOk result (IsOrdered (GivesAs (codes "explain") (rows_of (found_of given.now)))) }
    ensures refused { IfErr result (IsUnfit (GivesAs (codes "explain") (rows_of (found_of given.now)))) }
{
    let Some(file) = given.get_str("file") else {
        return Err(UsageFault::Form);
    };
    let Some(role) = given.get_str("role") else {
        return Err(UsageFault::Form);
    };
    let Some(statement) = given.get_str("statement") else {
        return Err(UsageFault::Form);
    };
    let session = given.get_str("session");
    let json = given.get_flag("json");
    Ok(Invocation::Explain {
        file,
        asked: AskedStatement {
            role,
            session,
            statement,
            json,
        },
    })
}
