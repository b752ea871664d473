//! The words after `password`.

ghost use Rattle.std.specs.Prelude.{◌≡◌, IfOk, IfErr, codes};
ghost use Rattle.clap.specs.Words.{found_of, rows_of};
ghost use Rattle.cli.specs.CommandGrammar.{IsCommand, password_app};
ghost use Rattle.cli.specs.CommandLine.{GivesAs, IsOrdered, IsUnfit};
ghost use Rattle.cli.specs.PasswordCommand.{verifier_asked};

use crate::command::{Invocation, UsageFault};
use crate::grammar::{command, flag};
use clap::{ArgMatches, Command};
use std::alloc::{AllocError, Global};

/// Whose verifier `password` makes.
#[derive(Clone, Copy, Debug, PartialEq, Eq)]
pub enum VerifierOf {
    /// That of the password that stands on standard input.
    Input,
    /// `--new`: that of a password which is drawn and printed, too.
    New,
    /// `--mock`: that of nobody's password.
    Nobody,
}

/// `password [--new|--mock]`.
pub(crate) fn password_command<'a>(alloc: Global) -> Result<Command<'a>, AllocError>
    ensures { IfOk result (IsCommand password_app) }
{
    command(alloc, "password")
        .arg(flag(alloc, "new"))?
        .arg(flag(alloc, "mock"))
}

/// The order that the words after `password` give.
pub(crate) fn read_password<'a>(given: &ArgMatches<'a>) -> Result<Invocation<'a>, UsageFault<'a>>
    ensures asked { IfOk result (IsOrdered (GivesAs (codes "password") (rows_of (found_of given.now)))) }
    ensures refused { IfErr result (IsUnfit (GivesAs (codes "password") (rows_of (found_of given.now)))) }
{
    let new = given.get_flag("new");
    let mock = given.get_flag("mock");
    match verifier_asked(new, mock) {
        Some(whose) => Ok(Invocation::Password { whose }),
        None => Err(UsageFault::Making),
    }
}

// Whose verifier `--new` and `--mock` ask for, where they are not both given.
fn verifier_asked(new: bool, mock: bool) -> Option<VerifierOf>
    ensures { result ≡ verifier_asked new mock }
{
    match (new, mock) {
        (false, false) => Some(VerifierOf::Input),
        (true, false) => Some(VerifierOf::New),
        (false, true) => Some(VerifierOf::Nobody),
        (true, true) => None,
    }
}
