//! The words of `describe`, and the order that they give.

ghost use Rattle.std.specs.Prelude.{◌≡◌, true, MatchOption, IfOk, IfErr, codes};
ghost use Rattle.clap.specs.Words.{found_of, rows_of};
ghost use Rattle.cli.specs.CommandLine.{Describe, GivesAs, IsOrdered, IsUnfit, are_mixed, lent_word};
ghost use Rattle.cli.specs.DescribeWords.{IsDescribeAsked, given_for};

use crate::command::{Invocation, UsageFault, is_name};
use clap::ArgMatches;

/// What `describe` is asked for.
#[derive(Clone, Copy)]
pub enum DescribeAsked<'a> {
    /// `describe FILE`: the roles, tables, privileges and policies.
    Database,
    /// `describe FILE ROLE`: what the role of a name may do.
    Role(&'a str),
    /// `describe FILE --table T`: who may do what with the table of a name.
    Table(&'a str),
    /// `describe FILE --powers`: who may become whom, who is a superuser, and who may grant on.
    Powers,
    /// `describe FILE --since OLD`: what has changed since the database in another file.
    Since(&'a str),
}

/// The order that the words after `describe` give.
pub(crate) fn read_describe<'a>(given: &ArgMatches<'a>) -> Result<Invocation<'a>, UsageFault<'a>>
    ensures asked { IfOk result (IsOrdered (GivesAs (codes "describe") (rows_of (found_of given.now)))) }
    ensures refused { IfErr result (IsUnfit (GivesAs (codes "describe") (rows_of (found_of given.now)))) }
{
    let Some(file) = given.get_str("file") else {
        return Err(UsageFault::Form);
    };
    let role = given.get_str("role");
    let table = given.get_str("table");
    let since = given.get_str("since");
    let powers = given.get_flag("powers");
    let json = given.get_flag("json");
    order_by(file, role, table, since, powers, json)
}

// The order that the words behind FILE give.
fn order_by<'a>(
    file: &'a str,
    role: Option<&'a str>,
    table: Option<&'a str>,
    since: Option<&'a str>,
    powers: bool,
    json: bool,
) -> Result<Invocation<'a>, UsageFault<'a>>
    ensures asked { IfOk result (IsOrdered (λ given. given ≡ Describe file.now (lent_word role.entry)
        (lent_word table.entry) (lent_word since.entry) powers json)) }
    ensures refused { IfErr result (IsUnfit (λ given. given ≡ Describe file.now (lent_word role.entry)
        (lent_word table.entry) (lent_word since.entry) powers json)) }
{
    match asked_by(role, table, since, powers) {
        Some(asked) => describe_order(file, asked, json),
        None => Err(UsageFault::Describing),
    }
}

// The order to describe what is asked for of a file. The name of a role is one that a role can have.
fn describe_order<'a>(
    file: &'a str,
    asked: DescribeAsked<'a>,
    json: bool,
) -> Result<Invocation<'a>, UsageFault<'a>>
    ensures asked { IfOk result (IsOrdered (λ given. given ≡ given_for file.now asked.entry json)) }
    ensures refused { IfErr result (IsUnfit (λ given. given ≡ given_for file.now asked.entry json)) }
{
    if let DescribeAsked::Role(name) = asked {
        if !is_name(name) {
            return Err(UsageFault::Name(name));
        }
    }
    Ok(Invocation::Describe { file, asked, json })
}

// What is asked for by these words, unless it is more than one thing.
fn asked_by<'a>(
    role: Option<&'a str>,
    table: Option<&'a str>,
    since: Option<&'a str>,
    powers: bool,
) -> Option<DescribeAsked<'a>>
    ensures { MatchOption result
        (are_mixed (lent_word role.entry) (lent_word table.entry) (lent_word since.entry) powers ≡ true)
        (IsDescribeAsked (lent_word role.entry) (lent_word table.entry) (lent_word since.entry) powers) }
{
    match (role, table, since, powers) {
        (None, None, None, false) => Some(DescribeAsked::Database),
        (None, None, None, true) => Some(DescribeAsked::Powers),
        (Some(name), None, None, false) => Some(DescribeAsked::Role(name)),
        (None, Some(name), None, false) => Some(DescribeAsked::Table(name)),
        (None, None, Some(old), false) => Some(DescribeAsked::Since(old)),
        _ => None,
    }
}
