//! What the program does for `describe`.

ghost use Rattle.std.specs.Prelude.{◌≡◌, Some, None, option_map};
ghost use Rattle.description_texts.specs.Descriptions.{asked_name};
ghost use Rattle.cli.specs.Describing.{compared_subject, description_subject, ArePowersDescribed, Compares, Describes, DescribesAsked, IsCompared, IsDescribed, IsDescribedFor, IsReadCompared, IsReadDescribed, IsShownAs, IsTableDescribed};

use crate::describe_words::DescribeAsked;
use crate::ending::{Ending, Exit, Subject, exit_with};
use crate::fault::CommandFault;
use crate::printing::show_text;
use crate::reading::read_file;
use access_texts::{differences_text, powers_text, table_text};
use catalogue::definitions::Catalogue;
use description_texts::description;
use sector_device::Device;
use sql_types::state::SqlState;
use std::alloc::Global;
use std::io::Write;
use systems::System;
use wire::sink::Sink;
use wire::text_sink::TakesText;

/// Prints the description of the database in a file, or what is asked for of it, or tells why not.
pub(crate) fn describe<Y: System, K: TakesText, E: Write>(
    system: &mut Y,
    alloc: Global,
    file: &str,
    asked: DescribeAsked<'_>,
    json: bool,
    out: &mut K,
    err: &mut E,
) -> Exit
    ensures { DescribesAsked Y.Device.Device Y.state (Y.state system.old) file.entry asked.entry json result
        (Y.state system.new) (K.held out.old) (K.held out.new) (E.contents err.old)
        (E.contents err.new) }
{
    match asked {
        DescribeAsked::Since(old) => compare(system, alloc, file, old, json, out, err),
        _ => describe_file(system, alloc, file, asked, json, out, err),
    }
}

// Prints what is asked for of the database in one file, or tells why not.
fn describe_file<Y: System, K: TakesText, E: Write>(
    system: &mut Y,
    alloc: Global,
    file: &str,
    asked: DescribeAsked<'_>,
    json: bool,
    out: &mut K,
    err: &mut E,
) -> Exit
    ensures { Describes Y.Device.Device (Y.state system.old) file.entry asked.entry json result
        (Y.state system.new) (K.held out.old) (K.held out.new) (E.contents err.old)
        (E.contents err.new) }
{
    let read = read_file(system, alloc, file);
    let ending = print_description(alloc, read, asked, json, out);
    exit_with(ending, subject_of(ending, file, asked), err)
}

// Prints what is asked for of a database whose definitions were read, or answers why they were not.
fn print_description<K: TakesText>(
    alloc: Global,
    read: Result<Catalogue, CommandFault>,
    asked: DescribeAsked<'_>,
    json: bool,
    out: &mut K,
) -> Ending
    ensures { IsReadDescribed read asked.entry json (K.held out.old) result (K.held out.new) }
{
    match read {
        Ok(catalogue) => print_asked(alloc, &catalogue, asked, json, out),
        Err(fault) => Ending::Fault(fault),
    }
}

// Prints what is asked for of a database with these definitions.
fn print_asked<K: TakesText>(
    alloc: Global,
    catalogue: &Catalogue,
    asked: DescribeAsked<'_>,
    json: bool,
    out: &mut K,
) -> Ending
    ensures { IsDescribedFor catalogue.now asked.entry json (K.held out.old) result (K.held out.new) }
{
    match asked {
        DescribeAsked::Table(name) => print_table(alloc, catalogue, name, json, out),
        DescribeAsked::Powers => print_powers(alloc, catalogue, json, out),
        DescribeAsked::Role(name) => print_role(alloc, catalogue, Some(name), json, out),
        DescribeAsked::Database => print_role(alloc, catalogue, None, json, out),
        DescribeAsked::Since(_) => print_role(alloc, catalogue, None, json, out),
    }
}

// Prints the description of a database, or of one of its roles.
fn print_role<K: TakesText>(
    alloc: Global,
    catalogue: &Catalogue,
    role: Option<&str>,
    json: bool,
    out: &mut K,
) -> Ending
    ensures { IsDescribed catalogue.now (asked_name role.entry) (K.held out.old) result
        (K.held out.new) }
{
    match description::describe(alloc, catalogue, role, json) {
        Ok(Some(text)) => show_text(text.as_str(), out),
        Ok(None) => Ending::Fault(CommandFault::NoRole),
        Err(_) => Ending::Fault(CommandFault::Memory),
    }
}

// Prints who may do what with the table of a name.
fn print_table<K: TakesText>(
    alloc: Global,
    catalogue: &Catalogue,
    name: &str,
    json: bool,
    out: &mut K,
) -> Ending
    ensures { IsTableDescribed catalogue.now name.now json (K.held out.old) result
        (K.held out.new) }
{
    match table_text(alloc, catalogue, name, json) {
        Ok(Some(text)) => show_text(text.as_str(), out),
        Ok(None) => Ending::Fault(CommandFault::StatementRefused(SqlState::UndefinedTable)),
        Err(_) => Ending::Fault(CommandFault::Memory),
    }
}

// Prints the powers of roles over the whole database.
fn print_powers<K: TakesText>(
    alloc: Global,
    catalogue: &Catalogue,
    json: bool,
    out: &mut K,
) -> Ending
    ensures { ArePowersDescribed catalogue.now json (K.held out.old) result (K.held out.new) }
{
    match powers_text(alloc, catalogue, json) {
        Ok(text) => show_text(text.as_str(), out),
        Err(_) => Ending::Fault(CommandFault::Memory),
    }
}

// What the end of a description is about: the role or the table, where the database has none of its
// name, else the file.
fn subject_of<'a>(ending: Ending, file: &'a str, asked: DescribeAsked<'a>) -> Subject<'a>
    ensures { result ≡ description_subject file.entry asked.entry ending }
{
    match (ending, asked) {
        (Ending::Fault(CommandFault::NoRole), DescribeAsked::Role(name)) => Subject::Named(name),
        (Ending::Fault(CommandFault::StatementRefused(_)), DescribeAsked::Table(name)) => {
            Subject::Named(name)
        }
        _ => Subject::Named(file),
    }
}

// Prints what differs from the database in an old file to that in a file, or tells why not.
fn compare<Y: System, K: TakesText, E: Write>(
    system: &mut Y,
    alloc: Global,
    file: &str,
    old: &str,
    json: bool,
    out: &mut K,
    err: &mut E,
) -> Exit
    ensures { Compares Y.Device.Device Y.state (Y.state system.old) file.entry old.entry json result
        (Y.state system.new) (K.held out.old) (K.held out.new) (E.contents err.old)
        (E.contents err.new) }
{
    let read_old = read_file(system, alloc, old);
    let read = read_file(system, alloc, file);
    let about = compared_subject(&read_old, file, old);
    let ending = print_comparison(alloc, read_old, read, json, out);
    exit_with(ending, about, err)
}

// What the end of a comparison is about: the old file, where it was not read, else the file.
fn compared_subject<'a>(
    read_old: &Result<Catalogue, CommandFault>,
    file: &'a str,
    old: &'a str,
) -> Subject<'a>
    ensures { result ≡ compared_subject read_old.now file.entry old.entry }
{
    match read_old {
        Ok(_) => Subject::Named(file),
        Err(_) => Subject::Named(old),
    }
}

// Prints what differs between two databases whose definitions were read, or answers why they were not.
fn print_comparison<K: TakesText>(
    alloc: Global,
    read_old: Result<Catalogue, CommandFault>,
    read: Result<Catalogue, CommandFault>,
    json: bool,
    out: &mut K,
) -> Ending
    ensures { IsReadCompared read_old read json (K.held out.old) result (K.held out.new) }
{
    match (read_old, read) {
        (Ok(old), Ok(new)) => print_differences(alloc, &old, &new, json, out),
        (Err(fault), _) => Ending::Fault(fault),
        (Ok(_), Err(fault)) => Ending::Fault(fault),
    }
}

// Prints what differs between two databases with these definitions.
fn print_differences<K: TakesText>(
    alloc: Global,
    old: &Catalogue,
    new: &Catalogue,
    json: bool,
    out: &mut K,
) -> Ending
    ensures { IsCompared old.now new.now json (K.held out.old) result (K.held out.new) }
{
    match differences_text(alloc, old, new, json) {
        Ok(told) => show_differences(told.differs, told.text.as_str(), out),
        Err(_) => Ending::Fault(CommandFault::Memory),
    }
}

// Shows a text of differences, and says whether there are some.
fn show_differences<K: TakesText>(differs: bool, text: &str, out: &mut K) -> Ending
    ensures { IsShownAs differs text.now (K.held out.old) result (K.held out.new) }
{
    let ending = show_text(text, out);
    if differs && ending == Ending::Done {
        return Ending::Differs;
    }
    ending
}
