//! What is told of a table, of the powers of roles, and of what differs between two databases.

ghost use Rattle.std.specs.Prelude.{◌≡◌, None, map, find, IfOk, MatchOption, string_bytes};
ghost use Rattle.std.specs.Option.{option_copied};
ghost use Rattle.catalogue.specs.Lookups.{is_definition_named};
ghost use Rattle.section_texts.specs.Sections.{section_of};
ghost use Rattle.access_texts.specs.Told.{printed, table_sections, power_sections, definition_sections, all_sections, printed_differences, are_some, TellsTable, TellsPowers, TellsDifferences, TellsBetween, IsToldBy, AreAllSections};

use crate::access::{access_section, grant_section};
use crate::definitions::{
    column_section, membership_section, policy_section, privilege_section, table_section,
};
use crate::difference_texts::{difference_section, difference_texts};
use crate::each_table::{AccessOfTable, each_access};
use crate::lines::{lent_lines, ordered_lines};
use crate::powers::{becoming_section, role_section};
use catalogue::definitions::Catalogue;
use catalogue::table::TableDefinition;
use line_differences::{LineDifference, differences};
use section_texts::{TextSection, columns_text, json_text};
use std::alloc::{AllocError, Global};
use table_access::powers::{RolePowers, powers};

/// Who may do what with the table of a name, as text in columns or as JSON: each role by itself and as each role that it may set where
/// that makes a difference, by which grants and memberships, and under which policies; and the policies with their texts. `None`: no
/// table has the name. `AllocError` comes where memory was refused.
pub fn table_text(
    alloc: Global,
    catalogue: &Catalogue,
    name: &str,
    json: bool,
) -> Result<Option<String>, AllocError>
    ensures { IfOk result (λ found. MatchOption found
        (find (is_definition_named name.now) catalogue.now.tables ≡ None)
        (λ text. TellsTable catalogue.now name.now json (string_bytes text))) }
{
    match table_named(catalogue.tables(), name) {
        None => Ok(None),
        Some(table) => Ok(Some(text_of_table(alloc, catalogue, table, json)?)),
    }
}

// The table of a name, where there is one.
fn table_named<'a>(tables: &'a [TableDefinition], name: &str) -> Option<&'a TableDefinition>
    ensures { option_copied result ≡ find (is_definition_named name.now) tables.now }
{
    tables.iter().find(|table| table.name().as_str() == name)
}

fn text_of_table(
    alloc: Global,
    catalogue: &Catalogue,
    table: &TableDefinition,
    json: bool,
) -> Result<String, AllocError>
    ensures { IfOk result (λ text. IsToldBy catalogue.now table.now json (string_bytes text)) }
{
    let tables = vec![in alloc; table]?;
    let found = each_access(alloc, catalogue, tables.as_slice())?;
    print_table(alloc, tables.as_slice(), found.as_slice(), json)
}

// What each role has of tables, and their policies, as text in columns or as JSON.
fn print_table(
    alloc: Global,
    tables: &[&TableDefinition],
    found: &[AccessOfTable<'_>],
    json: bool,
) -> Result<String, AllocError>
    ensures { IfOk result (λ text. string_bytes text
        ≡ printed json (table_sections (map (λ t. t.now) tables.now) found.now)) }
{
    let sections = sections_of_table(alloc, tables, found)?;
    print(alloc, sections.as_slice(), json)
}

// What is told of tables.
fn sections_of_table<'a>(
    alloc: Global,
    tables: &[&'a TableDefinition],
    found: &[AccessOfTable<'a>],
) -> Result<Vec<TextSection<'a>>, AllocError>
    ensures { IfOk result (λ sections. map section_of sections.items
        ≡ table_sections (map (λ t. t.now) tables.now) found.now) }
{
    let told = table_section(alloc, tables)?;
    let access = access_section(alloc, found)?;
    let grants = grant_section(alloc, found)?;
    let policies = policy_section(alloc, tables)?;
    let made = vec![in alloc; told, access, grants, policies]?;
    Ok(made)
}

// Sections as text in columns or as JSON.
fn print(alloc: Global, sections: &[TextSection<'_>], json: bool) -> Result<String, AllocError>
    ensures { IfOk result (λ text. string_bytes text ≡ printed json (map section_of sections.now)) }
{
    if json {
        json_text(alloc, sections)
    } else {
        columns_text(alloc, sections)
    }
}

/// The powers of roles over the whole database, as text in columns or as JSON: the attributes of each and the tables that it owns, as
/// which roles each may act by SET ROLE and by which memberships, who may grant which role on, and who which privilege. `AllocError`
/// comes where memory was refused.
pub fn powers_text(alloc: Global, catalogue: &Catalogue, json: bool) -> Result<String, AllocError>
    ensures { IfOk result (λ text. TellsPowers catalogue.now json (string_bytes text)) }
{
    let powers = powers(alloc, catalogue)?;
    print_powers(alloc, catalogue, powers.as_slice(), json)
}

// The powers of roles over a database, as text in columns or as JSON.
fn print_powers(
    alloc: Global,
    catalogue: &Catalogue,
    powers: &[RolePowers<'_>],
    json: bool,
) -> Result<String, AllocError>
    ensures { IfOk result (λ text. string_bytes text ≡ printed json (power_sections catalogue.now powers.now)) }
{
    let sections = sections_of_powers(alloc, catalogue, powers)?;
    print(alloc, sections.as_slice(), json)
}

// What is told of the powers of roles over a database.
fn sections_of_powers<'a>(
    alloc: Global,
    catalogue: &'a Catalogue,
    powers: &[RolePowers<'a>],
) -> Result<Vec<TextSection<'a>>, AllocError>
    ensures { IfOk result (λ sections. map section_of sections.items ≡ power_sections catalogue.now powers.now) }
{
    let tables = lent_tables(alloc, catalogue.tables())?;
    let roles = role_section(alloc, powers)?;
    let becoming = becoming_section(alloc, powers)?;
    let memberships = membership_section(alloc, catalogue.memberships().as_slice())?;
    let privileges = privilege_section(alloc, tables.as_slice(), true)?;
    let made = vec![in alloc; roles, becoming, memberships, privileges]?;
    Ok(made)
}

// Tables, lent.
fn lent_tables(
    alloc: Global,
    tables: &[TableDefinition],
) -> Result<Vec<&TableDefinition>, AllocError>
    ensures { IfOk result (λ lent. map (λ t. t.now) lent.items ≡ tables.now) }
{
    let mut lent = Vec::new(alloc);
    let mut rest = tables;
    while let [table, after @ ..] = rest {
        lent.push(table)?;
        rest = after;
    }
    Ok(lent)
}

/// What differs, as it is told.
#[derive(Drop)]
pub struct DifferencesText {
    pub text: String,
    /// Whether there is a difference.
    pub differs: bool,
}

/// What differs from an old database to a new one in definitions and rights: a line for each role, membership, table, column,
/// privilege and policy that is gone, came or has changed, and for each action that a role may do with a table, by itself or by SET
/// ROLE. As text a line each, or as JSON. `AllocError` comes where memory was refused.
pub fn differences_text(
    alloc: Global,
    old: &Catalogue,
    new: &Catalogue,
    json: bool,
) -> Result<DifferencesText, AllocError>
    ensures { IfOk result (TellsDifferences old.now new.now json) }
{
    let before = sections_of(alloc, old)?;
    let after = sections_of(alloc, new)?;
    tell_differences(alloc, before.as_slice(), after.as_slice(), json)
}

// What differs from old sections to new ones.
fn tell_differences(
    alloc: Global,
    before: &[TextSection<'_>],
    after: &[TextSection<'_>],
    json: bool,
) -> Result<DifferencesText, AllocError>
    ensures { IfOk result (TellsBetween (map section_of before.now) (map section_of after.now) json) }
{
    let before = ordered_lines(alloc, before)?;
    let after = ordered_lines(alloc, after)?;
    let old = lent_lines(alloc, before.as_slice())?;
    let new = lent_lines(alloc, after.as_slice())?;
    let found = differences(alloc, old.as_slice(), new.as_slice())?;
    print_differences(alloc, found.as_slice(), json)
}

// All that is compared of a database.
fn sections_of<'a>(
    alloc: Global,
    catalogue: &'a Catalogue,
) -> Result<Vec<TextSection<'a>>, AllocError>
    ensures { IfOk result (λ sections. AreAllSections catalogue.now (map section_of sections.items)) }
{
    let powers = powers(alloc, catalogue)?;
    let tables = lent_tables(alloc, catalogue.tables())?;
    let found = each_access(alloc, catalogue, tables.as_slice())?;
    all_sections(
        alloc,
        catalogue,
        powers.as_slice(),
        tables.as_slice(),
        found.as_slice(),
    )
}

// The definitions of a database, the powers of roles over it, and what each role has of its tables.
fn all_sections<'a>(
    alloc: Global,
    catalogue: &'a Catalogue,
    powers: &[RolePowers<'a>],
    tables: &[&'a TableDefinition],
    found: &[AccessOfTable<'a>],
) -> Result<Vec<TextSection<'a>>, AllocError>
    ensures { IfOk result (λ sections. map section_of sections.items
        ≡ all_sections catalogue.now powers.now (map (λ t. t.now) tables.now) found.now) }
{
    let mut sections = definition_sections(alloc, catalogue, powers, tables)?;
    sections.push(access_section(alloc, found)?)?;
    sections.push(grant_section(alloc, found)?)?;
    Ok(sections)
}

// The definitions of a database, and the powers of roles over it.
fn definition_sections<'a>(
    alloc: Global,
    catalogue: &'a Catalogue,
    powers: &[RolePowers<'a>],
    tables: &[&'a TableDefinition],
) -> Result<Vec<TextSection<'a>>, AllocError>
    ensures { IfOk result (λ sections. map section_of sections.items
        ≡ definition_sections catalogue.now powers.now (map (λ t. t.now) tables.now)) }
{
    let roles = role_section(alloc, powers)?;
    let becoming = becoming_section(alloc, powers)?;
    let memberships = membership_section(alloc, catalogue.memberships().as_slice())?;
    let told = table_section(alloc, tables)?;
    let columns = column_section(alloc, tables)?;
    let privileges = privilege_section(alloc, tables, false)?;
    let policies = policy_section(alloc, tables)?;
    let made = vec![in alloc;
        roles,
        becoming,
        memberships,
        told,
        columns,
        privileges,
        policies,
    ]?;
    Ok(made)
}

// Differences as text, a line each, or as JSON.
fn print_differences(
    alloc: Global,
    found: &[LineDifference<'_>],
    json: bool,
) -> Result<DifferencesText, AllocError>
    ensures text { IfOk result (λ told. string_bytes told.text ≡ printed_differences json found.now) }
    ensures differs { IfOk result (λ told. told.differs ≡ are_some found.now) }
{
    let differs = !found.is_empty();
    if json {
        let section = difference_section(alloc, found)?;
        let sections = vec![in alloc; section]?;
        let text = json_text(alloc, sections.as_slice())?;
        return Ok(DifferencesText { text, differs });
    }
    let text = difference_texts(alloc, found)?;
    Ok(DifferencesText { text, differs })
}
