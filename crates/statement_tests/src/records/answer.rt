//! What a catalogue has by a name.

use crate::names::name_of;
use crate::records::database::{put_membership, put_policy, put_role, put_table};
use crate::records::notation::record_of;
use crate::records::rows::put_row;
use crate::told::Told;
use anyhow::{Result, bail};
use catalogue::definitions::Catalogue;
use sql_types::name::Name;
use std::alloc::Global;

/// Tells what a catalogue has by two names, or the row of a table that a record spells.
pub fn put_answer(
    alloc: Global,
    catalogue: &Catalogue,
    word: &str,
    text: &str,
    out: &mut Told,
) -> Result<()> {
    let (first, second) = text.split_once(' ').unwrap_or((text, ""));
    let first = name_of(alloc, first)?;
    match word {
        "find" => find(alloc, catalogue, &first, second, out),
        "row" => find_row(alloc, catalogue, &first, second, out),
        _ => bail!("a line is no case"),
    }
}

/// Tells the role and the table of a name, and its member and its policy of the other name, or `none`.
fn find(
    alloc: Global,
    catalogue: &Catalogue,
    name: &Name,
    other: &str,
    out: &mut Told,
) -> Result<()> {
    let other = name_of(alloc, other)?;
    if let Some(role) = catalogue.role(name) {
        put_role(out, role);
    }
    if let Some(membership) = catalogue.membership(name, &other) {
        put_membership(out, membership);
    }
    if let Some(table) = catalogue.table(name) {
        put_table(out, table);
        if let Some(policy) = table.policy(&other) {
            put_policy(out, &policy.policy);
        }
    }
    if out.is_empty() {
        out.put("none\n");
    }
    Ok(())
}

/// Tells the row of the table of a name that a record without the number of the table spells, or `none`.
fn find_row(
    alloc: Global,
    catalogue: &Catalogue,
    name: &Name,
    record: &str,
    out: &mut Told,
) -> Result<()> {
    let record = record_of(alloc, record)?;
    match catalogue.table(name) {
        Some(table) => put_row(alloc, out, table, record.key(), record.value())?,
        None => out.put("none\n"),
    }
    Ok(())
}
