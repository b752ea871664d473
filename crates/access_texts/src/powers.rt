//! The powers of roles over the whole database, as rows.

ghost use Rattle.std.specs.Prelude.{◌≡◌, ◌++◌, map, flat_map, IfOk, OnOk};
ghost use Rattle.section_texts.specs.Sections.{row_of, section_of};
ghost use Rattle.access_texts.specs.Powers.{owned_names, role_row, role_section, becoming_row, becoming_rows, becoming_section};

use crate::cells::ways;
use catalogue::table::TableDefinition;
use section_texts::{SectionCell, TextSection};
use sql_types::name::Name;
use std::alloc::{AllocError, Global};
use table_access::acting::SettableRole;
use table_access::powers::RolePowers;

/// Each role with its attributes and the tables that it owns.
pub(crate) fn role_section<'a>(
    alloc: Global,
    powers: &[RolePowers<'a>],
) -> Result<TextSection<'a>, AllocError>
    ensures { IfOk result (λ section. section_of section ≡ role_section powers.now) }
{
    let mut rows = Vec::new(alloc);
    let mut rest = powers;
    while let [role, after @ ..] = rest {
        rows.push(role_row(alloc, role)?)?;
        rest = after;
    }
    Ok(TextSection {
        name: "roles",
        columns: &["role", "superuser", "login", "bypassrls", "owns"],
        keys: 1,
        rows,
    })
}

fn role_row<'a>(alloc: Global, powers: &RolePowers<'a>) -> Result<Vec<SectionCell<'a>>, AllocError>
    ensures { IfOk result (λ row. row_of row.items ≡ role_row powers.now) }
{
    let owns = owned_names(alloc, powers.owns.as_slice())?;
    let made = vec![in alloc;
        SectionCell::Text(powers.role.name.as_str()),
        SectionCell::Flag(powers.role.attributes.superuser),
        SectionCell::Flag(powers.role.attributes.login),
        SectionCell::Flag(powers.role.attributes.bypass_rls),
        SectionCell::Names(owns),
    ]?;
    Ok(made)
}

// The names of tables.
fn owned_names<'a>(
    alloc: Global,
    tables: &[&'a TableDefinition],
) -> Result<Vec<&'a str>, AllocError>
    ensures { IfOk result (λ names. map (λ n. n.now) names.items ≡ owned_names tables.now) }
{
    let mut names = Vec::new(alloc);
    let mut rest = tables;
    while let [table, after @ ..] = rest {
        names.push(table.name().as_str())?;
        rest = after;
    }
    Ok(names)
}

/// As which roles each role may act by SET ROLE, and by which memberships.
pub(crate) fn becoming_section<'a>(
    alloc: Global,
    powers: &[RolePowers<'a>],
) -> Result<TextSection<'a>, AllocError>
    ensures { IfOk result (λ section. section_of section ≡ becoming_section powers.now) }
{
    let mut rows = Vec::new(alloc);
    let mut rest = powers;
    while let [role, after @ ..] = rest {
        push_becoming(alloc, &mut rows, &role.role.name, role.others.as_slice())?;
        rest = after;
    }
    Ok(TextSection {
        name: "may become",
        columns: &["role", "as", "superuser", "bypassrls", "by"],
        keys: 2,
        rows,
    })
}

// Adds as which roles a role may act.
fn push_becoming<'a>(
    alloc: Global,
    rows: &mut Vec<Vec<SectionCell<'a>>>,
    role: &'a Name,
    others: &[SettableRole<'a>],
) -> Result<(), AllocError>
    ensures { OnOk result (map (λ r. row_of r.items) rows.new.items ≡ map (λ r. row_of r.items) rows.old.items ++ map (becoming_row role.now) others.now) }
{
    let mut rest = others;
    while let [other, after @ ..] = rest {
        rows.push(becoming_row(alloc, role, other)?)?;
        rest = after;
    }
    Ok(())
}

fn becoming_row<'a>(
    alloc: Global,
    role: &'a Name,
    other: &SettableRole<'a>,
) -> Result<Vec<SectionCell<'a>>, AllocError>
    ensures { IfOk result (λ row. row_of row.items ≡ becoming_row role.now other.now) }
{
    let by = ways(alloc, other.memberships.as_slice())?;
    let made = vec![in alloc;
        SectionCell::Text(role.as_str()),
        SectionCell::Text(other.role.name.as_str()),
        SectionCell::Flag(other.role.attributes.superuser),
        SectionCell::Flag(other.role.attributes.bypass_rls),
        SectionCell::Ways(by),
    ]?;
    Ok(made)
}
