//! The definitions of a database, as rows.

ghost use Rattle.std.specs.Prelude.{◌≡◌, ◌++◌, map, flat_map, IfOk, OnOk};
ghost use Rattle.section_texts.specs.Sections.{row_of, section_of};
ghost use Rattle.access_texts.specs.Definitions.{membership_row, membership_section, table_row, table_section, column_row, column_rows, column_section, privilege_row, privilege_rows, told_privilege_rows, privilege_section, policy_row, policy_rows, policy_section};

use crate::cells::{column_names, roles_cell};
use crate::words::{
    action_word, clause_cell, column_cell, grantee_cell, grantor_cell, kind_word, policy_word,
    type_word,
};
use catalogue::table::TableDefinition;
use section_texts::{SectionCell, TextSection};
use sql_ast::columns::Column;
use sql_ast::policy::Policy;
use sql_ast::privilege::Descriptor;
use sql_ast::role::Membership;
use std::alloc::{AllocError, Global};

/// Memberships, each with whether the member may grant the role on.
pub(crate) fn membership_section<'a>(
    alloc: Global,
    memberships: &'a [Membership],
) -> Result<TextSection<'a>, AllocError>
    ensures { IfOk result (λ section. section_of section ≡ membership_section memberships.now) }
{
    let mut rows = Vec::new(alloc);
    let mut rest = memberships;
    while let [membership, after @ ..] = rest {
        rows.push(membership_row(alloc, membership)?)?;
        rest = after;
    }
    Ok(TextSection {
        name: "memberships",
        columns: &["role", "in", "admin option"],
        keys: 2,
        rows,
    })
}

fn membership_row<'a>(
    alloc: Global,
    membership: &'a Membership,
) -> Result<Vec<SectionCell<'a>>, AllocError>
    ensures { IfOk result (λ row. row_of row.items ≡ membership_row membership.now) }
{
    let made = vec![in alloc;
        SectionCell::Text(membership.member.as_str()),
        SectionCell::Text(membership.role.as_str()),
        SectionCell::Flag(membership.admin),
    ]?;
    Ok(made)
}

/// Tables with their owners, and whether row security is enabled and concerns the owner too.
pub(crate) fn table_section<'a>(
    alloc: Global,
    tables: &[&'a TableDefinition],
) -> Result<TextSection<'a>, AllocError>
    ensures { IfOk result (λ section. section_of section ≡ table_section (map (λ t. t.now) tables.now)) }
{
    let mut rows = Vec::new(alloc);
    let mut rest = tables;
    while let [table, after @ ..] = rest {
        rows.push(table_row(alloc, table)?)?;
        rest = after;
    }
    Ok(TextSection {
        name: "tables",
        columns: &["table", "owner", "row security", "forced", "key"],
        keys: 1,
        rows,
    })
}

fn table_row<'a>(
    alloc: Global,
    table: &'a TableDefinition,
) -> Result<Vec<SectionCell<'a>>, AllocError>
    ensures { IfOk result (λ row. row_of row.items ≡ table_row table.now) }
{
    let key = column_names(alloc, table, table.columns().key())?;
    let made = vec![in alloc;
        SectionCell::Text(table.name().as_str()),
        SectionCell::Text(table.owner().as_str()),
        SectionCell::Flag(table.row_security()),
        SectionCell::Flag(table.forced()),
        SectionCell::Names(key),
    ]?;
    Ok(made)
}

/// The columns of tables.
pub(crate) fn column_section<'a>(
    alloc: Global,
    tables: &[&'a TableDefinition],
) -> Result<TextSection<'a>, AllocError>
    ensures { IfOk result (λ section. section_of section ≡ column_section (map (λ t. t.now) tables.now)) }
{
    let mut rows = Vec::new(alloc);
    let mut rest = tables;
    while let [table, after @ ..] = rest {
        push_columns(alloc, &mut rows, table)?;
        rest = after;
    }
    Ok(TextSection {
        name: "columns",
        columns: &["table", "column", "type", "not null"],
        keys: 2,
        rows,
    })
}

fn push_columns<'a>(
    alloc: Global,
    rows: &mut Vec<Vec<SectionCell<'a>>>,
    table: &'a TableDefinition,
) -> Result<(), AllocError>
    ensures { OnOk result (map (λ r. row_of r.items) rows.new.items ≡ map (λ r. row_of r.items) rows.old.items ++ column_rows table.now) }
{
    let mut rest = table.columns().as_slice();
    while let [column, after @ ..] = rest {
        rows.push(column_row(alloc, table, column)?)?;
        rest = after;
    }
    Ok(())
}

fn column_row<'a>(
    alloc: Global,
    table: &'a TableDefinition,
    column: &'a Column,
) -> Result<Vec<SectionCell<'a>>, AllocError>
    ensures { IfOk result (λ row. row_of row.items ≡ column_row table.now column.now) }
{
    let made = vec![in alloc;
        SectionCell::Text(table.name().as_str()),
        SectionCell::Text(column.name.as_str()),
        SectionCell::Text(type_word(column.column_type)),
        SectionCell::Flag(column.not_null),
    ]?;
    Ok(made)
}

/// The privilege descriptors of tables: all, or those alone whose grantee may grant them on.
pub(crate) fn privilege_section<'a>(
    alloc: Global,
    tables: &[&'a TableDefinition],
    grantable_only: bool,
) -> Result<TextSection<'a>, AllocError>
    ensures { IfOk result (λ section. section_of section ≡ privilege_section grantable_only (map (λ t. t.now) tables.now)) }
{
    let mut rows = Vec::new(alloc);
    let mut rest = tables;
    while let [table, after @ ..] = rest {
        push_privileges(alloc, &mut rows, table, grantable_only)?;
        rest = after;
    }
    Ok(TextSection {
        name: "privileges",
        columns: &["table", "column", "privilege", "to", "by", "grant option"],
        keys: 5,
        rows,
    })
}

fn push_privileges<'a>(
    alloc: Global,
    rows: &mut Vec<Vec<SectionCell<'a>>>,
    table: &'a TableDefinition,
    grantable_only: bool,
) -> Result<(), AllocError>
    ensures { OnOk result (map (λ r. row_of r.items) rows.new.items ≡ map (λ r. row_of r.items) rows.old.items ++ privilege_rows grantable_only table.now) }
{
    let mut rest = table.descriptors();
    while let [descriptor, after @ ..] = rest {
        push_privilege(alloc, rows, table, descriptor, grantable_only)?;
        rest = after;
    }
    Ok(())
}

fn push_privilege<'a>(
    alloc: Global,
    rows: &mut Vec<Vec<SectionCell<'a>>>,
    table: &'a TableDefinition,
    descriptor: &'a Descriptor,
    grantable_only: bool,
) -> Result<(), AllocError>
    ensures { OnOk result (map (λ r. row_of r.items) rows.new.items
        ≡ map (λ r. row_of r.items) rows.old.items ++ told_privilege_rows grantable_only table.now descriptor.now) }
{
    if descriptor.grantable || !grantable_only {
        rows.push(privilege_row(alloc, table, descriptor)?)?;
    }
    Ok(())
}

fn privilege_row<'a>(
    alloc: Global,
    table: &'a TableDefinition,
    descriptor: &'a Descriptor,
) -> Result<Vec<SectionCell<'a>>, AllocError>
    ensures { IfOk result (λ row. row_of row.items ≡ privilege_row table.now descriptor.now) }
{
    let made = vec![in alloc;
        SectionCell::Text(table.name().as_str()),
        column_cell(table, descriptor.column),
        SectionCell::Text(action_word(descriptor.action)),
        grantee_cell(&descriptor.grantee),
        grantor_cell(&descriptor.grantor),
        SectionCell::Flag(descriptor.grantable),
    ]?;
    Ok(made)
}

/// The policies of tables with their texts.
pub(crate) fn policy_section<'a>(
    alloc: Global,
    tables: &[&'a TableDefinition],
) -> Result<TextSection<'a>, AllocError>
    ensures { IfOk result (λ section. section_of section ≡ policy_section (map (λ t. t.now) tables.now)) }
{
    let mut rows = Vec::new(alloc);
    let mut rest = tables;
    while let [table, after @ ..] = rest {
        push_policies(alloc, &mut rows, table)?;
        rest = after;
    }
    Ok(TextSection {
        name: "policies",
        columns: &[
            "table",
            "policy",
            "kind",
            "command",
            "roles",
            "using",
            "with check",
        ],
        keys: 2,
        rows,
    })
}

fn push_policies<'a>(
    alloc: Global,
    rows: &mut Vec<Vec<SectionCell<'a>>>,
    table: &'a TableDefinition,
) -> Result<(), AllocError>
    ensures { OnOk result (map (λ r. row_of r.items) rows.new.items ≡ map (λ r. row_of r.items) rows.old.items ++ policy_rows table.now) }
{
    let mut rest = table.policies();
    while let [policy, after @ ..] = rest {
        rows.push(policy_row(alloc, table, &policy.policy)?)?;
        rest = after;
    }
    Ok(())
}

fn policy_row<'a>(
    alloc: Global,
    table: &'a TableDefinition,
    policy: &'a Policy,
) -> Result<Vec<SectionCell<'a>>, AllocError>
    ensures { IfOk result (λ row. row_of row.items ≡ policy_row table.now policy.now) }
{
    let roles = roles_cell(alloc, &policy.roles)?;
    let made = vec![in alloc;
        SectionCell::Text(table.name().as_str()),
        SectionCell::Text(policy.name.as_str()),
        SectionCell::Text(kind_word(policy.kind)),
        SectionCell::Text(policy_word(policy.command)),
        roles,
        clause_cell(&policy.using),
        clause_cell(&policy.check),
    ]?;
    Ok(made)
}
