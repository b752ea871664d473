//! The sections of a database: its roles, their memberships, its tables, and who has which privilege on them.

use crate::section::{Cell, Section};
use crate::words::{
    action_word, clause_cell, column_cell, command_word, grantee_cell, grantor_cell, kind_word,
    roles_cell, type_word,
};
use catalogue::definitions::Catalogue;
use catalogue::table::TableDefinition;
use descriptions::memberships::{MembershipDescription, describe_memberships};
use sql_ast::role::Role;
use sql_types::name::Name;
use std::alloc::{AllocError, Global};

/// The sections of a database.
pub fn database_sections<'a>(
    alloc: Global,
    catalogue: &'a Catalogue,
) -> Result<Vec<Section<'a>>, AllocError> {
    let tables = catalogue.tables();
    let mut sections = Vec::new(alloc);
    push_section(&mut sections, roles(alloc, catalogue.roles()))?;
    push_section(&mut sections, memberships(alloc, catalogue))?;
    push_section(&mut sections, table_section(alloc, tables))?;
    push_section(&mut sections, columns(alloc, tables))?;
    push_section(&mut sections, privileges(alloc, tables))?;
    push_section(&mut sections, policies(alloc, tables))?;
    Ok(sections)
}

/// Adds a section, where memory was not refused for it.
fn push_section<'a>(
    sections: &mut Vec<Section<'a>>,
    section: Result<Section<'a>, AllocError>,
) -> Result<(), AllocError> {
    sections.push(section?)?;
    Ok(())
}

/// The roles with their attributes.
pub(crate) fn roles<'a>(alloc: Global, roles: &'a [Role]) -> Result<Section<'a>, AllocError> {
    let mut section = Section::new(alloc, "roles", &["role", "superuser", "login", "bypassrls"]);
    for role in roles {
        section.push(role_row(alloc, role)?)?;
    }
    Ok(section)
}

/// A role with its attributes.
pub(crate) fn role_row<'a>(alloc: Global, role: &'a Role) -> Result<Vec<Cell<'a>>, AllocError> {
    let row = vec![in alloc;
        Cell::Text(role.name.as_str()),
        Cell::Flag(role.attributes.superuser),
        Cell::Flag(role.attributes.login),
        Cell::Flag(role.attributes.bypass_rls),
    ]?;
    Ok(row)
}

/// The memberships of all roles.
fn memberships<'a>(alloc: Global, catalogue: &'a Catalogue) -> Result<Section<'a>, AllocError> {
    let mut section = membership_section(alloc);
    for role in catalogue.roles() {
        let found = describe_memberships(alloc, catalogue.memberships(), &role.name)?;
        push_memberships(alloc, &mut section, &role.name, found.as_slice())?;
    }
    Ok(section)
}

/// The section of memberships, with no rows yet.
pub(crate) fn membership_section<'a>(alloc: Global) -> Section<'a> {
    Section::new(alloc, "memberships", &["role", "in", "through", "admin"])
}

/// Adds what a role is in through each of its memberships.
pub(crate) fn push_memberships<'a>(
    alloc: Global,
    section: &mut Section<'a>,
    role: &'a Name,
    memberships: &[MembershipDescription<'a>],
) -> Result<(), AllocError> {
    for membership in memberships {
        push_membership(alloc, section, role, membership)?;
    }
    Ok(())
}

/// Adds what a role is in through one membership. Whether it may grant the role on is said of the membership's own role.
fn push_membership<'a>(
    alloc: Global,
    section: &mut Section<'a>,
    role: &'a Name,
    description: &MembershipDescription<'a>,
) -> Result<(), AllocError> {
    let through = description.membership.role.as_str();
    for reached in description.leads_to.names() {
        let admin = if *reached == through {
            Cell::Flag(description.membership.admin)
        } else {
            Cell::Absent
        };
        section.push(vec![in alloc;
            Cell::Text(role.as_str()),
            Cell::Text(reached),
            Cell::Text(through),
            admin,
        ]?)?;
    }
    Ok(())
}

/// The tables with their owners.
fn table_section<'a>(
    alloc: Global,
    tables: &'a [TableDefinition],
) -> Result<Section<'a>, AllocError> {
    let mut section = Section::new(
        alloc,
        "tables",
        &["table", "owner", "row security", "forced"],
    );
    for table in tables {
        section.push(vec![in alloc;
            Cell::Text(table.name().as_str()),
            Cell::Text(table.owner().as_str()),
            Cell::Flag(table.row_security()),
            Cell::Flag(table.forced()),
        ]?)?;
    }
    Ok(section)
}

/// The columns of all tables, with their places in the primary key.
fn columns<'a>(alloc: Global, tables: &'a [TableDefinition]) -> Result<Section<'a>, AllocError> {
    let mut section = Section::new(
        alloc,
        "columns",
        &["table", "column", "type", "not null", "key"],
    );
    for table in tables {
        push_columns(alloc, &mut section, table)?;
    }
    Ok(section)
}

fn push_columns<'a>(
    alloc: Global,
    section: &mut Section<'a>,
    table: &'a TableDefinition,
) -> Result<(), AllocError> {
    for (index, column) in table.columns().as_slice().iter().enumerate() {
        let place = match table.columns().key().iter().position(|key| *key == index) {
            None => Cell::Absent,
            Some(place) => Cell::Number(place.saturating_add(1)),
        };
        section.push(vec![in alloc;
            Cell::Text(table.name().as_str()),
            Cell::Text(column.name.as_str()),
            Cell::Text(type_word(column.column_type)),
            Cell::Flag(column.not_null),
            place,
        ]?)?;
    }
    Ok(())
}

/// Who has which privilege on each table, from whom, and may grant it on.
fn privileges<'a>(alloc: Global, tables: &'a [TableDefinition]) -> Result<Section<'a>, AllocError> {
    let mut section = Section::new(
        alloc,
        "privileges",
        &["table", "column", "privilege", "to", "by", "grant option"],
    );
    for table in tables {
        push_privileges(alloc, &mut section, table)?;
    }
    Ok(section)
}

fn push_privileges<'a>(
    alloc: Global,
    section: &mut Section<'a>,
    table: &'a TableDefinition,
) -> Result<(), AllocError> {
    for descriptor in table.descriptors() {
        section.push(vec![in alloc;
            Cell::Text(table.name().as_str()),
            column_cell(table, descriptor.column),
            Cell::Text(action_word(descriptor.action)),
            grantee_cell(&descriptor.grantee),
            grantor_cell(&descriptor.grantor),
            Cell::Flag(descriptor.grantable),
        ]?)?;
    }
    Ok(())
}

/// The policies of all tables with their texts.
fn policies<'a>(alloc: Global, tables: &'a [TableDefinition]) -> Result<Section<'a>, AllocError> {
    let mut section = Section::new(
        alloc,
        "policies",
        &[
            "table",
            "policy",
            "kind",
            "command",
            "roles",
            "using",
            "with check",
        ],
    );
    for table in tables {
        push_policies(alloc, &mut section, table)?;
    }
    Ok(section)
}

fn push_policies<'a>(
    alloc: Global,
    section: &mut Section<'a>,
    table: &'a TableDefinition,
) -> Result<(), AllocError> {
    for policy in table.policies() {
        section.push(vec![in alloc;
            Cell::Text(table.name().as_str()),
            Cell::Text(policy.policy.name.as_str()),
            Cell::Text(kind_word(policy.policy.kind)),
            Cell::Text(command_word(policy.policy.command)),
            roles_cell(&policy.policy.roles),
            clause_cell(&policy.policy.using),
            clause_cell(&policy.policy.check),
        ]?)?;
    }
    Ok(())
}
