//! Who may do what with tables, as rows.

ghost use Rattle.std.specs.Prelude.{◌≡◌, ◌++◌, ◌∷◌, [], map, flat_map, find, IfOk, OnOk};
ghost use Rattle.std.specs.Option.{option_copied};
ghost use Rattle.section_texts.specs.Sections.{row_of, section_of};
ghost use Rattle.access_texts.specs.Access.{action_row, action_rows, role_rows, own_rows, is_of_role, settable_rows, acting_rows, access_rows, access_section, grant_row, action_grants, role_grants, grant_rows, grant_section};

use crate::cells::{columns_cell, policies_cell, ways};
use crate::each_table::AccessOfTable;
use crate::words::{action_word, column_cell, grantee_cell, grantor_cell};
use catalogue::table::TableDefinition;
use section_texts::{SectionCell, TextSection};
use sql_ast::privilege::Action;
use sql_ast::role::Membership;
use sql_types::name::Name;
use std::alloc::{AllocError, Global};
use table_access::acting::{SettableRole, SettableRoles};
use table_access::action::{ActionAccess, HeldGrant};
use table_access::role::RoleAccess;

/// What each role may do with tables: by itself, and as each role that it may set where that makes a difference.
pub(crate) fn access_section<'a>(
    alloc: Global,
    tables: &[AccessOfTable<'a>],
) -> Result<TextSection<'a>, AllocError>
    ensures { IfOk result (λ section. section_of section ≡ access_section tables.now) }
{
    let mut rows = Vec::new(alloc);
    let mut rest = tables;
    while let [table, after @ ..] = rest {
        push_table(alloc, &mut rows, table)?;
        rest = after;
    }
    Ok(TextSection {
        name: "access",
        columns: &[
            "table",
            "role",
            "as",
            "action",
            "columns",
            "policies",
            "asks who acts",
            "by",
        ],
        keys: 4,
        rows,
    })
}

// Adds what each role may do with a table.
fn push_table<'a>(
    alloc: Global,
    rows: &mut Vec<Vec<SectionCell<'a>>>,
    found: &AccessOfTable<'a>,
) -> Result<(), AllocError>
    ensures { OnOk result (map (λ r. row_of r.items) rows.new.items ≡ map (λ r. row_of r.items) rows.old.items ++ access_rows found.now) }
{
    let roles = found.access.roles.as_slice();
    push_own(alloc, rows, found.table, roles)?;
    push_acting(
        alloc,
        rows,
        found.table,
        roles,
        found.access.acting.as_slice(),
    )
}

// Adds what each role may do by itself.
fn push_own<'a>(
    alloc: Global,
    rows: &mut Vec<Vec<SectionCell<'a>>>,
    table: &'a TableDefinition,
    roles: &[RoleAccess<'a>],
) -> Result<(), AllocError>
    ensures { OnOk result (map (λ r. row_of r.items) rows.new.items
        ≡ map (λ r. row_of r.items) rows.old.items ++ flat_map (own_rows table.now.definition) roles.now) }
{
    let mut rest = roles;
    while let [role, after @ ..] = rest {
        push_role(alloc, rows, table, &role.role.name, &[], role)?;
        rest = after;
    }
    Ok(())
}

// Adds what each role may do as others.
fn push_acting<'a>(
    alloc: Global,
    rows: &mut Vec<Vec<SectionCell<'a>>>,
    table: &'a TableDefinition,
    roles: &[RoleAccess<'a>],
    acting: &[SettableRoles<'a>],
) -> Result<(), AllocError>
    ensures { OnOk result (map (λ r. row_of r.items) rows.new.items
        ≡ map (λ r. row_of r.items) rows.old.items ++ flat_map (acting_rows table.now.definition roles.now) acting.now) }
{
    let mut rest = acting;
    while let [one, after @ ..] = rest {
        push_others(
            alloc,
            rows,
            table,
            roles,
            &one.role.name,
            one.others.as_slice(),
        )?;
        rest = after;
    }
    Ok(())
}

// Adds what a role may do as others.
fn push_others<'a>(
    alloc: Global,
    rows: &mut Vec<Vec<SectionCell<'a>>>,
    table: &'a TableDefinition,
    roles: &[RoleAccess<'a>],
    role: &'a Name,
    others: &[SettableRole<'a>],
) -> Result<(), AllocError>
    ensures { OnOk result (map (λ r. row_of r.items) rows.new.items
        ≡ map (λ r. row_of r.items) rows.old.items ++ flat_map (settable_rows table.now.definition roles.now role.now) others.now) }
{
    let mut rest = others;
    while let [other, after @ ..] = rest {
        push_settable(alloc, rows, table, roles, role, other)?;
        rest = after;
    }
    Ok(())
}

// Adds what a role may do as another one.
fn push_settable<'a>(
    alloc: Global,
    rows: &mut Vec<Vec<SectionCell<'a>>>,
    table: &'a TableDefinition,
    roles: &[RoleAccess<'a>],
    role: &'a Name,
    other: &SettableRole<'a>,
) -> Result<(), AllocError>
    ensures { OnOk result (map (λ r. row_of r.items) rows.new.items
        ≡ map (λ r. row_of r.items) rows.old.items ++ settable_rows table.now.definition roles.now role.now other.now) }
{
    match access_of_role(roles, &other.role.name) {
        None => Ok(()),
        Some(access) => push_role(
            alloc,
            rows,
            table,
            role,
            other.memberships.as_slice(),
            access,
        ),
    }
}

// What the role of a name has.
fn access_of_role<'s, 'a>(roles: &'s [RoleAccess<'a>], name: &Name) -> Option<&'s RoleAccess<'a>>
    ensures { option_copied result ≡ find (is_of_role name.now) roles.now }
{
    roles.iter().find(|access| access.role.name == *name)
}

// Adds what a role may do as the one that has this: a row for each action.
fn push_role<'a>(
    alloc: Global,
    rows: &mut Vec<Vec<SectionCell<'a>>>,
    table: &'a TableDefinition,
    role: &'a Name,
    by: &[&'a Membership],
    access: &RoleAccess<'a>,
) -> Result<(), AllocError>
    ensures { OnOk result (map (λ r. row_of r.items) rows.new.items
        ≡ map (λ r. row_of r.items) rows.old.items ++ role_rows table.now.definition role.now (map (λ m. m.now) by.now) access.now) }
{
    push_action(
        alloc,
        rows,
        table,
        role,
        by,
        access,
        Action::Select,
        &access.select,
    )?;
    push_action(
        alloc,
        rows,
        table,
        role,
        by,
        access,
        Action::Insert,
        &access.insert,
    )?;
    push_action(
        alloc,
        rows,
        table,
        role,
        by,
        access,
        Action::Update,
        &access.update,
    )?;
    push_action(
        alloc,
        rows,
        table,
        role,
        by,
        access,
        Action::Delete,
        &access.delete,
    )
}

// Adds a row for an action, where the role has it.
fn push_action<'a>(
    alloc: Global,
    rows: &mut Vec<Vec<SectionCell<'a>>>,
    table: &'a TableDefinition,
    role: &'a Name,
    by: &[&'a Membership],
    access: &RoleAccess<'a>,
    action: Action,
    has: &ActionAccess<'a>,
) -> Result<(), AllocError>
    ensures { OnOk result (map (λ r. row_of r.items) rows.new.items
        ≡ map (λ r. row_of r.items) rows.old.items ++ action_rows table.now.definition role.now (map (λ m. m.now) by.now) access.now action has.now) }
{
    if has.is_allowed {
        rows.push(action_row(alloc, table, role, by, access, action, has)?)?;
    }
    Ok(())
}

fn action_row<'a>(
    alloc: Global,
    table: &'a TableDefinition,
    role: &'a Name,
    by: &[&'a Membership],
    access: &RoleAccess<'a>,
    action: Action,
    has: &ActionAccess<'a>,
) -> Result<Vec<SectionCell<'a>>, AllocError>
    ensures { IfOk result (λ row. row_of row.items
        ≡ action_row table.now.definition role.now (map (λ m. m.now) by.now) access.now action has.now) }
{
    let columns = columns_cell(alloc, table, has)?;
    let policies = policies_cell(alloc, access.is_guarded, has.policies.as_slice())?;
    let by = ways(alloc, by)?;
    let made = vec![in alloc;
        SectionCell::Text(table.name().as_str()),
        SectionCell::Text(role.as_str()),
        SectionCell::Text(access.role.name.as_str()),
        SectionCell::Text(action_word(action)),
        columns,
        policies,
        SectionCell::Flag(has.names_user),
        SectionCell::Ways(by),
    ]?;
    Ok(made)
}

/// By which grants each role may do what with tables.
pub(crate) fn grant_section<'a>(
    alloc: Global,
    tables: &[AccessOfTable<'a>],
) -> Result<TextSection<'a>, AllocError>
    ensures { IfOk result (λ section. section_of section ≡ grant_section tables.now) }
{
    let mut rows = Vec::new(alloc);
    let mut rest = tables;
    while let [table, after @ ..] = rest {
        push_grants(alloc, &mut rows, table)?;
        rest = after;
    }
    Ok(TextSection {
        name: "grants",
        columns: &[
            "table",
            "role",
            "action",
            "column",
            "to",
            "by",
            "grant option",
            "through",
        ],
        keys: 6,
        rows,
    })
}

// Adds the grants of each role on a table.
fn push_grants<'a>(
    alloc: Global,
    rows: &mut Vec<Vec<SectionCell<'a>>>,
    found: &AccessOfTable<'a>,
) -> Result<(), AllocError>
    ensures { OnOk result (map (λ r. row_of r.items) rows.new.items ≡ map (λ r. row_of r.items) rows.old.items ++ grant_rows found.now) }
{
    let mut rest = found.access.roles.as_slice();
    while let [role, after @ ..] = rest {
        push_role_grants(alloc, rows, found.table, role)?;
        rest = after;
    }
    Ok(())
}

// Adds the grants of a role on a table.
fn push_role_grants<'a>(
    alloc: Global,
    rows: &mut Vec<Vec<SectionCell<'a>>>,
    table: &'a TableDefinition,
    access: &RoleAccess<'a>,
) -> Result<(), AllocError>
    ensures { OnOk result (map (λ r. row_of r.items) rows.new.items
        ≡ map (λ r. row_of r.items) rows.old.items ++ role_grants table.now.definition access.now) }
{
    let role = &access.role.name;
    push_action_grants(alloc, rows, table, role, Action::Select, &access.select)?;
    push_action_grants(alloc, rows, table, role, Action::Insert, &access.insert)?;
    push_action_grants(alloc, rows, table, role, Action::Update, &access.update)?;
    push_action_grants(alloc, rows, table, role, Action::Delete, &access.delete)
}

// Adds the grants of a role on a table for an action.
fn push_action_grants<'a>(
    alloc: Global,
    rows: &mut Vec<Vec<SectionCell<'a>>>,
    table: &'a TableDefinition,
    role: &'a Name,
    action: Action,
    has: &ActionAccess<'a>,
) -> Result<(), AllocError>
    ensures { OnOk result (map (λ r. row_of r.items) rows.new.items
        ≡ map (λ r. row_of r.items) rows.old.items ++ action_grants table.now.definition role.now action has.now) }
{
    let mut rest = has.grants.as_slice();
    while let [grant, after @ ..] = rest {
        rows.push(grant_row(alloc, table, role, action, grant)?)?;
        rest = after;
    }
    Ok(())
}

fn grant_row<'a>(
    alloc: Global,
    table: &'a TableDefinition,
    role: &'a Name,
    action: Action,
    grant: &HeldGrant<'a>,
) -> Result<Vec<SectionCell<'a>>, AllocError>
    ensures { IfOk result (λ row. row_of row.items
        ≡ grant_row table.now.definition role.now action grant.now) }
{
    let through = ways(alloc, grant.memberships.as_slice())?;
    let made = vec![in alloc;
        SectionCell::Text(table.name().as_str()),
        SectionCell::Text(role.as_str()),
        SectionCell::Text(action_word(action)),
        column_cell(table, grant.descriptor.column),
        grantee_cell(&grant.descriptor.grantee),
        grantor_cell(&grant.descriptor.grantor),
        SectionCell::Flag(grant.descriptor.grantable),
        SectionCell::Ways(through),
    ]?;
    Ok(made)
}
