//! The sections of a role: what it is in, what it may do to each table, and which policies apply to it.

ghost use Rattle.std.specs.Prelude.{◌≡◌, ◌≢◌, None, find, IfOk, MatchOption};
ghost use Rattle.abstract_database.specs.Database.{is_role_named};
ghost use Rattle.descriptions.specs.Descriptions.{AreItsRoles};
ghost use Rattle.description_texts.specs.Descriptions.{actions_on};

use crate::database::{membership_section, push_memberships, role_row};
use crate::section::{Cell, Section};
use crate::words::{
    action_word, clause_cell, column_cell, grantee_cell, grantor_cell, kind_word, name_cell,
};
use catalogue::definitions::Catalogue;
use catalogue::table::TableDefinition;
use descriptions::access::{TableAccess, describe_access, describe_privilege};
use descriptions::role::{RoleDescription, describe_role};
use role_membership::RoleSet;
use sql_ast::policy::Policy;
use sql_ast::privilege::{Action, Privilege};
use sql_types::name::Name;
use std::alloc::{AllocError, Global};

/// The sections of the role of a name, or `None` where no role has it.
pub fn role_sections<'a>(
    alloc: Global,
    catalogue: &'a Catalogue,
    name: &'a Name,
) -> Result<Option<Vec<Section<'a>>>, AllocError>
    ensures { IfOk result (λ found. MatchOption found
        (find (is_role_named name.now) catalogue.now.roles ≡ None)
        (λ sections. find (is_role_named name.now) catalogue.now.roles ≢ None)) }
{
    let Some(description) = describe_role(alloc, catalogue, name)? else {
        return Ok(None);
    };
    let sections = sections_of(alloc, catalogue, name, &description)?;
    Ok(Some(sections))
}

/// The sections of a role that is there.
fn sections_of<'a>(
    alloc: Global,
    catalogue: &'a Catalogue,
    name: &'a Name,
    description: &RoleDescription<'a>,
) -> Result<Vec<Section<'a>>, AllocError>
    requires { AreItsRoles catalogue.now.memberships name.now description.now.roles }
{
    let mut sections = Vec::new(alloc);
    push_role(alloc, &mut sections, name, description)?;
    let mut tables = TableSections::new(alloc);
    for table in catalogue.tables() {
        tables.push(alloc, catalogue, &description.roles, name, table)?;
    }
    tables.push_to(&mut sections)?;
    Ok(sections)
}

/// What a role may do to tables, by kind.
#[derive(Drop)]
struct TableSections<'a> {
    rights: Section<'a>,
    given: Section<'a>,
    guards: Section<'a>,
    policies: Section<'a>,
}

impl<'a> TableSections<'a> {
    fn new(alloc: Global) -> TableSections<'a> {
        TableSections {
            rights: rights_section(alloc),
            given: given_section(alloc),
            guards: guard_section(alloc),
            policies: policy_section(alloc),
        }
    }

    /// Adds what the role may do to a table.
    fn push(
        &mut self,
        alloc: Global,
        catalogue: &'a Catalogue,
        roles: &RoleSet<'_>,
        role: &'a Name,
        table: &'a TableDefinition,
    ) -> Result<(), AllocError>
        requires { AreItsRoles catalogue.now.memberships role.now roles.now }
    {
        push_rights(alloc, &mut self.rights, catalogue, roles, role, table)?;
        let access = describe_access(alloc, catalogue, roles, role, table)?;
        self.push_access(alloc, table, &access)
    }

    /// Adds what gives the role something of a table, and which policies guard it.
    fn push_access(
        &mut self,
        alloc: Global,
        table: &'a TableDefinition,
        access: &TableAccess<'a>,
    ) -> Result<(), AllocError> {
        push_given(alloc, &mut self.given, table, access)?;
        self.guards.push(vec![in alloc;
            Cell::Text(table.name().as_str()),
            Cell::Flag(access.is_guarded),
        ]?)?;
        push_policies(alloc, &mut self.policies, table, access)
    }

    /// Adds the sections to others.
    fn push_to(self, sections: &mut Vec<Section<'a>>) -> Result<(), AllocError> {
        sections.push(self.rights)?;
        sections.push(self.given)?;
        sections.push(self.guards)?;
        sections.push(self.policies)?;
        Ok(())
    }
}

/// Adds the sections of the role itself and of its memberships.
fn push_role<'a>(
    alloc: Global,
    sections: &mut Vec<Section<'a>>,
    name: &'a Name,
    description: &RoleDescription<'a>,
) -> Result<(), AllocError> {
    let mut roles = Section::new(alloc, "roles", &["role", "superuser", "login", "bypassrls"]);
    roles.push(role_row(alloc, description.role)?)?;
    sections.push(roles)?;
    let mut memberships = membership_section(alloc);
    push_memberships(
        alloc,
        &mut memberships,
        name,
        description.memberships.as_slice(),
    )?;
    sections.push(memberships)?;
    Ok(())
}

fn rights_section<'a>(alloc: Global) -> Section<'a> {
    Section::new(
        alloc,
        "rights",
        &["table", "column", "privilege", "held", "grants as"],
    )
}

fn given_section<'a>(alloc: Global) -> Section<'a> {
    Section::new(
        alloc,
        "given",
        &[
            "table",
            "column",
            "privilege",
            "through",
            "by",
            "grant option",
        ],
    )
}

fn guard_section<'a>(alloc: Global) -> Section<'a> {
    Section::new(alloc, "row security", &["table", "guarded"])
}

fn policy_section<'a>(alloc: Global) -> Section<'a> {
    Section::new(
        alloc,
        "policies",
        &["table", "command", "policy", "kind", "using", "with check"],
    )
}

/// Adds what the role may do to a table and to each of its columns.
fn push_rights<'a>(
    alloc: Global,
    section: &mut Section<'a>,
    catalogue: &'a Catalogue,
    roles: &RoleSet<'_>,
    role: &'a Name,
    table: &'a TableDefinition,
) -> Result<(), AllocError>
    requires { AreItsRoles catalogue.now.memberships role.now roles.now }
{
    push_right(alloc, section, catalogue, roles, role, table, None)?;
    for index in 0..table.columns().len() {
        push_right(alloc, section, catalogue, roles, role, table, Some(index))?;
    }
    Ok(())
}

/// Adds each privilege that the role has or may grant on a table, or on one of its columns.
fn push_right<'a>(
    alloc: Global,
    section: &mut Section<'a>,
    catalogue: &'a Catalogue,
    roles: &RoleSet<'_>,
    role: &'a Name,
    table: &'a TableDefinition,
    column: Option<usize>,
) -> Result<(), AllocError>
    requires { AreItsRoles catalogue.now.memberships role.now roles.now }
{
    for action in actions_on(column) {
        let action = *action;
        let privilege = Privilege { action, column };
        let right = describe_privilege(catalogue, roles, role, table, privilege);
        if right.is_held || right.grants_as.is_some() {
            section.push(vec![in alloc;
                Cell::Text(table.name().as_str()),
                column_cell(table, column),
                Cell::Text(action_word(action)),
                Cell::Flag(right.is_held),
                name_cell(right.grants_as),
            ]?)?;
        }
    }
    Ok(())
}

/// The actions that privileges on a table are for.
const ON_TABLES: [Action; 4] = [
    Action::Select,
    Action::Insert,
    Action::Update,
    Action::Delete,
];

/// The actions that privileges on a column are for: DELETE is of whole rows.
const ON_COLUMNS: [Action; 3] = [Action::Select, Action::Insert, Action::Update];

/// The actions that privileges on a whole table, or on a column of it, are for.
fn actions_on(column: Option<usize>) -> &'static [Action]
    ensures { result.now ≡ actions_on column }
{
    match column {
        None => &ON_TABLES,
        Some(_) => &ON_COLUMNS,
    }
}

/// Adds what gives the role something of a table.
fn push_given<'a>(
    alloc: Global,
    section: &mut Section<'a>,
    table: &'a TableDefinition,
    access: &TableAccess<'a>,
) -> Result<(), AllocError> {
    for descriptor in access.given.as_slice() {
        section.push(vec![in alloc;
            Cell::Text(table.name().as_str()),
            column_cell(table, descriptor.column),
            Cell::Text(action_word(descriptor.action)),
            grantee_cell(&descriptor.grantee),
            grantor_cell(&descriptor.grantor),
            Cell::Flag(descriptor.grantable),
        ]?)?;
    }
    Ok(())
}

/// Adds the policies that apply to each action of the role.
fn push_policies<'a>(
    alloc: Global,
    section: &mut Section<'a>,
    table: &'a TableDefinition,
    access: &TableAccess<'a>,
) -> Result<(), AllocError> {
    push_applying(
        alloc,
        section,
        table,
        Action::Select,
        access.policies.select.as_slice(),
    )?;
    push_applying(
        alloc,
        section,
        table,
        Action::Insert,
        access.policies.insert.as_slice(),
    )?;
    push_applying(
        alloc,
        section,
        table,
        Action::Update,
        access.policies.update.as_slice(),
    )?;
    push_applying(
        alloc,
        section,
        table,
        Action::Delete,
        access.policies.delete.as_slice(),
    )
}

fn push_applying<'a>(
    alloc: Global,
    section: &mut Section<'a>,
    table: &'a TableDefinition,
    action: Action,
    policies: &[&'a Policy],
) -> Result<(), AllocError> {
    for policy in policies {
        section.push(vec![in alloc;
            Cell::Text(table.name().as_str()),
            Cell::Text(action_word(action)),
            Cell::Text(policy.name.as_str()),
            Cell::Text(kind_word(policy.kind)),
            clause_cell(&policy.using),
            clause_cell(&policy.check),
        ]?)?;
    }
    Ok(())
}
