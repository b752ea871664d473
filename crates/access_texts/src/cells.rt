//! Cells that take memory: names and memberships.

ghost use Rattle.std.specs.Prelude.{◌≡◌, ◌++◌, map, IfOk, OnOk};
ghost use Rattle.section_texts.specs.Sections.{cell_of, way_of};
ghost use Rattle.access_texts.specs.Cells.{name_at, names_at, policy_name, columns_cell, policies_cell, roles_cell, way_in};

use catalogue::table::TableDefinition;
use section_texts::{MembershipWay, SectionCell};
use sql_ast::policy::{Policy, PolicyRoles};
use sql_ast::role::Membership;
use sql_types::name::Name;
use std::alloc::{AllocError, Global};
use table_access::action::ActionAccess;

/// The columns on which a role has an action: nothing for the whole table.
pub(crate) fn columns_cell<'a>(
    alloc: Global,
    table: &'a TableDefinition,
    access: &ActionAccess<'a>,
) -> Result<SectionCell<'a>, AllocError>
    ensures { IfOk result (λ cell. cell_of cell ≡ columns_cell table.now.definition access.now) }
{
    if access.on_table {
        return Ok(SectionCell::Absent);
    }
    Ok(SectionCell::Names(column_names(alloc, table, access.columns.as_slice())?))
}

/// The names of the columns of these indices.
pub(crate) fn column_names<'a>(
    alloc: Global,
    table: &'a TableDefinition,
    indices: &[usize],
) -> Result<Vec<&'a str>, AllocError>
    ensures { IfOk result (λ names. map (λ n. n.now) names.items
        ≡ names_at table.now.definition.layout.columns indices.now) }
{
    let mut names = Vec::new(alloc);
    let mut rest = indices;
    while let [index, after @ ..] = rest {
        push_name(&mut names, table, *index)?;
        rest = after;
    }
    Ok(names)
}

// Adds the name of the column of an index, where the table has one.
fn push_name<'a>(
    names: &mut Vec<&'a str>,
    table: &'a TableDefinition,
    index: usize,
) -> Result<(), AllocError>
    ensures { OnOk result (map (λ n. n.now) names.new.items
        ≡ map (λ n. n.now) names.old.items ++ name_at table.now.definition.layout.columns index) }
{
    if let Some(column) = table.columns().get(index) {
        names.push(column.name.as_str())?;
    }
    Ok(())
}

/// The policies under which a role has an action: nothing where row security does not concern the role.
pub(crate) fn policies_cell<'a>(
    alloc: Global,
    is_guarded: bool,
    policies: &[&'a Policy],
) -> Result<SectionCell<'a>, AllocError>
    ensures { IfOk result (λ cell. cell_of cell ≡ policies_cell is_guarded (map (λ p. p.now) policies.now)) }
{
    if !is_guarded {
        return Ok(SectionCell::Absent);
    }
    Ok(SectionCell::Names(policy_names(alloc, policies)?))
}

// The names of policies.
fn policy_names<'a>(alloc: Global, policies: &[&'a Policy]) -> Result<Vec<&'a str>, AllocError>
    ensures { IfOk result (λ names. map (λ n. n.now) names.items
        ≡ map policy_name (map (λ p. p.now) policies.now)) }
{
    let mut names = Vec::new(alloc);
    let mut rest = policies;
    while let [policy, after @ ..] = rest {
        names.push(policy.name.as_str())?;
        rest = after;
    }
    Ok(names)
}

/// The roles of a policy.
pub(crate) fn roles_cell<'a>(
    alloc: Global,
    roles: &'a PolicyRoles,
) -> Result<SectionCell<'a>, AllocError>
    ensures { IfOk result (λ cell. cell_of cell ≡ roles_cell roles.now) }
{
    match roles {
        PolicyRoles::Public => Ok(SectionCell::Everyone),
        PolicyRoles::Only(names) => Ok(SectionCell::Names(lent_names(alloc, names.as_slice())?)),
    }
}

/// Names, lent.
pub(crate) fn lent_names<'a>(alloc: Global, names: &'a [Name]) -> Result<Vec<&'a str>, AllocError>
    ensures { IfOk result (λ lent. map (λ n. n.now) lent.items ≡ names.now) }
{
    let mut lent = Vec::new(alloc);
    let mut rest = names;
    while let [name, after @ ..] = rest {
        lent.push(name.as_str())?;
        rest = after;
    }
    Ok(lent)
}

/// Memberships.
pub(crate) fn ways<'a>(
    alloc: Global,
    memberships: &[&'a Membership],
) -> Result<Vec<MembershipWay<'a>>, AllocError>
    ensures { IfOk result (λ ways. map way_of ways.items
        ≡ map way_in (map (λ m. m.now) memberships.now)) }
{
    let mut ways = Vec::new(alloc);
    let mut rest = memberships;
    while let [membership, after @ ..] = rest {
        ways.push(MembershipWay {
            member: membership.member.as_str(),
            role: membership.role.as_str(),
        })?;
        rest = after;
    }
    Ok(ways)
}
