//! A new table, with what the system grants its owner.

ghost use Rattle.std.specs.Prelude.{◌≡◌, IfOk};
ghost use Rattle.abstract_database.specs.Privileges.{owner_descriptor as owners_descriptor, owner_descriptors as owners_descriptors};
ghost use Rattle.catalogue_changes.specs.StatementChanges.{new_table as new_table_of};

use catalogue::table::{TableDefinition, TableParts};
use sql_ast::columns::Columns;
use sql_ast::privilege::{Action, Descriptor, Grantee, Grantor};
use sql_types::items::Items;
use sql_types::name::Name;
use sql_types::try_copy::TryCopy;
use std::alloc::{AllocError, Global};

/// A new table of the owner's, without row security, to which the system grants the owner all
/// privileges.
pub(crate) fn new_table(
    alloc: Global,
    id: u32,
    name: &Name,
    owner: &Name,
    columns: Columns,
) -> Result<TableDefinition, AllocError>
    ensures { IfOk result (λ table. table ≡ new_table_of id name.now owner.now columns) }
{
    let parts = TableParts {
        id,
        name: name.try_copy(alloc)?,
        owner: owner.try_copy(alloc)?,
        columns,
        row_security: false,
        forced: false,
        descriptors: owner_descriptors(alloc, name, owner)?,
        policies: Items::new(alloc),
    };
    TableDefinition::new(alloc, parts)
}

// The privilege descriptors that the system grants the owner of a table.
fn owner_descriptors(
    alloc: Global,
    table: &Name,
    owner: &Name,
) -> Result<Items<Descriptor>, AllocError>
    ensures { IfOk result (λ all. all ≡ owners_descriptors table.now owner.now) }
{
    let mut descriptors = Items::new(alloc);
    descriptors.push(owner_descriptor(alloc, table, owner, Action::Select)?)?;
    descriptors.push(owner_descriptor(alloc, table, owner, Action::Insert)?)?;
    descriptors.push(owner_descriptor(alloc, table, owner, Action::Update)?)?;
    descriptors.push(owner_descriptor(alloc, table, owner, Action::Delete)?)?;
    Ok(descriptors)
}

// The privilege that the system grants the owner of a table for an action.
fn owner_descriptor(
    alloc: Global,
    table: &Name,
    owner: &Name,
    action: Action,
) -> Result<Descriptor, AllocError>
    ensures { IfOk result
        (λ descriptor. descriptor ≡ owners_descriptor table.now owner.now action) }
{
    Ok(Descriptor {
        grantor: Grantor::System,
        grantee: Grantee::Role(owner.try_copy(alloc)?),
        table: table.try_copy(alloc)?,
        action,
        column: None,
        grantable: true,
    })
}
