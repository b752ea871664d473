//! How a change of privilege descriptors is made of the definitions.

ghost use Rattle.std.specs.Prelude.{◌≡◌, IfOk};
ghost use Rattle.catalogue.specs.declared.change.SchemaChange.TheVariants.{SetDescriptors};
ghost use Rattle.catalogue.specs.Changes.{changed};
ghost use Rattle.catalogue.specs.Descriptors.{table_after};
ghost use Rattle.catalogue_changes.specs.DescriptorChanges.{IsChangeOf};
ghost use Rattle.catalogue_changes.specs.StatementChanges.{IsTableOf};

use catalogue::change::SchemaChange;
use catalogue::definitions::Catalogue;
use catalogue::descriptor_change::DescriptorChange;
use catalogue::table::TableDefinition;
use grant_graph::{grant, without};
use sql_types::items::Items;
use std::alloc::{AllocError, Global};

/// The most privilege descriptors that go and come in place. Each of them takes a pass over those of the table, so where more go and
/// come, the table is made anew.
const MOST_IN_PLACE: usize = 64;

/// The table after a change of its privilege descriptors, made anew. Time grows with the descriptors as that of a sort does.
fn made_anew(
    alloc: Global,
    table: &TableDefinition,
    change: &DescriptorChange,
) -> Result<TableDefinition, AllocError>
    requires { IsChangeOf table.now change.now }
    ensures { IfOk result (λ made. made ≡ table_after change.now table.now) }
{
    let mut parts = table.copy_parts(alloc)?;
    let left = without(alloc, table.descriptors(), change.removed())?;
    let mut descriptors = without(alloc, left.as_slice(), change.added())?;
    grant(alloc, &mut descriptors, change.added())?;
    parts.descriptors = Items::from_vec(descriptors);
    TableDefinition::new(alloc, parts)
}

/// The change of the definitions that makes this change of the privilege descriptors of a table: in place, or where it is
/// of many, by a table made anew.
pub(crate) fn schema_change(
    alloc: Global,
    catalogue: &Catalogue,
    table: &TableDefinition,
    change: DescriptorChange,
) -> Result<SchemaChange, AllocError>
    requires table { IsTableOf catalogue.now change.table table.now }
    requires change { IsChangeOf table.now change }
    ensures { IfOk result
        (λ made. changed made catalogue.now ≡ changed (SetDescriptors change) catalogue.now) }
{
    // For the proof: the list is in order.
    let _in_order = catalogue.tables();
    if change.removed().len() + change.added().len() <= MOST_IN_PLACE {
        return Ok(SchemaChange::SetDescriptors(change));
    }
    Ok(SchemaChange::PutTable(made_anew(alloc, table, &change)?))
}
