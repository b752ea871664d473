//! What a GRANT or a REVOKE changes of the privilege descriptors of its table.
ghost use Rattle.std.specs.Prelude.{◌≡◌, ◌&&◌, ◌++◌, not, length, OnOk, IfOk};
ghost use Rattle.abstract_database.specs.Privileges.{without_option};
ghost use Rattle.schema_statements.specs.DescriptorChanges.{Fits, granted_anew, come_of, gone_of, cleared_of, where_it_holds, with_those, without_those};
ghost use Rattle.catalogue.specs.Descriptors.{descriptors_after};
ghost use Rattle.catalogue_changes.specs.DescriptorChanges.{IsChangeOf};

use catalogue::descriptor_change::DescriptorChange;
use catalogue::table::TableDefinition;
use grant_graph::RevocationMarks;
use sql_ast::privilege::Descriptor;
use sql_types::items::Items;
use sql_types::try_copy::TryCopy;
use std::alloc::{AllocError, Global};

/// What a REVOKE takes: the descriptors that go, and those that come in place of others.
#[derive(Drop)]
pub(crate) struct RevokedDescriptors {
    pub(crate) removed: Vec<Descriptor>,
    pub(crate) added: Vec<Descriptor>,
}

/// The change of a table by which these go and those come.
pub(crate) fn change_of(
    alloc: Global,
    table: &TableDefinition,
    taken: RevokedDescriptors,
) -> Result<DescriptorChange, AllocError>
    requires { Fits table.now.definition.name taken.removed.items taken.added.items table.now.descriptors }
    ensures change { IfOk result (IsChangeOf table.now) }
    ensures after { IfOk result (λ change. descriptors_after change table.now.descriptors
        ≡ with_those taken.added.items (without_those taken.removed.items table.now.descriptors)) }
{
    let name = table.name().try_copy(alloc)?;
    let removed = Items::from_vec(taken.removed);
    let added = Items::from_vec(taken.added);
    Ok(DescriptorChange::new(name, removed, added))
}

/// Of descriptors that are granted on a table those that it has not, and those that it has without the
/// grant option that they get.
pub(crate) fn coming(
    alloc: Global,
    table: &TableDefinition,
    granted: Vec<Descriptor>,
) -> Result<Vec<Descriptor>, AllocError>
    ensures { IfOk result (λ added. added.items ≡ come_of table.now.descriptors granted.items) }
{
    let mut added = Vec::new(alloc);
    for descriptor in granted {
        if let Some(new) = anew(alloc, table, descriptor)? {
            added.push(new)?;
        }
    }
    Ok(added)
}

/// A descriptor that is granted on a table, unless it has it so already: with the grant option of either.
fn anew(
    alloc: Global,
    table: &TableDefinition,
    descriptor: Descriptor,
) -> Result<Option<Descriptor>, AllocError>
    ensures { IfOk result (λ new. new ≡ granted_anew table.now.descriptors descriptor) }
{
    let Some(old) = table.descriptor_like(&descriptor) else {
        return Ok(Some(descriptor));
    };
    if old.grantable || !descriptor.grantable {
        return Ok(None);
    }
    let mut both = old.try_copy(alloc)?;
    both.grantable = true;
    Ok(Some(both))
}

/// Of descriptors those that have no mark of what stays, and those that stay and lose their grant option.
pub(crate) fn what_is_taken(
    alloc: Global,
    descriptors: &[Descriptor],
    taking: &RevocationMarks,
    option_alone: bool,
) -> Result<RevokedDescriptors, AllocError>
    requires named { length taking.now.named.items ≡ length descriptors.now }
    requires staying { length taking.now.staying.items ≡ length descriptors.now }
    ensures removed { IfOk result (λ taken. taken.removed.items
        ≡ gone_of taking.now.staying.items descriptors.now) }
    ensures added { IfOk result (λ taken. taken.added.items
        ≡ cleared_of option_alone taking.now.named.items taking.now.staying.items descriptors.now) }
{
    let mut taken = RevokedDescriptors {
        removed: Vec::new(alloc),
        added: Vec::new(alloc),
    };
    for (index, descriptor) in descriptors.iter().enumerate() {
        let stays = taking.staying[index];
        let clears = option_alone & taking.named[index];
        take(alloc, &mut taken, descriptor, stays, clears)?;
    }
    Ok(taken)
}

/// Adds a descriptor to those that go, unless it stays, or without its grant option to those that come, if it has one to clear.
fn take(
    alloc: Global,
    taken: &mut RevokedDescriptors,
    descriptor: &Descriptor,
    stays: bool,
    clears: bool,
) -> Result<(), AllocError>
    ensures removed { OnOk result (taken.new.removed.items
        ≡ taken.old.removed.items ++ where_it_holds (not stays) descriptor.now) }
    ensures added { OnOk result (taken.new.added.items ≡ taken.old.added.items
        ++ where_it_holds (stays && (clears && descriptor.now.grantable)) (without_option descriptor.now)) }
{
    if !stays {
        let copy = descriptor.try_copy(alloc)?;
        taken.removed.push(copy)?;
        return Ok(());
    }
    if clears && descriptor.grantable {
        let copy = without_option(alloc, descriptor)?;
        taken.added.push(copy)?;
    }
    Ok(())
}

/// A copy of a descriptor without its grant option.
fn without_option(alloc: Global, descriptor: &Descriptor) -> Result<Descriptor, AllocError>
    ensures { IfOk result (λ copy. copy ≡ without_option descriptor.now) }
{
    let mut copy = descriptor.try_copy(alloc)?;
    copy.grantable = false;
    Ok(copy)
}
