//! The changes of records of CREATE ROLE, DROP ROLE, and GRANT and REVOKE of roles.

ghost use Rattle.std.specs.Prelude.{◌≡◌, OnOk, IfOk};
ghost use Rattle.store.specs.Records.{Records};
ghost use Rattle.abstract_database.specs.Lists.{drop_where};
ghost use Rattle.catalogue.specs.declared.change.SchemaChange.TheVariants as change;
ghost use Rattle.catalogue.specs.Changes.{concerns};
ghost use Rattle.catalogue_changes.specs.SchemaChanges.{record_changes};
ghost use Rattle.catalogue_changes.specs.Entries.{Adds};

use crate::changes::{push_membership_changes, push_role_change};
use catalogue::definitions::Catalogue;
use role_membership::Memberships;
use sql_ast::role::{Membership, Role};
use sql_types::items::Items;
use sql_types::name::Name;
use sql_types::try_copy::TryCopy;
use std::alloc::{AllocError, Global};
use store::Batch;

/// Adds the changes of records of a role that is put in a catalogue, new or in place of the one of
/// its name: that of its own record, if it differs. After an error the batch may have some of the
/// changes, and the caller drops it.
pub fn push_role_put(
    alloc: Global,
    catalogue: &Catalogue,
    role: &Role,
    out: &mut Batch,
) -> Result<(), AllocError>
    ensures { OnOk result ((records : Records)
        → Adds (record_changes (change.PutRole role.now) catalogue.now records) out.old out.new) }
{
    // For the proof: the list is in order.
    let _in_order = catalogue.roles();
    let old = catalogue.role(&role.name);
    push_role_change(alloc, old, Some(role), out)?;
    Ok(())
}

/// Adds the changes of records of a role that is dropped from a catalogue: the removals of its own
/// record and of those of its memberships. After an error the batch may have some of the changes,
/// and the caller drops it.
pub fn push_role_drop(
    alloc: Global,
    catalogue: &Catalogue,
    name: &Name,
    out: &mut Batch,
) -> Result<(), AllocError>
    ensures { OnOk result ((records : Records)
        → Adds (record_changes (change.DropRole name.now) catalogue.now records) out.old out.new) }
{
    // For the proof: the list is in order.
    let _in_order = catalogue.roles();
    let old = catalogue.role(name);
    push_role_change(alloc, old, None, out)?;
    let memberships = catalogue.memberships().as_slice();
    let left = without_memberships_of(alloc, memberships, name)?;
    push_membership_changes(alloc, memberships, left.as_slice(), out)?;
    Ok(())
}

/// Adds the changes of records of memberships that are set in a catalogue: one for each membership
/// that goes, comes or differs. After an error the batch may have some of the changes, and the
/// caller drops it.
pub fn push_memberships(
    alloc: Global,
    catalogue: &Catalogue,
    memberships: &Memberships,
    out: &mut Batch,
) -> Result<(), AllocError>
    ensures { OnOk result ((records : Records)
        → Adds (record_changes (change.SetMemberships memberships.now) catalogue.now records)
        out.old out.new) }
{
    push_membership_changes(
        alloc,
        catalogue.memberships().as_slice(),
        memberships.as_slice(),
        out,
    )?;
    Ok(())
}

// Copies of the memberships of other roles and members.
fn without_memberships_of(
    alloc: Global,
    memberships: &[Membership],
    name: &Name,
) -> Result<Items<Membership>, AllocError>
    ensures { IfOk result (λ left. left ≡ drop_where (concerns name.now) memberships.now) }
{
    let mut left = Items::new(alloc);
    for membership in memberships {
        if membership.role != *name && membership.member != *name {
            left.push(membership.try_copy(alloc)?)?;
        }
    }
    Ok(left)
}
