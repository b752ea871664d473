//! Memberships from their records.

ghost use Rattle.std.specs.Prelude.{◌≡◌, ◌∷◌, [], ◌++◌};
ghost use Rattle.stored_database.specs.Items.{IsStoredMembership};
ghost use Rattle.stored_database.specs.RecordFormat.{membership_record};
ghost use Rattle.catalogue_loading.specs.Decoding.{Decodes};

use crate::bytes::{name_at, only_bit};
use crate::walk::ItemReader;
use sql_ast::role::Membership;
use std::alloc::Global;
use store::{Entry, Fault};

/// The reader of the records of memberships.
#[derive(Drop)]
pub struct MembershipReader;

impl ItemReader for MembershipReader {
    type Item = Membership;

    ghost use Rattle.stored_database.specs.Items.{IsStoredMembership};
    ghost use Rattle.stored_database.specs.RecordFormat.{membership_record};

    ghost IsValid = { λ reader. IsStoredMembership };

    ghost spell = { λ reader. membership_record };

    fn read(&self, alloc: Global, entry: &Entry) -> Result<Membership, Fault> {
        decode_membership(alloc, entry)
    }
}

fn decode_membership(alloc: Global, entry: &Entry) -> Result<Membership, Fault>
    ensures { Decodes IsStoredMembership membership_record entry.now result }
{
    let Some((2, names)) = entry.key().split_first() else {
        return Err(Fault::Damaged);
    };
    let Some(admin) = only_bit(entry.value()) else {
        return Err(Fault::Damaged);
    };
    let (role, rest) = match name_at(alloc, names) {
        Ok(front) => front,
        Err(fault) => return Err(fault),
    };
    let (member, rest) = match name_at(alloc, rest) {
        Ok(front) => front,
        Err(fault) => return Err(fault),
    };
    if !rest.is_empty() {
        return Err(Fault::Damaged);
    }
    Ok(Membership {
        role,
        member,
        admin,
    })
}
