//! Roles from their records.

ghost use Rattle.std.specs.Prelude.{◌≡◌, ◌∷◌, [], MatchOption};
ghost use Rattle.sql_ast.specs.declared.role.RoleAttributes.{RoleAttributes};
ghost use Rattle.abstract_database.specs.Whole.{IsWholeRole};
ghost use Rattle.stored_database.specs.RecordFormat.{role_flags, role_record};
ghost use Rattle.catalogue_loading.specs.Decoding.{Decodes};

use crate::bytes::decode_name;
use crate::walk::ItemReader;
use sql_ast::role::{Role, RoleAttributes};
use std::alloc::Global;
use store::{Entry, Fault};

/// The reader of the records of roles.
#[derive(Drop)]
pub struct RoleReader;

impl ItemReader for RoleReader {
    type Item = Role;

    ghost use Rattle.abstract_database.specs.Whole.{IsWholeRole};
    ghost use Rattle.stored_database.specs.RecordFormat.{role_record};

    ghost IsValid = { λ reader. IsWholeRole };

    ghost spell = { λ reader. role_record };

    fn read(&self, alloc: Global, entry: &Entry) -> Result<Role, Fault> {
        decode_role(alloc, entry)
    }
}

// The attributes of which this is the sum, or `None` where it is the sum of none.
fn attributes_of(flags: u8) -> Option<RoleAttributes>
    ensures { MatchOption result
        ((attributes : RoleAttributes) → role_flags attributes ≡ flags → ⊥)
        (λ attributes. role_flags attributes ≡ flags) }
{
    if flags >= 8 {
        return None;
    }
    Some(RoleAttributes {
        superuser: flags % 2 == 1,
        login: flags / 2 % 2 == 1,
        bypass_rls: flags / 4 == 1,
    })
}

// The sum of attributes that is all there is.
fn only_attributes(bytes: &[u8]) -> Option<RoleAttributes>
    ensures { MatchOption result
        ((attributes : RoleAttributes) → role_flags attributes ∷ [] ≡ bytes.now → ⊥)
        (λ attributes. role_flags attributes ∷ [] ≡ bytes.now) }
{
    match bytes {
        [flags] => attributes_of(*flags),
        _ => None,
    }
}

fn decode_role(alloc: Global, entry: &Entry) -> Result<Role, Fault>
    ensures { Decodes IsWholeRole role_record entry.now result }
{
    let Some((1, name)) = entry.key().split_first() else {
        return Err(Fault::Damaged);
    };
    let Some(attributes) = only_attributes(entry.value()) else {
        return Err(Fault::Damaged);
    };
    match decode_name(alloc, name) {
        Ok(name) => Ok(Role { name, attributes }),
        Err(fault) => Err(fault),
    }
}
