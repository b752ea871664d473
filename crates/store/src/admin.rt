//! The one record of a new database.
ghost use Rattle.std.specs.Prelude.{◌≡◌, Some, IfOk};
ghost use Rattle.store.specs.Memory.{admin_record};

use crate::Change;
use sql_types::name::Name;
use std::alloc::{AllocError, Global};
use storage_sizes::RecordKind;

/// The value of the record of a role that is a superuser (1) and may log in (2).
const SUPERUSER_WITH_LOGIN: u8 = 3;

/// The put of the record of a new database's one role.
pub fn put_admin(alloc: Global, admin: &Name) -> Result<Change, AllocError>
    ensures { IfOk result (λ change.
        change ≡ ((admin_record admin.now).0, Some (admin_record admin.now).1)) }
{
    let mut key = Vec::from_slice(alloc, &[RecordKind::Role as u8])?;
    key.extend_from_slice(admin.as_str().as_bytes())?;
    Change::put(alloc, &key, &[SUPERUSER_WITH_LOGIN])
}
