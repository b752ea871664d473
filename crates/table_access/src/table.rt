//! What each role may do with a table.

ghost use Rattle.std.specs.Prelude.{IfOk};
ghost use Rattle.descriptions.specs.Descriptions.{InEach};
ghost use Rattle.table_access.specs.Accesses.{IsAccessTo};

use crate::acting::{SettableRoles, each_acting};
use crate::role::{RoleAccess, each_access};
use crate::ways::all_memberships;
use catalogue::definitions::Catalogue;
use catalogue::table::TableDefinition;
use std::alloc::{AllocError, Global};

/// What each role of a database may do with a table.
pub struct AccessToTable<'a> {
    /// What each role has by itself, in the order of the roles' names.
    pub roles: Vec<RoleAccess<'a>>,
    /// As which roles each of them may act, in the same order.
    pub acting: Vec<SettableRoles<'a>>,
}

// Written and not derived: where a value is dropped this is one call, and not its parts one by one.
impl Drop for AccessToTable<'_> {
    fn drop(self) {
        let AccessToTable {
            roles: _,
            acting: _,
        } = self;
    }
}

/// What each role of the database may do with a table, whether it may log in or not: by itself and by SET ROLE, by which grants
/// and memberships, and under which policies. Time grows with the square of the number of roles, and for each role with the
/// grants, policies and memberships. `AllocError` comes where memory was refused.
pub fn access_to<'a>(
    alloc: Global,
    catalogue: &'a Catalogue,
    table: &'a TableDefinition,
) -> Result<AccessToTable<'a>, AllocError>
    ensures { IfOk result (λ access. InEach catalogue.now table.now (λ db.
        IsAccessTo db table.now.definition access)) }
{
    let all = all_memberships(alloc, catalogue.memberships())?;
    let roles = each_access(alloc, catalogue, all.as_slice(), table)?;
    let acting = each_acting(alloc, catalogue, all.as_slice(), table, roles.as_slice())?;
    Ok(AccessToTable { roles, acting })
}
