//! Whether definitions are those of a whole database.

ghost use Rattle.std.specs.Prelude.{◌↔◌, IsTrue, IfOk};
ghost use Rattle.abstract_database.specs.Whole.{IsInOrder};
ghost use Rattle.stored_database.specs.Definitions.{database_of};
ghost use Rattle.stored_database.specs.Items.{AreStored};
ghost use Rattle.stored_database.specs.Valid.{AreValid};

use crate::membership_checks::are_whole_memberships;
use crate::name_checks::know_roles;
use crate::number_checks::are_numbered;
use crate::table_checks::are_whole_definitions;
use catalogue::definitions::Catalogue;
use sql_lexer::laws::tokens_are_readable;
use std::alloc::{AllocError, Global};

// The most tables of a database.
const MAX_TABLES: usize = 1024;

/// Whether definitions whose items may each stand in a record, and whose lists are in the order of a
/// database, are those of a whole database.
pub fn are_valid(alloc: Global, catalogue: &Catalogue) -> Result<bool, AllocError>
    ensures { AreStored catalogue.now → IsInOrder (database_of catalogue.now)
        → IfOk result (λ valid. IsTrue valid ↔ AreValid catalogue.now) }
{
    // For the proof: the tokens of a stored condition can be read back.
    tokens_are_readable();
    know_roles(catalogue.roles());
    let tables = catalogue.tables();
    if tables.len() > MAX_TABLES {
        return Ok(false);
    }
    if !are_numbered(tables) {
        return Ok(false);
    }
    if !are_whole_memberships(alloc, catalogue, catalogue.memberships())? {
        return Ok(false);
    }
    are_whole_definitions(alloc, catalogue, tables)
}
