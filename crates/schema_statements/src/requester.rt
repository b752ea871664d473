//! Who runs a statement on the privileges of a table.
ghost use Rattle.std.specs.Prelude.{◌≡◌};
ghost use Rattle.schema_statements.specs.Asking.{asked_of};
ghost use Rattle.grant_graph.specs.Acting.{database_of};

use catalogue::definitions::Catalogue;
use catalogue::table::TableDefinition;
use grant_graph::Grants;
use role_membership::RoleSet;
use sql_types::name::Name;

/// The role that runs a statement on the privileges of a table of a catalogue.
#[derive(Clone, Copy)]
pub(crate) struct Requester<'a, 's> {
    pub(crate) catalogue: &'a Catalogue,
    pub(crate) table: &'a TableDefinition,
    pub(crate) role: &'a Name,
    /// The roles that it is in.
    pub(crate) roles: &'a RoleSet<'s>,
}

/// The roles, the memberships, and the privilege descriptors for the table.
pub(crate) fn grants<'a>(requester: Requester<'a, '_>) -> Grants<'a>
    ensures { database_of result ≡ asked_of requester.entry.catalogue.now requester.entry.table.now }
{
    Grants {
        roles: requester.catalogue.roles(),
        memberships: requester.catalogue.memberships(),
        descriptors: requester.table.descriptors(),
    }
}
