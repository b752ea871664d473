//! The definitions of a database.

ghost use Rattle.std.specs.Prelude.{◌≡◌, ◌↔◌, [], IsTrue, IfOk, find};
ghost use Rattle.std.specs.List.{list_all, list_any};
ghost use Rattle.std.specs.Option.{option_copied};
ghost use Rattle.abstract_database.specs.Database.{has_role, is_role_named};
ghost use Rattle.abstract_database.specs.Privileges.{role_of};
ghost use Rattle.abstract_database.specs.Roles.{is_superuser as is_superuser_of};
ghost use Rattle.stored_database.specs.Definitions.{database_of};
ghost use Rattle.catalogue.specs.Catalogues.{definitions_of, lists, AreInOrder};
ghost use Rattle.catalogue.specs.Lookups.{is_definition_named, is_membership_of};

use crate::order::{compare_names, compare_with, roles_rise, tables_rise};
use crate::table::TableDefinition;
use role_membership::{Memberships, memberships_rise};
use sql_ast::privilege::Grantee;
use sql_ast::role::{Membership, Role};
use sql_types::items::Items;
use sql_types::name::Name;
use sql_types::try_copy::TryCopy;
use std::alloc::{AllocError, Global};
use std::marker::Model;

/// What a [`Catalogue`] is made from.
#[derive(Drop)]
pub struct CatalogueParts {
    /// The roles, by name.
    pub roles: Items<Role>,
    /// The memberships, by role and member.
    pub memberships: Items<Membership>,
    /// The tables, by name.
    pub tables: Items<TableDefinition>,
}

impl CatalogueParts {
    /// Whether each list is in its order.
    pub fn are_in_order(&self) -> bool
        ensures { IsTrue result ↔ AreInOrder (definitions_of self.now) }
    {
        roles_rise(self.roles.as_slice())
            && memberships_rise(self.memberships.as_slice())
            && tables_rise(self.tables.as_slice())
    }
}

/// A database apart from its rows, which contracts see as the `Definitions` of the crate
/// `stored_database`: roles and tables in the order of their names, memberships in that of role and
/// member.
pub struct Catalogue {
    pub(crate) roles: Items<Role>,
    pub(crate) memberships: Memberships,
    pub(crate) tables: Items<TableDefinition>,
}

// Written and not derived: where a value is dropped this is one call, and not its parts one by one.
impl Drop for Catalogue {
    fn drop(self) {
        let Catalogue {
            roles: _,
            memberships: _,
            tables: _,
        } = self;
    }
}

impl Model for Catalogue {
    ghost use Rattle.stored_database.specs.Definitions.{Definitions};
    ghost use Rattle.catalogue.specs.Catalogues.{lists, AreInOrder};
    ghost use Rattle.std.specs.Coded.{codes};
    ghost use Rattle.sql_ast.specs.contracts.expr.Expr as expr;

    ghost Value = { Definitions };

    ghost coded = { Prim.hlevel (codes, expr.the_row.coded) };

    ghost view = { λ c. lists c.roles c.memberships c.tables };

    ghost invariant = { λ c. AreInOrder (lists c.roles c.memberships c.tables) };
}

impl Catalogue {
    /// The definitions of which these are the parts, made in the time of a sort of the memberships.
    pub fn new(alloc: Global, parts: CatalogueParts) -> Result<Catalogue, AllocError>
        requires { AreInOrder (definitions_of parts) }
        ensures { IfOk result (λ catalogue. catalogue ≡ definitions_of parts) }
    {
        let CatalogueParts {
            roles,
            memberships,
            tables,
        } = parts;
        let memberships = Memberships::new(alloc, memberships.into_vec())?;
        Ok(Catalogue {
            roles,
            memberships,
            tables,
        })
    }

    /// No definitions, for which no memory is taken.
    pub fn none(alloc: Global) -> Catalogue
        ensures { result ≡ lists [] [] [] }
    {
        Catalogue {
            roles: Items::new(alloc),
            memberships: Memberships::none(alloc),
            tables: Items::new(alloc),
        }
    }

    /// The lists of the catalogue, in their memory.
    pub(crate) fn into_lists(self) -> (Vec<Role>, Memberships, Vec<TableDefinition>)
        ensures definitions { lists result.0.items result.1 result.2.items ≡ self }
        ensures order { AreInOrder self }
    {
        let Catalogue {
            roles,
            memberships,
            tables,
        } = self;
        (roles.into_vec(), memberships, tables.into_vec())
    }

    /// The roles, lent, in the order of their names.
    pub fn roles(&self) -> &[Role]
        ensures roles { result.now ≡ self.now.roles }
        ensures order { AreInOrder self.now }
    {
        self.roles.as_slice()
    }

    /// The memberships, lent, in the order of role and member.
    pub fn memberships(&self) -> &Memberships
        ensures memberships { result.now ≡ self.now.memberships }
        ensures order { AreInOrder self.now }
    {
        &self.memberships
    }

    /// The tables, lent, in the order of their names.
    pub fn tables(&self) -> &[TableDefinition]
        ensures tables { result.now ≡ self.now.tables }
        ensures order { AreInOrder self.now }
    {
        self.tables.as_slice()
    }

    /// The role of a name, or `None` where no role has it. It takes as many comparisons of names as
    /// the number of roles has binary digits.
    pub fn role(&self, name: &Name) -> Option<&Role>
        ensures { option_copied result ≡ find (is_role_named name.now) self.now.roles }
    {
        let roles = self.roles();
        match roles.binary_search_by(|role| compare_names(&role.name, name)) {
            Ok(index) => roles.get(index),
            Err(_) => None,
        }
    }

    /// Whether there is a role of this name.
    pub fn has_role(&self, name: &Name) -> bool
        ensures { result ≡ list_any (is_role_named name.now) self.now.roles }
    {
        self.role(name).is_some()
    }

    /// Whether each grantee is PUBLIC or a role.
    pub fn knows_grantees(&self, grantees: &[Grantee]) -> bool
        ensures { result ≡ list_all (λ grantee.
            list_all (has_role (database_of self.now)) (role_of grantee)) grantees.now }
    {
        grantees.iter().all(|grantee| self.knows_grantee(grantee))
    }

    fn knows_grantee(&self, grantee: &Grantee) -> bool
        ensures { result ≡ list_all (has_role (database_of self.now)) (role_of grantee.now) }
    {
        match grantee {
            Grantee::Public => true,
            Grantee::Role(name) => self.has_role(name),
        }
    }

    /// Whether the role of a name is a superuser; no role inherits it (PostgreSQL manual, "Role
    /// Membership"). It takes as many comparisons of names as the number of roles has binary digits.
    pub fn is_superuser(&self, name: &Name) -> bool
        ensures { result ≡ is_superuser_of (database_of self.now) name.now }
    {
        // For the proof: the list is in order.
        let _in_order = self.roles();
        match self.role(name) {
            Some(role) => role.attributes.superuser,
            None => false,
        }
    }

    /// The membership of a member in a role, or `None` where the member was not granted the role. It
    /// takes as many comparisons as the number of memberships has binary digits.
    pub fn membership(&self, role: &Name, member: &Name) -> Option<&Membership>
        ensures { option_copied result
            ≡ find (is_membership_of role.now member.now) self.now.memberships }
    {
        let memberships = self.memberships().as_slice();
        match memberships.binary_search_by(|membership| compare_with(membership, role, member)) {
            Ok(index) => memberships.get(index),
            Err(_) => None,
        }
    }

    /// The table of a name, or `None` where no table has it. It takes as many comparisons of names as
    /// the number of tables has binary digits.
    pub fn table(&self, name: &Name) -> Option<&TableDefinition>
        ensures { option_copied result ≡ find (is_definition_named name.now) self.now.tables }
    {
        let tables = self.tables();
        match tables.binary_search_by(|table| compare_names(table.name(), name)) {
            Ok(index) => tables.get(index),
            Err(_) => None,
        }
    }
}

impl TryCopy for Catalogue {
    fn try_copy(&self, alloc: Global) -> Result<Catalogue, AllocError> {
        let roles = self.roles.try_copy(alloc)?;
        let memberships = self.memberships.try_copy(alloc)?;
        let tables = self.tables.try_copy(alloc)?;
        Ok(Catalogue {
            roles,
            memberships,
            tables,
        })
    }
}
