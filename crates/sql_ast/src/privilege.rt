//! Privileges, and who grants them to whom.

use sql_types::name::Name;
use sql_types::try_copy::TryCopy;
use std::alloc::{AllocError, Global};

/// What a privilege on a table allows (SQL:2016 Foundation, 12.3, `<action>`).
#[derive(Clone, Copy, PartialEq, Eq)]
pub enum Action {
    Select,
    Insert,
    Update,
    Delete,
}

/// A privilege on a table, or on one of its columns (SQL:2016 Foundation, 12.3, `<action>` with its
/// `<privilege column list>`).
#[derive(Clone, Copy, PartialEq, Eq)]
pub struct Privilege {
    pub action: Action,
    /// The index from 0 of the column in the layout of the table, or `None` for the whole table.
    pub column: Option<usize>,
}

/// Who has a privilege, or whom a policy concerns (SQL:2016 Foundation, 12.3, `<grantee>`).
#[derive(Drop, PartialEq, Eq)]
pub enum Grantee {
    /// Every role.
    Public,
    Role(Name),
}

impl TryCopy for Grantee {
    fn try_copy(&self, alloc: Global) -> Result<Grantee, AllocError> {
        match self {
            Grantee::Public => Ok(Grantee::Public),
            Grantee::Role(role) => Ok(Grantee::Role(role.try_copy(alloc)?)),
        }
    }
}

/// Who granted a privilege.
#[derive(Drop, PartialEq, Eq)]
pub enum Grantor {
    /// `_SYSTEM`, which grants an owner the privileges on a new table.
    System,
    Role(Name),
}

impl TryCopy for Grantor {
    fn try_copy(&self, alloc: Global) -> Result<Grantor, AllocError> {
        match self {
            Grantor::System => Ok(Grantor::System),
            Grantor::Role(role) => Ok(Grantor::Role(role.try_copy(alloc)?)),
        }
    }
}

/// A privilege descriptor (SQL:2016 Foundation, "Privileges").
#[derive(Drop, PartialEq, Eq)]
pub struct Descriptor {
    pub grantor: Grantor,
    pub grantee: Grantee,
    pub table: Name,
    pub action: Action,
    /// The index from 0 of the column in the layout of the table, or `None` for the whole table.
    pub column: Option<usize>,
    /// Whether the grantee may grant it on.
    pub grantable: bool,
}

impl TryCopy for Descriptor {
    fn try_copy(&self, alloc: Global) -> Result<Descriptor, AllocError> {
        let grantor = self.grantor.try_copy(alloc)?;
        let grantee = self.grantee.try_copy(alloc)?;
        let table = self.table.try_copy(alloc)?;
        Ok(Descriptor {
            grantor,
            grantee,
            table,
            action: self.action,
            column: self.column,
            grantable: self.grantable,
        })
    }
}
