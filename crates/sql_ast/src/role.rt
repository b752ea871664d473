//! Roles, their attributes, and their members.

use sql_types::name::Name;
use sql_types::try_copy::TryCopy;
use std::alloc::{AllocError, Global};

/// An attribute of a role as it is written (PostgreSQL manual, CREATE ROLE).
#[derive(Clone, Copy, PartialEq, Eq)]
pub enum RoleAttribute {
    Superuser,
    NoSuperuser,
    Login,
    NoLogin,
    BypassRls,
    NoBypassRls,
}

/// The attributes that a role has. They are never inherited (PostgreSQL manual, "Role
/// Membership").
#[derive(Clone, Copy, PartialEq, Eq)]
pub struct RoleAttributes {
    /// It has every privilege, and row security does not concern it.
    pub superuser: bool,
    /// A session may be opened for it.
    pub login: bool,
    /// Row security does not concern it.
    pub bypass_rls: bool,
}

/// A role of the database.
#[derive(Drop, PartialEq, Eq)]
pub struct Role {
    pub name: Name,
    pub attributes: RoleAttributes,
}

impl TryCopy for Role {
    fn try_copy(&self, alloc: Global) -> Result<Role, AllocError> {
        let name = self.name.try_copy(alloc)?;
        Ok(Role {
            name,
            attributes: self.attributes,
        })
    }
}

/// That a role is granted to a member (SQL:2016 Foundation, "Roles"; PostgreSQL manual, "Role
/// Membership").
#[derive(Drop, PartialEq, Eq)]
pub struct Membership {
    pub role: Name,
    pub member: Name,
    /// Whether the member may grant the role on.
    pub admin: bool,
}

impl TryCopy for Membership {
    fn try_copy(&self, alloc: Global) -> Result<Membership, AllocError> {
        let role = self.role.try_copy(alloc)?;
        let member = self.member.try_copy(alloc)?;
        Ok(Membership {
            role,
            member,
            admin: self.admin,
        })
    }
}
