//! Policies, and the parts of which they are made.

use crate::expr::Expr;
use crate::privilege::Action;
use sql_types::items::Items;
use sql_types::name::Name;
use sql_types::text::Text;
use sql_types::try_copy::TryCopy;
use std::alloc::{AllocError, Global};

/// How a policy joins the others of its table: one permissive policy at least and every restrictive
/// one must be true of a row (PostgreSQL manual, CREATE POLICY).
#[derive(Clone, Copy, PartialEq, Eq)]
pub enum PolicyKind {
    Permissive,
    Restrictive,
}

/// The commands that a policy is for (PostgreSQL manual, CREATE POLICY).
#[derive(Clone, Copy, PartialEq, Eq)]
pub enum PolicyCommand {
    All,
    Only(Action),
}

/// The roles that a policy concerns (PostgreSQL manual, CREATE POLICY).
#[derive(Drop)]
pub enum PolicyRoles {
    /// Every role.
    Public,
    /// These roles and the roles that are in them: at least one, in rising order of their names'
    /// bytes, none of them twice.
    Only(Items<Name>),
}

impl TryCopy for PolicyRoles {
    fn try_copy(&self, alloc: Global) -> Result<PolicyRoles, AllocError> {
        match self {
            PolicyRoles::Public => Ok(PolicyRoles::Public),
            PolicyRoles::Only(roles) => Ok(PolicyRoles::Only(roles.try_copy(alloc)?)),
        }
    }
}

/// The condition of a policy, in USING or in WITH CHECK: the text that it was written as, from its
/// first token to its last, and the expression that this text spells.
#[derive(Drop)]
pub struct PolicyClause {
    pub text: Text,
    pub expression: Expr,
}

impl TryCopy for PolicyClause {
    fn try_copy(&self, alloc: Global) -> Result<PolicyClause, AllocError> {
        let text = self.text.try_copy(alloc)?;
        let expression = self.expression.try_copy(alloc)?;
        Ok(PolicyClause { text, expression })
    }
}

/// A policy of the database (PostgreSQL manual, "Row Security Policies").
#[derive(Drop)]
pub struct Policy {
    pub table: Name,
    pub name: Name,
    pub kind: PolicyKind,
    pub command: PolicyCommand,
    pub roles: PolicyRoles,
    /// What existing rows must meet.
    pub using: Option<PolicyClause>,
    /// What new rows must meet.
    pub check: Option<PolicyClause>,
}

impl TryCopy for Policy {
    fn try_copy(&self, alloc: Global) -> Result<Policy, AllocError> {
        let table = self.table.try_copy(alloc)?;
        let name = self.name.try_copy(alloc)?;
        let roles = self.roles.try_copy(alloc)?;
        let using = self.using.try_copy(alloc)?;
        let check = self.check.try_copy(alloc)?;
        Ok(Policy {
            table,
            name,
            kind: self.kind,
            command: self.command,
            roles,
            using,
            check,
        })
    }
}
