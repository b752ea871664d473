//! GRANT and REVOKE of roles, which are carried out alike.

ghost use Rattle.std.specs.Prelude.{◌≡◌};
ghost use Rattle.schema_statements.specs.MembershipStatements.{tag_of};

use sql_ast::statement::{GrantRole, RevokeRole};
use sql_types::tag::Tag;

/// A GRANT or a REVOKE of roles.
#[derive(Clone, Copy)]
pub enum MembershipStatement<'a> {
    Grant(&'a GrantRole),
    Revoke(&'a RevokeRole),
}

impl MembershipStatement<'_> {
    /// What its answer says that was done.
    pub(crate) fn tag(self) -> Tag
        ensures { result ≡ tag_of self.entry }
    {
        match self {
            MembershipStatement::Grant(_) => Tag::GrantRole,
            MembershipStatement::Revoke(_) => Tag::RevokeRole,
        }
    }
}
