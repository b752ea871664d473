//! GRANT and REVOKE of privileges, which are carried out alike.

ghost use Rattle.std.specs.Prelude.{◌≡◌};
ghost use Rattle.schema_statements.specs.PrivilegeStatements.{table_of, tag_of};

use sql_ast::statement::{Grant, Revoke};
use sql_types::name::Name;
use sql_types::tag::Tag;

/// A GRANT or a REVOKE of privileges on a table.
#[derive(Clone, Copy)]
pub enum PrivilegeStatement<'a> {
    Grant(&'a Grant),
    Revoke(&'a Revoke),
}

impl<'a> PrivilegeStatement<'a> {
    /// The name of its table.
    pub(crate) fn table_name(self) -> &'a Name
        ensures { result.now ≡ table_of self.entry }
    {
        match self {
            PrivilegeStatement::Grant(grant) => &grant.table,
            PrivilegeStatement::Revoke(revoke) => &revoke.table,
        }
    }

    /// What its answer says that was done.
    pub(crate) fn tag(self) -> Tag
        ensures { result ≡ tag_of self.entry }
    {
        match self {
            PrivilegeStatement::Grant(_) => Tag::Grant,
            PrivilegeStatement::Revoke(_) => Tag::Revoke,
        }
    }
}
