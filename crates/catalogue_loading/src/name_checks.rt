//! What names and texts are by their types.

ghost use Rattle.std.specs.Str.{IsUtf8};
ghost use Rattle.std.specs.Prelude.{IfSome};
ghost use Rattle.sql_types.specs.Name.{IsUtf8Name};
ghost use Rattle.abstract_database.specs.Whole.{Each, IsWholeRole};
ghost use Rattle.catalogue_loading.specs.ValidityParts.{HasUtf8};

use sql_ast::policy::PolicyClause;
use sql_ast::role::Role;
use sql_types::name::Name;

/// A name is one of UTF-8.
pub(crate) fn know_name(name: &Name)
    ensures { IsUtf8Name name.now }
{
    // For the proof: what a `str` has is UTF-8.
    let _ = name.as_str().as_bytes();
}

/// Roles have names.
pub(crate) fn know_roles(roles: &[Role])
    ensures { Each IsWholeRole roles.now }
{
    for role in roles {
        // For the proof: a name is text, and has no zero byte.
        know_name(&role.name);
    }
}

/// The text of a clause is one of UTF-8.
pub(crate) fn know_text(clause: &Option<PolicyClause>)
    ensures { IfSome clause.now HasUtf8 }
{
    if let Some(clause) = clause {
        // For the proof: what a `str` has is UTF-8.
        let _ = clause.text.as_str().as_bytes();
    }
}
