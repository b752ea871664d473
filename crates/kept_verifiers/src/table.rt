//! Which table keeps verifiers, and for whom.

ghost use Rattle.std.specs.Prelude.{◌≡◌, ◌&&◌, true, false, find, MatchOption};
ghost use Rattle.std.specs.List.{list_any};
ghost use Rattle.abstract_database.specs.Database.{is_role_named};
ghost use Rattle.stored_database.specs.Definitions.{TableDefinition as TheTable, database_of};
ghost use Rattle.catalogue.specs.Lookups.{is_definition_named};
ghost use Rattle.kept_verifiers.specs.Verifiers.{is_text, are_two_texts, is_first_alone, maps_texts, keeps_verifiers};

use catalogue::definitions::Catalogue;
use catalogue::table::TableDefinition;
use sql_ast::columns::{Column, ColumnType, Columns};
use sql_ast::role::Role;
use sql_types::name::Name;

/// The table of this name, or `None` where there is none, or where it keeps no verifiers: it has other
/// columns than two of text, of which the first alone is its key, or its owner is no superuser.
pub(crate) fn verifier_table<'a>(
    catalogue: &'a Catalogue,
    name: &Name,
) -> Option<&'a TableDefinition>
    ensures { MatchOption result
        ((t : TheTable) → find (is_definition_named name.now) catalogue.now.tables ≡ Some t
        → keeps_verifiers (database_of catalogue.now) t.definition ≡ false)
        (λ t. (find (is_definition_named name.now) catalogue.now.tables ≡ Some t.now)
        × (keeps_verifiers (database_of catalogue.now) t.now.definition ≡ true)) }
{
    let table = catalogue.table(name)?;
    if catalogue.is_superuser(table.owner()) && maps_texts(table.columns()) {
        Some(table)
    } else {
        None
    }
}

// Whether a table has two columns of text, of which the first alone is its key.
fn maps_texts(columns: &Columns) -> bool
    ensures { result ≡ maps_texts columns.now }
{
    are_two_texts(columns.as_slice()) && is_first_alone(columns.key())
}

fn are_two_texts(columns: &[Column]) -> bool
    ensures { result ≡ are_two_texts columns.now }
{
    let Some((role, others)) = columns.split_first() else {
        return false;
    };
    let Some((verifier, more)) = others.split_first() else {
        return false;
    };
    more.is_empty() && is_text(role.column_type) && is_text(verifier.column_type)
}

fn is_first_alone(key: &[usize]) -> bool
    ensures { result ≡ is_first_alone key.now }
{
    match key.split_first() {
        Some((first, more)) => more.is_empty() && *first == 0,
        None => false,
    }
}

fn is_text(column_type: ColumnType) -> bool
    ensures { result ≡ is_text column_type }
{
    match column_type {
        ColumnType::Text => true,
        ColumnType::BigInt | ColumnType::Boolean => false,
    }
}

/// Whether a role of this name among these may log in.
pub(crate) fn may_log_in(roles: &[Role], name: &str) -> bool
    ensures { result ≡ list_any (λ role. is_role_named name.now role && role.attributes.login) roles.now }
{
    roles
        .iter()
        .any(|role| role.name.as_str() == name && role.attributes.login)
}
