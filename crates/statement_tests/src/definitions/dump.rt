//! The definitions of a database as text, a line each.

use crate::records::database::{put_columns, put_key, put_roles};
use crate::told::Told;
use crate::words::{action_word, grantee_word, grantor_word, words_if};
use catalogue::definitions::Catalogue;
use catalogue::table::TableDefinition;
use sql_ast::columns::Columns;
use sql_ast::privilege::Descriptor;
use sql_ast::role::Membership;

/// Tells all definitions.
pub fn put_definitions(out: &mut Told, catalogue: &Catalogue) {
    put_roles(out, catalogue.roles());
    put_memberships(out, catalogue.memberships().as_slice());
    for table in catalogue.tables() {
        put_table(out, table);
        put_descriptors(out, table.columns(), table.descriptors());
    }
}

fn put_memberships(out: &mut Told, memberships: &[Membership]) {
    for membership in memberships {
        out.put_name("membership ", &membership.role);
        out.put_name(" ", &membership.member);
        out.put_line(&[words_if(membership.admin, " ADMIN")]);
    }
}

/// Tells a table with its columns and its key.
fn put_table(out: &mut Told, table: &TableDefinition) {
    out.put_name("table ", table.name());
    out.put_name(" ", table.owner());
    let enabled = words_if(table.row_security(), " ENABLE");
    let forced = words_if(table.forced(), " FORCE");
    out.put_line(&[enabled, forced]);
    put_columns(out, "column", table.columns().as_slice(), "\n");
    put_key(out, "key", table.columns().key());
    out.put("\n");
}

fn put_descriptors(out: &mut Told, columns: &Columns, descriptors: &[Descriptor]) {
    for descriptor in descriptors {
        out.put(action_word(descriptor.action));
        if let Some(index) = descriptor.column {
            out.put_all(&[" (", column_word(columns, index), ")"]);
        }
        out.put_all(&[" by ", grantor_word(&descriptor.grantor)]);
        out.put_all(&[" to ", grantee_word(&descriptor.grantee)]);
        out.put_line(&[words_if(descriptor.grantable, " GRANT OPTION")]);
    }
}

/// The name of the column of an index.
fn column_word(columns: &Columns, index: usize) -> &str {
    match columns.get(index) {
        Some(column) => column.name.as_str(),
        None => "?",
    }
}
