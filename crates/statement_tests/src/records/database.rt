//! A database in words, a line for each item.

use crate::records::expression::put_expression;
use crate::records::rows::put_rows;
use crate::told::Told;
use crate::words::{
    action_word, command_word, grantee_word, grantor_word, kind_word, type_word, words_if,
};
use catalogue::definitions::Catalogue;
use catalogue::numbers::least_free_id;
use catalogue::policy::CataloguePolicy;
use catalogue::table::TableDefinition;
use sql_ast::columns::Column;
use sql_ast::policy::{Policy, PolicyClause, PolicyRoles};
use sql_ast::privilege::Descriptor;
use sql_ast::role::{Membership, Role};
use std::alloc::Global;
use store::{Fault, MemStore};

/// Tells the database of a catalogue and of the rows of a store, and the least number that no table has, or 0.
pub fn put_database(
    alloc: Global,
    out: &mut Told,
    catalogue: &Catalogue,
    store: &mut MemStore,
) -> Result<(), Fault> {
    put_roles(out, catalogue.roles());
    for membership in catalogue.memberships().as_slice() {
        put_membership(out, membership);
    }
    put_tables(alloc, out, catalogue.tables(), store)?;
    let free = least_free_id(catalogue.tables()).unwrap_or(0);
    out.put_number("least free number: ", free as i128);
    out.put("\n");
    Ok(())
}

/// Tells the roles.
pub fn put_roles(out: &mut Told, roles: &[Role]) {
    for role in roles {
        put_role(out, role);
    }
}

/// Tells a role with its attributes.
pub fn put_role(out: &mut Told, role: &Role) {
    out.put_name("role ", &role.name);
    let superuser = words_if(role.attributes.superuser, " SUPERUSER");
    let login = words_if(role.attributes.login, " LOGIN");
    let bypass = words_if(role.attributes.bypass_rls, " BYPASSRLS");
    out.put_line(&[superuser, login, bypass]);
}

/// Tells who is in which role.
pub fn put_membership(out: &mut Told, membership: &Membership) {
    out.put_name("", &membership.member);
    out.put_name(" in ", &membership.role);
    out.put_line(&[words_if(membership.admin, " WITH ADMIN OPTION")]);
}

/// Tells the tables, each with its privilege descriptors, its policies and its rows.
fn put_tables(
    alloc: Global,
    out: &mut Told,
    tables: &[TableDefinition],
    store: &mut MemStore,
) -> Result<(), Fault> {
    for table in tables {
        put_table(out, table);
        put_descriptors(out, table.descriptors());
        put_policies(out, table.policies());
        put_rows(alloc, out, table, store)?;
    }
    Ok(())
}

/// Tells a table with its number, its owner, its columns, its key and its row security.
pub fn put_table(out: &mut Told, table: &TableDefinition) {
    out.put_number("table ", table.id() as i128);
    out.put_name(" ", table.name());
    out.put_name(" of ", table.owner());
    out.put(":");
    put_columns(out, "", table.columns().as_slice(), ",");
    put_key(out, " key", table.columns().key());
    let enabled = words_if(table.row_security(), " ENABLED");
    let forced = words_if(table.forced(), " FORCED");
    out.put_line(&[enabled, forced]);
}

/// Tells the columns, each between what stands before and after it.
pub fn put_columns(out: &mut Told, before: &str, columns: &[Column], after: &str) {
    for column in columns {
        out.put(before);
        out.put_name(" ", &column.name);
        let column_type = type_word(column.column_type);
        let not_null = words_if(column.not_null, " NOT NULL");
        out.put_all(&[" ", column_type, not_null]);
        out.put(after);
    }
}

/// Tells the indices of a key after a word.
pub fn put_key(out: &mut Told, before: &str, key: &[usize]) {
    out.put(before);
    for index in key {
        out.put_number(" ", *index as i128);
    }
}

/// Tells who granted what to whom.
fn put_descriptors(out: &mut Told, descriptors: &[Descriptor]) {
    for descriptor in descriptors {
        out.put(grantor_word(&descriptor.grantor));
        out.put_all(&[" grants ", action_word(descriptor.action)]);
        if let Some(column) = descriptor.column {
            out.put_number(" (column ", column as i128);
            out.put(")");
        }
        out.put_name(" ON ", &descriptor.table);
        out.put_all(&[" TO ", grantee_word(&descriptor.grantee)]);
        out.put_line(&[words_if(descriptor.grantable, " WITH GRANT OPTION")]);
    }
}

fn put_policies(out: &mut Told, policies: &[CataloguePolicy]) {
    for policy in policies {
        put_policy(out, &policy.policy);
    }
}

/// Tells a policy with its conditions.
pub fn put_policy(out: &mut Told, policy: &Policy) {
    out.put_name("policy ", &policy.name);
    out.put_name(" ON ", &policy.table);
    let kind = kind_word(policy.kind);
    out.put_all(&[" ", kind, " FOR ", command_word(policy.command), " TO"]);
    put_policy_roles(out, &policy.roles);
    put_clause(out, " USING [", &policy.using);
    put_clause(out, " CHECK [", &policy.check);
    out.put("\n");
}

/// Tells the roles of a policy.
fn put_policy_roles(out: &mut Told, roles: &PolicyRoles) {
    match roles {
        PolicyRoles::Public => out.put(" PUBLIC"),
        PolicyRoles::Only(names) => {
            for name in names.as_slice() {
                out.put_name(" ", name);
            }
        }
    }
}

/// Tells a condition, if there is one: its text up to a bracket, and what the text is read as.
fn put_clause(out: &mut Told, before: &str, clause: &Option<PolicyClause>) {
    if let Some(clause) = clause {
        out.put_all(&[before, clause.text.as_str(), "] as"]);
        put_expression(out, clause.expression.tree());
    }
}
