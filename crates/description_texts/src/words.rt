//! The words that descriptions have for what the catalogue says.

use crate::section::Cell;
use catalogue::table::TableDefinition;
use sql_ast::columns::ColumnType;
use sql_ast::policy::{PolicyClause, PolicyCommand, PolicyKind, PolicyRoles};
use sql_ast::privilege::{Action, Grantee, Grantor};
use sql_types::name::Name;

/// An action as it is written.
pub fn action_word(action: Action) -> &'static str {
    match action {
        Action::Select => "SELECT",
        Action::Insert => "INSERT",
        Action::Update => "UPDATE",
        Action::Delete => "DELETE",
    }
}

/// A type as it is written.
pub fn type_word(column_type: ColumnType) -> &'static str {
    match column_type {
        ColumnType::BigInt => "BIGINT",
        ColumnType::Text => "TEXT",
        ColumnType::Boolean => "BOOLEAN",
    }
}

/// The kind of a policy as it is written.
pub fn kind_word(kind: PolicyKind) -> &'static str {
    match kind {
        PolicyKind::Permissive => "PERMISSIVE",
        PolicyKind::Restrictive => "RESTRICTIVE",
    }
}

/// The command of a policy as it is written.
pub fn command_word(command: PolicyCommand) -> &'static str {
    match command {
        PolicyCommand::All => "ALL",
        PolicyCommand::Only(action) => action_word(action),
    }
}

/// Who granted: nothing stands for the system.
pub fn grantor_cell(grantor: &Grantor) -> Cell<'_> {
    match grantor {
        Grantor::System => Cell::Absent,
        Grantor::Role(name) => Cell::Text(name.as_str()),
    }
}

/// Who was granted to.
pub fn grantee_cell(grantee: &Grantee) -> Cell<'_> {
    match grantee {
        Grantee::Public => Cell::Public,
        Grantee::Role(name) => Cell::Text(name.as_str()),
    }
}

/// The roles of a policy.
pub fn roles_cell(roles: &PolicyRoles) -> Cell<'_> {
    match roles {
        PolicyRoles::Public => Cell::Public,
        PolicyRoles::Only(names) => Cell::Names(names.as_slice()),
    }
}

/// The condition of a policy as it was written, if it has one.
pub fn clause_cell(clause: &Option<PolicyClause>) -> Cell<'_> {
    match clause {
        None => Cell::Absent,
        Some(clause) => Cell::Text(clause.text.as_str()),
    }
}

/// The name of a column of a table, or nothing for the whole table.
pub fn column_cell(table: &TableDefinition, column: Option<usize>) -> Cell<'_> {
    match column {
        None => Cell::Absent,
        Some(index) => match table.columns().get(index) {
            None => Cell::Absent,
            Some(column) => Cell::Text(column.name.as_str()),
        },
    }
}

/// A name, if there is one.
pub fn name_cell<'a>(name: Option<&'a Name>) -> Cell<'a> {
    match name {
        None => Cell::Absent,
        Some(name) => Cell::Text(name.as_str()),
    }
}
