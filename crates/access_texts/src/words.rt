//! The words that are told for what the catalogue says.

ghost use Rattle.std.specs.Prelude.{◌≡◌};
ghost use Rattle.section_texts.specs.Sections.{cell_of};
ghost use Rattle.access_texts.specs.Words.{action_word, type_word, kind_word, policy_word, grantor_cell, grantee_cell, clause_cell, column_cell};

use catalogue::table::TableDefinition;
use section_texts::SectionCell;
use sql_ast::columns::ColumnType;
use sql_ast::policy::{PolicyClause, PolicyCommand, PolicyKind};
use sql_ast::privilege::{Action, Grantee, Grantor};

/// An action as it is written.
pub(crate) fn action_word(action: Action) -> &'static str
    ensures { result.now ≡ action_word action }
{
    match action {
        Action::Select => "SELECT",
        Action::Insert => "INSERT",
        Action::Update => "UPDATE",
        Action::Delete => "DELETE",
    }
}

/// A type as it is written.
pub(crate) fn type_word(column_type: ColumnType) -> &'static str
    ensures { result.now ≡ type_word column_type }
{
    match column_type {
        ColumnType::BigInt => "BIGINT",
        ColumnType::Text => "TEXT",
        ColumnType::Boolean => "BOOLEAN",
    }
}

/// The kind of a policy as it is written.
pub(crate) fn kind_word(kind: PolicyKind) -> &'static str
    ensures { result.now ≡ kind_word kind }
{
    match kind {
        PolicyKind::Permissive => "PERMISSIVE",
        PolicyKind::Restrictive => "RESTRICTIVE",
    }
}

/// The command of a policy as it is written.
pub(crate) fn policy_word(command: PolicyCommand) -> &'static str
    ensures { result.now ≡ policy_word command }
{
    match command {
        PolicyCommand::All => "ALL",
        PolicyCommand::Only(action) => action_word(action),
    }
}

/// Who granted: nothing stands for the system.
pub(crate) fn grantor_cell<'a>(grantor: &'a Grantor) -> SectionCell<'a>
    ensures { cell_of result ≡ grantor_cell grantor.now }
{
    match grantor {
        Grantor::System => SectionCell::Absent,
        Grantor::Role(name) => SectionCell::Text(name.as_str()),
    }
}

/// Who was granted to.
pub(crate) fn grantee_cell<'a>(grantee: &'a Grantee) -> SectionCell<'a>
    ensures { cell_of result ≡ grantee_cell grantee.now }
{
    match grantee {
        Grantee::Public => SectionCell::Everyone,
        Grantee::Role(name) => SectionCell::Text(name.as_str()),
    }
}

/// The condition of a policy as it was written, if it has one.
pub(crate) fn clause_cell<'a>(clause: &'a Option<PolicyClause>) -> SectionCell<'a>
    ensures { cell_of result ≡ clause_cell clause.now }
{
    match clause {
        None => SectionCell::Absent,
        Some(clause) => SectionCell::Text(clause.text.as_str()),
    }
}

/// The name of a column of a table, or nothing for the whole table.
pub(crate) fn column_cell<'a>(table: &'a TableDefinition, column: Option<usize>) -> SectionCell<'a>
    ensures { cell_of result ≡ column_cell table.now.definition.layout.columns column }
{
    let Some(index) = column else {
        return SectionCell::Absent;
    };
    match table.columns().get(index) {
        None => SectionCell::Absent,
        Some(column) => SectionCell::Text(column.name.as_str()),
    }
}
