//! The words for parts of statements and definitions. They are no part of `description_texts`, which is tried here: what other
//! programs print as the answers does not change with the words of a description.

use sql_ast::columns::ColumnType;
use sql_ast::expression::{Comparison, Operation};
use sql_ast::policy::{PolicyCommand, PolicyKind};
use sql_ast::privilege::{Action, Grantee, Grantor};

/// The words, where something holds, and else none.
pub fn words_if(holds: bool, words: &'static str) -> &'static str {
    if holds { words } else { "" }
}

/// The word of an action.
pub fn action_word(action: Action) -> &'static str {
    match action {
        Action::Select => "SELECT",
        Action::Insert => "INSERT",
        Action::Update => "UPDATE",
        Action::Delete => "DELETE",
    }
}

/// The word of a type.
pub fn type_word(column_type: ColumnType) -> &'static str {
    match column_type {
        ColumnType::BigInt => "BIGINT",
        ColumnType::Text => "TEXT",
        ColumnType::Boolean => "BOOLEAN",
    }
}

/// The word of a policy's kind.
pub fn kind_word(kind: PolicyKind) -> &'static str {
    match kind {
        PolicyKind::Permissive => "PERMISSIVE",
        PolicyKind::Restrictive => "RESTRICTIVE",
    }
}

/// The word of a policy's command.
pub fn command_word(command: PolicyCommand) -> &'static str {
    match command {
        PolicyCommand::All => "ALL",
        PolicyCommand::Only(action) => action_word(action),
    }
}

/// Who granted.
pub fn grantor_word(grantor: &Grantor) -> &str {
    match grantor {
        Grantor::System => "_SYSTEM",
        Grantor::Role(role) => role.as_str(),
    }
}

/// To whom was granted.
pub fn grantee_word(grantee: &Grantee) -> &str {
    match grantee {
        Grantee::Public => "PUBLIC",
        Grantee::Role(role) => role.as_str(),
    }
}

/// The sign of a comparison, after a blank.
pub fn comparison_sign(operator: Comparison) -> &'static str {
    match operator {
        Comparison::Equal => " =",
        Comparison::NotEqual => " <>",
        Comparison::Less => " <",
        Comparison::LessOrEqual => " <=",
        Comparison::Greater => " >",
        Comparison::GreaterOrEqual => " >=",
    }
}

/// The sign of an operation, after a blank.
pub fn operation_sign(operator: Operation) -> &'static str {
    match operator {
        Operation::Add => " +",
        Operation::Subtract => " -",
        Operation::Multiply => " *",
        Operation::Divide => " /",
        Operation::Remainder => " %",
    }
}
