//! Statements: the command, its names and expressions, and the parts that may be left out.

use crate::texts::printed_sources::{put_condition, put_expr, put_source};
use crate::told::Told;
use crate::words::{action_word, command_word, grantee_word, kind_word, type_word, words_if};
use sql_ast::expr::Expr;
use sql_ast::policy::PolicyClause;
use sql_ast::privilege::Grantee;
use sql_ast::role::RoleAttribute;
use sql_ast::statement::{
    AlterTable, ColumnConstraint, ColumnDefinition, CreatePolicy, CreateRole, CreateTable,
    DatabaseStatement, DefiningStatement, Delete, DropBehavior, DropPolicy, Grant, GrantRole,
    Insert, NamedAction, Privileges, Revoke, RevokeRole, RowSecurityChange, RowStatement, Select,
    SelectList, SessionStatement, SetRole, Statement, TableElement, Update,
};
use sql_types::items::Items;
use sql_types::name::Name;

/// Tells a statement in one form for all its spellings.
pub fn put_statement(out: &mut Told, statement: &Statement) {
    match statement {
        Statement::OnDatabase(DatabaseStatement::OverRows(statement)) => match statement {
            RowStatement::Insert(insert) => put_insert(out, insert),
            RowStatement::Update(update) => put_update(out, update),
            RowStatement::Delete(delete) => put_delete(out, delete),
            RowStatement::Select(select) => put_select(out, select),
        },
        Statement::OnDatabase(DatabaseStatement::Defining(statement)) => put_defining(
            out, statement,
        ),
        Statement::OfSession(statement) => put_of_session(out, statement),
    }
}

fn put_defining(out: &mut Told, statement: &DefiningStatement) {
    match statement {
        DefiningStatement::CreateRole(create) => put_create_role(out, create),
        DefiningStatement::DropRole(drop) => out.put_name("DROP ROLE ", &drop.role),
        DefiningStatement::GrantRole(grant) => put_grant_role(out, grant),
        DefiningStatement::RevokeRole(revoke) => put_revoke_role(out, revoke),
        DefiningStatement::CreateTable(create) => put_create_table(out, create),
        DefiningStatement::DropTable(drop) => out.put_name("DROP TABLE ", &drop.table),
        DefiningStatement::AlterTable(alter) => put_alter_table(out, alter),
        DefiningStatement::CreatePolicy(create) => put_create_policy(out, create),
        DefiningStatement::DropPolicy(drop) => put_drop_policy(out, drop),
        DefiningStatement::Grant(grant) => put_grant(out, grant),
        DefiningStatement::Revoke(revoke) => put_revoke(out, revoke),
    }
}

fn put_of_session(out: &mut Told, statement: &SessionStatement) {
    match statement {
        SessionStatement::SetRole(SetRole { role: Some(role) }) => out.put_name("SET ROLE ", role),
        SessionStatement::SetRole(SetRole { role: None }) => out.put("SET ROLE NONE"),
        SessionStatement::ResetRole => out.put("RESET ROLE"),
        SessionStatement::Begin => out.put("BEGIN"),
        SessionStatement::Commit => out.put("COMMIT"),
        SessionStatement::Rollback => out.put("ROLLBACK"),
    }
}

fn put_create_role(out: &mut Told, create: &CreateRole) {
    out.put_name("CREATE ROLE ", &create.role);
    for attribute in create.attributes.as_slice() {
        out.put(match attribute {
            RoleAttribute::Superuser => " SUPERUSER",
            RoleAttribute::NoSuperuser => " NOSUPERUSER",
            RoleAttribute::Login => " LOGIN",
            RoleAttribute::NoLogin => " NOLOGIN",
            RoleAttribute::BypassRls => " BYPASSRLS",
            RoleAttribute::NoBypassRls => " NOBYPASSRLS",
        });
    }
}

fn put_alter_table(out: &mut Told, alter: &AlterTable) {
    out.put_name("ALTER TABLE ", &alter.table);
    out.put(match alter.change {
        RowSecurityChange::Enable => " ENABLE",
        RowSecurityChange::Disable => " DISABLE",
        RowSecurityChange::Force => " FORCE",
        RowSecurityChange::NoForce => " NO FORCE",
    });
}

fn put_update(out: &mut Told, update: &Update) {
    out.put_name("UPDATE ", &update.table);
    for assignment in update.assignments.as_slice() {
        out.put_name(" SET ", &assignment.column);
        put_expr(out, " = ", &assignment.value);
    }
    put_condition(out, " WHERE ", &update.condition);
}

fn put_delete(out: &mut Told, delete: &Delete) {
    out.put_name("DELETE FROM ", &delete.table);
    put_condition(out, " WHERE ", &delete.condition);
}

fn put_names(out: &mut Told, before: &str, names: &[Name]) {
    out.put(before);
    for name in names {
        out.put_name(" ", name);
    }
}

fn put_grantees(out: &mut Told, before: &str, grantees: &[Grantee]) {
    out.put(before);
    for grantee in grantees {
        out.put_all(&[" ", grantee_word(grantee)]);
    }
}

fn put_grant_role(out: &mut Told, grant: &GrantRole) {
    put_names(out, "GRANT ROLE", grant.roles.as_slice());
    put_names(out, " TO", grant.members.as_slice());
    out.put(words_if(grant.with_admin_option, " WITH ADMIN OPTION"));
}

fn put_revoke_role(out: &mut Told, revoke: &RevokeRole) {
    out.put("REVOKE ROLE");
    let option = words_if(revoke.admin_option_for, " ADMIN OPTION FOR");
    put_names(out, option, revoke.roles.as_slice());
    put_names(out, " FROM", revoke.members.as_slice());
    out.put(behavior_words(revoke.behavior));
}

fn put_create_table(out: &mut Told, create: &CreateTable) {
    out.put_name("CREATE TABLE ", &create.table);
    for element in create.elements.as_slice() {
        match element {
            TableElement::Column(column) => put_column(out, column),
            TableElement::PrimaryKey(key) => put_names(out, ", KEY", key.as_slice()),
        }
    }
}

fn put_column(out: &mut Told, column: &ColumnDefinition) {
    out.put_name(", ", &column.column);
    out.put_all(&[" ", type_word(column.column_type)]);
    for constraint in column.constraints.as_slice() {
        out.put(match constraint {
            ColumnConstraint::NotNull => " NOT NULL",
            ColumnConstraint::PrimaryKey => " PRIMARY KEY",
        });
    }
}

fn behavior_words(behavior: Option<DropBehavior>) -> &'static str {
    match behavior {
        Some(DropBehavior::Cascade) => " CASCADE",
        Some(DropBehavior::Restrict) => " RESTRICT",
        None => "",
    }
}

fn put_drop_policy(out: &mut Told, drop: &DropPolicy) {
    out.put_name("DROP POLICY ", &drop.policy);
    out.put_name(" ON ", &drop.table);
}

fn put_create_policy(out: &mut Told, create: &CreatePolicy) {
    out.put_name("CREATE POLICY ", &create.policy);
    out.put_name(" ON ", &create.table);
    if let Some(kind) = create.kind {
        out.put_all(&[" ", kind_word(kind)]);
    }
    if let Some(command) = create.command {
        out.put_all(&[" ", command_word(command)]);
    }
    if let Some(grantees) = &create.grantees {
        put_grantees(out, " TO", grantees.as_slice());
    }
    put_clause(out, " USING [", &create.using);
    put_clause(out, " CHECK [", &create.check);
}

/// Tells the text of a policy's condition up to a bracket, and its expression.
fn put_clause(out: &mut Told, before: &str, clause: &Option<PolicyClause>) {
    if let Some(clause) = clause {
        out.put_all(&[before, clause.text.as_str()]);
        put_expr(out, "] ", &clause.expression);
    }
}

fn put_privileges(out: &mut Told, privileges: &Privileges) {
    match privileges {
        Privileges::All(columns) => put_with_columns(out, " ALL", columns),
        Privileges::Actions(actions) => put_actions(out, actions.as_slice()),
    }
}

fn put_actions(out: &mut Told, actions: &[NamedAction]) {
    for action in actions {
        out.put(" ");
        put_with_columns(out, action_word(action.action), &action.columns);
    }
}

/// Tells a word, and after it the columns that it is about, where they are named.
fn put_with_columns(out: &mut Told, word: &str, columns: &Option<Items<Name>>) {
    out.put(word);
    if let Some(columns) = columns {
        put_names(out, " COLUMNS", columns.as_slice());
    }
}

fn put_grant(out: &mut Told, grant: &Grant) {
    out.put("GRANT");
    put_privileges(out, &grant.privileges);
    out.put_name(" ON ", &grant.table);
    put_grantees(out, " TO", grant.grantees.as_slice());
    out.put(words_if(grant.with_grant_option, " WITH GRANT OPTION"));
}

fn put_revoke(out: &mut Told, revoke: &Revoke) {
    let option = words_if(revoke.grant_option_for, " GRANT OPTION FOR");
    out.put_all(&["REVOKE", option]);
    put_privileges(out, &revoke.privileges);
    out.put_name(" ON ", &revoke.table);
    put_grantees(out, " FROM", revoke.grantees.as_slice());
    out.put(behavior_words(revoke.behavior));
}

fn put_insert(out: &mut Told, insert: &Insert) {
    out.put("INSERT INTO ");
    put_with_columns(out, insert.table.as_str(), &insert.columns);
    for row in insert.rows.as_slice() {
        put_list(out, " ROW", row.as_slice());
    }
}

fn put_list(out: &mut Told, before: &str, list: &[Expr]) {
    out.put(before);
    for expr in list {
        put_expr(out, " ", expr);
    }
}

fn put_select(out: &mut Told, select: &Select) {
    match &select.list {
        SelectList::Asterisk => out.put("SELECT ALL COLUMNS"),
        SelectList::Expressions(list) => put_list(out, "SELECT", list.as_slice()),
        SelectList::Count => out.put("SELECT COUNT"),
    }
    if let Some(source) = &select.source {
        put_source(out, source);
    }
}
