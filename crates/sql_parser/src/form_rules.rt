//! Rules of form: what a statement must keep beside the grammar.

ghost use Rattle.std.specs.Prelude.{◌≡◌, ◌↔◌, IsTrue, All, None, length, sum_by};
ghost use Rattle.std.specs.List.{list_any};
ghost use Rattle.sql_ast.specs.Layout.{all_differ};
ghost use Rattle.sql_ast.specs.Read.{contradicts, primary_keys_in, HasClauses, IsWellFormedAction, IsWellFormedPrivileges, HaveOneLength, HasSource};
ghost use Rattle.sql_ast.specs.OverRows.{IsWellFormedOverRows};
ghost use Rattle.sql_ast.specs.Defining.{IsWellFormedDefining};
ghost use Rattle.sql_parser.specs.Forms.{IsWellFormed};

use sql_ast::expr::Expr;
use sql_ast::policy::{PolicyClause, PolicyCommand};
use sql_ast::privilege::Action;
use sql_ast::role::RoleAttribute;
use sql_ast::statement::{
    ColumnConstraint, DatabaseStatement, DefiningStatement, NamedAction, Privileges, RowStatement,
    SelectList, Statement, TableElement, TableExpression,
};
use sql_types::items::Items;

// Whether two attributes are an attribute and its contrary.
fn contradicts(one: RoleAttribute, other: RoleAttribute) -> bool
    ensures { result ≡ contradicts one other }
{
    match (one, other) {
        (RoleAttribute::Superuser, RoleAttribute::NoSuperuser) => true,
        (RoleAttribute::NoSuperuser, RoleAttribute::Superuser) => true,
        (RoleAttribute::Login, RoleAttribute::NoLogin) => true,
        (RoleAttribute::NoLogin, RoleAttribute::Login) => true,
        (RoleAttribute::BypassRls, RoleAttribute::NoBypassRls) => true,
        (RoleAttribute::NoBypassRls, RoleAttribute::BypassRls) => true,
        _ => false,
    }
}

// Whether the contrary of an attribute is among these.
fn has_contrary(attributes: &[RoleAttribute], attribute: RoleAttribute) -> bool
    ensures { result ≡ list_any (contradicts attribute) attributes.now }
{
    attributes
        .iter()
        .any(|other| contradicts(attribute, *other))
}

// Whether no attribute stands beside its contrary.
fn have_no_contraries(attributes: &[RoleAttribute]) -> bool
    ensures { result ≡ all_differ contradicts attributes.now }
{
    match attributes.split_first() {
        None => true,
        Some((first, rest)) => !has_contrary(rest, *first) && have_no_contraries(rest),
    }
}

// How many primary keys an element declares.
fn primary_keys_in(element: &TableElement) -> usize
    ensures { result ≡ primary_keys_in element.now }
{
    match element {
        TableElement::Column(column) => column
            .constraints
            .as_slice()
            .iter()
            .filter(|constraint| **constraint == ColumnConstraint::PrimaryKey)
            .count(),
        TableElement::PrimaryKey(_) => 1,
    }
}

// Whether a table has one primary key. Each PRIMARY KEY counts.
fn has_one_key(elements: &[TableElement]) -> bool
    ensures { IsTrue result ↔ sum_by primary_keys_in elements.now ≡ 1 }
{
    let mut keys: usize = 0;
    for element in elements {
        keys = keys.saturating_add(primary_keys_in(element));
    }
    keys == 1
}

// Whether a policy has the clauses of its command.
fn has_clauses(
    command: PolicyCommand,
    using_clause: &Option<PolicyClause>,
    check_clause: &Option<PolicyClause>,
) -> bool
    ensures { IsTrue result ↔ HasClauses command using_clause.now check_clause.now }
{
    match (command, using_clause, check_clause) {
        (PolicyCommand::Only(Action::Insert), None, Some(_)) => true,
        (PolicyCommand::Only(Action::Insert), _, _) => false,
        (PolicyCommand::Only(Action::Select), Some(_), None) => true,
        (PolicyCommand::Only(Action::Select), _, _) => false,
        (PolicyCommand::Only(Action::Delete), Some(_), None) => true,
        (PolicyCommand::Only(Action::Delete), _, _) => false,
        (_, Some(_), _) => true,
        (_, None, _) => false,
    }
}

// Whether an action may have the columns that it has: DELETE takes none.
fn action_is_well_formed(action: &NamedAction) -> bool
    ensures { IsTrue result ↔ IsWellFormedAction action.now }
{
    match (action.action, &action.columns) {
        (Action::Delete, Some(_)) => false,
        _ => true,
    }
}

fn actions_are_well_formed(actions: &[NamedAction]) -> bool
    ensures { IsTrue result ↔ All IsWellFormedAction actions.now }
{
    for action in actions {
        if !action_is_well_formed(action) {
            return false;
        }
    }
    true
}

// Whether no DELETE among privileges has columns.
fn privileges_are_well_formed(privileges: &Privileges) -> bool
    ensures { IsTrue result ↔ IsWellFormedPrivileges privileges.now }
{
    match privileges {
        Privileges::All(_) => true,
        Privileges::Actions(actions) => actions_are_well_formed(actions.as_slice()),
    }
}

fn have_length(rows: &[Items<Expr>], width: usize) -> bool
    ensures { IsTrue result ↔ All (λ row. length row ≡ width) rows.now }
{
    for row in rows {
        if row.len() != width {
            return false;
        }
    }
    true
}

// Whether rows have one length.
fn have_one_length(rows: &[Items<Expr>]) -> bool
    ensures { IsTrue result ↔ HaveOneLength rows.now }
{
    match rows.get(0) {
        Some(first) => have_length(rows, first.len()),
        None => true,
    }
}

// Whether a `COUNT ( * )` over these tables has neither ORDER BY nor LIMIT.
fn is_unordered(source: &TableExpression) -> bool
    ensures { IsTrue result ↔ ((source.now.order ≡ None) × (source.now.limit ≡ None)) }
{
    source.order.is_none() && source.limit.is_none()
}

// Whether `*` and `COUNT ( * )` have tables, and COUNT neither ORDER BY nor LIMIT.
fn has_source(list: &SelectList, source: &Option<TableExpression>) -> bool
    ensures { IsTrue result ↔ HasSource list.now source.now }
{
    match (list, source) {
        (SelectList::Expressions(_), _) => true,
        (SelectList::Asterisk, None) => false,
        (SelectList::Asterisk, Some(_)) => true,
        (SelectList::Count, None) => false,
        (SelectList::Count, Some(source)) => is_unordered(source),
    }
}

// Whether the rows of VALUES have one length, `*` and `COUNT ( * )` have a FROM, and COUNT has neither
// ORDER BY nor LIMIT.
fn rows_are_well_formed(statement: &RowStatement) -> bool
    ensures { IsTrue result ↔ IsWellFormedOverRows statement.now }
{
    match statement {
        RowStatement::Insert(insert) => have_one_length(insert.rows.as_slice()),
        RowStatement::Select(select) => has_source(&select.list, &select.source),
        RowStatement::Update(_) | RowStatement::Delete(_) => true,
    }
}

// Whether no attribute of a role stands beside its contrary, a table has one primary key, a policy has the
// clauses of its command, and no DELETE that is granted or revoked has columns.
fn definition_is_well_formed(statement: &DefiningStatement) -> bool
    ensures { IsTrue result ↔ IsWellFormedDefining statement.now }
{
    match statement {
        DefiningStatement::CreateRole(create) => have_no_contraries(create.attributes.as_slice()),
        DefiningStatement::CreateTable(create) => has_one_key(create.elements.as_slice()),
        DefiningStatement::CreatePolicy(create) => {
            let command = create.command.unwrap_or(PolicyCommand::All);
            has_clauses(command, &create.using, &create.check)
        }
        DefiningStatement::Grant(grant) => privileges_are_well_formed(&grant.privileges),
        DefiningStatement::Revoke(revoke) => privileges_are_well_formed(&revoke.privileges),
        DefiningStatement::DropRole(_)
        | DefiningStatement::GrantRole(_)
        | DefiningStatement::RevokeRole(_)
        | DefiningStatement::DropTable(_)
        | DefiningStatement::AlterTable(_)
        | DefiningStatement::DropPolicy(_) => true,
    }
}

/// Whether a statement keeps the rules of form that the grammar does not give: no attribute of a
/// role stands beside its contrary, a table has one primary key, where each PRIMARY KEY counts, a
/// policy has the clauses of its command, no DELETE that is granted or revoked has columns, the rows of
/// VALUES have one length, `*` and `COUNT ( * )` have a FROM, and COUNT has neither ORDER BY nor LIMIT.
pub fn is_well_formed(statement: &Statement) -> bool
    ensures { IsTrue result ↔ IsWellFormed statement.now }
{
    match statement {
        Statement::OnDatabase(DatabaseStatement::OverRows(statement)) => rows_are_well_formed(
            statement,
        ),
        Statement::OnDatabase(DatabaseStatement::Defining(statement)) => definition_is_well_formed(
            statement,
        ),
        Statement::OfSession(_) => true,
    }
}
