//! The privileges that a statement names on a table, each once.
ghost use Rattle.std.specs.Prelude.{◌≡◌, [], map, flat_map, unwrap_or, option_to_list, position, IfOk, OnOk};
ghost use Rattle.std.specs.List.{list_any, list_all};
ghost use Rattle.abstract_database.specs.Privileges.{is_column_named, columns_named, on_column, indices_of, on_each, privileges_of};
ghost use Rattle.sql_ast.specs.declared.statement.Privileges.TheVariants.{All};
ghost use Rattle.schema_statements.specs.PrivilegeUnits.{is_column as is_column_of, same_privilege, with_one, with_each};

use sql_ast::columns::Columns;
use sql_ast::privilege::{Action, Privilege};
use sql_ast::statement::{NamedAction, Privileges};
use sql_types::items::Items;
use sql_types::name::Name;
use std::alloc::{AllocError, Global};

/// Whether a column has this name.
fn is_column(columns: &Columns, name: &Name) -> bool
    ensures { result ≡ is_column_of columns.now name.now }
{
    columns.find(name).is_some()
}

/// Whether each of these names, if there are any, is that of a column.
fn are_columns(columns: &Columns, names: &Option<Items<Name>>) -> bool
    ensures { result ≡ list_all (is_column_of columns.now) (unwrap_or names.now []) }
{
    match names {
        None => true,
        Some(names) => names.as_slice().iter().all(|name| is_column(columns, name)),
    }
}

/// Whether the columns of each of these actions are there.
fn have_columns(columns: &Columns, actions: &[NamedAction]) -> bool
    ensures { result ≡ list_all (λ a. list_all (is_column_of columns.now) (unwrap_or a.columns [])) actions.now }
{
    actions
        .iter()
        .all(|named| are_columns(columns, &named.columns))
}

/// Whether each column that a statement names is there.
pub(crate) fn names_columns(columns: &Columns, privileges: &Privileges) -> bool
    ensures { result ≡ list_all (is_column_of columns.now) (columns_named privileges.now) }
{
    match privileges {
        Privileges::All(names) => are_columns(columns, names),
        Privileges::Actions(actions) => have_columns(columns, actions.as_slice()),
    }
}

/// Whether two privileges are the same.
fn is_same(left: Privilege, right: Privilege) -> bool
    ensures { result ≡ same_privilege left right }
{
    left.action == right.action && left.column == right.column
}

/// Whether a privilege is among these.
fn has(units: &[Privilege], privilege: Privilege) -> bool
    ensures { result ≡ list_any (same_privilege privilege) units.now }
{
    units.iter().any(|unit| is_same(privilege, *unit))
}

/// Adds a privilege, unless it is there.
fn add(units: &mut Vec<Privilege>, privilege: Privilege) -> Result<(), AllocError>
    ensures { OnOk result (units.new.items ≡ with_one units.old.items privilege) }
{
    if !has(units.as_slice(), privilege) {
        units.push(privilege)?;
    }
    Ok(())
}

/// Adds an action on the column of this name, if there is one.
fn add_on(
    units: &mut Vec<Privilege>,
    columns: &Columns,
    name: &Name,
    action: Action,
) -> Result<(), AllocError>
    ensures { OnOk result (units.new.items ≡ with_each units.old.items
        (map (on_column action) (option_to_list (position (is_column_named name.now) columns.now.columns)))) }
{
    match columns.find(name) {
        None => Ok(()),
        Some(column) => add(
            units,
            Privilege {
                action,
                column: Some(column),
            },
        ),
    }
}

/// Adds an action on each of the columns of these names.
fn add_on_each(
    units: &mut Vec<Privilege>,
    columns: &Columns,
    names: &[Name],
    action: Action,
) -> Result<(), AllocError>
    ensures { OnOk result (units.new.items ≡ with_each units.old.items
        (map (on_column action) (indices_of columns.now names.now))) }
{
    for name in names {
        add_on(units, columns, name, action)?;
    }
    Ok(())
}

/// Adds an action on the whole table, or on each of the columns of these names.
fn add_action(
    units: &mut Vec<Privilege>,
    columns: &Columns,
    names: &Option<Items<Name>>,
    action: Action,
) -> Result<(), AllocError>
    ensures { OnOk result (units.new.items ≡ with_each units.old.items (on_each columns.now names.now action)) }
{
    match names {
        None => add(
            units,
            Privilege {
                action,
                column: None,
            },
        ),
        Some(names) => add_on_each(units, columns, names.as_slice(), action),
    }
}

/// Adds each action that there is on the whole table, or on the columns of these names.
fn add_all(
    units: &mut Vec<Privilege>,
    columns: &Columns,
    names: &Option<Items<Name>>,
) -> Result<(), AllocError>
    ensures { OnOk result (units.new.items ≡ with_each units.old.items (privileges_of columns.now (All names.now))) }
{
    add_action(units, columns, names, Action::Select)?;
    add_action(units, columns, names, Action::Insert)?;
    add_action(units, columns, names, Action::Update)?;
    if names.is_none() {
        add_action(units, columns, names, Action::Delete)?;
    }
    Ok(())
}

/// Adds each of these actions, on the whole table or on its columns.
fn add_actions(
    units: &mut Vec<Privilege>,
    columns: &Columns,
    actions: &[NamedAction],
) -> Result<(), AllocError>
    ensures { OnOk result (units.new.items ≡ with_each units.old.items
        (flat_map (λ a. on_each columns.now a.columns a.action) actions.now)) }
{
    for named in actions {
        add_action(units, columns, &named.columns, named.action)?;
    }
    Ok(())
}

/// The privileges that a statement names on a table of these columns, each once: an action on the whole table, or on
/// each of the columns that it names. A name of no column is passed over.
pub(crate) fn units(
    alloc: Global,
    columns: &Columns,
    privileges: &Privileges,
) -> Result<Vec<Privilege>, AllocError>
    ensures { IfOk result (λ units. units.items ≡ with_each [] (privileges_of columns.now privileges.now)) }
{
    let mut units = Vec::new(alloc);
    match privileges {
        Privileges::All(names) => add_all(&mut units, columns, names)?,
        Privileges::Actions(actions) => add_actions(&mut units, columns, actions.as_slice())?,
    }
    Ok(units)
}
