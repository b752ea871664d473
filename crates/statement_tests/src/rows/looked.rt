//! Where statements look for rows.

use crate::told::Told;
use catalogue::definitions::Catalogue;
use expressions::eval::Users;
use expressions::types::Typed;
use key_ranges::KeyRange;
use planner::{SelectPlan, Source, plan_delete, plan_select, plan_update};
use row_statements::{range_where, ranged};
use sql_ast::statement::{Delete, RowStatement, Select, Update};
use sql_types::name::Name;
use sql_types::state::Refusal;
use std::alloc::Global;

/// Tells the tables of a statement of this role, each with the keys among which its rows are
/// looked for, or the code of its refusal. INSERT looks for none.
pub fn put_looked_for(
    alloc: Global,
    catalogue: &Catalogue,
    role: &Name,
    statement: &RowStatement,
    out: &mut Told,
) {
    let told = match statement {
        RowStatement::Select(s) => select_looks(alloc, catalogue, role, s, out),
        RowStatement::Update(s) => update_looks(alloc, catalogue, role, s, out),
        RowStatement::Delete(s) => delete_looks(alloc, catalogue, role, s, out),
        RowStatement::Insert(_) => Ok(()),
    };
    if let Err(refusal) = told {
        out.put(refusal.0.code());
    }
}

fn select_looks(
    alloc: Global,
    catalogue: &Catalogue,
    role: &Name,
    statement: &Select,
    out: &mut Told,
) -> Result<(), Refusal> {
    let plan = plan_select(alloc, catalogue, role, statement)?;
    all_look(alloc, role, &plan, out)
}

fn all_look(
    alloc: Global,
    role: &Name,
    plan: &SelectPlan<'_>,
    out: &mut Told,
) -> Result<(), Refusal> {
    let users = users_of(role, plan.roles.names());
    let conditions = plan.query.conditions.as_slice();
    let tables = ranged(alloc, plan.sources.as_slice(), conditions, &users)?;
    for table in tables.as_slice() {
        put_range(out, table.source, &table.range);
    }
    Ok(())
}

fn update_looks(
    alloc: Global,
    catalogue: &Catalogue,
    role: &Name,
    statement: &Update,
    out: &mut Told,
) -> Result<(), Refusal> {
    let plan = plan_update(alloc, catalogue, role, statement)?;
    let users = users_of(role, plan.roles.names());
    one_looks(alloc, &users, &plan.target, plan.condition.as_ref(), out)
}

fn delete_looks(
    alloc: Global,
    catalogue: &Catalogue,
    role: &Name,
    statement: &Delete,
    out: &mut Told,
) -> Result<(), Refusal> {
    let plan = plan_delete(alloc, catalogue, role, statement)?;
    let users = users_of(role, plan.roles.names());
    one_looks(alloc, &users, &plan.target, plan.condition.as_ref(), out)
}

fn one_looks(
    alloc: Global,
    users: &Users<'_>,
    table: &Source<'_>,
    condition: Option<&Typed>,
    out: &mut Told,
) -> Result<(), Refusal> {
    let range = range_where(alloc, table, condition, users)?;
    put_range(out, table, &range);
    Ok(())
}

fn users_of<'a>(role: &'a Name, roles: &'a [&'a str]) -> Users<'a> {
    Users {
        current_user: role.as_str(),
        session_user: role.as_str(),
        roles,
    }
}

fn put_range(out: &mut Told, table: &Source<'_>, range: &Option<KeyRange>) {
    if !out.is_empty() {
        out.put(", ");
    }
    out.put(table.table.name().as_str());
    match range {
        Some(KeyRange::Point(_)) => out.put(": one key"),
        Some(KeyRange::Span { .. }) => out.put(": a span of keys"),
        Some(KeyRange::Several(spans)) => {
            out.put_number(": ", spans.as_slice().len() as i128);
            out.put(" spans of keys");
        }
        None => out.put(": all keys"),
    }
}
