//! The tables of SELECT, and what stands after them.

use crate::texts::printed_expressions::put_expression;
use crate::told::Told;
use sql_ast::expr::Expr;
use sql_ast::statement::{
    FromClause, Join, SortDirection, SortKey, TableExpression, TableReference,
};

/// Tells the tables with their aliases, the condition, the keys of the order and the limit.
pub fn put_source(out: &mut Told, source: &TableExpression) {
    match &source.tables {
        FromClause::List(tables) => put_tables(out, tables.as_slice()),
        FromClause::Joined(first, joins) => put_joins(out, first, joins.as_slice()),
    }
    put_condition(out, " WHERE ", &source.condition);
    if let Some(order) = &source.order {
        put_order(out, order.as_slice());
    }
    if let Some(limit) = source.limit {
        out.put_number(" LIMIT ", limit as i128);
    }
}

/// Tells a condition after the words before it, or nothing where there is none.
pub fn put_condition(out: &mut Told, before: &str, condition: &Option<Expr>) {
    if let Some(condition) = condition {
        put_expr(out, before, condition);
    }
}

/// Tells an expression after the words before it.
pub fn put_expr(out: &mut Told, before: &str, expr: &Expr) {
    out.put(before);
    put_expression(out, expr.tree());
}

fn put_tables(out: &mut Told, tables: &[TableReference]) {
    let mut before = " FROM ";
    for table in tables {
        put_table(out, before, table);
        before = " ";
    }
}

fn put_table(out: &mut Told, before: &str, table: &TableReference) {
    out.put_name(before, &table.table);
    if let Some(alias) = &table.alias {
        out.put_name(" AS ", alias);
    }
}

fn put_joins(out: &mut Told, first: &TableReference, joins: &[Join]) {
    put_table(out, " FROM ", first);
    for join in joins {
        put_table(out, " JOIN ", &join.table);
        put_condition(out, " ON ", &join.condition);
    }
}

fn put_order(out: &mut Told, keys: &[SortKey]) {
    out.put(" ORDER BY");
    for key in keys {
        put_expr(out, " ", &key.value);
        out.put(match key.direction {
            Some(SortDirection::Ascending) => " ASC",
            Some(SortDirection::Descending) => " DESC",
            None => "",
        });
    }
}
