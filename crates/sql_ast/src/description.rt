//! What a statement answers, as far as that depends on no row.

use crate::columns::ColumnType;
use sql_types::items::Items;
use sql_types::state::SqlState;
use sql_types::text::Text;

/// A column of the rows that a SELECT answers.
#[derive(Drop)]
pub struct ResultColumn {
    /// A column's name where the item is one, `count` where it counts rows, and what PostgreSQL calls
    /// others, as `?column?`.
    pub name: Text,
    pub column_type: ColumnType,
}

/// What a statement answers, as far as the definitions and the user that asks tell it.
#[derive(Drop)]
pub enum StatementDescription {
    /// Rows of these columns, in their order.
    Rows(Items<ResultColumn>),
    /// No rows.
    NoRows,
    /// It is refused so, whatever the rows are.
    Refused(SqlState),
}
