//! The table of a statement, and what the statement says of its rows.
use expressions::eval::Users;
use expressions::types::Typed;
use guards::guard::Guard;
use key_ranges::KeyRange;
use sql_ast::columns::Columns;
use sql_types::items::Items;

/// The table of a statement: its number in records, its columns, what row security lets the
/// statement see and write, and the users of whom expressions speak.
///
/// A statement that reads rows asks for those of the range, or for all rows where it is `None`.
#[derive(Clone, Copy)]
pub struct Target<'a> {
    pub id: u32,
    pub columns: &'a Columns,
    pub guard: &'a Guard<'a>,
    pub users: &'a Users<'a>,
    pub range: Option<&'a KeyRange>,
}

/// The rows of an INSERT: the indices of the columns that values are given to, and the values of each
/// row in the same order.
#[derive(Clone, Copy)]
pub struct Insertion<'a> {
    pub columns: &'a [usize],
    pub rows: &'a [Items<Typed>],
}

/// What an UPDATE sets: the indices of the columns, and their new values in the same order.
#[derive(Clone, Copy)]
pub struct Assignments<'a> {
    pub columns: &'a [usize],
    pub values: &'a [Typed],
}
