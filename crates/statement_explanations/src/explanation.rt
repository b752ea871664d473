//! What is told of a statement over rows before it reads a row.

use catalogue::policy::CataloguePolicy;
use catalogue::table::TableDefinition;
use expressions::types::Typed;
use key_ranges::KeyRange;
use sql_ast::privilege::Action;
use sql_types::items::Items;

/// How a statement looks for the rows of a table.
#[derive(Clone, Copy)]
pub enum TableReading<'a> {
    /// All of them are read.
    Whole,
    /// Those with these keys are read. Of a joined table some of these keys alone may be looked up, behind
    /// the rows of the tables before.
    Within(&'a KeyRange),
    /// A condition compares the first column of the key by `=` to a column of a table before, and none
    /// bounds it otherwise. So keys are looked up behind the rows of the tables before, where these are
    /// few. Else those with these keys are read, or all where there is no range.
    BehindRows(Option<&'a KeyRange>),
    /// None is: the key of each new row of an INSERT is looked up.
    NewKeys,
}

impl<'a> TableReading<'a> {
    /// The keys that the rows have which are read, and not looked up behind others. `None`: any, or none are
    /// read so.
    pub(crate) fn range(self) -> Option<&'a KeyRange> {
        match self {
            TableReading::Within(range) => Some(range),
            TableReading::BehindRows(range) => range,
            TableReading::Whole | TableReading::NewKeys => None,
        }
    }
}

/// What a condition does for the keys in which rows are looked for.
#[derive(Clone, Copy, PartialEq, Eq)]
pub struct Bounding {
    /// Whether by itself it bounds the first column of the key, or is false on every row.
    pub bounds: bool,
    /// Whether it may fail on a row, since it has an operator of arithmetic: what is asked behind it
    /// bounds nothing.
    pub may_fail: bool,
}

/// A policy that applies to a statement.
#[derive(Clone, Copy)]
pub struct PolicyExplanation<'a> {
    pub policy: &'a CataloguePolicy,
    /// The action for which it is asked.
    pub action: Action,
    /// What its condition bounds: of new rows nothing.
    pub bounding: Bounding,
}

/// A condition of a statement.
#[derive(Clone, Copy)]
pub struct ConditionExplanation<'a> {
    pub condition: &'a Typed,
    /// What it bounds of the table of which it is told.
    pub bounding: Bounding,
}

/// What a statement does with the rows of one of its tables.
#[derive(Drop)]
pub struct TableExplanation<'a> {
    pub table: &'a TableDefinition,
    /// Whether row security guards the rows from the current role.
    pub is_guarded: bool,
    /// The policies that apply, in the order in which they are asked: those of the statement's action,
    /// permissive ones before restrictive ones, and then those of SELECT where it reads too. None where
    /// the rows are not guarded.
    pub policies: Items<PolicyExplanation<'a>>,
    /// The conditions of the statement, in the order in which they are asked, behind the policies.
    pub conditions: Items<ConditionExplanation<'a>>,
    pub reading: TableReading<'a>,
}
