//! Sort keys, which compare as ORDER BY does.
ghost use Rattle.std.specs.Prelude.{◌≡◌};
ghost use Rattle.std.proofs.Common.{rules};
ghost use Rattle.std.specs.Cmp.{partial_order_from_own_ties};
ghost use Rattle.std.specs.Cmp.Rules.{comparing};
ghost use Rattle.std.specs.Ordering.{as_partial_cmp, eq_by_cmp};
ghost use Rattle.sql_types.specs.Value.{owned};
ghost use Rattle.gathering.specs.SortValues.{directed, direction_cmp, kind_of, sort_cmp};

use sql_types::value::{Value, ValueRef, compare};
use std::cmp::{Ordering, Reverse};

/// A value of one column of ORDER BY: numbers by size, texts by their bytes, false before true, and nulls last (SQL:2016
/// Foundation, 10.10). Of two values of different types, which no column has, the number comes first, then the text.
#[derive(Drop)]
pub struct SortValue(pub Value);

/// A value in the direction of its key.
#[derive(Drop, PartialEq, Eq, PartialOrd, Ord)]
pub enum Directed {
    Ascending(SortValue),
    Descending(Reverse<SortValue>),
}

impl Directed {
    /// The value, ascending or descending.
    pub fn new(value: Value, descending: bool) -> Directed
        ensures { result ≡ directed descending value }
    {
        if descending {
            Directed::Descending(Reverse(SortValue(value)))
        } else {
            Directed::Ascending(SortValue(value))
        }
    }

    /// How another value in its direction compares with this one. No memory is taken.
    pub fn compare(&self, value: ValueRef<'_>, descending: bool) -> Ordering
        ensures { result ≡ direction_cmp (directed descending (owned value.entry)) self.now }
    {
        match self {
            Directed::Ascending(kept) => {
                if descending {
                    Ordering::Greater
                } else {
                    sort_order(value, kept.0.as_ref())
                }
            }
            Directed::Descending(kept) => {
                if descending {
                    sort_order(kept.0.0.as_ref(), value)
                } else {
                    Ordering::Less
                }
            }
        }
    }
}

/// How two values compare as ORDER BY does, nulls last.
fn sort_order(left: ValueRef<'_>, right: ValueRef<'_>) -> Ordering
    ensures { result
        ≡ sort_cmp (record { 0 = owned left.entry }) (record { 0 = owned right.entry }) }
{
    match compare(left, right) {
        Some(ordering) => ordering,
        None => kind(left).cmp(&kind(right)),
    }
}

/// The order of values of different types, with null as the last.
fn kind(value: ValueRef<'_>) -> u8
    ensures { result ≡ kind_of (owned value.entry) }
{
    match value {
        ValueRef::Int(_) => 0,
        ValueRef::Text(_) => 1,
        ValueRef::Bool(_) => 2,
        ValueRef::Null => 3,
    }
}

impl Ord for SortValue {
    ghost cmp = { sort_cmp };

    ghost total = { Prim.search (comparing, rules) depth 12 };

    ghost matches_partial_cmp = { Prim.search (comparing, rules) depth 12 };

    ghost matches_eq = { Prim.search (comparing, rules) depth 12 };

    fn cmp(&self, other: &SortValue) -> Ordering {
        match (&self.0, &other.0) {
            (Value::Int(own), Value::Int(other)) => own.cmp(other),
            _ => sort_order(self.0.as_ref(), other.0.as_ref()),
        }
    }
}

impl PartialOrd for SortValue {
    ghost partial_cmp = { as_partial_cmp sort_cmp };

    ghost laws = { partial_order_from_own_ties
        (Prim.search (comparing, rules) depth 12) (Prim.search (comparing, rules) depth 12) };

    fn partial_cmp(&self, other: &SortValue) -> Option<Ordering> {
        Some(self.cmp(other))
    }
}

impl PartialEq for SortValue {
    ghost eq = { eq_by_cmp sort_cmp };

    ghost laws = { Prim.search (comparing, rules) depth 12 };

    fn eq(&self, other: &SortValue) -> bool {
        self.cmp(other).is_eq()
    }
}

impl Eq for SortValue {
    ghost laws = { Prim.search (comparing, rules) depth 12 };
}
