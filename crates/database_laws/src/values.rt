//! Laws of the values of expressions.

ghost use Rattle.database_laws.specs.Values.{named_columns_decide, first_operands_fail_first};

/// An expression goes by the columns that it names, which are those that a statement needs SELECT on:
/// rows that agree in them give it one value, or one failure. An operand that fails fails the whole, of
/// two the left one first (SQL:2016 Foundation, 6.30 to 6.35).
pub fn expressions_go_by_their_columns()
    ensures columns { named_columns_decide }
    ensures operands { first_operands_fail_first }
{}
