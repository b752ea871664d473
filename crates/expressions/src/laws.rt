//! Laws of expressions: what the definitions of their values say, in other words. Each function
//! does nothing; its clauses are proved.

ghost use Rattle.std.specs.Prelude.{◌≡◌, ◌≢◌, ◌<◌, ◌*ℤ◌, ◌+ℤ◌, ℕ, ℤ, List, ◌∷◌, ◌++◌, Some, Ok, Err, IsSome, unsigned_abs};
ghost use Rattle.std.specs.declared.cmp.Ordering.{Ordering};
ghost use Rattle.std.specs.declared.cmp.Ordering.TheVariants as order;
ghost use Rattle.sql_types.specs.declared.state.SqlState.{SqlState};
ghost use Rattle.sql_types.specs.declared.value.Value.{Value};
ghost use Rattle.sql_types.specs.declared.value.Value.TheVariants.{Int, Text};
ghost use Rattle.sql_types.specs.Value.{compare_values};
ghost use Rattle.sql_ast.specs.declared.columns.ColumnType.{ColumnType};
ghost use Rattle.sql_ast.specs.declared.expression.Comparison.{Comparison};
ghost use Rattle.sql_ast.specs.declared.expression.Operation.{Operation};
ghost use Rattle.sql_ast.specs.declared.expression.Operation.TheVariants as operation;
ghost use Rattle.sql_ast.specs.Term.{Term, conjunction, disjunction, negation};
ghost use Rattle.expressions.specs.Operators.{compared, arithmetic, calculated, and_value, or_value, not_value};
ghost use Rattle.expressions.specs.Meaning.{UserNames, value_of};
ghost use Rattle.expressions.specs.Truths.{true_value, false_value, null, HasRow};
ghost use Rattle.expressions.specs.Types.{type_of_value};

/// The truth table of AND (SQL:2016 Foundation, 6.39).
pub fn truth_table_of_and()
    ensures true_value { HasRow and_value true_value true_value false_value null }
    ensures false_value { HasRow and_value false_value false_value false_value false_value }
    ensures null { HasRow and_value null null false_value null }
{}

/// The truth table of OR (SQL:2016 Foundation, 6.39).
pub fn truth_table_of_or()
    ensures true_value { HasRow or_value true_value true_value true_value true_value }
    ensures false_value { HasRow or_value false_value true_value false_value null }
    ensures null { HasRow or_value null true_value null null }
{}

/// The truth table of NOT (SQL:2016 Foundation, 6.39).
pub fn truth_table_of_not()
    ensures true_value { not_value true_value ≡ false_value }
    ensures false_value { not_value false_value ≡ true_value }
    ensures null { not_value null ≡ null }
{}

/// De Morgan's laws: of values, and of expressions on every row, failures too.
pub fn de_morgan<C>()
    ensures not_and { (x y : Value) → not_value (and_value x y) ≡ or_value (not_value x) (not_value y) }
    ensures not_or { (x y : Value) → not_value (or_value x y) ≡ and_value (not_value x) (not_value y) }
    ensures not_conjunction { (cell : C → Value) (users : UserNames) (a b : Term C)
        → value_of cell users (negation (conjunction a b))
        ≡ value_of cell users (disjunction (negation a) (negation b)) }
    ensures not_disjunction { (cell : C → Value) (users : UserNames) (a b : Term C)
        → value_of cell users (negation (disjunction a b))
        ≡ value_of cell users (conjunction (negation a) (negation b)) }
{}

/// Where the left operand of AND or OR decides, the right one does not count, and where it fails,
/// so does the whole.
pub fn left_decides<C>()
    ensures and_no { (cell : C → Value) (users : UserNames) (a b : Term C)
        → value_of cell users a ≡ Ok false_value → value_of cell users (conjunction a b) ≡ Ok false_value }
    ensures or_yes { (cell : C → Value) (users : UserNames) (a b : Term C)
        → value_of cell users a ≡ Ok true_value → value_of cell users (disjunction a b) ≡ Ok true_value }
    ensures and_fails { (cell : C → Value) (users : UserNames) (a b : Term C) (code : SqlState)
        → value_of cell users a ≡ Err code → value_of cell users (conjunction a b) ≡ Err code }
    ensures or_fails { (cell : C → Value) (users : UserNames) (a b : Term C) (code : SqlState)
        → value_of cell users a ≡ Err code → value_of cell users (disjunction a b) ≡ Err code }
{}

/// A comparison and an operation beside a null are null, a division of null by zero too.
pub fn null_operands()
    ensures compared_left { (op : Comparison) (x : Value) → compared op null x ≡ null }
    ensures compared_right { (op : Comparison) (x : Value) → compared op x null ≡ null }
    ensures calculated_left { (op : Operation) (x : Value) → calculated op null x ≡ Ok null }
    ensures calculated_right { (op : Operation) (x : Value) → calculated op x null ≡ Ok null }
{}

/// Quotient times divisor plus remainder is the dividend, and a remainder is less than its divisor,
/// signs aside.
pub fn quotient_and_remainder()
    ensures dividend { (x y q r : ℤ)
        → arithmetic operation.Divide x y ≡ Ok (Int q)
        → arithmetic operation.Remainder x y ≡ Ok (Int r) → (q *ℤ y) +ℤ r ≡ x }
    ensures below { (x y r : ℤ)
        → arithmetic operation.Remainder x y ≡ Ok (Int r) → unsigned_abs r < unsigned_abs y }
{}

/// Two values of one type have an order, it is that of one value with the other turned round, only
/// equal ones are the same, and it goes on from one pair to the next.
pub fn order_is_total()
    ensures total { (t : ColumnType) (x y : Value)
        → type_of_value x ≡ Some t → type_of_value y ≡ Some t → IsSome (compare_values x y) }
    ensures same { (t : ColumnType) (x : Value)
        → type_of_value x ≡ Some t → compare_values x x ≡ Some order.Equal }
    ensures equal { (x y : Value) → compare_values x y ≡ Some order.Equal → x ≡ y }
    ensures turned { (x y : Value)
        → compare_values x y ≡ Some order.Less → compare_values y x ≡ Some order.Greater }
    ensures turned_back { (x y : Value)
        → compare_values x y ≡ Some order.Greater → compare_values y x ≡ Some order.Less }
    ensures transitive { (x y z : Value)
        → compare_values x y ≡ Some order.Less → compare_values y z ≡ Some order.Less
        → compare_values x z ≡ Some order.Less }
{}

/// Texts go by the first byte in which they differ, and a text comes before those that go on.
pub fn texts_go_by_bytes()
    ensures first_difference { (front rest other : List ℕ) (b c : ℕ)
        → b < c
        → compare_values (Text (front ++ b ∷ rest)) (Text (front ++ c ∷ other)) ≡ Some order.Less }
    ensures longer { (front rest : List ℕ) (b : ℕ)
        → compare_values (Text front) (Text (front ++ b ∷ rest)) ≡ Some order.Less }
{}
