//! The ranges that conditions leave of a table whose number is 1: each function does nothing, and
//! its clauses are computed.
ghost use Rattle.std.specs.Prelude.{◌≡◌, [], ◌∷◌, ◌++◌, Some, None, pos, negsuc, codes};
ghost use Rattle.sql_types.specs.declared.value.Value.TheVariants.{Null, Text};
ghost use Rattle.sql_ast.specs.declared.expression.Comparison.TheVariants as op;
ghost use Rattle.sql_ast.specs.declared.expression.Operation.TheVariants as operation;
ghost use Rattle.sql_ast.specs.Term.{literal, current_user, comparison, operation as calculation, conjunction, disjunction};
ghost use Rattle.expressions.specs.Meaning.{UserNames};
ghost use Rattle.key_ranges.specs.declared.range.KeyRange.TheVariants.{Point, Span};
ghost use Rattle.key_ranges.specs.Examples.{range_where, number, k, x, one, minus_one, table_one};

/// The column `k` is the whole key.
pub fn ranges_of_one_column()
    ensures equal { (users : UserNames)
        → range_where (0 ∷ []) users (comparison op.Equal k (number (pos 1)))
        ≡ Some (Point (table_one ++ one)) }
    ensures between { (users : UserNames)
        → range_where (0 ∷ []) users (conjunction
        (comparison op.Greater (number (pos 1)) k)
        (comparison op.GreaterOrEqual k (number (negsuc 0))))
        ≡ Some (Span (table_one ++ minus_one) (table_one ++ one)) }
    ensures user { (users : UserNames) → users.current ≡ codes "ab"
        → range_where (0 ∷ []) users (comparison op.LessOrEqual k current_user)
        ≡ Some (Span table_one (table_one ++ codes "ab" ++ 0 ∷ [])) }
    ensures null { (users : UserNames)
        → range_where (0 ∷ []) users (comparison op.Equal k (literal Null)) ≡ None }
    ensures either { (users : UserNames)
        → range_where (0 ∷ []) users (disjunction
        (comparison op.Equal k (number (pos 1)))
        (comparison op.Equal k (number (pos 2)))) ≡ None }
    ensures fails { (users : UserNames)
        → range_where (0 ∷ []) users (conjunction (comparison op.Equal k (number (pos 1)))
        (comparison op.Equal (calculation operation.Divide (number (pos 1)) x) (number (pos 1))))
        ≡ None }
{}

/// The columns `k` and `x` are the key, in this order.
pub fn ranges_of_two_columns()
    ensures first { (users : UserNames)
        → range_where (0 ∷ 1 ∷ []) users (comparison op.Equal k (number (pos 1)))
        ≡ Some (Span (table_one ++ one) (table_one ++ one)) }
    ensures both { (users : UserNames)
        → range_where (0 ∷ 1 ∷ []) users (conjunction
        (comparison op.Less x (number (negsuc 0))) (comparison op.Equal k (number (pos 1))))
        ≡ Some (Span (table_one ++ one) (table_one ++ one ++ minus_one)) }
    ensures point { (users : UserNames)
        → range_where (0 ∷ 1 ∷ []) users (conjunction
        (comparison op.Equal x (literal (Text (codes "ab"))))
        (comparison op.Equal k (number (pos 1))))
        ≡ Some (Point (table_one ++ one ++ codes "ab" ++ 0 ∷ [])) }
    ensures second { (users : UserNames)
        → range_where (0 ∷ 1 ∷ []) users (comparison op.Equal x (number (pos 1))) ≡ None }
{}
