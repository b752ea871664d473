//! What an expression is worth: truths, nulls, numbers, texts and types.

ghost use Rattle.database_examples.specs.WhatAnExpressionIsWorth.{arithmetic, nulls_in_arithmetic, null_does_not_decide, three_truths, null_operands, both_operands_are_evaluated, left_side_decides, numbers_have_64_bits, quotients_and_remainders, comparisons_of_texts, comparisons_of_booleans, types_of_operands, types_of_conditions};

/// Division truncates toward zero, a remainder has the dividend's sign, and what does not fit is refused.
pub fn arithmetic()
    ensures { arithmetic }
{}

/// A null beside a zero divisor gives null, and both operands are evaluated.
pub fn nulls_in_arithmetic()
    ensures { nulls_in_arithmetic }
{}

/// AND and OR evaluate their right side where the left one is null.
pub fn null_does_not_decide()
    ensures { null_does_not_decide }
{}

/// AND is false beside a false operand, OR true beside a true one; else a null operand makes them
/// null.
pub fn three_truths()
    ensures { three_truths }
{}

/// Every other operator is null beside a null, and only IS NULL and IS NOT NULL never are.
pub fn null_operands()
    ensures { null_operands }
{}

/// A null operand does not save the other: both are evaluated but by AND and OR, and the failure is
/// the answer.
pub fn both_operands_are_evaluated()
    ensures { both_operands_are_evaluated }
{}

/// AND and OR take their right side only where the left one does not decide.
pub fn left_side_decides()
    ensures { left_side_decides }
{}

/// A sum, difference, product or negation outside 64 bits is refused, and the least number has no
/// positive.
pub fn numbers_have_64_bits()
    ensures { numbers_have_64_bits }
{}

/// A quotient is cut toward zero, and a remainder has the sign of the dividend.
pub fn quotients_and_remainders()
    ensures { quotients_and_remainders }
{}

/// Texts are compared by their bytes, a text before those that go on, and nothing is folded or
/// trimmed.
pub fn comparisons_of_texts()
    ensures { comparisons_of_texts }
{}

/// False is less than true.
pub fn comparisons_of_booleans()
    ensures { comparisons_of_booleans }
{}

/// A comparison takes two operands of one type, arithmetic numbers, and AND, OR and NOT booleans.
pub fn types_of_operands()
    ensures { types_of_operands }
{}

/// WHERE and ON take a boolean or the word NULL, whatever a null of another type would be.
pub fn types_of_conditions()
    ensures { types_of_conditions }
{}
