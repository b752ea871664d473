//! Laws of the conditions of policies, which records hold as they were written.

ghost use Rattle.std.specs.Prelude.{◌≡◌, ◌<◌, ◌≤◌, ◌-◌, List, length, Ok};
ghost use Rattle.sql_ast.specs.declared.policy.PolicyClause.{PolicyClause};
ghost use Rattle.sql_lexer.specs.Lexeme.{Lexeme};
ghost use Rattle.sql_lexer.specs.Lexing.{Lexes};
ghost use Rattle.sql_lexer.specs.Slices.{start_at, end_at};
ghost use Rattle.expr_parser.specs.Written.{IsAsWritten};

use expr_parser::laws::one_answer;

/// A text is the text of one condition.
pub fn one_condition()
    ensures { (a b : PolicyClause) → IsAsWritten a → IsAsWritten b → a.text ≡ b.text → a ≡ b }
{
    // For the proof: a text has one reading.
    one_answer();
}

/// The text of a condition begins with its first token and goes no further than its last: a text
/// with a blank or a comment around its tokens is no condition's.
pub fn conditions_begin_and_end_with_tokens()
    ensures { (c : PolicyClause) (ts : List Lexeme) → IsAsWritten c → Lexes c.text (Ok ts)
        → 0 < length c.text
        → (start_at ts 0 ≡ 0) × (length c.text ≤ end_at ts (length ts - 1)) }
{}
