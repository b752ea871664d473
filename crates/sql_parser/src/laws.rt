//! A law of parsing, the contract of a function with no result.

ghost use Rattle.std.specs.Prelude.{◌≡◌, ◌≢◌, ℕ, List, Result};
ghost use Rattle.sql_types.specs.declared.state.Refusal.{Refusal as TheRefusal};
ghost use Rattle.sql_types.specs.declared.state.SqlState.TheVariants.{OutOfMemory};
ghost use Rattle.sql_ast.specs.declared.statement.Statement.{Statement as TheStatement};
ghost use Rattle.expr_parser.specs.Stages.{refusal, Parses};
ghost use Rattle.sql_parser.specs.Forms.{Means, IsStatementWithinDepth};

use sql_lexer::laws::one_lexing;

/// A text has at most one answer as a statement, refusals of memory aside.
pub fn one_answer()
    ensures { (text : List ℕ) (r s : Result TheStatement TheRefusal)
        → Parses (Means text) IsStatementWithinDepth text r → r ≢ Err (refusal OutOfMemory)
        → Parses (Means text) IsStatementWithinDepth text s → s ≢ Err (refusal OutOfMemory)
        → r ≡ s }
{
    one_lexing();
}
