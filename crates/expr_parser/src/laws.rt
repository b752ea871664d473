//! Laws of the grammar of expressions, each the contract of a function with no result.

ghost use Rattle.std.specs.Prelude.{◌≡◌, ◌≢◌, ℕ, List, Result};
ghost use Rattle.sql_types.specs.declared.state.Refusal.{Refusal as TheRefusal};
ghost use Rattle.sql_types.specs.declared.state.SqlState.TheVariants.{OutOfMemory};
ghost use Rattle.sql_lexer.specs.Lexeme.{Lexeme};
ghost use Rattle.expr_parser.specs.Grammar.{Tree, Part, Spells};
ghost use Rattle.expr_parser.specs.Precedence.{WholeIsLongest};
ghost use Rattle.expr_parser.specs.Whole.{SpellsWhole, IsWithinDepth};
ghost use Rattle.expr_parser.specs.Stages.{refusal, Parses};

use sql_lexer::laws::one_lexing;

/// Tokens spell at most one expression, as each part of the grammar.
pub fn one_tree()
    ensures { (ts : List Lexeme) (part : Part) (i j : ℕ) (d e : Tree)
        → Spells ts part i j d → Spells ts part i j e → d ≡ e }
{}

/// What spells a part of the grammar is the longest front that does, where no operator of that part
/// stands behind it.
pub fn whole_is_longest()
    ensures { WholeIsLongest }
{}

/// A text has at most one answer as an expression, refusals of memory aside.
pub fn one_answer()
    ensures { (text : List ℕ) (r s : Result Tree TheRefusal)
        → Parses SpellsWhole IsWithinDepth text r → r ≢ Err (refusal OutOfMemory)
        → Parses SpellsWhole IsWithinDepth text s → s ≢ Err (refusal OutOfMemory)
        → r ≡ s }
{
    // For the proof: a text has one list of tokens.
    one_lexing();
}
