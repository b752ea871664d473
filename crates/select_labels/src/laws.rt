//! What holds of texts without their labels.

ghost use Rattle.std.specs.Prelude.{◌≡◌, ℕ, Bool, List, Ok, Some, None, false, length};
ghost use Rattle.sql_lexer.specs.Lexeme.{Lexeme};
ghost use Rattle.sql_lexer.specs.Lexing.{Lexes};
ghost use Rattle.select_labels.specs.declared.unlabelled.Unlabelled.{Unlabelled};
ghost use Rattle.select_labels.specs.Marks.{LeavesOutLabels, marked, unmarked};
ghost use Rattle.select_labels.specs.Unlabelled.{blanked, may_have_labels, without_labels};

/// A text stays as it is whose first token is not SELECT, or none of whose other tokens is AS.
pub fn plain_texts_stay()
    ensures { (text : List ℕ) (ts : List Lexeme) → may_have_labels ts ≡ false → without_labels text ts ≡ None }
{}

/// A text with labels and the text without them have the same tokens, but for those of the labels: of the same kinds and bytes, at the
/// same places. Both texts are as long.
pub fn labels_alone_are_left_out()
    ensures { (text : List ℕ) (ts : List Lexeme) (u : Unlabelled) → Lexes text (Ok ts) → without_labels text ts ≡ Some u → LeavesOutLabels text ts u }
{}
