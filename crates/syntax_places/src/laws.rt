//! A law of places, the contract of a function with no result.

ghost use Rattle.std.specs.Prelude.{◌≡◌, ℕ, List, Option};
ghost use Rattle.syntax_places.specs.SyntaxPlaces.{IsSyntaxPlace};

use sql_lexer::laws::one_lexing;

/// A text goes wrong at one place, or at none.
pub fn one_syntax_place()
    ensures { (text : List ℕ) (found other : Option ℕ) → IsSyntaxPlace text found → IsSyntaxPlace text other → found ≡ other }
{
    one_lexing();
}
