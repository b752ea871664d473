//! What a parser of whole texts needs of a grammar.

ghost use Rattle.std.specs.Prelude.{◌↔◌, ℕ, List, IsTrue};
ghost use Rattle.sql_lexer.specs.Lexeme.{ArePlaced, Lexeme, lexemes};
ghost use Rattle.expr_parser.specs.Stages.{ReadsAll};

use crate::parse_error::ParseError;
use sql_lexer::token::Token;
use std::alloc::Global;

/// A grammar: what a list of tokens means as a whole.
pub trait Grammar {
    /// What tokens mean: an expression or a statement.
    type Value: Drop;

    /// The tokens of this source, all of them, mean this value.
    ghost Means: { List ℕ → List Lexeme → Self.Value → Type 0 };

    /// No expression of the value is deeper than 64.
    ghost IsWithinDepth: { Self.Value → Type 0 };

    /// The value that the tokens of a source mean, all of them. `Syntax` comes only where they mean
    /// none, and `Memory` where memory was refused. The caller's tokens are slices of the source.
    fn read(alloc: Global, source: &str, tokens: &[Token]) -> Result<Self::Value, ParseError>
        requires { ArePlaced source.now (lexemes tokens.now) }
        ensures { ReadsAll (Means source.now) (lexemes tokens.now) result };

    /// Whether no expression of a value is deeper than 64.
    fn is_within_depth(value: &Self::Value) -> bool
        ensures { IsTrue result ↔ IsWithinDepth value.now };
}
