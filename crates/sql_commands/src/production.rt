//! What a part of the grammar is, and what a production.

ghost use Rattle.std.specs.Prelude.{◌≡◌, ◌<◌, ◌↔◌, IsTrue, true, length};
ghost use Rattle.sql_lexer.specs.Lexeme.{lexemes, kind_at as kind_in};
ghost use Rattle.sql_grammar.specs.Phrases.{Phrase, many, parenthesized};
ghost use Rattle.sql_grammar.specs.LookAhead.{CanBegin, Reads, is_determined};

use expr_parser::parse_error::ParseError;
use sql_lexer::token::Token;
use std::alloc::Global;

/// A part of the grammar: a phrase, and how it is read.
pub trait Readable {
    /// What it is read as.
    type Value: Drop;

    /// The phrase that stands for such values.
    ghost phrase: { Phrase Self.Value };

    /// The value that the tokens from `at` on spell, and the index after them: the only reading, if
    /// there is one, that ends where no token can extend it.
    ///
    /// `Syntax` comes only where there is none, `Memory` where memory was refused.
    fn read(alloc: Global, tokens: &[Token], at: usize) -> Result<(Self::Value, usize), ParseError>
        ensures { Reads phrase (lexemes tokens.now) at result };

    /// One token of look-ahead tells how it is read.
    ghost determined: { is_determined phrase ≡ true };
}

/// A production of the grammar: a part that a list may have.
pub trait Production: Readable {
    /// It has a token at least, and a list of it in parentheses is read in one way.
    ghost listable: { is_determined (parenthesized Self.phrase) ≡ true };
}

/// A production that may be left out or repeated: its first token tells whether it is there.
pub trait KnownProduction: Production {
    /// Whether the token at an index can begin such a production.
    fn begins(tokens: &[Token], at: usize) -> bool
        ensures value { IsTrue result
            ↔ CanBegin Self.phrase (kind_in (lexemes tokens.now) at) }
        ensures within { IsTrue result → at < length tokens.now };

    /// Several of them, one after the other, are read in one way.
    ghost repeatable: { is_determined (many Self.phrase) ≡ true };
}
