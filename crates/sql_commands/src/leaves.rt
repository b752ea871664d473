//! The productions that are single names, numbers and expressions.

use crate::production::{KnownProduction, Production, Readable};
use expr_parser::parse_error::ParseError;
use expr_parser::parser::expr_at;
use expr_parser::reader::{kind_at, name_at};
use sql_ast::expr::Expr;
use sql_grammar::number::number;
use sql_lexer::token::{Token, TokenKind};
use sql_types::name::Name;
use std::alloc::Global;

impl Readable for Name {
    ghost use Rattle.std.specs.Prelude.{refl};
    ghost use Rattle.sql_grammar.specs.Phrases.{name as a_name};

    type Value = Name;

    ghost phrase = { a_name };

    fn read(alloc: Global, tokens: &[Token], at: usize) -> Result<(Name, usize), ParseError> {
        match name_at(alloc, tokens, at)? {
            Some(name) => Ok((name, at + 1)),
            None => Err(ParseError::Syntax),
        }
    }

    ghost determined = { refl };
}

impl Production for Name {
    ghost use Rattle.std.specs.Prelude.{refl};

    ghost listable = { refl };
}

impl KnownProduction for Name {
    ghost use Rattle.std.specs.Prelude.{refl};

    fn begins(tokens: &[Token], at: usize) -> bool {
        match kind_at(tokens, at) {
            Some(TokenKind::Word) => true,
            Some(TokenKind::QuotedIdentifier) => true,
            Some(TokenKind::Unreserved(_)) => true,
            _ => false,
        }
    }

    ghost repeatable = { refl };
}

impl Readable for Expr {
    ghost use Rattle.std.specs.Prelude.{refl};
    ghost use Rattle.sql_grammar.specs.Phrases.{expr as an_expression};

    type Value = Expr;

    ghost phrase = { an_expression };

    fn read(alloc: Global, tokens: &[Token], at: usize) -> Result<(Expr, usize), ParseError> {
        match expr_at(alloc, tokens, at)? {
            Some((expr, end)) => Ok((expr, end)),
            None => Err(ParseError::Syntax),
        }
    }

    ghost determined = { refl };
}

impl Production for Expr {
    ghost use Rattle.std.specs.Prelude.{refl};

    ghost listable = { refl };
}

/// A number below 2^63 is a production.
impl Readable for u64 {
    ghost use Rattle.std.specs.Prelude.{refl};
    ghost use Rattle.sql_grammar.specs.Phrases.{number as a_number};

    type Value = u64;

    ghost phrase = { a_number };

    fn read(_: Global, tokens: &[Token], at: usize) -> Result<(u64, usize), ParseError> {
        number(tokens, at)
    }

    ghost determined = { refl };
}

impl Production for u64 {
    ghost use Rattle.std.specs.Prelude.{refl};

    ghost listable = { refl };
}
