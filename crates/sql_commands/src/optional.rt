//! Productions that may be left out.

use crate::production::{KnownProduction, Readable};
use expr_parser::parse_error::ParseError;
use sql_lexer::token::Token;
use std::alloc::Global;
use std::marker::PhantomData;

/// `[phrase]`: a production, or nothing where no token begins it.
pub struct Optional<T>(PhantomData<T>);

impl<T: KnownProduction> Readable for Optional<T> {
    ghost use Rattle.sql_grammar.specs.Phrases.{optional};
    ghost use Rattle.sql_commands.specs.Determined.{optional_determined};

    type Value = Option<T::Value>;

    ghost phrase = { optional T.phrase };

    fn read(
        alloc: Global,
        tokens: &[Token],
        at: usize,
    ) -> Result<(Option<T::Value>, usize), ParseError> {
        if !T::begins(tokens, at) {
            return Ok((None, at));
        }
        let (item, end) = T::read(alloc, tokens, at)?;
        Ok((Some(item), end))
    }

    ghost determined = { optional_determined T.phrase T.listable };
}
