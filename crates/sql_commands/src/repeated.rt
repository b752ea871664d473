//! Productions that are repeated, with nothing between two.

use crate::production::{KnownProduction, Readable};
use expr_parser::parse_error::ParseError;
use sql_lexer::token::Token;
use sql_types::items::Items;
use std::alloc::Global;
use std::marker::PhantomData;

/// `{phrase}`: productions one after the other, as many as there are.
pub struct Repeated<T>(PhantomData<T>);

impl<T: KnownProduction> Readable for Repeated<T> {
    ghost use Rattle.sql_grammar.specs.Phrases.{many};

    type Value = Items<T::Value>;

    ghost phrase = { many T.phrase };

    fn read(
        alloc: Global,
        tokens: &[Token],
        at: usize,
    ) -> Result<(Items<T::Value>, usize), ParseError> {
        let mut items = Items::new(alloc);
        let mut end = at;
        while T::begins(tokens, end) {
            let (item, next) = T::read(alloc, tokens, end)?;
            items.push(item)?;
            end = next;
        }
        Ok((items, end))
    }

    ghost determined = { T.repeatable };
}
