//! Lists: productions with a comma between two, and such lists in parentheses.

use crate::production::{KnownProduction, Production, Readable};
use crate::steps::{then, token};
use expr_parser::parse_error::ParseError;
use expr_parser::reader::has;
use sql_lexer::token::{Punctuation, Token, TokenKind};
use sql_types::items::Items;
use std::alloc::Global;
use std::marker::PhantomData;

/// `phrase {"," phrase}`: a list with a comma between two.
pub struct ListOf<T>(PhantomData<T>);

impl<T: Production> Readable for ListOf<T> {
    ghost use Rattle.sql_grammar.specs.Phrases.{listed};
    ghost use Rattle.sql_commands.specs.Determined.{list_determined};

    type Value = Items<T::Value>;

    ghost phrase = { listed T.phrase };

    fn read(
        alloc: Global,
        tokens: &[Token],
        at: usize,
    ) -> Result<(Items<T::Value>, usize), ParseError> {
        let (first, mut end) = T::read(alloc, tokens, at)?;
        let mut items = Items::new(alloc);
        items.push(first)?;
        while has(tokens, end, TokenKind::Punctuation(Punctuation::Comma)) {
            let (item, next) = T::read(alloc, tokens, end + 1)?;
            items.push(item)?;
            end = next;
        }
        Ok((items, end))
    }

    ghost determined = { list_determined T.phrase T.listable };
}

/// `"(" phrase {"," phrase} ")"`: a list in parentheses.
pub struct InParentheses<T>(PhantomData<T>);

impl<T: Production> Readable for InParentheses<T> {
    ghost use Rattle.sql_grammar.specs.Phrases.{parenthesized};

    type Value = Items<T::Value>;

    ghost phrase = { parenthesized T.phrase };

    fn read(
        alloc: Global,
        tokens: &[Token],
        at: usize,
    ) -> Result<(Items<T::Value>, usize), ParseError> {
        let read = token(
            tokens,
            Ok(((), at)),
            TokenKind::Punctuation(Punctuation::Open),
        );
        let read = then::<_, ListOf<T>>(alloc, tokens, read);
        let (((), items), end) = token(tokens, read, TokenKind::Punctuation(Punctuation::Close))?;
        Ok((items, end))
    }

    ghost determined = { T.listable };
}

impl<T: Production> Production for InParentheses<T> {
    ghost use Rattle.sql_commands.specs.Determined.{lists_determined};

    ghost listable = { lists_determined T.phrase T.listable };
}

impl<T: Production> KnownProduction for InParentheses<T> {
    ghost use Rattle.sql_commands.specs.Determined.{lists_repeated};

    fn begins(tokens: &[Token], at: usize) -> bool {
        has(tokens, at, TokenKind::Punctuation(Punctuation::Open))
    }

    ghost repeatable = { lists_repeated T.phrase T.listable };
}
