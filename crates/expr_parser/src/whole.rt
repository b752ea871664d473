//! Expressions of a whole text.

ghost use Rattle.expr_parser.specs.Whole.{SpellsWhole, IsWithinDepth};
ghost use Rattle.expr_parser.specs.Stages.{Parses};

use crate::grammar::Grammar;
use crate::parse_error::ParseError;
use crate::parser::expr_at;
use crate::stages::{MAX_DEPTH, parse_text};
use sql_ast::expr::Expr;
use sql_lexer::token::Token;
use sql_types::state::Refusal;
use std::alloc::Global;

// The grammar in which tokens mean the expression that they spell.
struct Expressions;

impl Grammar for Expressions {
    ghost use Rattle.expr_parser.specs.Whole.{SpellsWhole, IsWithinDepth};

    type Value = Expr;

    ghost Means = { λ source ts e. SpellsWhole ts e };

    ghost IsWithinDepth = { IsWithinDepth };

    fn read(alloc: Global, _: &str, tokens: &[Token]) -> Result<Expr, ParseError> {
        let Some((expr, end)) = expr_at(alloc, tokens, 0)? else {
            return Err(ParseError::Syntax);
        };
        if end == tokens.len() {
            Ok(expr)
        } else {
            Err(ParseError::Syntax)
        }
    }

    fn is_within_depth(value: &Expr) -> bool {
        value.is_within(MAX_DEPTH)
    }
}

/// The expression that a text stands for, or the refusal of the first stage that refuses it. The
/// stages, with the code of each, are those of [`parse_text`].
pub fn parse_expr(alloc: Global, text: &str) -> Result<Expr, Refusal>
    ensures { Parses SpellsWhole IsWithinDepth text.now result }
{
    parse_text::<Expressions>(alloc, text)
}
