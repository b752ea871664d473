//! The label of an item.

ghost use Rattle.std.specs.Prelude.{◌≡◌, IfOk};
ghost use Rattle.std.specs.Option.{option_map};
ghost use Rattle.sql_lexer.specs.Lexeme.{lexeme, lexemes};
ghost use Rattle.select_labels.specs.Labels.{is_column, label_behind, label_in, label_of, may_be_labelled};
ghost use Rattle.select_labels.specs.Views.{viewed_label};

use crate::kinds::{is_as, is_dot, is_named, is_star, label_name, open_after};
use sql_lexer::token::Token;
use sql_types::name::Name;
use std::alloc::{AllocError, Global};

/// A label: AS and the word behind it, and the name that this is.
#[derive(Drop)]
pub struct ItemLabel<'a> {
    pub sign: Token<'a>,
    pub word: Token<'a>,
    pub name: Name,
    /// What it labels is a column of this name.
    pub column: bool,
}

// Whether an expression is a column of this name.
fn is_column(alloc: Global, name: &Name, expression: &[Token]) -> Result<bool, AllocError>
    ensures { IfOk result (λ is. is ≡ is_column name.now (lexemes expression.now)) }
{
    match expression {
        [only] => is_named(alloc, name, only),
        [_, dot, last] if is_dot(dot.kind) => is_named(alloc, name, last),
        _ => Ok(false),
    }
}

// An item is no `*` alone.
fn may_be_labelled(expression: &[Token]) -> bool
    ensures { result ≡ may_be_labelled (lexemes expression.now) }
{
    match expression {
        [] => false,
        [only] => !is_star(only.kind),
        _ => true,
    }
}

fn label_of<'a>(
    alloc: Global,
    expression: &[Token<'a>],
    sign: Token<'a>,
    words: &[Token<'a>],
) -> Result<Option<Option<ItemLabel<'a>>>, AllocError>
    ensures { IfOk result (λ label. option_map (option_map viewed_label) label ≡ label_of (lexemes expression.now) (lexeme sign.entry) (lexemes words.now)) }
{
    let [word] = words else {
        return Ok(None);
    };
    let Some(name) = label_name(alloc, word)? else {
        return Ok(None);
    };
    let column = is_column(alloc, &name, expression)?;
    Ok(Some(Some(ItemLabel {
        sign,
        word: *word,
        name,
        column,
    })))
}

// By an AS, where so many parentheses are open.
fn label_behind<'a>(
    alloc: Global,
    depth: usize,
    expression: &[Token<'a>],
    sign: Token<'a>,
    words: &[Token<'a>],
) -> Result<Option<Option<ItemLabel<'a>>>, AllocError>
    ensures { IfOk result (λ label. option_map (option_map viewed_label) label ≡ label_behind depth (lexemes expression.now) (lexeme sign.entry) (lexemes words.now)) }
{
    if depth == 0 && may_be_labelled(expression) {
        label_of(alloc, expression, sign, words)
    } else {
        Ok(None)
    }
}

// The label of an item, if it has one; None where an AS is misplaced.
pub(crate) fn label_in<'a>(
    alloc: Global,
    item: &[Token<'a>],
) -> Result<Option<Option<ItemLabel<'a>>>, AllocError>
    ensures { IfOk result (λ label. option_map (option_map viewed_label) label ≡ label_in (lexemes item.now)) }
{
    let mut depth = 0;
    let mut count = 0;
    let mut rest = item;
    while let [token, after @ ..] = rest {
        if is_as(token.kind) {
            return label_behind(alloc, depth, &item[..count], *token, after);
        }
        depth = open_after(depth, token.kind);
        count += 1;
        rest = after;
    }
    Ok(Some(None))
}
