//! Labels in ORDER BY.

ghost use Rattle.std.specs.Prelude.{◌≡◌, IfOk, map};
ghost use Rattle.std.specs.List.{list_any};
ghost use Rattle.std.specs.Option.{option_map};
ghost use Rattle.sql_lexer.specs.Content.{name_in};
ghost use Rattle.sql_lexer.specs.Lexeme.{lexemes};
ghost use Rattle.select_labels.specs.Sorting.{begins_dot, behind_order, is_renamed, renames, sorts_by_label};
ghost use Rattle.select_labels.specs.Views.{viewed_label, viewed_labels};

use crate::kinds::{is_dot, is_order};
use crate::label::ItemLabel;
use sql_lexer::content::name_of;
use sql_lexer::token::Token;
use sql_types::name::Name;
use std::alloc::{AllocError, Global};

// What stands behind the words ORDER BY.
fn behind_order<'a, 't>(mut tokens: &'t [Token<'a>]) -> &'t [Token<'a>]
    ensures { lexemes result.now ≡ behind_order (lexemes tokens.entry.now) }
{
    while let [token, rest @ ..] = tokens {
        if is_order(token.kind) {
            return match rest {
                [_, keys @ ..] => keys,
                [] => rest,
            };
        }
        tokens = rest;
    }
    tokens
}

// A label of something else than a column of this name.
fn renames(name: &Name, label: &Option<ItemLabel>) -> bool
    ensures { result ≡ renames name.now (option_map viewed_label label.now) }
{
    match label {
        Some(label) => !label.column && label.name == *name,
        None => false,
    }
}

fn is_any_renamed(name: &Name, mut labels: &[Option<ItemLabel>]) -> bool
    ensures { result ≡ list_any (renames name.now) (viewed_labels labels.entry.now) }
{
    while let [label, rest @ ..] = labels {
        if renames(name, label) {
            return true;
        }
        labels = rest;
    }
    false
}

// Whether a token is such a label.
fn is_renamed(
    alloc: Global,
    labels: &[Option<ItemLabel>],
    token: &Token,
) -> Result<bool, AllocError>
    ensures { IfOk result (λ is. is ≡ is_renamed (viewed_labels labels.now) (name_in token.now.kind token.now.text.now)) }
{
    match name_of(alloc, token)? {
        Some(name) => Ok(is_any_renamed(&name, labels)),
        None => Ok(false),
    }
}

fn begins_dot(tokens: &[Token]) -> bool
    ensures { result ≡ begins_dot (lexemes tokens.now) }
{
    match tokens {
        [] => false,
        [first, ..] => is_dot(first.kind),
    }
}

// Whether ORDER BY, which stands behind a list, names a label of something else than a column of its name.
pub(crate) fn sorts_by_label(
    alloc: Global,
    labels: &[Option<ItemLabel>],
    behind: &[Token],
) -> Result<bool, AllocError>
    ensures { IfOk result (λ sorts. sorts ≡ sorts_by_label (viewed_labels labels.now) (lexemes behind.now)) }
{
    let mut dotted = false;
    let mut rest = behind_order(behind);
    while let [token, after @ ..] = rest {
        if !dotted && !begins_dot(after) && is_renamed(alloc, labels, token)? {
            return Ok(true);
        }
        dotted = is_dot(token.kind);
        rest = after;
    }
    Ok(false)
}
