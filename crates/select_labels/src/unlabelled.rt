//! A text without the labels of its list.

ghost use Rattle.std.specs.Prelude.{◌≡◌, ◌++◌, IfOk, OnOk, Some, is_some};
ghost use Rattle.std.specs.List.{list_any};
ghost use Rattle.std.specs.Option.{option_map};
ghost use Rattle.sql_lexer.specs.Lexeme.{ArePlaced, lexemes};
ghost use Rattle.select_labels.specs.Labels.{is_as, label_tokens, tokens_of};
ghost use Rattle.select_labels.specs.Standing.{StandIn};
ghost use Rattle.select_labels.specs.Unlabelled.{IsWithoutLabels, label_names, may_have_labels, without_labels, made_by};
ghost use Rattle.select_labels.specs.Views.{viewed_label, viewed_labels};

use crate::blanks::blanked;
use crate::kinds::{is_as, is_select};
use crate::label::ItemLabel;
use crate::list::{labels_in, list_length};
use crate::sorting::sorts_by_label;
use sql_lexer::lexer;
use sql_lexer::token::Token;
use sql_types::items::Items;
use sql_types::name::Name;
use sql_types::state::{Refusal, SqlState};
use sql_types::text::Text;
use sql_types::try_copy::TryCopy;
use std::alloc::{AllocError, Global};

/// The most bytes of a statement.
const MAX_STATEMENT: usize = 65_536;

/// A text without the labels of its list, and for each item its label, if it has one.
#[derive(Drop)]
pub struct Unlabelled {
    pub text: Text,
    pub labels: Items<Option<Name>>,
}

/// A text without its labels, if it is a SELECT that has some; `None` where it stays as it is.
///
/// `AllocError` comes only where memory is refused.
pub fn without_labels(alloc: Global, text: &str) -> Result<Option<Unlabelled>, AllocError>
    ensures { IfOk result (λ made. IsWithoutLabels text.now made) }
{
    if MAX_STATEMENT < text.len() {
        return Ok(None);
    }
    match lexer::tokens(alloc, text) {
        Ok(tokens) => of_tokens(alloc, text, &tokens),
        Err(Refusal(SqlState::OutOfMemory)) => Err(AllocError),
        Err(Refusal(_)) => Ok(None),
    }
}

/// Whether the first of a statement's tokens is SELECT and another one AS: where it is not so, its text has no labels.
pub fn may_have_labels(tokens: &[Token]) -> bool
    ensures { result ≡ may_have_labels (lexemes tokens.now) }
{
    match tokens {
        [] => false,
        [first, rest @ ..] => is_select(first.kind) && has_as(rest),
    }
}

fn has_as(mut tokens: &[Token]) -> bool
    ensures { result ≡ list_any (λ t. is_as t.kind) (lexemes tokens.entry.now) }
{
    while let [token, rest @ ..] = tokens {
        if is_as(token.kind) {
            return true;
        }
        tokens = rest;
    }
    false
}

fn of_tokens(alloc: Global, text: &str, tokens: &[Token]) -> Result<Option<Unlabelled>, AllocError>
    requires { ArePlaced text.now (lexemes tokens.now) }
    ensures { IfOk result (λ made. made ≡ without_labels text.now (lexemes tokens.now)) }
{
    let [first, rest @ ..] = tokens else {
        return Ok(None);
    };
    if !is_select(first.kind) {
        return Ok(None);
    }
    let (list, behind) = rest.split_at(list_length(rest));
    match labels_in(alloc, list)? {
        Some(labels) => made_by(alloc, text, &labels, behind),
        None => Ok(None),
    }
}

// What labels make of a text, with the tokens behind the list.
fn made_by(
    alloc: Global,
    text: &str,
    labels: &[Option<ItemLabel>],
    behind: &[Token],
) -> Result<Option<Unlabelled>, AllocError>
    requires { StandIn text.now 0 (label_tokens (viewed_labels labels.now)) }
    ensures { IfOk result (λ made. made ≡ made_by text.now (lexemes behind.now) (Some (viewed_labels labels.now))) }
{
    if !has_label(labels) || sorts_by_label(alloc, labels, behind)? {
        return Ok(None);
    }
    let tokens = label_tokens(alloc, labels)?;
    let made = blanked(alloc, text, &tokens)?;
    let labels = label_names(alloc, labels)?;
    Ok(Some(Unlabelled {
        text: Text::from_string(made),
        labels,
    }))
}

fn has_label(mut labels: &[Option<ItemLabel>]) -> bool
    ensures { result ≡ list_any is_some (viewed_labels labels.entry.now) }
{
    while let [label, rest @ ..] = labels {
        if label.is_some() {
            return true;
        }
        labels = rest;
    }
    false
}

fn put_tokens<'a>(
    label: &Option<ItemLabel<'a>>,
    tokens: &mut Vec<Token<'a>>,
) -> Result<(), AllocError>
    ensures { OnOk result (lexemes tokens.new.items ≡ lexemes tokens.old.items ++ tokens_of (option_map viewed_label label.now)) }
{
    if let Some(label) = label {
        tokens.push(label.sign)?;
        tokens.push(label.word)?;
    }
    Ok(())
}

// Each AS and each name behind one.
fn label_tokens<'a>(
    alloc: Global,
    labels: &[Option<ItemLabel<'a>>],
) -> Result<Vec<Token<'a>>, AllocError>
    ensures { IfOk result (λ tokens. lexemes tokens.items ≡ label_tokens (viewed_labels labels.now)) }
{
    let mut tokens = Vec::new(alloc);
    for label in labels {
        put_tokens(label, &mut tokens)?;
    }
    Ok(tokens)
}

fn label_name(alloc: Global, label: &Option<ItemLabel>) -> Result<Option<Name>, AllocError>
    ensures { IfOk result (λ name. name ≡ option_map (λ l. l.name) (option_map viewed_label label.now)) }
{
    match label {
        Some(label) => Ok(Some(label.name.try_copy(alloc)?)),
        None => Ok(None),
    }
}

fn label_names(
    alloc: Global,
    labels: &[Option<ItemLabel>],
) -> Result<Items<Option<Name>>, AllocError>
    ensures { IfOk result (λ names. names ≡ label_names (viewed_labels labels.now)) }
{
    let mut names = Items::new(alloc);
    for label in labels {
        names.push(label_name(alloc, label)?)?;
    }
    Ok(names)
}
