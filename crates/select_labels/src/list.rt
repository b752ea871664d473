//! The list of a SELECT.

ghost use Rattle.std.specs.Prelude.{◌≡◌, ◌≤◌, ◌++◌, ◌∷◌, [], IfOk, Some, None, length, Vec};
ghost use Rattle.std.specs.Option.{option_map};
ghost use Rattle.sql_lexer.specs.Lexeme.{lexemes};
ghost use Rattle.select_labels.specs.Labels.{label_in, labels_in};
ghost use Rattle.select_labels.specs.Lists.{items_of, length_from, parts_items};
ghost use Rattle.select_labels.specs.Putting.{PutsLabel};
ghost use Rattle.select_labels.specs.Views.{viewed_labels};

use crate::kinds::{ends_list, is_comma, open_after};
use crate::label::{ItemLabel, label_in};
use sql_lexer::token::{Token, TokenKind};
use std::alloc::{AllocError, Global};

// How many of the tokens behind SELECT are those of its list.
pub(crate) fn list_length(tokens: &[Token]) -> usize
    ensures value { result ≡ length_from 0 (lexemes tokens.now) }
    ensures within { result ≤ length tokens.now }
{
    let mut depth = 0;
    let mut count = 0;
    let mut rest = tokens;
    while let [token, after @ ..] = rest {
        if depth == 0 && ends_list(token.kind) {
            return count;
        }
        depth = open_after(depth, token.kind);
        count += 1;
        rest = after;
    }
    count
}

fn parts_items(depth: usize, kind: TokenKind) -> bool
    ensures { result ≡ parts_items depth kind }
{
    depth == 0 && is_comma(kind)
}

// Puts the label of an item behind others, unless an AS is misplaced.
fn put_label<'a>(
    alloc: Global,
    item: &[Token<'a>],
    labels: &mut Vec<Option<ItemLabel<'a>>>,
) -> Result<bool, AllocError>
    ensures { IfOk result (λ put. PutsLabel put (label_in (lexemes item.now)) (viewed_labels labels.old.items) (viewed_labels labels.new.items)) }
{
    match label_in(alloc, item)? {
        Some(label) => {
            labels.push(label)?;
            Ok(true)
        }
        None => Ok(false),
    }
}

// For each item of a list its label, if it has one; None where an AS is misplaced.
pub(crate) fn labels_in<'a>(
    alloc: Global,
    list: &[Token<'a>],
) -> Result<Option<Vec<Option<ItemLabel<'a>>>>, AllocError>
    ensures { IfOk result (λ labels. option_map (λ ls. viewed_labels ls.items) labels ≡ labels_in (items_of (lexemes list.now))) }
{
    let mut labels = Vec::new(alloc);
    let mut item = list;
    let mut count = 0;
    let mut depth = 0;
    let mut rest = list;
    while let [token, after @ ..] = rest {
        if parts_items(depth, token.kind) {
            if !put_label(alloc, &item[..count], &mut labels)? {
                return Ok(None);
            }
            item = after;
            count = 0;
            depth = 0;
        } else {
            depth = open_after(depth, token.kind);
            count += 1;
        }
        rest = after;
    }
    if put_label(alloc, &item[..count], &mut labels)? {
        Ok(Some(labels))
    } else {
        Ok(None)
    }
}
