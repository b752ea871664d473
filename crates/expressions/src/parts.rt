//! The binder: every expression of a statement, its names resolved and its type checked.

ghost use Rattle.std.specs.Prelude.{◌≡◌, map};
ghost use Rattle.std.specs.List.{zip};
ghost use Rattle.expressions.specs.Names.{resolved, AnswersUnlessMemory};
ghost use Rattle.expressions.specs.Stages.{each};
ghost use Rattle.expressions.specs.Parts.{part_of, resolve_parts, type_part, IsBound};

use crate::names::{Resolved, resolve};
use crate::types::{Typed, find_type};
use sql_ast::columns::ColumnType;
use sql_ast::expr::Expr;
use sql_ast::scope::Scope;
use sql_types::items::Items;
use sql_types::state::{Refusal, SqlState};
use std::alloc::Global;

/// An expression of a statement, the tables whose columns it may name, and the type that is
/// expected of it, if one is.
#[derive(Clone, Copy)]
pub struct Part<'e, 's> {
    pub expression: &'e Expr,
    pub scope: Scope<'s>,
    pub expected: Option<ColumnType>,
}

/// The expressions of a statement, given in the order of the text, each with the indices of its
/// columns and its type: the names of all are resolved, and then the types of all are checked.
///
/// A part whose names are not resolved is refused as by [`resolve`], and where there is none, the
/// first part that has no type as by [`find_type`], or with `DatatypeMismatch` where its type is not
/// the one that is expected.
pub fn bind(alloc: Global, parts: &[Part<'_, '_>]) -> Result<Items<Typed>, Refusal>
    ensures { IsBound (map part_of parts.now) result }
{
    let resolved = resolve_parts(alloc, parts)?;
    type_parts(alloc, parts, resolved)
}

fn resolve_parts(alloc: Global, parts: &[Part<'_, '_>]) -> Result<Items<Resolved>, Refusal>
    ensures { AnswersUnlessMemory result
        (each (λ p. resolved (part_of p).scope (part_of p).term) parts.now) }
{
    let mut resolved = Items::new(alloc);
    for part in parts {
        resolved.push(resolve(alloc, part.expression, &part.scope)?)?;
    }
    Ok(resolved)
}

fn type_parts(
    alloc: Global,
    parts: &[Part<'_, '_>],
    resolved: Items<Resolved>,
) -> Result<Items<Typed>, Refusal>
    ensures { AnswersUnlessMemory result
        (each (λ p. type_part (part_of p.0) p.1) (zip parts.now resolved)) }
{
    let mut typed = Items::new(alloc);
    for (part, resolved) in parts.iter().zip(resolved.into_vec()) {
        typed.push(type_part(part, resolved)?)?;
    }
    Ok(typed)
}

fn type_part(part: &Part<'_, '_>, resolved: Resolved) -> Result<Typed, SqlState>
    ensures { result ≡ type_part (part_of part.now) resolved }
{
    let typed = find_type(resolved, &part.scope)?;
    match part.expected {
        Some(expected) if !typed.fits(expected) => Err(SqlState::DatatypeMismatch),
        _ => Ok(typed),
    }
}
