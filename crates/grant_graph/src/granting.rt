//! GRANT of privileges (SQL:2016 Foundation, 12.2; PostgreSQL manual, GRANT).
ghost use Rattle.std.specs.Prelude.{◌≡◌, IfOk, OnOk, OnErr};
ghost use Rattle.abstract_database.specs.Lists.{Rising};
ghost use Rattle.abstract_database.specs.Database.{descriptor_cmp};
ghost use Rattle.abstract_database.specs.Privileges.{with_descriptors, with_option_of};
ghost use Rattle.grant_graph.specs.Merging.{IsNextStep};

use crate::keys::key;
use sql_ast::privilege::Descriptor;
use sql_types::try_copy::TryCopy;
use std::alloc::{AllocError, Global};
use std::cmp::Ordering;

/// The order of two descriptors: by table, action, column, grantor and grantee.
fn compare(left: &Descriptor, right: &Descriptor) -> Ordering
    ensures { result ≡ descriptor_cmp left.now right.now }
{
    let left = key(left);
    let right = key(right);
    let grantees = left.4.cmp(right.4);
    let grantors = left.3.cmp(right.3);
    let columns = left.2.cmp(&right.2);
    let actions = left.1.cmp(&right.1);
    let tables = left.0.cmp(right.0);
    tables.then(actions.then(columns.then(grantors.then(grantees))))
}

/// A copy of a descriptor that is granted again: it keeps its grant option or is given one.
fn granted_again(
    alloc: Global,
    old: &Descriptor,
    new: &Descriptor,
) -> Result<Descriptor, AllocError>
    ensures { IfOk result (λ both. both ≡ with_option_of old.now new.now) }
{
    let mut both = old.try_copy(alloc)?;
    both.grantable = old.grantable || new.grantable;
    Ok(both)
}

/// The first descriptor of a merged list, and what is left to be merged.
#[derive(Drop)]
pub(crate) struct MergeStep<'a> {
    first: Descriptor,
    old: &'a [Descriptor],
    new: &'a [Descriptor],
}

/// The first descriptor of the merged list, or `None` where nothing is left.
fn next_step<'a>(
    alloc: Global,
    old: &'a [Descriptor],
    new: &'a [Descriptor],
) -> Result<Option<MergeStep<'a>>, AllocError>
    requires { Rising descriptor_cmp new.now }
    ensures { IfOk result (IsNextStep old.now new.now) }
{
    let (first, old, new) = match (old.split_first(), new.split_first()) {
        (None, None) => return Ok(None),
        (Some((first, rest)), None) => (first.try_copy(alloc)?, rest, new),
        (None, Some((first, rest))) => (first.try_copy(alloc)?, old, rest),
        (Some((kept, after)), Some((granted, rest))) => match compare(granted, kept) {
            Ordering::Less => (granted.try_copy(alloc)?, old, rest),
            Ordering::Equal => (granted_again(alloc, kept, granted)?, after, rest),
            Ordering::Greater => (kept.try_copy(alloc)?, after, new),
        },
    };
    Ok(Some(MergeStep { first, old, new }))
}

/// The descriptors with those that are granted.
fn merged(
    alloc: Global,
    descriptors: &[Descriptor],
    granted: &[Descriptor],
) -> Result<Vec<Descriptor>, AllocError>
    requires { Rising descriptor_cmp granted.now }
    ensures { IfOk result (λ merged. merged.items ≡ with_descriptors granted.now descriptors.now) }
{
    let mut merged = Vec::new(alloc);
    let mut old = descriptors;
    let mut new = granted;
    while let Some(step) = next_step(alloc, old, new)? {
        merged.push(step.first)?;
        old = step.old;
        new = step.new;
    }
    Ok(merged)
}

/// Grants descriptors that are in order, each once. One of a grantor, grantee, table, action and column that is there keeps its
/// grant option or is given one, and the others are put in their places. Time and memory grow in proportion to both lists.
/// `AllocError` comes only where memory was refused, and then nothing has changed.
pub fn grant(
    alloc: Global,
    descriptors: &mut Vec<Descriptor>,
    granted: &[Descriptor],
) -> Result<(), AllocError>
    requires { Rising descriptor_cmp granted.now }
    ensures granted { OnOk result (descriptors.new.items ≡ with_descriptors granted.now descriptors.old.items) }
    ensures unchanged { OnErr result (descriptors.new.items ≡ descriptors.old.items) }
{
    let merged = merged(alloc, descriptors.as_slice(), granted)?;
    *descriptors = merged;
    Ok(())
}
