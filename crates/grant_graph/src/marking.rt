//! Marks, one for each descriptor of a list.
ghost use Rattle.std.specs.Prelude.{◌≡◌, List, map, IfOk};
ghost use Rattle.abstract_database.specs.Lists.{drop_where};
ghost use Rattle.abstract_database.specs.Privileges.{is_named_in, is_taken_by};
ghost use Rattle.sql_ast.specs.declared.privilege.Descriptor.{Descriptor as TheDescriptor};
ghost use Rattle.grant_graph.specs.Marking.{HaveKeysOf};

use crate::keys::{Key, key};
use indexmap::IndexSet;
use sql_ast::privilege::Descriptor;
use sql_types::try_copy::TryCopy;
use std::alloc::{AllocError, Global};

/// The keys of descriptors.
fn keys<'a>(alloc: Global, descriptors: &'a [Descriptor]) -> Result<IndexSet<Key<'a>>, AllocError>
    ensures { IfOk result (λ keys. HaveKeysOf descriptors.now keys.keys) }
{
    let mut keys = IndexSet::new(alloc);
    for descriptor in descriptors {
        keys.insert(key(descriptor))?;
    }
    Ok(keys)
}

/// Whether a descriptor is taken where those of these keys are named: one of them is its own key, or that of the same
/// on the whole table.
fn is_taken(keys: &IndexSet<Key<'_>>, descriptor: &Descriptor) -> bool
    ensures { (named : List TheDescriptor) → HaveKeysOf named keys.now.keys → result ≡ is_taken_by named descriptor.now }
{
    let own = key(descriptor);
    let whole = (own.0, own.1, None, own.3, own.4);
    let has_own = keys.contains(&own);
    let has_whole = keys.contains(&whole);
    has_own || has_whole
}

/// A mark for each descriptor that one of the named takes, the grant option aside: what is named on the whole table takes
/// what the same grantor granted the same grantee on its columns too.
pub(crate) fn mark_named(
    alloc: Global,
    descriptors: &[Descriptor],
    named: &[Descriptor],
) -> Result<Vec<bool>, AllocError>
    ensures { IfOk result (λ marks. marks.items ≡ map (is_taken_by named.now) descriptors.now) }
{
    let keys = keys(alloc, named)?;
    let mut marks = Vec::with_capacity(alloc, descriptors.len())?;
    for descriptor in descriptors {
        marks.push(is_taken(&keys, descriptor))?;
    }
    Ok(marks)
}

/// Copies of the descriptors that are none of the named, the grant option aside. Time grows in proportion to both lists, as far as
/// names hash apart.
pub fn without(
    alloc: Global,
    descriptors: &[Descriptor],
    named: &[Descriptor],
) -> Result<Vec<Descriptor>, AllocError>
    ensures { IfOk result (λ left. left.items ≡ drop_where (is_named_in named.now) descriptors.now) }
{
    let keys = keys(alloc, named)?;
    let mut left = Vec::new(alloc);
    for descriptor in descriptors {
        if !keys.contains(&key(descriptor)) {
            left.push(descriptor.try_copy(alloc)?)?;
        }
    }
    Ok(left)
}
