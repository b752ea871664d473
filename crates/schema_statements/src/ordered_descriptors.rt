//! Descriptors in rising order.
ghost use Rattle.std.specs.Prelude.{◌≡◌, [], IfOk};
ghost use Rattle.abstract_database.specs.Privileges.{with_descriptors};

use grant_graph::grant;
use sql_ast::privilege::Descriptor;
use sql_types::try_copy::TryCopy;
use std::alloc::{AllocError, Global};

/// Copies of these descriptors.
fn copies(alloc: Global, list: &[Descriptor]) -> Result<Vec<Descriptor>, AllocError>
    ensures { IfOk result (λ copies. copies.items ≡ list.now) }
{
    let mut copies = Vec::new(alloc);
    for descriptor in list {
        copies.push(descriptor.try_copy(alloc)?)?;
    }
    Ok(copies)
}

/// These descriptors in rising order, each once: what is granted twice has the grant option if one of the two has it. Each half
/// of the list is put in order, and the halves are merged: time grows with the length and its logarithm, and calls are as
/// deep as that logarithm.
pub(crate) fn ordered(alloc: Global, list: Vec<Descriptor>) -> Result<Vec<Descriptor>, AllocError>
    ensures { IfOk result (λ ordered. ordered.items ≡ with_descriptors list.items []) }
{
    if list.len() < 2 {
        return Ok(list);
    }
    halves_ordered(alloc, list.as_slice())
}

// The same of lent descriptors.
fn halves_ordered(alloc: Global, list: &[Descriptor]) -> Result<Vec<Descriptor>, AllocError>
    ensures { IfOk result (λ ordered. ordered.items ≡ with_descriptors list.now []) }
{
    if list.len() < 2 {
        return copies(alloc, list);
    }
    let (first, second) = list.split_at(list.len() / 2);
    let mut first = halves_ordered(alloc, first)?;
    let second = halves_ordered(alloc, second)?;
    grant(alloc, &mut first, second.as_slice())?;
    Ok(first)
}
