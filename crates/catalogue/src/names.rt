//! Names in a list of a statement.

ghost use Rattle.std.specs.Prelude.{◌≡◌, IfOk, map};
ghost use Rattle.abstract_database.specs.Lists.{has_double as double_name, has_name};

use sql_types::name::Name;
use std::alloc::{AllocError, Global};
use std::collections::HashSet;

/// Of so many names each is compared with all behind it: a set of them would take longer to make.
const FEW_NAMES: usize = 8;

/// Whether two of the names are the same.
pub fn has_double(alloc: Global, names: &[&Name]) -> Result<bool, AllocError>
    ensures { IfOk result (λ double. double ≡ double_name (map (λ n. n.now) names.now)) }
{
    if names.len() <= FEW_NAMES {
        return Ok(has_double_of_few(names));
    }
    let mut seen = HashSet::new(alloc);
    for name in names {
        if !seen.insert(name.as_str())? {
            return Ok(true);
        }
    }
    Ok(false)
}

// Whether two of the names are the same. No memory is taken.
fn has_double_of_few(names: &[&Name]) -> bool
    ensures { result ≡ double_name (map (λ n. n.now) names.now) }
{
    match names.split_first() {
        None => false,
        Some((name, others)) => has_name(others, name) || has_double_of_few(others),
    }
}

// Whether a name is among these.
fn has_name(names: &[&Name], name: &Name) -> bool
    ensures { result ≡ has_name name.now (map (λ n. n.now) names.now) }
{
    for other in names {
        if name == *other {
            return true;
        }
    }
    false
}
