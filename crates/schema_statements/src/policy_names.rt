//! Names in rising order.

ghost use Rattle.std.specs.Prelude.{◌≡◌, slice_get, OnOk};
ghost use Rattle.std.specs.List.{prefix_len};
ghost use Rattle.std.specs.Ordering.{is_gt};
ghost use Rattle.abstract_database.specs.Lists.{name_cmp, put, the_new};
ghost use Rattle.schema_statements.specs.PolicyNames.{is_this};

use catalogue::order::compare_names;
use sql_types::name::Name;
use std::alloc::AllocError;

/// Puts a name among others that rise, unless it is there.
pub(crate) fn put_name(names: &mut Vec<Name>, name: Name) -> Result<(), AllocError>
    ensures { OnOk result (names.new.items ≡ put name_cmp the_new name names.old.items) }
{
    let place = place_of(names.as_slice(), &name);
    if is_at(names.as_slice(), place, &name) {
        return Ok(());
    }
    names.insert(place, name)?;
    Ok(())
}

// How many names at the front come before this one.
fn place_of(names: &[Name], name: &Name) -> usize
    ensures { result ≡ prefix_len (λ other. is_gt (name_cmp name.now other)) names.now }
{
    names
        .iter()
        .take_while(|other| compare_names(name, other).is_gt())
        .count()
}

// Whether the name stands at this place.
fn is_at(names: &[Name], place: usize, name: &Name) -> bool
    ensures { result ≡ is_this name.now (slice_get names.now place) }
{
    match names.get(place) {
        Some(other) => *other == *name,
        None => false,
    }
}
