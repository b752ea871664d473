//! The policies of a table in rising order.

ghost use Rattle.std.specs.Prelude.{◌≡◌, not, bytes_eq, OnOk};
ghost use Rattle.std.specs.List.{insert, prefix_len};
ghost use Rattle.std.specs.Ordering.{is_gt};
ghost use Rattle.abstract_database.specs.Lists.{name_cmp, drop_where};

use catalogue::order::compare_names;
use catalogue::policy::CataloguePolicy;
use sql_types::name::Name;
use std::alloc::AllocError;

/// Puts a policy among others after those whose names come before its name.
pub(crate) fn put_policy(
    policies: &mut Vec<CataloguePolicy>,
    policy: CataloguePolicy,
) -> Result<(), AllocError>
    ensures { OnOk result (policies.new.items
        ≡ insert policies.old.items
        (prefix_len (λ old. is_gt (name_cmp policy.policy.name old.policy.name)) policies.old.items)
        policy) }
{
    let place = place_of(policies.as_slice(), &policy.policy.name);
    policies.insert(place, policy)?;
    Ok(())
}

// How many policies at the front have a name that comes before this one.
fn place_of(policies: &[CataloguePolicy], name: &Name) -> usize
    ensures { result ≡ prefix_len (λ old. is_gt (name_cmp name.now old.policy.name)) policies.now }
{
    policies
        .iter()
        .take_while(|old| compare_names(name, &old.policy.name).is_gt())
        .count()
}

/// Takes away the policies of a name.
pub(crate) fn drop_named(policies: &mut Vec<CataloguePolicy>, name: &Name)
    ensures { policies.new.items
        ≡ drop_where (λ old. bytes_eq old.policy.name name.now) policies.old.items }
{
    policies.retain(
        |old: &CataloguePolicy| -> bool
            ensures { result ≡ not (bytes_eq old.now.policy.name name.entry.now) }
        { old.policy.name != *name },
    );
}
