//! What the privilege descriptors of a table give, after some of them went and others came: in the
//! memory that was taken before.

ghost use Rattle.std.specs.Prelude.{◌≡◌, ◌<◌, ◌≤◌, ◌+◌, ◌++◌, vec_len, vec_capacity};
ghost use Rattle.abstract_database.specs.Lists.{Rising, put, the_new, drop_where};
ghost use Rattle.abstract_database.specs.Database.{descriptor_cmp, same_action};
ghost use Rattle.abstract_database.specs.Privileges.{is_named_in};
ghost use Rattle.catalogue.specs.Descriptors.{put_each as with_each};
ghost use Rattle.catalogue.specs.Grants.{granted_cmp, joined, is_of, is_given as is_given_by, mask_given as mask_given_by, with_given as with_given_by, still_given, left_of};

use crate::grants::{Granted, compare_granted, mask_of};
use crate::order::{compare_descriptors, grantee_name};
use sql_ast::privilege::{Action, Descriptor};

/// Puts descriptors among others, each in place of the one of its action, column, grantor and grantee.
pub(crate) fn put_each(descriptors: &mut Vec<Descriptor>, added: Vec<Descriptor>)
    requires order { Rising descriptor_cmp descriptors.old.items }
    requires reservation { vec_len descriptors.old + vec_len added ≤ vec_capacity descriptors.old }
    ensures descriptors { descriptors.new.items
        ≡ with_each descriptor_cmp the_new added.items descriptors.old.items }
    ensures order { Rising descriptor_cmp descriptors.new.items }
{
    for descriptor in added {
        put(descriptors, descriptor);
    }
}

// Puts a descriptor among others, in place of the one of its action, column, grantor and grantee.
fn put(descriptors: &mut Vec<Descriptor>, descriptor: Descriptor)
    requires order { Rising descriptor_cmp descriptors.old.items }
    requires reservation { vec_len descriptors.old < vec_capacity descriptors.old }
    ensures descriptors { descriptors.new.items
        ≡ put descriptor_cmp the_new descriptor descriptors.old.items }
    ensures order { Rising descriptor_cmp descriptors.new.items }
    ensures count { vec_len descriptors.new ≤ vec_len descriptors.old + 1 }
    ensures capacity { vec_capacity descriptors.old ≤ vec_capacity descriptors.new }
{
    match descriptors
        .as_slice()
        .binary_search_by(|old| compare_descriptors(old, &descriptor))
    {
        Ok(index) => descriptors[index] = descriptor,
        Err(index) => match descriptors.insert(index, descriptor) {
            Ok(()) => {}
            Err(_) => unreachable!(),
        },
    }
}

/// Adds entries to others, each to the one of its grantee and action where there is one.
pub(crate) fn add_each(granted: &mut Vec<Granted>, entries: Vec<Granted>)
    requires order { Rising granted_cmp granted.old.items }
    requires reservation { vec_len granted.old + vec_len entries ≤ vec_capacity granted.old }
    ensures entries { granted.new.items
        ≡ with_each granted_cmp joined entries.items granted.old.items }
    ensures order { Rising granted_cmp granted.new.items }
{
    for entry in entries {
        add(granted, entry);
    }
}

// Adds an entry to others, to the one of its grantee and action where there is one.
fn add(granted: &mut Vec<Granted>, entry: Granted)
    requires order { Rising granted_cmp granted.old.items }
    requires reservation { vec_len granted.old < vec_capacity granted.old }
    ensures entries { granted.new.items ≡ put granted_cmp joined entry granted.old.items }
    ensures order { Rising granted_cmp granted.new.items }
    ensures count { vec_len granted.new ≤ vec_len granted.old + 1 }
    ensures capacity { vec_capacity granted.old ≤ vec_capacity granted.new }
{
    match granted
        .as_slice()
        .binary_search_by(|old| compare_granted(old, &entry))
    {
        Ok(index) => granted[index].mask |= entry.mask,
        Err(index) => match granted.insert(index, entry) {
            Ok(()) => {}
            Err(_) => unreachable!(),
        },
    }
}

/// Moves descriptors behind others, all but those that go.
pub(crate) fn move_kept(
    mut descriptors: Vec<Descriptor>,
    removed: &[Descriptor],
    out: &mut Vec<Descriptor>,
)
    requires { vec_len out.old + vec_len descriptors ≤ vec_capacity out.old }
    ensures items { out.new.items
        ≡ out.old.items ++ drop_where (is_named_in removed.now) descriptors.items }
    ensures count { vec_len out.new ≤ vec_len out.old + vec_len descriptors }
    ensures capacity { vec_capacity out.old ≤ vec_capacity out.new }
{
    descriptors.retain(|descriptor| !is_named(removed, descriptor));
    match out.append(&mut descriptors) {
        Ok(()) => {}
        Err(_) => unreachable!(),
    }
}

/// Moves entries behind others: of those for which a descriptor went, what the descriptors that are
/// left still give, if one of them gives it.
pub(crate) fn move_left(
    entries: Vec<Granted>,
    removed: &[Descriptor],
    left: &[Descriptor],
    out: &mut Vec<Granted>,
)
    requires { vec_len out.old + vec_len entries ≤ vec_capacity out.old }
    ensures items { out.new.items ≡ out.old.items ++ left_of removed.now left.now entries.items }
    ensures count { vec_len out.new ≤ vec_len out.old + vec_len entries }
    ensures capacity { vec_capacity out.old ≤ vec_capacity out.new }
{
    for entry in entries {
        if let Some(entry) = still(entry, removed, left) {
            match out.push(entry) {
                Ok(()) => {}
                Err(_) => unreachable!(),
            }
        }
    }
}

// What is left of an entry, if anything is.
fn still(entry: Granted, removed: &[Descriptor], left: &[Descriptor]) -> Option<Granted>
    ensures { result ≡ still_given removed.now left.now entry }
{
    if !is_given(&entry, removed) {
        return Some(entry);
    }
    if !is_given(&entry, left) {
        return None;
    }
    let mask = mask_given(left, entry.action, grantee_name(&entry.grantee));
    Some(Granted {
        grantee: entry.grantee,
        action: entry.action,
        mask,
    })
}

// Whether one of the descriptors gives the grantee of an entry its action.
fn is_given(entry: &Granted, descriptors: &[Descriptor]) -> bool
    ensures { result ≡ is_given_by descriptors.now entry.now }
{
    let grantee = grantee_name(&entry.grantee);
    descriptors
        .iter()
        .any(|descriptor| is_of(descriptor, entry.action, grantee))
}

// Whether a descriptor gives a grantee an action.
fn is_of(descriptor: &Descriptor, action: Action, grantee: &str) -> bool
    ensures { result ≡ is_of action grantee.now descriptor.now }
{
    is_same(descriptor.action, action) && grantee_name(&descriptor.grantee) == grantee
}

// Whether two actions are the same.
fn is_same(left: Action, right: Action) -> bool
    ensures { result ≡ same_action left right }
{
    left == right
}

// The mask of what the descriptors give a grantee for an action.
fn mask_given(descriptors: &[Descriptor], action: Action, grantee: &str) -> u32
    ensures { result ≡ mask_given_by action grantee.now descriptors.now }
{
    let mut left = descriptors.len();
    let mut mask = 0;
    while left > 0 {
        left -= 1;
        let descriptor = &descriptors[left];
        mask = with_given(descriptor, action, grantee, mask);
    }
    mask
}

// A mask with what one descriptor gives a grantee for an action.
fn with_given(descriptor: &Descriptor, action: Action, grantee: &str, mask: u32) -> u32
    ensures { result ≡ with_given_by action grantee.now descriptor.now mask }
{
    if is_of(descriptor, action, grantee) {
        mask_of(descriptor.column) | mask
    } else {
        mask
    }
}

// Whether a descriptor is one of these, its grant option aside.
fn is_named(named: &[Descriptor], descriptor: &Descriptor) -> bool
    ensures { result ≡ is_named_in named.now descriptor.now }
{
    named
        .iter()
        .any(|one| compare_descriptors(one, descriptor).is_eq())
}
