//! What the privilege descriptors of a table give each grantee for each action, found by a binary
//! search.

ghost use Rattle.std.specs.Prelude.{◌≡◌, ◌<◌, List, [], map, find, IfOk, OnOk};
ghost use Rattle.std.specs.List.{list_any};
ghost use Rattle.std.specs.Option.{option_copied};
ghost use Rattle.sql_ast.specs.declared.privilege.Descriptor.{Descriptor as TheDescriptor};
ghost use Rattle.abstract_database.specs.Lists.{Rising};
ghost use Rattle.catalogue.specs.Grants.{IsIndexOf, IsGivenBy, IsNamed, AreNamed, is_for, mask_of as mask_of_column, entry_of, is_entry_of, cmp_with, granted_cmp, joined_with, join_each};

use crate::order::{action_number, grantee_name};
use sql_ast::privilege::{Action, Descriptor, Grantee};
use sql_types::items::Items;
use sql_types::try_copy::TryCopy;
use std::alloc::{AllocError, Global};
use std::cmp::Ordering;
use std::marker::Model;

// The bit of the whole table in a mask; that of the column of index i is i + 1.
const TABLE_BIT: u32 = 0;

/// What the descriptors of a table give one grantee for one action.
#[derive(Drop)]
pub(crate) struct Granted {
    pub(crate) grantee: Grantee,
    pub(crate) action: Action,
    // Bit 0 is set where it is given on the whole table, bit i + 1 where on the column of index i.
    pub(crate) mask: u32,
}

impl TryCopy for Granted {
    fn try_copy(&self, alloc: Global) -> Result<Granted, AllocError> {
        let grantee = self.grantee.try_copy(alloc)?;
        Ok(Granted {
            grantee,
            action: self.action,
            mask: self.mask,
        })
    }
}

/// What the descriptors of a table give, which contracts see as a list in the order of grantee and
/// action, PUBLIC before the roles.
#[derive(Drop)]
pub(crate) struct GrantIndex {
    granted: Items<Granted>,
}

impl Model for GrantIndex {
    ghost use Rattle.std.specs.Prelude.{List};
    ghost use Rattle.abstract_database.specs.Lists.{Rising};
    ghost use Rattle.catalogue.specs.declared.grants.Granted.{Granted as TheGranted};
    ghost use Rattle.catalogue.specs.Grants.{granted_cmp};

    ghost Value = { List TheGranted };

    ghost view = { λ index. index.granted };

    ghost invariant = { λ index. Rising granted_cmp index.granted };
}

impl TryCopy for GrantIndex {
    fn try_copy(&self, alloc: Global) -> Result<GrantIndex, AllocError> {
        let granted = self.granted.try_copy(alloc)?;
        Ok(GrantIndex { granted })
    }
}

impl GrantIndex {
    /// The index of these descriptors, made in the time of one sort.
    pub(crate) fn of(alloc: Global, descriptors: &[Descriptor]) -> Result<GrantIndex, AllocError>
        ensures { IfOk result (λ index. IsIndexOf descriptors.now index) }
    {
        let mut entries = entries(alloc, descriptors)?;
        entries.sort_by(|left, right| compare_granted(left, right))?;
        let granted = join_all(alloc, entries)?;
        Ok(GrantIndex {
            granted: Items::from_vec(granted),
        })
    }

    /// The index of no descriptors, for which no memory is taken.
    pub(crate) fn empty(alloc: Global) -> GrantIndex
        ensures { result ≡ [] }
    {
        GrantIndex {
            granted: Items::new(alloc),
        }
    }

    /// The index of these entries.
    pub(crate) fn from_vec(granted: Vec<Granted>) -> GrantIndex
        requires { Rising granted_cmp granted.items }
        ensures { result ≡ granted.items }
    {
        GrantIndex {
            granted: Items::from_vec(granted),
        }
    }

    /// The entries of the index, in their memory.
    pub(crate) fn into_vec(self) -> Vec<Granted>
        ensures entries { result.items ≡ self }
        ensures order { Rising granted_cmp result.items }
    {
        let GrantIndex { granted } = self;
        granted.into_vec()
    }

    /// What the descriptors give a grantee for an action, as a mask: bit 0 is set where one gives it on
    /// the whole table, bit i + 1 where one gives it on the column of index i; PUBLIC has the empty name.
    /// It takes as many comparisons of names as the number of entries has binary digits.
    pub(crate) fn held(&self, action: Action, grantee: &str) -> u32
        ensures { (descriptors : List TheDescriptor) → IsIndexOf descriptors self.now
            → IsGivenBy descriptors action grantee.now result }
    {
        match self.find(action, grantee) {
            Some(granted) => granted.mask,
            None => 0,
        }
    }

    /// Whether a descriptor is for a grantee, whatever it gives; PUBLIC has the empty name. It takes as
    /// many comparisons of names as the number of entries has binary digits.
    pub(crate) fn names(&self, grantee: &str) -> bool
        ensures { (descriptors : List TheDescriptor) → IsIndexOf descriptors self.now
            → result ≡ list_any (is_for grantee.now) descriptors }
    {
        self.granted
            .as_slice()
            .binary_search_by(|granted| grantee_name(&granted.grantee).cmp(grantee))
            .is_ok()
    }

    // What a grantee has for an action, or `None` where it has nothing.
    fn find(&self, action: Action, grantee: &str) -> Option<&Granted>
        ensures found { option_copied result ≡ find (is_entry_of grantee.now action) self.now }
        ensures order { Rising granted_cmp self.now }
    {
        let granted = self.granted.as_slice();
        match granted.binary_search_by(|one| compare_with(one, grantee, action)) {
            Ok(index) => granted.get(index),
            Err(_) => None,
        }
    }
}

// The mask in which the bit of a column, or that of the whole table, alone is set. No table has a
// column that a mask has no bit for.
pub(crate) fn mask_of(column: Option<usize>) -> u32
    ensures { result ≡ mask_of_column column }
{
    match column {
        None => 1 << TABLE_BIT,
        Some(index) if index < 31 => 1 << (index + 1),
        Some(_) => 0,
    }
}

// An entry for each of the descriptors.
pub(crate) fn entries(alloc: Global, descriptors: &[Descriptor]) -> Result<Vec<Granted>, AllocError>
    ensures entries { IfOk result (λ entries. entries.items ≡ map entry_of descriptors.now) }
    ensures named { OnOk result (AreNamed descriptors.now) }
{
    let mut entries = Vec::with_capacity(alloc, descriptors.len())?;
    for descriptor in descriptors {
        entries.push(entry(alloc, descriptor)?)?;
    }
    Ok(entries)
}

// What one descriptor gives.
fn entry(alloc: Global, descriptor: &Descriptor) -> Result<Granted, AllocError>
    ensures entry { IfOk result (λ entry. entry ≡ entry_of descriptor.now) }
    ensures named { IsNamed descriptor.now.grantee }
{
    // For the proof: the grantee has a name.
    let _named = grantee_name(&descriptor.grantee);
    let grantee = descriptor.grantee.try_copy(alloc)?;
    Ok(Granted {
        grantee,
        action: descriptor.action,
        mask: mask_of(descriptor.column),
    })
}

// The entries with those joined that stand side by side and are of one grantee and action.
fn join_all(alloc: Global, sorted: Vec<Granted>) -> Result<Vec<Granted>, AllocError>
    ensures { IfOk result (λ all. all.items ≡ join_each [] sorted.items) }
{
    let mut all = Vec::new(alloc);
    for entry in sorted {
        join(&mut all, entry)?;
    }
    Ok(all)
}

// Adds an entry, to the last one where that is of its grantee and action.
fn join(all: &mut Vec<Granted>, entry: Granted) -> Result<(), AllocError>
    ensures { OnOk result (all.new.items ≡ joined_with entry all.old.items) }
{
    let count = all.len();
    if count > 0 && compare_granted(&all[count - 1], &entry).is_eq() {
        all[count - 1].mask |= entry.mask;
    } else {
        all.push(entry)?;
    }
    Ok(())
}

// The order of two entries, by grantee and action.
pub(crate) fn compare_granted(left: &Granted, right: &Granted) -> Ordering
    ensures { result ≡ granted_cmp left.now right.now }
{
    compare_with(left, grantee_name(&right.grantee), right.action)
}

// The order of an entry beside that of this grantee and action.
fn compare_with(granted: &Granted, grantee: &str, action: Action) -> Ordering
    ensures { result ≡ cmp_with grantee.now action granted.now }
{
    let actions = action_number(granted.action).cmp(&action_number(action));
    grantee_name(&granted.grantee).cmp(grantee).then(actions)
}
