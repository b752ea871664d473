//! Sets of roles.
ghost use Rattle.std.specs.Prelude.{◌≡◌, ◌<◌, ◌↔◌, ◌⊎◌, ◌&&◌, ◌||◌, true, false, [], Some, map, length, slice_get, bytes_eq, IfOk, OnOk};
ghost use Rattle.std.specs.List.{list_any, list_all};
ghost use Rattle.abstract_database.specs.Lists.{TheName, Among, has_name, has_double};
ghost use Rattle.role_membership.specs.Index.{Extends};

use indexmap::IndexSet;
use sql_types::name::Name;
use std::alloc::{AllocError, Global};
use std::marker::Model;

/// A set of roles, which contracts see as the list of their names, each once.
pub struct RoleSet<'a> {
    names: IndexSet<&'a str>,
}

// Written and not derived: what drops a set makes this one call, and does not go through the parts of its table.
impl Drop for RoleSet<'_> {
    fn drop(self) {
        let RoleSet { names: _ } = self;
    }
}

impl<'a> Model for RoleSet<'a> {
    ghost use Rattle.std.specs.Prelude.{List, ℕ, map};

    ghost Value = { List (List ℕ) };

    ghost view = { λ set. map (λ name. name.now) set.names.keys };
}

impl<'a> RoleSet<'a> {
    /// No role.
    pub(crate) fn none(alloc: Global) -> RoleSet<'a>
        ensures { result ≡ [] }
    {
        RoleSet {
            names: IndexSet::new(alloc),
        }
    }

    /// Adds a role where the condition holds, unless it is one of them.
    pub(crate) fn insert_if(&mut self, condition: bool, role: &'a Name) -> Result<(), AllocError>
        ensures among { OnOk result ((s : TheName)
            → Among s self.new ↔ (Among s self.old ⊎ ((condition ≡ true) × (role.now ≡ s)))) }
        ensures test { OnOk result ((s : TheName)
            → has_name s self.new ≡ (has_name s self.old || (condition && bytes_eq s role.now))) }
        ensures distinct { has_double self.old ≡ false → OnOk result (has_double self.new ≡ false) }
        ensures extends { OnOk result (Extends self.old self.new) }
    {
        if condition {
            self.names.insert(role.as_str())?;
        }
        Ok(())
    }

    /// How many roles there are.
    pub(crate) fn len(&self) -> usize
        ensures { result ≡ length self.now }
    {
        self.names.as_slice().len()
    }

    /// The name of the role that came after so many others.
    pub(crate) fn at(&self, index: usize) -> &'a str
        requires { index < length self.now }
        ensures { slice_get self.now index ≡ Some result.now }
    {
        self.names.as_slice()[index]
    }

    /// The names of the roles, lent, each once.
    pub fn names(&self) -> &[&'a str]
        ensures { map (λ name. name.now) result.now ≡ self.now }
    {
        self.names.as_slice()
    }

    /// Whether the role is one of them.
    pub fn contains(&self, role: &Name) -> bool
        ensures { result ≡ has_name role.now self.now }
    {
        self.names.contains(&role.as_str())
    }

    /// Whether one of these roles is one of them.
    pub(crate) fn contains_any(&self, roles: &[Name]) -> bool
        ensures { result ≡ list_any (λ role. has_name role self.now) roles.now }
    {
        roles.iter().any(|role| self.contains(role))
    }

    /// Whether each of these roles is one of them.
    pub(crate) fn contains_all(&self, roles: &[Name]) -> bool
        ensures { result ≡ list_all (λ role. has_name role self.now) roles.now }
    {
        roles.iter().all(|role| self.contains(role))
    }
}

/// The roles of these names.
pub(crate) fn named<'a>(alloc: Global, names: &'a [Name]) -> Result<RoleSet<'a>, AllocError>
    ensures among { IfOk result (λ set. (s : TheName) → Among s set ↔ Among s names.now) }
    ensures test { IfOk result (λ set. (s : TheName) → has_name s set ≡ has_name s names.now) }
    ensures distinct { IfOk result (λ set. has_double set ≡ false) }
{
    let mut set = RoleSet::none(alloc);
    for name in names {
        set.insert_if(true, name)?;
    }
    Ok(set)
}
