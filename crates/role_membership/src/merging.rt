//! Memberships put into a list in rising order, in one walk over it.
ghost use Rattle.std.specs.Prelude.{◌≡◌, ◌≤◌, Bool, true, false, [], length, map, IfOk, OnOk};
ghost use Rattle.std.specs.Ordering.{is_eq, is_gt};
ghost use Rattle.std.specs.declared.cmp.Ordering.TheVariants.{Equal};
ghost use Rattle.std.specs.Prelude.{◌||◌, ◌++◌, ◌∷◌, drop, slice_get, Some};
ghost use Rattle.sql_types.specs.Name.{IsName};
ghost use Rattle.sql_ast.specs.declared.role.Membership.{Membership as TheMembership};
ghost use Rattle.abstract_database.specs.Lists.{TheName, Among, Rising, name_cmp, has_name, put};
ghost use Rattle.abstract_database.specs.Database.{membership_cmp};
ghost use Rattle.abstract_database.specs.Roles.{memberships_of, raised};
ghost use Rattle.role_membership.specs.Merging.{put_all, membership, texts, list_of, AreBefore, AreUpTo, AreOfRolesUpTo, AreOfRolesBefore};

use crate::merge::MembershipMerge;
use sql_ast::role::Membership;
use sql_types::name::Name;
use sql_types::try_copy::TryCopy;
use std::alloc::{AllocError, Global};
use std::cmp::Ordering;

/// The names of a list as texts.
fn texts<'a>(alloc: Global, names: &'a [Name]) -> Result<Vec<&'a str>, AllocError>
    ensures same { IfOk result (λ list. texts list.items ≡ names.now) }
    ensures names { IfOk result (λ list. (s : TheName) → Among s (texts list.items) → IsName s) }
{
    let mut list = Vec::with_capacity(alloc, names.len())?;
    for name in names {
        list.push(name.as_str())?;
    }
    Ok(list)
}

/// The names of a list, each once, in rising order.
fn distinct<'a>(alloc: Global, names: &'a [Name]) -> Result<Vec<&'a str>, AllocError>
    ensures order { IfOk result (λ list. Rising name_cmp (texts list.items)) }
    ensures same { IfOk result (λ list. (s : TheName) → has_name s (texts list.items) ≡ has_name s names.now) }
    ensures names { IfOk result (λ list. (s : TheName) → Among s (texts list.items) → IsName s) }
{
    let mut list = texts(alloc, names)?;
    list.sort_unstable();
    list.dedup();
    Ok(list)
}

/// The name that a text is.
fn name_of(alloc: Global, text: &str) -> Result<Name, AllocError>
    requires { IsName text.now }
    ensures { IfOk result (λ name. name ≡ text.now) }
{
    match Name::from_str(alloc, text)? {
        Some(name) => Ok(name),
        None => unreachable!(),
    }
}

/// A membership of this role and member.
fn membership(
    alloc: Global,
    role: &str,
    member: &str,
    admin: bool,
) -> Result<Membership, AllocError>
    requires role { IsName role.now }
    requires member { IsName member.now }
    ensures { IfOk result (λ m. m ≡ membership role.now admin member.now) }
{
    let role = name_of(alloc, role)?;
    let member = name_of(alloc, member)?;
    Ok(Membership {
        role,
        member,
        admin,
    })
}

/// Whether a membership that is granted again has the admin option.
fn has_option(had: bool, granted: bool) -> bool
    ensures { result ≡ (had || granted) }
{
    had || granted
}

/// The order of a role and member beside a membership.
fn compare(role: &str, member: &str, other: &Membership) -> Ordering
    ensures { (admin : Bool) → result ≡ membership_cmp (membership role.now admin member.now) other.now }
{
    let members = member.cmp(other.member.as_str());
    let roles = role.cmp(other.role.as_str());
    roles.then(members)
}

impl<'a> MembershipMerge<'a> {
    /// Nothing is merged yet.
    fn new(alloc: Global, memberships: &'a [Membership]) -> MembershipMerge<'a>
        ensures list { list_of result ≡ memberships.now }
        ensures merged { result.merged.items ≡ [] }
    {
        MembershipMerge {
            memberships,
            next: 0,
            merged: Vec::new(alloc),
        }
    }

    /// Merges the memberships that stand before that of this role and member.
    fn pass_to(&mut self, alloc: Global, role: &str, member: &str) -> Result<(), AllocError>
        ensures list { OnOk result (list_of self.new ≡ list_of self.old) }
        ensures before { (admin : Bool) → AreBefore self.old.merged.items (membership role.now admin member.now)
            → OnOk result (AreBefore self.new.merged.items (membership role.now admin member.now)) }
        ensures next { OnOk result ((admin : Bool) (m : TheMembership) → slice_get self.new.memberships.now self.new.next ≡ Some m
            → is_gt (membership_cmp (membership role.now admin member.now) m) ≡ false) }
    {
        while self.next < self.memberships.len() {
            let next = &self.memberships[self.next];
            if !compare(role, member, next).is_gt() {
                return Ok(());
            }
            self.merged.push(next.try_copy(alloc)?)?;
            self.next += 1;
        }
        Ok(())
    }

    /// Whether the next membership is that of this role and member.
    fn is_next(&self, role: &str, member: &str) -> bool
        ensures equal { result ≡ true → (m : TheMembership) × (slice_get self.now.memberships.now self.now.next ≡ Some m)
            × ((admin : Bool) → membership_cmp (membership role.now admin member.now) m ≡ Equal) }
        ensures other { result ≡ false → (admin : Bool) (m : TheMembership) → slice_get self.now.memberships.now self.now.next ≡ Some m
            → is_eq (membership_cmp (membership role.now admin member.now) m) ≡ false }
    {
        self.next < self.memberships.len()
            && compare(role, member, &self.memberships[self.next]).is_eq()
    }

    /// Passes over the next membership where it is that of this role and member; whether the one that is granted has the
    /// admin option.
    fn pass_over(&mut self, role: &str, member: &str, admin: bool) -> bool
        requires before { AreBefore self.old.merged.items (membership role.now admin member.now) }
        requires next { (m : TheMembership) → slice_get self.old.memberships.now self.old.next ≡ Some m
            → is_gt (membership_cmp (membership role.now admin member.now) m) ≡ false }
        ensures merged { self.new.merged.items ≡ self.old.merged.items }
        ensures list { (self.old.merged.items ++ membership role.now result member.now ∷ []) ++ drop self.new.next self.new.memberships.now
            ≡ put membership_cmp raised (membership role.now admin member.now) (list_of self.old) }
    {
        if !self.is_next(role, member) {
            return admin;
        }
        let had = self.memberships[self.next].admin;
        self.next += 1;
        has_option(had, admin)
    }

    /// Merges a membership of this role and member: granted again, the one that is there keeps its admin option or is given
    /// one.
    fn put(
        &mut self,
        alloc: Global,
        role: &str,
        member: &str,
        admin: bool,
    ) -> Result<(), AllocError>
        requires role { IsName role.now }
        requires member { IsName member.now }
        requires before { AreBefore self.old.merged.items (membership role.now admin member.now) }
        ensures list { OnOk result (list_of self.new ≡ put membership_cmp raised (membership role.now admin member.now) (list_of self.old)) }
        ensures up_to { OnOk result (AreUpTo self.new.merged.items (membership role.now admin member.now)) }
    {
        self.pass_to(alloc, role, member)?;
        let has_option = self.pass_over(role, member, admin);
        self.merged
            .push(membership(alloc, role, member, has_option)?)?;
        Ok(())
    }

    /// Merges a membership of the role and each of these members.
    fn put_each(
        &mut self,
        alloc: Global,
        role: &str,
        members: &[&str],
        admin: bool,
    ) -> Result<(), AllocError>
        requires role { IsName role.now }
        requires members { (s : TheName) → Among s (texts members.now) → IsName s }
        requires order { Rising name_cmp (texts members.now) }
        requires before { AreOfRolesBefore self.old.merged.items role.now }
        ensures list { OnOk result (list_of self.new ≡ put_all (map (membership role.now admin) (texts members.now)) (list_of self.old)) }
        ensures up_to { OnOk result (AreOfRolesUpTo self.new.merged.items role.now) }
    {
        for member in members {
            self.put(alloc, role, member, admin)?;
        }
        Ok(())
    }

    /// The whole list.
    fn finish(self, alloc: Global) -> Result<Vec<Membership>, AllocError>
        ensures { IfOk result (λ list. list.items ≡ list_of self.entry) }
    {
        let mut merged = self.merged;
        for index in self.next..self.memberships.len() {
            merged.push(self.memberships[index].try_copy(alloc)?)?;
        }
        Ok(merged)
    }
}

/// The memberships with one of each of these roles and each of these members put into them in order.
pub(crate) fn merged(
    alloc: Global,
    memberships: &[Membership],
    roles: &[Name],
    members: &[Name],
    admin: bool,
) -> Result<Vec<Membership>, AllocError>
    ensures { Rising membership_cmp memberships.now
        → IfOk result (λ list. list.items ≡ put_all (memberships_of roles.now members.now admin) memberships.now) }
{
    let each_role = distinct(alloc, roles)?;
    let each_member = distinct(alloc, members)?;
    let mut merge = MembershipMerge::new(alloc, memberships);
    for role in each_role.as_slice() {
        merge.put_each(alloc, role, each_member.as_slice(), admin)?;
    }
    merge.finish(alloc)
}
