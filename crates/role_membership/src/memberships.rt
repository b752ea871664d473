//! Memberships in their order, among which those of a member are found.
ghost use Rattle.std.specs.Prelude.{◌≡◌, ◌↔◌, ◌&&◌, ◌||◌, not, Bool, [], bytes_eq, filter, IfOk, IsTrue};
ghost use Rattle.std.specs.List.{list_any};
ghost use Rattle.std.specs.Ordering.{is_lt, is_le};
ghost use Rattle.sql_ast.specs.declared.role.Membership.{Membership as TheMembership};
ghost use Rattle.abstract_database.specs.Lists.{Rising, name_cmp, drop_where};
ghost use Rattle.abstract_database.specs.Database.{membership_cmp};
ghost use Rattle.abstract_database.specs.Roles.{is_of_member};
ghost use Rattle.role_membership.specs.Index.{AreByMember, IsIndexOf};

use sql_ast::role::Membership;
use sql_types::name::Name;
use sql_types::try_copy::TryCopy;
use std::alloc::{AllocError, Global};
use std::cmp::Ordering;
use std::marker::Model;

/// Memberships in the order of role and member, none of them twice, which contracts see as their list. Beside it they stand
/// in the order of their members, so that those of one member are found by a binary search.
#[derive(Drop)]
pub struct Memberships {
    by_role: Vec<Membership>,
    by_member: Vec<Membership>,
}

impl Model for Memberships {
    ghost use Rattle.std.specs.Prelude.{List};
    ghost use Rattle.sql_ast.specs.declared.role.Membership.{Membership as TheMembership};
    ghost use Rattle.role_membership.specs.Index.{AreIndexed};

    ghost Value = { List TheMembership };

    ghost view = { λ ms. ms.by_role.items };

    ghost invariant = { λ ms. AreIndexed ms.by_role.items ms.by_member.items };
}

impl Memberships {
    /// No membership, for which no memory is taken.
    pub fn none(alloc: Global) -> Memberships
        ensures { result ≡ [] }
    {
        Memberships {
            by_role: Vec::new(alloc),
            by_member: Vec::new(alloc),
        }
    }

    /// Memberships that stand in their order, made in the time of one sort.
    pub fn new(alloc: Global, by_role: Vec<Membership>) -> Result<Memberships, AllocError>
        requires { Rising membership_cmp by_role.items }
        ensures { IfOk result (λ ms. ms ≡ by_role.items) }
    {
        let by_member = sorted_by_member(alloc, by_role.as_slice())?;
        Ok(Memberships { by_role, by_member })
    }

    /// The memberships, lent.
    pub fn as_slice(&self) -> &[Membership]
        ensures items { result.now ≡ self.now }
        ensures order { Rising membership_cmp self.now }
    {
        self.by_role.as_slice()
    }

    /// Copies of the memberships.
    pub fn to_vec(&self, alloc: Global) -> Result<Vec<Membership>, AllocError>
        ensures items { IfOk result (λ copy. copy.items ≡ self.now) }
        ensures order { Rising membership_cmp self.now }
    {
        copies(alloc, self.by_role.as_slice())
    }

    /// Takes the memberships of a role and in it away, which takes no memory.
    pub fn remove_all_of(&mut self, name: &Name)
        ensures { self.new
            ≡ drop_where (λ m. bytes_eq m.role name.now || bytes_eq m.member name.now) self.old }
    {
        retain_others(&mut self.by_role, name);
        retain_others(&mut self.by_member, name);
    }

    /// The memberships of a member. It takes as many comparisons of names as the number of memberships has binary digits, and
    /// one for each membership of the member.
    pub(crate) fn of_member(&self, member: &str) -> &[Membership]
        ensures { (test : TheMembership → Bool) → list_any test result.now
            ≡ list_any (λ m. is_of_member member.now m && test m) self.now }
    {
        run_of(self.by_member.as_slice(), member)
    }
}

impl TryCopy for Memberships {
    fn try_copy(&self, alloc: Global) -> Result<Memberships, AllocError> {
        let by_role = copies(alloc, self.by_role.as_slice())?;
        let by_member = copies(alloc, self.by_member.as_slice())?;
        Ok(Memberships { by_role, by_member })
    }
}

/// Whether memberships stand in the order of role and member, none of them twice.
pub fn memberships_rise(memberships: &[Membership]) -> bool
    ensures { IsTrue result ↔ Rising membership_cmp memberships.now }
{
    memberships.is_sorted_by(|left, right| compare(left, right).is_lt())
}

/// The order of two memberships, by role and member.
fn compare(left: &Membership, right: &Membership) -> Ordering
    ensures { result ≡ membership_cmp left.now right.now }
{
    let members = compare_member(left, right.member.as_str());
    left.role.as_str().cmp(right.role.as_str()).then(members)
}

/// Copies of memberships.
fn copies(alloc: Global, memberships: &[Membership]) -> Result<Vec<Membership>, AllocError>
    ensures { IfOk result (λ copies. copies.items ≡ memberships.now) }
{
    let mut copies = Vec::with_capacity(alloc, memberships.len())?;
    for membership in memberships {
        copies.push(membership.try_copy(alloc)?)?;
    }
    Ok(copies)
}

/// Copies of memberships in the order of their members.
fn sorted_by_member(
    alloc: Global,
    memberships: &[Membership],
) -> Result<Vec<Membership>, AllocError>
    ensures order { IfOk result (λ sorted. AreByMember sorted.items) }
    ensures same { IfOk result (λ sorted. IsIndexOf memberships.now sorted.items) }
{
    let mut sorted = copies(alloc, memberships)?;
    sorted.sort_unstable_by(|left, right| compare_member(left, right.member.as_str()));
    Ok(sorted)
}

/// Takes the memberships of a role and in it away.
fn retain_others(memberships: &mut Vec<Membership>, name: &Name)
    ensures { memberships.new.items
        ≡ drop_where (λ m. bytes_eq m.role name.now || bytes_eq m.member name.now) memberships.old.items }
{
    memberships.retain(|membership| membership.role != *name && membership.member != *name);
}

/// The memberships of a member, which stand side by side.
fn run_of<'a>(by_member: &'a [Membership], member: &str) -> &'a [Membership]
    requires { AreByMember by_member.now }
    ensures { result.now ≡ filter (is_of_member member.now) by_member.now }
{
    run_up_to(run_from(by_member, member), member)
}

/// The memberships whose members do not stand before this one.
fn run_from<'a>(by_member: &'a [Membership], member: &str) -> &'a [Membership]
    requires { AreByMember by_member.now }
    ensures { result.now ≡ filter (λ m. not (is_lt (name_cmp m.member member.now))) by_member.now }
{
    let start = by_member.partition_point(|one| compare_member(one, member).is_lt());
    let (_, rest) = by_member.split_at(start);
    rest
}

/// The memberships whose members do not stand after this one.
fn run_up_to<'a>(by_member: &'a [Membership], member: &str) -> &'a [Membership]
    requires { AreByMember by_member.now }
    ensures { result.now ≡ filter (λ m. is_le (name_cmp m.member member.now)) by_member.now }
{
    let mut end = 0;
    while end < by_member.len() && compare_member(&by_member[end], member).is_le() {
        end += 1;
    }
    let (first, _) = by_member.split_at(end);
    first
}

/// The order of the member of a membership beside this one.
fn compare_member(membership: &Membership, member: &str) -> Ordering
    ensures { result ≡ name_cmp membership.now.member member.now }
{
    membership.member.as_str().cmp(member)
}
