//! REVOKE of privileges (SQL:2016 Foundation, 12.7; PostgreSQL manual, REVOKE).
ghost use Rattle.std.specs.Prelude.{◌≡◌, ◌⊎◌, ◌↔◌, ◌&&◌, ◌||◌, false, not, length, Err, IfOk, IfErr, IsTrue};
ghost use Rattle.sql_types.specs.declared.state.SqlState.TheVariants.{OutOfMemory};
ghost use Rattle.abstract_database.specs.Privileges.{revoked, is_cascade as cascades};
ghost use Rattle.grant_graph.specs.Revoking.{Stay, Loses, Takes};

use crate::marking::mark_named;
use crate::supports::reached;
use sql_ast::privilege::Descriptor;
use sql_ast::statement::DropBehavior;
use sql_types::state::{Refusal, SqlState};
use std::alloc::{AllocError, Global};

/// Whether a descriptor stays: something is left of it, since it is not named or loses its option alone, and it is reached.
fn stays(is_reached: bool, is_named: bool, grant_option_for: bool) -> bool
    ensures { result ≡ ((grant_option_for || not is_named) && is_reached) }
{
    (grant_option_for || !is_named) && is_reached
}

/// Whether something is left of a descriptor and it is not reached.
fn is_lost(is_reached: bool, is_named: bool, grant_option_for: bool) -> bool
    ensures { result ≡ (not is_reached && (grant_option_for || not is_named)) }
{
    !is_reached && (grant_option_for || !is_named)
}

/// Marks of what stays.
fn stay(
    alloc: Global,
    reached: &[bool],
    named: &[bool],
    grant_option_for: bool,
) -> Result<Vec<bool>, AllocError>
    requires { length named.now ≡ length reached.now }
    ensures { IfOk result (λ marks. Stay (length reached.now) grant_option_for reached.now named.now marks.items) }
{
    let mut marks = Vec::with_capacity(alloc, reached.len())?;
    for index in 0..reached.len() {
        let stays = stays(reached[index], named[index], grant_option_for);
        marks.push(stays)?;
    }
    Ok(marks)
}

/// Whether something is lost.
fn loses(reached: &[bool], named: &[bool], grant_option_for: bool) -> bool
    requires { length named.now ≡ length reached.now }
    ensures { IsTrue result ↔ Loses grant_option_for reached.now named.now }
{
    for index in 0..reached.len() {
        let is_lost = is_lost(reached[index], named[index], grant_option_for);
        if is_lost {
            return true;
        }
    }
    false
}

fn is_cascade(behavior: Option<DropBehavior>) -> bool
    ensures { result ≡ cascades behavior }
{
    match behavior {
        Some(DropBehavior::Cascade) => true,
        Some(DropBehavior::Restrict) | None => false,
    }
}

/// Whether the statement is refused: something is lost, and it does not say CASCADE.
fn is_refused(
    behavior: Option<DropBehavior>,
    reached: &[bool],
    named: &[bool],
    grant_option_for: bool,
) -> bool
    requires { length named.now ≡ length reached.now }
    ensures { IsTrue result ↔ ((cascades behavior ≡ false) × Loses grant_option_for reached.now named.now) }
{
    !is_cascade(behavior) && loses(reached, named, grant_option_for)
}

/// What a REVOKE takes of descriptors: marks of those that the named ones take, and of those that stay.
#[derive(Drop)]
pub struct RevocationMarks {
    /// For each descriptor, whether a named one takes it, or its option.
    pub named: Vec<bool>,
    /// For each descriptor, whether it is there afterwards.
    pub staying: Vec<bool>,
}

/// What a REVOKE of the named descriptors takes, or of their grant options alone. With CASCADE each descriptor goes that no
/// chain of supports leads to any more. One that is named on the whole table takes also what its grantor granted its
/// grantee on the columns; one that is named on a column takes that alone. Without CASCADE it is refused with 2B000 where
/// there is a descriptor that nothing supports, and with 53200 where memory was refused. A named descriptor that is not
/// there is passed over. Time and memory grow in proportion to the descriptors, as far as names hash apart.
pub fn revocation(
    alloc: Global,
    descriptors: &[Descriptor],
    named: &[Descriptor],
    grant_option_for: bool,
    behavior: Option<DropBehavior>,
) -> Result<RevocationMarks, Refusal>
    ensures taking { IfOk result (Takes grant_option_for behavior named.now descriptors.now) }
    ensures refused { IfErr result (λ e. (e.0 ≡ OutOfMemory)
        ⊎ (revoked grant_option_for behavior named.now descriptors.now ≡ Err e.0)) }
{
    let named = mark_named(alloc, descriptors, named)?;
    let reached = reached(alloc, descriptors, named.as_slice())?;
    let staying = stay(
        alloc,
        reached.as_slice(),
        named.as_slice(),
        grant_option_for,
    )?;
    if is_refused(
        behavior,
        reached.as_slice(),
        named.as_slice(),
        grant_option_for,
    ) {
        return Err(Refusal(SqlState::DependentPrivileges));
    }
    Ok(RevocationMarks { named, staying })
}
