//! What differs between two descriptions.

ghost use Rattle.std.specs.Prelude.{◌≡◌, ◌≤◌, map, length, drop, ◌++◌, ◌∷◌, [], IfOk, OnOk};
ghost use Rattle.store.specs.Records.{Records, IsOrdered};
ghost use Rattle.entry_differences.specs.Differences.{differences, applied_in_turn, put_of, replaced};
ghost use Rattle.line_differences.specs.Lines.{line_of, lines_of, change_of, changes_of};

use crate::line::{DescriptionLine, LineDifference};
use entry_differences::differences_lead_to_records;
use std::alloc::{AllocError, Global};
use std::cmp::Ordering;

/// What differs from old lines to new ones, each in the order of their subjects' bytes: each line that goes, that comes or that says
/// something else, in that order, and no other. Made one after the other, these turn the old lines into the new ones.
/// `AllocError` comes where memory was refused.
pub fn differences<'a>(
    alloc: Global,
    old: &[DescriptionLine<'a>],
    new: &[DescriptionLine<'a>],
) -> Result<Vec<LineDifference<'a>>, AllocError>
    ensures exact { IfOk result (λ found.
        changes_of found.items ≡ differences (lines_of old.now) (lines_of new.now)) }
    ensures leads { IsOrdered (lines_of old.now) → IsOrdered (lines_of new.now) → IfOk result (λ found.
        applied_in_turn (changes_of found.items) (lines_of old.now) ≡ lines_of new.now) }
{
    // For the proof: differences between records take the ones to the others.
    differences_lead_to_records();
    let mut found = Vec::new(alloc);
    push_differences(&mut found, old, new)?;
    Ok(found)
}

/// Adds what differs.
fn push_differences<'a>(
    found: &mut Vec<LineDifference<'a>>,
    old: &[DescriptionLine<'a>],
    new: &[DescriptionLine<'a>],
) -> Result<(), AllocError>
    ensures { OnOk result (changes_of found.new.items
        ≡ changes_of found.old.items ++ differences (lines_of old.now) (lines_of new.now)) }
{
    let mut next = 0;
    for line in old {
        next = push_up_to(found, *line, new, next)?;
    }
    push_came(found, new, next)
}

/// Adds what differs in an old line and in the new ones before it, from the one of an index on, and gives the index behind them.
fn push_up_to<'a>(
    found: &mut Vec<LineDifference<'a>>,
    old: DescriptionLine<'a>,
    new: &[DescriptionLine<'a>],
    next: usize,
) -> Result<usize, AllocError>
    requires { next ≤ length new.now }
    ensures index { IfOk result (λ n. n ≤ length new.now) }
    ensures added { IfOk result (λ n. (later : Records) →
        changes_of found.new.items ++ differences later (lines_of (drop n new.now))
        ≡ changes_of found.old.items ++ differences (line_of old.entry ∷ later) (lines_of (drop next new.now))) }
{
    let mut next = next;
    while next < new.len() {
        let came = new[next];
        match old.subject.cmp(came.subject) {
            Ordering::Less => {
                push(found, LineDifference::Gone(old))?;
                return Ok(next);
            }
            Ordering::Equal => {
                push_change(found, old, came)?;
                return Ok(next + 1);
            }
            Ordering::Greater => push(found, LineDifference::Came(came))?,
        }
        next += 1;
    }
    push(found, LineDifference::Gone(old))?;
    Ok(next)
}

/// Adds that a line says something else, where it does.
fn push_change<'a>(
    found: &mut Vec<LineDifference<'a>>,
    old: DescriptionLine<'a>,
    new: DescriptionLine<'a>,
) -> Result<(), AllocError>
    ensures { OnOk result (changes_of found.new.items
        ≡ changes_of found.old.items ++ replaced (line_of old.entry) (line_of new.entry) []) }
{
    if old.content != new.content {
        push(found, LineDifference::Changed { old, new })?;
    }
    Ok(())
}

/// Adds that each of these lines came, from the one of an index on.
fn push_came<'a>(
    found: &mut Vec<LineDifference<'a>>,
    lines: &[DescriptionLine<'a>],
    start: usize,
) -> Result<(), AllocError>
    requires { start ≤ length lines.now }
    ensures { OnOk result (changes_of found.new.items
        ≡ changes_of found.old.items ++ map put_of (lines_of (drop start lines.now))) }
{
    for index in start..lines.len() {
        push(found, LineDifference::Came(lines[index]))?;
    }
    Ok(())
}

/// Adds a difference behind the others.
fn push<'a>(
    found: &mut Vec<LineDifference<'a>>,
    difference: LineDifference<'a>,
) -> Result<(), AllocError>
    ensures { OnOk result (changes_of found.new.items
        ≡ changes_of found.old.items ++ change_of difference.entry ∷ []) }
{
    found.push(difference)?;
    Ok(())
}
