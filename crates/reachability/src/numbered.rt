//! Keys as numbers.
ghost use Rattle.std.specs.Prelude.{◌≡◌, ◌<◌, [], length, IfOk, OnOk, IfSome, IfNone, None, Some};
ghost use Rattle.indexmap.specs.IndexSet.{index_set_len};
ghost use Rattle.reachability.specs.Keyed.{AreNumbered, NumberFirst, IsNumberOf, IsNumberIfAny, Extends};

use crate::keyed::Element;
use indexmap::IndexSet;
use std::alloc::{AllocError, Global};
use std::hash::Hash;

/// Elements whose keys are numbers below `keys`.
#[derive(Drop)]
pub(crate) struct Numbered {
    pub(crate) starts: Vec<bool>,
    pub(crate) waits_for: Vec<usize>,
    pub(crate) gives: Vec<Option<usize>>,
    pub(crate) keys: usize,
}

/// The number of a key: that of an equal one, or the next.
fn number<K: Eq + Hash + Copy + Drop>(known: &mut IndexSet<K>, key: K) -> Result<usize, AllocError>
    ensures number { IfOk result (IsNumberOf K.eq known.new.keys key) }
    ensures extends { OnOk result (Extends known.old.keys known.new.keys) }
{
    let (number, _) = known.insert_full(key)?;
    Ok(number)
}

/// The number of a key, if there is one.
fn number_if_any<K: Eq + Hash + Copy + Drop>(
    known: &mut IndexSet<K>,
    key: Option<K>,
) -> Result<Option<usize>, AllocError>
    ensures number { IfOk result (IsNumberIfAny K.eq known.new.keys key) }
    ensures extends { OnOk result (Extends known.old.keys known.new.keys) }
{
    match key {
        None => Ok(None),
        Some(key) => {
            let number = number(known, key)?;
            Ok(Some(number))
        }
    }
}

impl Numbered {
    /// No elements, with room for so many.
    fn with_capacity(alloc: Global, count: usize) -> Result<Numbered, AllocError>
        ensures starts { IfOk result (λ numbered. numbered.starts.items ≡ []) }
        ensures waits_for { IfOk result (λ numbered. numbered.waits_for.items ≡ []) }
        ensures gives { IfOk result (λ numbered. numbered.gives.items ≡ []) }
    {
        let starts = Vec::with_capacity(alloc, count)?;
        let waits_for = Vec::with_capacity(alloc, count)?;
        let gives = Vec::with_capacity(alloc, count)?;
        Ok(Numbered {
            starts,
            waits_for,
            gives,
            keys: 0,
        })
    }

    /// Adds each of these elements with the number of its keys.
    fn add_all<K: Eq + Hash + Copy + Drop>(
        &mut self,
        known: &mut IndexSet<K>,
        elements: &[Element<K>],
    ) -> Result<(), AllocError>
        requires { NumberFirst K.eq known.old.keys 0 elements.now self.old.starts.items self.old.waits_for.items self.old.gives.items }
        ensures { OnOk result (NumberFirst K.eq known.new.keys (length elements.now) elements.now
            self.new.starts.items self.new.waits_for.items self.new.gives.items) }
    {
        for element in elements {
            self.starts.push(element.is_start)?;
            self.waits_for.push(number(known, element.waits_for)?)?;
            self.gives.push(number_if_any(known, element.gives)?)?;
        }
        Ok(())
    }
}

/// The elements with the numbers of their keys, where some keys are known before.
fn numbered_by<K: Eq + Hash + Copy + Drop>(
    alloc: Global,
    elements: &[Element<K>],
    known: &mut IndexSet<K>,
) -> Result<Numbered, AllocError>
    ensures { IfOk result (AreNumbered K.eq elements.now) }
{
    let mut numbered = Numbered::with_capacity(alloc, elements.len())?;
    numbered.add_all(known, elements)?;
    numbered.keys = known.len();
    Ok(numbered)
}

/// The elements with a number in place of each key: equal keys have the same number, and others do not.
pub(crate) fn number_all<K: Eq + Hash + Copy + Drop>(
    alloc: Global,
    elements: &[Element<K>],
) -> Result<Numbered, AllocError>
    ensures { IfOk result (AreNumbered K.eq elements.now) }
{
    let mut known = IndexSet::with_capacity(alloc, elements.len())?;
    numbered_by(alloc, elements, &mut known)
}
