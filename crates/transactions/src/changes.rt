//! The changes of a transaction.
ghost use Rattle.std.specs.Prelude.{◌≡◌, [], ℕ, List, Some, None, IsTrue, ◌↔◌, IfOk, OnOk, OnErr, vec_len, vec_capacity};
ghost use Rattle.std.specs.List.{AllByRecursion};
ghost use Rattle.store.specs.Records.{Records, IsOrdered, IsChangeSize, changed, lookup, applied};
ghost use Rattle.store.specs.Store.{KeepsHistory};
ghost use Rattle.transactions.specs.Commits.{CommitsJoined};
ghost use Rattle.transactions.specs.Views.{applied_all, latest, or_earlier};

use sql_types::try_copy::TryCopy;
use std::alloc::{AllocError, Global};
use std::marker::Model;
use store::{Batch, Change, Store, StoreFault};

/// The changes of the statements of a transaction: one list, into which each statement's changes
/// go, and one more for each time that an allocation failed on the way. Contracts see them as these
/// lists, of which the last that names a key decides on it.
#[derive(Drop)]
pub struct ChangeLists {
    lists: Vec<Batch>,
    alloc: Global,
}

impl Model for ChangeLists {
    ghost use Rattle.std.specs.Prelude.{List};
    ghost use Rattle.store.specs.Records.{Changes};

    ghost Value = { List Changes };

    ghost view = { λ c. c.lists.items };
}

impl ChangeLists {
    /// No changes. Nothing is allocated yet.
    pub fn new(alloc: Global) -> ChangeLists
        ensures { result ≡ [] }
    {
        ChangeLists {
            lists: Vec::new(alloc),
            alloc,
        }
    }

    /// The lists, lent.
    pub fn as_slice(&self) -> &[Batch]
        ensures { result.now ≡ self.now }
    {
        self.lists.as_slice()
    }

    /// Whether no list was recorded.
    pub fn is_empty(&self) -> bool
        ensures { IsTrue result ↔ (self.now ≡ []) }
    {
        self.lists.is_empty()
    }

    /// Adds the changes of one more statement: records under the lists are from now on what these
    /// changes make of the records under the lists before. The only error is that an allocation
    /// failed, which leaves the lists as they were.
    pub fn record(&mut self, changes: Batch) -> Result<(), AllocError>
        ensures ok { OnOk result ((es : Records) → IsOrdered es
            → applied_all self.new es ≡ applied changes (applied_all self.old es)) }
        ensures err { OnErr result (self.new ≡ self.old) }
    {
        self.lists.reserve(1)?;
        if add_to_last(&mut self.lists, &changes) {
            return Ok(());
        }
        match self.lists.push(changes) {
            Ok(()) => Ok(()),
            Err(_) => unreachable!(),
        }
    }

    /// Commits all lists to a store as one batch, as [`ChangeLists::join`] makes it; where there is
    /// one list it is that batch, and nothing is copied here. Memory: an allocation failed. The other
    /// faults are those of [`Store::commit`]. After a fault the lists are as they were. Nothing is
    /// said of them after `Ok`.
    pub fn commit_to<S: Store>(&mut self, store: &mut S) -> Result<(), StoreFault>
        ensures history { KeepsHistory (S.state store.old) (S.state store.new) }
        ensures commits { CommitsJoined S.state self.old result store.old store.new }
        ensures given_back { OnErr result (self.new ≡ self.old) }
    {
        if self.lists.len() == 1 {
            return store.commit(&mut self.lists[0]);
        }
        match self.join() {
            Ok(mut joined) => store.commit(&mut joined),
            Err(_) => Err(StoreFault::Memory),
        }
    }

    /// All lists in one: of each key the change of the last list that names it.
    pub fn join(&self) -> Result<Batch, AllocError>
        ensures { IfOk result (λ joined. (key : List ℕ) → lookup key joined ≡ latest key self.now) }
    {
        let Some((first, later)) = self.lists.split_first() else {
            return Ok(Batch::new(self.alloc));
        };
        let mut joined = first.try_copy(self.alloc)?;
        for list in later {
            add_list(&mut joined, list)?;
        }
        Ok(joined)
    }

    /// All lists and then one more in one, which makes of records what the lists make of them and
    /// then the one. Each list is copied once. The only error is that an allocation failed.
    pub fn join_with(&self, last: &Batch) -> Result<Batch, AllocError>
        ensures { IfOk result (λ joined. (es : Records) → IsOrdered es
            → applied joined es ≡ applied last.now (applied_all self.now es)) }
    {
        let mut joined = self.join()?;
        add_list(&mut joined, last)?;
        Ok(joined)
    }
}

// Adds changes to those of the last list. False: there is no list, or an allocation failed on the
// way. Then the last list may have some of the changes, and what they leave out is as it was.
fn add_to_last(lists: &mut Vec<Batch>, changes: &Batch) -> bool
    ensures added { IsTrue result → (key : List ℕ) → latest key lists.new.items
        ≡ or_earlier (lookup key changes.now) (latest key lists.old.items) }
    ensures elsewhere { (key : List ℕ) → lookup key changes.now ≡ None
        → latest key lists.new.items ≡ latest key lists.old.items }
    ensures len { vec_len lists.new ≡ vec_len lists.old }
    ensures room { vec_capacity lists.new ≡ vec_capacity lists.old }
{
    match lists.last_mut() {
        Some(last) => add_list(last, changes).is_ok(),
        None => false,
    }
}

// Adds the changes of a later list. The only error is that an allocation failed, and then some may
// have been added.
fn add_list(joined: &mut Batch, list: &Batch) -> Result<(), AllocError>
    ensures added { OnOk result ((key : List ℕ)
        → lookup key joined.new ≡ or_earlier (lookup key list.now) (lookup key joined.old)) }
    ensures elsewhere { (key : List ℕ) → lookup key list.now ≡ None
        → lookup key joined.new ≡ lookup key joined.old }
{
    // For the proof: the list is in order.
    let _in_order = joined.pieces();
    let pieces = list.pieces();
    for piece in pieces {
        add_changes(joined, piece.as_slice())?;
    }
    Ok(())
}

// Adds changes that come after all that are there. The only error is that an allocation failed, and
// then some may have been added.
fn add_changes(joined: &mut Batch, changes: &[Change]) -> Result<(), AllocError>
    requires ordered { IsOrdered changes.now }
    requires sizes { AllByRecursion IsChangeSize changes.now }
    requires joined { IsOrdered joined.old }
    ensures order { OnOk result (IsOrdered joined.new) }
    ensures added { OnOk result ((key : List ℕ)
        → lookup key joined.new ≡ or_earlier (lookup key changes.now) (lookup key joined.old)) }
    ensures elsewhere { (key : List ℕ) → lookup key changes.now ≡ None
        → lookup key joined.new ≡ lookup key joined.old }
{
    for change in changes {
        add_change(joined, change)?;
    }
    Ok(())
}

// Makes a change of the changes of its key. The only error is that an allocation failed, which
// leaves the changes as they were.
fn add_change(joined: &mut Batch, change: &Change) -> Result<(), AllocError>
    requires { IsChangeSize change.now }
    ensures ok { OnOk result (joined.new ≡ changed change.now.0 (Some change.now.1) joined.old) }
    ensures err { OnErr result (joined.new ≡ joined.old) }
{
    match change.value() {
        Some(value) => joined.put(change.key(), value),
        None => joined.remove(change.key()),
    }
}
