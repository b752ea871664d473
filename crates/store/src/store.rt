//! Stores: maps of records that change by commits.
ghost use Rattle.std.specs.Prelude.{◌≡◌, ◌+◌, false, length, Option, Some, [], Ok, OnErr};
ghost use Rattle.storage_sizes.specs.declared.record_format.RecordFormat.TheVariants.{V2};
ghost use Rattle.store.specs.Contents.{changed_by_batch, changed_in};
ghost use Rattle.store.specs.Store.{Contents, Commits, stored};

use crate::{Batch, Map, StoreFault};
use storage_sizes::RecordFormat;

/// A map of records that changes by batches, each at once, and that may stop at any moment.
pub trait Store: Map {
    /// The number of the last commit, below 2^64. A commit raises it by one at most.
    fn number(&self) -> u64
        ensures { result ≡ (Self.state self.now).number };

    /// How often a commit found no room, up to `u64::MAX`.
    fn fulls(&self) -> u64
        ensures { result ≡ (Self.state self.now).fulls };

    /// How often the device failed or gave what no store wrote, up to `u64::MAX`.
    fn failures(&self) -> u64
        ensures { result ≡ (Self.state self.now).failures };

    /// How the records are spelled.
    fn record_format(&self) -> RecordFormat
        ensures { result ≡ (Self.state self.now).record_format };

    /// Commits all changes of a batch, or none of them; the record format stays. Full: no room is left.
    /// Number: no number is. Device: the device failed, and whether the batch is committed is known
    /// only when the device is opened again. An empty batch is committed without a call below.
    ///
    /// The store may keep the changes, so nothing is said of what the batch has after `Ok`. After a
    /// fault it is as it was.
    fn commit(&mut self, batch: &mut Batch) -> Result<(), StoreFault>
        ensures commits { Commits result (changed_by_batch batch.old (stored (Self.state self.old)))
            (Self.state self.old) (Self.state self.new) }
        ensures empty { batch.old ≡ [] → (Self.state self.old).has_failed ≡ false
            → (result ≡ Ok tt) × (self.new ≡ self.old) }
        ensures given_back { OnErr result (batch.new ≡ batch.old) }
        ensures cost { Self.cost self.old self.new (length batch.old + 1) };

    /// Commits all changes of a batch and with them that the records are of record format 2, or
    /// nothing. The faults are those of `commit`. Where the records are of record format 1 an
    /// empty batch is a commit, too.
    fn commit_migration(&mut self, batch: &Batch) -> Result<(), StoreFault>
        ensures commits { Commits result (changed_in V2 batch.now (stored (Self.state self.old)))
            (Self.state self.old) (Self.state self.new) }
        ensures cost { Self.cost self.old self.new (length batch.now + 1) };

    /// Once it has answered Device, it answers nothing else.
    ghost closes: { (store : Self) → (Self.state store).closes };

    /// Unless it has failed, a stop leaves the contents and nothing else.
    ghost settled: { (store : Self) (x : Option Contents) → (Self.state store).sound
        → (Self.state store).has_failed ≡ false
        → (Self.state store).time.left x → x ≡ Some (stored (Self.state store)) };
}
