//! The writer lock: what the session that holds it has changed.

ghost use Rattle.std.specs.Prelude.{◌≡◌, [], Some, None, OnOk, OnErr, IfOk, IfErr};
ghost use Rattle.store.specs.Records.{Records, IsOrdered, applied};
ghost use Rattle.transactions.specs.Views.{applied_all};
ghost use Rattle.catalogue.specs.Changes.{changed, definitions_after};
ghost use Rattle.server.specs.Writers.{definitions_or};

use catalogue::change::SchemaChange;
use catalogue::definitions::Catalogue;
use catalogue::staged::Staged;
use sql_types::try_copy::TryCopy;
use std::alloc::{AllocError, Global};
use store::Batch;
use transactions::ChangeLists;

/// The changes of the session that holds the writer lock, and the definitions under them, or `None`
/// where no statement changed the definitions.
pub struct Writer {
    pub session: u64,
    pub lists: ChangeLists,
    pub catalogue: Option<Catalogue>,
}

// Written and not derived: where a value is dropped this is one call, and not its parts one by one.
impl Drop for Writer {
    fn drop(self) {
        let Writer {
            session: _,
            lists: _,
            catalogue: _,
        } = self;
    }
}

impl Writer {
    // The writer lock of a session that has changed nothing yet.
    pub(crate) fn new(alloc: Global, session: u64) -> Writer
        ensures { result ≡ record { session = session; lists = []; catalogue = None } }
    {
        Writer {
            session,
            lists: ChangeLists::new(alloc),
            catalogue: None,
        }
    }

    // The changes under the writer lock are committed: the definitions under them, if they changed, come in place of
    // these.
    pub(crate) fn end(self, committed: &mut Catalogue)
        ensures { committed.new ≡ definitions_or self.catalogue committed.old }
    {
        let Writer {
            session: _,
            lists: _,
            catalogue,
        } = self;
        if let Some(next) = catalogue {
            *committed = next;
        }
    }

    // Adds the changes of one more statement, and the change that it makes of the definitions: of
    // those that the writer lock has, or of the committed ones where it has none, which are then copied. The
    // only error is that an allocation failed, which leaves the writer lock as it was.
    pub(crate) fn add(
        &mut self,
        alloc: Global,
        committed: &Catalogue,
        changes: Batch,
        schema: Option<SchemaChange>,
    ) -> Result<(), AllocError>
        ensures session { self.new.session ≡ self.old.session }
        ensures records { OnOk result ((es : Records) → IsOrdered es
            → applied_all self.new.lists es ≡ applied changes (applied_all self.old.lists es)) }
        ensures definitions { OnOk result (definitions_or self.new.catalogue committed.now
            ≡ definitions_after schema (definitions_or self.old.catalogue committed.now)) }
        ensures err { OnErr result (self.new ≡ self.old) }
    {
        match schema {
            None => {
                self.lists.record(changes)?;
                Ok(())
            }
            Some(change) => self.add_change(alloc, committed, changes, change),
        }
    }

    // The same for a statement that changes the definitions.
    fn add_change(
        &mut self,
        alloc: Global,
        committed: &Catalogue,
        changes: Batch,
        change: SchemaChange,
    ) -> Result<(), AllocError>
        ensures session { self.new.session ≡ self.old.session }
        ensures records { OnOk result ((es : Records) → IsOrdered es
            → applied_all self.new.lists es ≡ applied changes (applied_all self.old.lists es)) }
        ensures definitions { OnOk result (definitions_or self.new.catalogue committed.now
            ≡ changed change (definitions_or self.old.catalogue committed.now)) }
        ensures err { OnErr result (self.new ≡ self.old) }
    {
        let Some(held) = self.catalogue.take() else {
            return self.add_first_change(alloc, committed, changes, change);
        };
        match record_change(&mut self.lists, held, changes, change) {
            Ok(next) => {
                self.catalogue = Some(next);
                Ok(())
            }
            Err(held) => {
                self.catalogue = Some(held);
                Err(AllocError)
            }
        }
    }

    // The same for the first of them.
    fn add_first_change(
        &mut self,
        alloc: Global,
        committed: &Catalogue,
        changes: Batch,
        change: SchemaChange,
    ) -> Result<(), AllocError>
        ensures session { self.new.session ≡ self.old.session }
        ensures records { OnOk result ((es : Records) → IsOrdered es
            → applied_all self.new.lists es ≡ applied changes (applied_all self.old.lists es)) }
        ensures definitions { OnOk result
            (self.new.catalogue ≡ Some (changed change committed.now)) }
        ensures err { OnErr result (self.new ≡ self.old) }
    {
        let Ok(copy) = committed.try_copy(alloc) else {
            // One call, and not its parts one by one.
            drop(change);
            return Err(AllocError);
        };
        match record_change(&mut self.lists, copy, changes, change) {
            Ok(next) => {
                self.catalogue = Some(next);
                Ok(())
            }
            Err(_) => Err(AllocError),
        }
    }
}

// Adds changes to lists, and makes a change in a catalogue. Where an allocation failed, the catalogue
// comes back, and the lists are as they were.
fn record_change(
    lists: &mut ChangeLists,
    catalogue: Catalogue,
    changes: Batch,
    change: SchemaChange,
) -> Result<Catalogue, Catalogue>
    ensures records { OnOk result ((es : Records) → IsOrdered es
        → applied_all lists.new es ≡ applied changes (applied_all lists.old es)) }
    ensures definitions { IfOk result (λ next. next ≡ changed change catalogue) }
    ensures kept { OnErr result (lists.new ≡ lists.old) }
    ensures back { IfErr result (λ back. back ≡ catalogue) }
{
    let staged = Staged::new(catalogue, change)?;
    match lists.record(changes) {
        Ok(()) => Ok(staged.make()),
        Err(_) => Err(staged.give_up()),
    }
}
