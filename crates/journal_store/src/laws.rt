//! Laws of images with a journal, whatever the program does.
ghost use Rattle.std.specs.Prelude.{◌≡◌, ◌⊎◌, ◌+◌, ◌++◌, ◌∷◌, [], ℕ, true, List};
ghost use Rattle.storage_sizes.specs.declared.record_format.RecordFormat.TheVariants.{V2};
ghost use Rattle.sector_device.specs.Device.{Image};
ghost use Rattle.journal.specs.Chain.{Entry};
ghost use Rattle.journal.specs.Changes.{Spells};
ghost use Rattle.journal.specs.Journals.{HasJournal, HasEither};
ghost use Rattle.store.specs.Contents.{changed_by_batch};
ghost use Rattle.store.specs.Records.{Changes};
ghost use Rattle.store.specs.Store.{Contents};
ghost use Rattle.kv_store.specs.Numbered.{HasContentsUnder};
ghost use Rattle.journal_store.specs.Meaning.{HasJournaledContents, SpellBatches, with_batches, joined_parts, journal_start, journal_room};

/// An image with a journal has one contents at most.
pub fn one_contents()
    ensures { (image : Image) (pages others : ℕ) (contents other : Contents)
        → HasJournaledContents pages contents image → HasJournaledContents others other image
        → contents ≡ other }
{}

/// While the record of a batch is written, a stop leaves the contents before the batch or those after
/// it: the pages are as they were, and the journal has the records before, or these and the new one.
pub fn record_leaves()
    ensures { (image : Image) (pages root : ℕ) (base : Contents) (es : List Entry)
        (batches : List Changes) (new : Entry) (batch : Changes)
        → HasContentsUnder true pages root base image → base.record_format ≡ V2
        → SpellBatches es batches → Spells (joined_parts new.parts) batch
        → HasEither journal_start journal_room root es new image
        → HasJournaledContents pages (with_batches batches base) image
        ⊎ HasJournaledContents pages (changed_by_batch batch (with_batches batches base)) image }
{}

/// While all batches that wait are committed to the pages, with one more, under the next root, a stop
/// leaves the contents before that one or those after it: the journal stays as it was, and behind the
/// next root it has no record.
pub fn checkpoint_leaves()
    ensures { (image : Image) (pages root : ℕ) (base after : Contents) (es : List Entry)
        (batches : List Changes)
        → base.record_format ≡ V2 → after.record_format ≡ V2 → SpellBatches es batches
        → HasJournal journal_start journal_room root es image
        → HasContentsUnder true pages root base image ⊎ HasContentsUnder true pages (root + 1) after image
        → HasJournaledContents pages (with_batches batches base) image
        ⊎ HasJournaledContents pages after image }
{}
