//! Laws of marked records, and of those of a database.

ghost use Rattle.std.specs.Prelude.{◌≡◌, ◌∷◌, ◌⊎◌, Option, Some, None};
ghost use Rattle.store.specs.Records.{Records};
ghost use Rattle.store.specs.Store.{Contents};
ghost use Rattle.abstract_database.specs.Database.{Database};
ghost use Rattle.stored_database.specs.Records.{StandsFor};
ghost use Rattle.stored_database.specs.BothRecordFormats.{Means, Stands};
ghost use Rattle.copies.specs.RecordCopies.{HasOutsized, IsUnfinished, behind_mark, mark};
ghost use Rattle.copies.specs.DeviceCopies.{HasNoneOrMark};

use stored_database::records_have_record_sizes;

/// Records that begin with the mark of a copy stand for no database, in either record format. So a copy
/// that is not whole is none.
pub fn marked_records_stand_for_nothing()
    ensures contents { (contents : Contents) (others : Records) (db : Database)
        → contents.records ≡ mark ∷ others → Stands contents db → ⊥ }
    ensures left { (x : Option Contents) (db : Database) → HasNoneOrMark x → Means x db → ⊥ }
{}

/// The records of a database are all behind the mark, and each has a size that a store takes: so a
/// copy has all of them.
pub fn copied_records_stand()
    ensures all { (records : Records) (db : Database) → StandsFor records db
        → behind_mark records ≡ records }
    ensures sizes { (records : Records) (db : Database) → StandsFor records db
        → HasOutsized records → ⊥ }
{
    // For the proof: records have the sizes that a store takes.
    records_have_record_sizes();
}
