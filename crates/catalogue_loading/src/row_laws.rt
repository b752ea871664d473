//! What records stand for whose rows were checked.

ghost use Rattle.std.specs.Prelude.{◌≡◌, Ok};
ghost use Rattle.store.specs.Records.{Records};
ghost use Rattle.stored_database.specs.Definitions.{Definitions};
ghost use Rattle.catalogue_loading.specs.RowChecks.{ChecksRows, StandForOne};

use stored_database::one_database;

/// Records that define a catalogue and whose rows were checked stand for one database and no other.
pub fn checked_rows_show_one_database()
    ensures { (records : Records) (d : Definitions) → ChecksRows (Ok tt) records d
        → StandForOne records d }
{
    // For the proof: records stand for one database.
    one_database();
}
