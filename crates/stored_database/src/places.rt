//! Laws of the two record formats of records: what those of the first mean.

ghost use Rattle.std.specs.Prelude.{◌≡◌, ℕ, false, [], ◌∷◌, None};
ghost use Rattle.sql_ast.specs.declared.privilege.Descriptor.{Descriptor};
ghost use Rattle.store.specs.Records.{Record, Records, IsOrdered, has_prefix};
ghost use Rattle.store.specs.Store.{Contents};
ghost use Rattle.abstract_database.specs.Database.{Database};
ghost use Rattle.stored_database.specs.Records.{StandsFor};
ghost use Rattle.stored_database.specs.RecordFormat.{descriptor_record};
ghost use Rattle.stored_database.specs.BothRecordFormats.{first_descriptor, placed, with_places, Stands};

use crate::databases::one_database;

/// A privilege descriptor for a whole table becomes what it is in record format 2, and no other
/// record becomes that. Records of other kinds stay as they are.
pub fn descriptors_get_places()
    ensures spelled { (id : ℕ) (d : Descriptor) → d.column ≡ None
        → placed (first_descriptor id d) ≡ descriptor_record id d }
    ensures only { (id : ℕ) (d : Descriptor) (e : Record) → d.column ≡ None
        → placed e ≡ descriptor_record id d → e ≡ first_descriptor id d }
    ensures others { (e : Record) → has_prefix (4 ∷ []) e.0 ≡ false → placed e ≡ e }
{}

/// Records that get places stay in the order of their keys.
pub fn places_keep_the_order()
    ensures { (records : Records) → IsOrdered records → IsOrdered (with_places records) }
{}

/// The same records stand for databases in both record formats only where these have no table: behind
/// the action of what the system granted an owner record format 2 has one zero byte more.
pub fn record_formats_are_apart()
    ensures { (records : Records) (a b : Database) → StandsFor records a
        → StandsFor (with_places records) b → a.tables ≡ [] }
{}

/// Contents stand for at most one database.
pub fn contents_stand_for_one_database()
    ensures { (contents : Contents) (a b : Database) → Stands contents a → Stands contents b
        → a ≡ b }
{
    // For the proof: records stand for one database.
    one_database();
}
