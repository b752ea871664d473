//! Laws of the records that stand for a database: each is one that the database spells, and no
//! other is among them.

ghost use Rattle.std.specs.Prelude.{◌≡◌, ◌↔◌};
ghost use Rattle.store.specs.Records.{Record, Records, IsOrdered};
ghost use Rattle.abstract_database.specs.Lists.{Among};
ghost use Rattle.abstract_database.specs.Database.{Database};
ghost use Rattle.stored_database.specs.Definitions.{Definitions};
ghost use Rattle.stored_database.specs.Records.{Shows};
ghost use Rattle.stored_database.specs.Entries.{entries_of};

/// The records that stand for a database are those that it spells, and no others.
pub fn records_are_entries()
    ensures { (records : Records) (d : Definitions) (e : Record) (db : Database)
        → (s : Shows records d db) → Among e records ↔ Among e (entries_of d s.rows) }
{}

/// Records in the order of their keys are told by the database that they stand for and by the
/// numbers of its tables: there is no other freedom in them.
pub fn one_list_of_records()
    ensures { (a b : Records) (d : Definitions) (db : Database) → IsOrdered a → IsOrdered b
        → Shows a d db → Shows b d db → a ≡ b }
{}
