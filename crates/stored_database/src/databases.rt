//! Laws of the database that records stand for.

ghost use Rattle.std.specs.Prelude.{◌≡◌, List, length};
ghost use Rattle.sql_types.specs.Row.{Row};
ghost use Rattle.store.specs.Records.{Records, IsOrdered};
ghost use Rattle.sql_types.specs.Name.{IsUtf8Name};
ghost use Rattle.store.specs.Memory.{new_records};
ghost use Rattle.abstract_database.specs.Lists.{TheName};
ghost use Rattle.abstract_database.specs.Database.{Database, new_database};
ghost use Rattle.abstract_database.specs.Whole.{Each, HasWholeDefinitions, IsWhole, clauses_of};
ghost use Rattle.stored_database.specs.Definitions.{Definitions, database_with, database_of};
ghost use Rattle.stored_database.specs.Records.{Define, Shows, StandsFor};
ghost use Rattle.expr_parser.specs.Written.{IsAsWritten};
ghost use Rattle.stored_database.specs.Valid.{Describes};
ghost use Rattle.stored_database.specs.Entries.{entries_of};

use expr_parser::laws::one_answer;

/// Records define at most one list of roles, memberships, and tables with their numbers, privilege
/// descriptors and policies.
pub fn one_catalogue()
    ensures { (records : Records) (d e : Definitions) → Define records d → Define records e
        → d ≡ e }
{
    // For the proof: a text has one reading.
    one_answer();
}

/// Records stand for at most one database.
pub fn one_database()
    ensures { (records : Records) (a b : Database) → StandsFor records a → StandsFor records b
        → a ≡ b }
{
    // For the proof: a text has one reading.
    one_answer();
}

/// The database that records stand for is whole, and so is each that definitions describe.
pub fn stored_databases_are_whole()
    ensures stored { (records : Records) (db : Database) → StandsFor records db → IsWhole db }
    ensures described { (d : Definitions) (db : Database) → Describes d db → IsWhole db }
{}

/// The definitions of a whole database are whole without its rows.
pub fn definitions_are_whole_without_rows()
    ensures { (d : Definitions) (rows : List (List Row)) → length rows ≡ length d.tables
        → IsWhole (database_with d rows) → HasWholeDefinitions (database_of d) }
{}

/// Records show a database that their definitions describe.
pub fn shown_databases_are_described()
    ensures { (records : Records) (d : Definitions) (db : Database) → Shows records d db
        → Describes d db }
{}

/// The records that a database spells show it: each database that definitions describe has records.
pub fn described_databases_have_records()
    ensures { (d : Definitions) (db : Database) → (s : Describes d db)
        → Shows (entries_of d s.rows) d db }
{}

/// Each whole database has records, in the order of their keys, that stand for it, where the
/// conditions of its policies are what their texts are read as.
pub fn whole_databases_have_records()
    ensures { (db : Database) → IsWhole db → Each IsAsWritten (clauses_of db)
        → (records : Records) × IsOrdered records × StandsFor records db }
{}

/// The record of a new database stands for it, where the name of its role is a name.
pub fn new_records_stand_for_a_new_database()
    ensures { (admin : TheName) → IsUtf8Name admin
        → StandsFor (new_records admin) (new_database admin) }
{}
