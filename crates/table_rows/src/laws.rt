//! Laws of the records of a table: the lemmas of proofs/Changing.antt.
ghost use Rattle.table_rows.specs.Changed.{UpdateIsHeld, KeyIsFound, OtherRecordsStay, HeldRowsAreWhole};

/// Where first all keys of the rows that are chosen are removed, as they were, and then all new
/// rows are put, the records hold the table's rows as the definition has them.
pub fn update_is_held()
    ensures { UpdateIsHeld }
{}

/// The key of a row is there in the records where one of the table's rows has it.
pub fn key_is_found()
    ensures { KeyIsFound }
{}

/// Changes of the rows of a table leave all other records as they are.
pub fn other_records_stay()
    ensures { OtherRecordsStay }
{}

/// Rows that the records of a map hold stand in the order of their keys, no two with one key.
pub fn held_rows_are_whole()
    ensures { HeldRowsAreWhole }
{}
