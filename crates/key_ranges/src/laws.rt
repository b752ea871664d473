//! Laws of key ranges: each function does nothing, and its clauses are proved.
ghost use Rattle.key_ranges.specs.Laws.{LookUpsLoseNothing, RangesHoldTheirRows, RangesLoseNothing, OutsideRowsAreNotChosen, OutsideRowsAreNotMet};

/// Where the records of a table are those of rows, a look-up or a walk over a range of its keys
/// finds the records of the rows inside the range, in their order.
pub fn ranges_hold_their_rows()
    ensures { RangesHoldTheirRows }
{}

/// Where neither a guard nor a condition fails on any row, a SELECT answers of the rows of a table
/// inside a range of its conditions what it answers of all rows of that table, whatever the rows of
/// the other tables are. So each table may have a range of its own.
pub fn ranges_lose_nothing()
    ensures { RangesLoseNothing }
{}

/// Where neither a guard nor a condition fails on any row, a SELECT answers of the rows of a table
/// inside the ranges that its conditions leave behind each combination of rows that it sees of the
/// tables before, what it answers of all rows of this table.
pub fn look_ups_lose_nothing()
    ensures { LookUpsLoseNothing }
{}

/// Where neither the guard nor the condition fails on any row, an UPDATE or a DELETE chooses no row
/// outside a range of its condition.
pub fn outside_rows_are_not_chosen()
    ensures chosen { OutsideRowsAreNotChosen }
    ensures met { OutsideRowsAreNotMet }
{}
