//! Laws of rows that a statement leaves unread: each function does nothing, and its clause is proved.
ghost use Rattle.key_ranges.specs.Boxes.{AroundLosesNothing, BoxesLoseNothing};
ghost use Rattle.key_ranges.specs.InOrder.{MergedLosesNothing, OrderedLosesNothing};
ghost use Rattle.key_ranges.specs.LeftOut.{LeftOutBehindLosesNothing, LeftOutLosesNothing, LeftUnchangedIsNotChosen, LeftUnchangedIsNotMet};
ghost use Rattle.key_ranges.specs.TableRanges.{TableRangeLosesNothing};

/// On a row of a table that is in none of the boxes of a condition, the condition is false.
pub fn false_outside_of_boxes()
    ensures { BoxesLoseNothing }
{}

/// A row of a table that is in one of several boxes is in the one around them.
pub fn around_loses_nothing()
    ensures { AroundLosesNothing }
{}

/// A SELECT answers, or is refused, as if the rows of a table were not there that its guard hides, or
/// that meet the conditions in no combination, where neither fails on them.
pub fn left_out_loses_nothing()
    ensures { LeftOutLosesNothing }
{}

/// The same behind tables of which rows are seen, of rows that meet the conditions in no combination
/// behind these.
pub fn left_out_behind_loses_nothing()
    ensures { LeftOutBehindLosesNothing }
{}

/// An UPDATE or a DELETE does not choose a row that its guard hides, or that does not meet its
/// condition, where neither fails on it.
pub fn left_unchanged_is_not_chosen()
    ensures chosen { LeftUnchangedIsNotChosen }
    ensures met { LeftUnchangedIsNotMet }
{}

/// Each row of a table outside the range that its guard and the conditions leave of it may be left
/// out, whatever the rows and the guards of other tables are.
pub fn table_range_loses_nothing()
    ensures { TableRangeLosesNothing }
{}

/// Spans in the order of their starts, and merged where they touch, are in order and have all their keys.
pub fn merged_spans_lose_nothing()
    ensures ordered { OrderedLosesNothing }
    ensures merged { MergedLosesNothing }
{}
