//! Laws of what tables and databases keep, through every statement and every event.

ghost use Rattle.database_laws.specs.Tables.{keys_stay_distinct, nulls_stay_out, types_stay, rows_stay_in_order};
ghost use Rattle.database_laws.specs.Invariants.{sound_for_ever, in_order_for_ever};

/// Every statement leaves the rows of each table in key order, with distinct keys, without a null
/// where none may be, and with values of the columns' types (SQL:2016 Foundation, 4.15 and 4.18).
pub fn rows_stay_sound()
    ensures distinct { keys_stay_distinct }
    ensures not_null { nulls_stay_out }
    ensures types { types_stay }
    ensures in_order { rows_stay_in_order }
{}

/// What the statements keep of the tables, and the order of each list, every event of every session
/// keeps: in the committed database, and in that of the session that holds the writer lock.
pub fn databases_stay_sound()
    ensures tables { sound_for_ever }
    ensures lists { in_order_for_ever }
{}
