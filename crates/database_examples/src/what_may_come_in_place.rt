//! What may come in place of the machine's own answer, and what may not: refusals of memory, space,
//! commit number and device.

ghost use Rattle.database_examples.specs.WhatMayComeInPlace.{full_store_refuses, greatest_count_refuses, store_with_room_refuses_nothing, full_store_refuses_a_commit, no_statement_of_a_block, no_query, block_of_20_rows, block_of_20_rows_stays, greatest_number_refuses, number_before_the_greatest, failed_device_refuses, sound_device_refuses_nothing, stopped_machines_refuse, memory_refuses_a_statement, memory_refuses_no_close};

/// A statement that commits may be refused 53100 where the store was full during it, or its count of
/// that is at its greatest, and then changes nothing; else it may not.
pub fn full_store_refuses()
    ensures may { full_store_refuses }
    ensures at_its_greatest { greatest_count_refuses }
    ensures may_not { store_with_room_refuses_nothing }
{}

/// Within a block the COMMIT alone may be refused 53100, and leaves the block as it was; a query may
/// not, wherever it stands.
pub fn full_store_refuses_a_commit()
    ensures may { full_store_refuses_a_commit }
    ensures may_not { no_statement_of_a_block }
    ensures query { no_query }
{}

/// A block's rows are there until it is rolled back, also where the store was full at its COMMIT.
pub fn block_of_20_rows()
    ensures answers { block_of_20_rows }
    ensures stays { block_of_20_rows_stays }
{}

/// A statement that commits may be refused 54000 once the last commit's number is the greatest, and
/// not before.
pub fn greatest_number_refuses()
    ensures may { greatest_number_refuses }
    ensures may_not { number_before_the_greatest }
{}

/// A statement during which the device failed may be refused 58030, and then the machine has stopped;
/// without a failure it may not.
pub fn failed_device_refuses()
    ensures may { failed_device_refuses }
    ensures may_not { sound_device_refuses_nothing }
{}

/// A machine that has stopped refuses every event with 58030.
pub fn stopped_machines_refuse()
    ensures { stopped_machines_refuse }
{}

/// A statement may be refused for memory, and leaves its block as it was; a close may not.
pub fn memory_refuses_a_statement()
    ensures may { memory_refuses_a_statement }
    ensures may_not { memory_refuses_no_close }
{}
