//! Which rows a policy lets be written.

ghost use Rattle.database_examples.specs.WhatAPolicyRefuses.{new_row_is_judged, blind_update, reading_update, hidden_key_counts, guarded_delete, using_guards_new_rows, check_in_place_of_using, update_takes_both, hidden_rows_are_left_out, delete_that_reads, select_policy_lets_nothing_change, check_before_constraints, two_guards_row_by_row, own_rows_stay_own, rows_given_away, policies_of_each_command, handing_a_row_over, hidden_keys_meet_updates, rows_hidden_from_their_writer, restrictive_policies_of_each_command, restrictive_alone_lets_nothing_be_written, using_of_an_update_policy, updates_that_read, writing_without_select, null_check_refuses, checks_of_all_rows_come_first};

/// UPDATE is refused where its new row does not pass.
pub fn new_row_is_judged()
    ensures { new_row_is_judged }
{}

/// An UPDATE that reads no column is not guarded by the SELECT policies.
pub fn blind_update()
    ensures { blind_update }
{}

/// An UPDATE that reads a column is guarded by the SELECT policies, its new rows too.
pub fn reading_update()
    ensures { reading_update }
{}

/// The key of a hidden row is taken all the same.
pub fn hidden_key_counts()
    ensures { hidden_key_counts }
{}

/// DELETE leaves alone what its guard hides.
pub fn guarded_delete()
    ensures { guarded_delete }
{}

/// A policy for all commands guards new rows by USING where it has no WITH CHECK.
pub fn using_guards_new_rows()
    ensures { using_guards_new_rows }
{}

/// WITH CHECK guards new rows in place of USING.
pub fn check_in_place_of_using()
    ensures { check_in_place_of_using }
{}

/// UPDATE takes old rows by USING and new rows by WITH CHECK.
pub fn update_takes_both()
    ensures { update_takes_both }
{}

/// Rows that USING hides are left out of an UPDATE without a refusal.
pub fn hidden_rows_are_left_out()
    ensures { hidden_rows_are_left_out }
{}

/// A DELETE that reads a column is guarded by the SELECT policies too.
pub fn delete_that_reads()
    ensures { delete_that_reads }
{}

/// A policy for SELECT lets nothing be changed.
pub fn select_policy_lets_nothing_change()
    ensures { select_policy_lets_nothing_change }
{}

/// A policy's check comes before NOT NULL and before the key.
pub fn check_before_constraints()
    ensures { check_before_constraints }
{}

/// Of two guards the second is evaluated row by row, after the first.
pub fn two_guards_row_by_row()
    ensures { two_guards_row_by_row }
{}

/// Where a policy shows each role its own rows, nobody writes a row of another, or makes one's own
/// row another's.
pub fn own_rows_stay_own()
    ensures { own_rows_stay_own }
{}

/// WITH CHECK lets a row be given away that its giver sees no more.
pub fn rows_given_away()
    ensures { rows_given_away }
{}

/// A policy for one command says nothing of the others.
pub fn policies_of_each_command()
    ensures { policies_of_each_command }
{}

/// An UPDATE that reads needs its new rows to be seen; one that reads nothing needs WITH CHECK
/// alone.
pub fn handing_a_row_over()
    ensures { handing_a_row_over }
{}

/// A key that a hidden row holds refuses an UPDATE, once the policies let its rows pass.
pub fn hidden_keys_meet_updates()
    ensures { hidden_keys_meet_updates }
{}

/// A role may write rows that it does not see, as long as it reads nothing.
pub fn rows_hidden_from_their_writer()
    ensures { rows_hidden_from_their_writer }
{}

/// A restrictive policy for a command narrows that command alone.
pub fn restrictive_policies_of_each_command()
    ensures { restrictive_policies_of_each_command }
{}

/// Restrictive policies alone let no row be written, and leave none to be changed.
pub fn restrictive_alone_lets_nothing_be_written()
    ensures { restrictive_alone_lets_nothing_be_written }
{}

/// An UPDATE policy without WITH CHECK judges the new rows by USING: a row must not leave what it
/// is for.
pub fn using_of_an_update_policy()
    ensures { using_of_an_update_policy }
{}

/// With a column in WHERE or on a right side the SELECT policies guard the old rows and the new
/// ones.
pub fn updates_that_read()
    ensures { updates_that_read }
{}

/// A role without SELECT changes rows by the policies of its command alone, and reads none.
pub fn writing_without_select()
    ensures { writing_without_select }
{}

/// A WITH CHECK that is null refuses the new row.
pub fn null_check_refuses()
    ensures { null_check_refuses }
{}

/// Each sort of check is made of all new rows before the next: the policies, then nulls, then keys.
pub fn checks_of_all_rows_come_first()
    ensures { checks_of_all_rows_come_first }
{}
