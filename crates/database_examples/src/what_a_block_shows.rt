//! Blocks: what a session and the others see, COMMIT and ROLLBACK, and failed blocks.

ghost use Rattle.database_examples.specs.WhatABlockShows.{revoke_is_seen_after_commit, failed_block, begin_and_end_twice, rollback_of_set_role, definitions_roll_back, readers_see_each_commit, misread_texts_in_blocks, failed_block_is_undone, commit_and_the_set_role, rollback_outside_keeps_the_role, second_begin_keeps_the_first, dropped_under_a_block, made_again, each_judged_by_what_it_sees, barred_in_its_own_block, block_is_unseen_until_commit, statements_see_those_before, grants_of_a_block, row_security_rolls_back, readers_go_on, membership_given_up_in_a_block, privilege_lost_in_a_block, set_role_that_is_gone_comes_back, role_made_in_a_block, names_of_a_failed_block, login_judged_by_what_it_sees};

/// A REVOKE in a block is seen by others from its COMMIT on.
pub fn revoke_is_seen_after_commit()
    ensures { revoke_is_seen_after_commit }
{}

/// In a failed block all but COMMIT and ROLLBACK is refused, and COMMIT acts as ROLLBACK.
pub fn failed_block()
    ensures { failed_block }
{}

/// BEGIN in a block, and ROLLBACK outside one, warn and change nothing.
pub fn begin_and_end_twice()
    ensures { begin_and_end_twice }
{}

/// ROLLBACK brings back the set role of its BEGIN.
pub fn rollback_of_set_role()
    ensures { rollback_of_set_role }
{}

/// What a holder has defined is its own until COMMIT, and gone with ROLLBACK.
pub fn definitions_roll_back()
    ensures { definitions_roll_back }
{}

/// A block that only reads sees each COMMIT of another session.
pub fn readers_see_each_commit()
    ensures { readers_see_each_commit }
{}

/// A text that cannot be read fails a block, and is refused as itself in a failed one.
pub fn misread_texts_in_blocks()
    ensures { misread_texts_in_blocks }
{}

/// What a failed block did before is undone.
pub fn failed_block_is_undone()
    ensures { failed_block_is_undone }
{}

/// COMMIT keeps the set role, and COMMIT of a failed block does not.
pub fn commit_and_the_set_role()
    ensures { commit_and_the_set_role }
{}

/// ROLLBACK outside a block changes no role.
pub fn rollback_outside_keeps_the_role()
    ensures { rollback_outside_keeps_the_role }
{}

/// A second BEGIN does not change what ROLLBACK brings back.
pub fn second_begin_keeps_the_first()
    ensures { second_begin_keeps_the_first }
{}

/// A role that is dropped under a session may still end its block.
pub fn dropped_under_a_block()
    ensures { dropped_under_a_block }
{}

/// A role that is made again under its old name is there again.
pub fn made_again()
    ensures { made_again }
{}

/// The holder is judged by its own database, another session by the committed one.
pub fn each_judged_by_what_it_sees()
    ensures { each_judged_by_what_it_sees }
{}

/// A session that takes its own set role away in a block is refused at once.
pub fn barred_in_its_own_block()
    ensures { barred_in_its_own_block }
{}

/// Other sessions see nothing of a block before its COMMIT, and all of it from then on, also within
/// their own blocks.
pub fn block_is_unseen_until_commit()
    ensures { block_is_unseen_until_commit }
{}

/// Each statement of a block sees what the ones before it did.
pub fn statements_see_those_before()
    ensures { statements_see_those_before }
{}

/// A grant of a block counts for its own session at once, and for others from its COMMIT on.
pub fn grants_of_a_block()
    ensures { grants_of_a_block }
{}

/// Row security, policies, grants and dropped tables of a block go back with it.
pub fn row_security_rolls_back()
    ensures { row_security_rolls_back }
{}

/// A session that reads is never refused the writer lock, and in a block it sees a table go that another
/// session drops.
pub fn readers_go_on()
    ensures { readers_go_on }
{}

/// A block that gives up its own membership loses the privileges at once, and has them back with
/// ROLLBACK.
pub fn membership_given_up_in_a_block()
    ensures { membership_given_up_in_a_block }
{}

/// Each statement asks for its privilege, within a block too.
pub fn privilege_lost_in_a_block()
    ensures { privilege_lost_in_a_block }
{}

/// ROLLBACK brings the set role of BEGIN back although the session may not set it any more.
pub fn set_role_that_is_gone_comes_back()
    ensures { set_role_that_is_gone_comes_back }
{}

/// A role that a block makes may be set within it, and opens a session from the COMMIT on.
pub fn role_made_in_a_block()
    ensures { role_made_in_a_block }
{}

/// The names that a failed block made are free again.
pub fn names_of_a_failed_block()
    ensures { names_of_a_failed_block }
{}

/// Whether a login role is gone is judged by what the session sees: the holder by its own database,
/// another session by the committed one.
pub fn login_judged_by_what_it_sees()
    ensures { login_judged_by_what_it_sees }
{}
