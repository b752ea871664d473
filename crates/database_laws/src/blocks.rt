//! Laws of blocks, and of what is committed.

ghost use Rattle.database_laws.specs.Blocks.{refused_fails_the_block, refused_elsewhere_changes_nothing, failed_blocks_refuse, stopped_machines_refuse, begin_starts_a_block, begin_warns_in_a_block, ends_warn_outside, committed_at_commits, writes_take_effect, selects_change_nothing, commit_commits, failed_commit_rolls_back, rollback_rolls_back};

/// A statement that is refused in an open block makes the block failed; every other refusal leaves
/// the machine as it was. A failed block refuses all but COMMIT and ROLLBACK, a machine that has
/// stopped refuses everything (PostgreSQL manual, appendix A, 25P02).
pub fn refusals_leave_no_change()
    ensures in_a_block { refused_fails_the_block }
    ensures elsewhere { refused_elsewhere_changes_nothing }
    ensures failed { failed_blocks_refuse }
    ensures stopped { stopped_machines_refuse }
{}

/// BEGIN starts a block, which keeps the role that is set. In a block BEGIN does nothing but warn,
/// and outside one COMMIT and ROLLBACK (PostgreSQL manual, BEGIN, COMMIT, ROLLBACK).
pub fn blocks_start()
    ensures begin { begin_starts_a_block }
    ensures again { begin_warns_in_a_block }
    ensures outside { ends_warn_outside }
{}

/// The committed database changes at a COMMIT of an open block, to what its session sees, and at a
/// statement outside a block, to what it makes; nothing else changes it, and SELECT changes nothing
/// at all (SQL:2016 Foundation, 4.41).
pub fn committed_at_commits_alone()
    ensures commits { committed_at_commits }
    ensures writes { writes_take_effect }
    ensures selects { selects_change_nothing }
{}

/// COMMIT ends an open block with its changes; COMMIT of a failed block and ROLLBACK without them,
/// and with the role that was set at BEGIN. The writer lock is given up.
pub fn blocks_end()
    ensures commit { commit_commits }
    ensures failed { failed_commit_rolls_back }
    ensures rollback { rollback_rolls_back }
{}
