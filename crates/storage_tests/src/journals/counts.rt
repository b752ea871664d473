//! How much commits write.

use crate::journals::script::BatchScript;
use crate::journals::tally::TestTally;
use crate::journals::test_stores::{commit_first, new_device, opened};
use anyhow::Result;

/// Counts the sectors that the commits of a script write, and the syncs that they make.
pub fn count(script: &BatchScript, tally: &mut TestTally) -> Result<()> {
    let mut store = opened(script, new_device(script.alloc, true)?)?;
    let (writes, syncs) = store.written();
    commit_first(script, &mut store, script.len(), tally)?;
    let (all_writes, all_syncs) = store.written();
    tally.first = all_writes.saturating_sub(writes);
    tally.second = all_syncs.saturating_sub(syncs);
    Ok(())
}
