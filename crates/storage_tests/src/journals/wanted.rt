//! What a store is to have.

use crate::journals::script::BatchScript;
use crate::stores::map_calls::commit;
use crate::stores::records::memory_of;
use anyhow::Result;
use std::alloc::{AllocError, Global};
use store::MemStore;

/// The administrator of the new databases.
pub const ROOT: &str = "root";

/// A store in memory after the first commits of a script, each made in the life that stands at its place.
pub fn wanted_after(script: &BatchScript, lives: &[u8]) -> Result<MemStore> {
    let mut memory = memory_of(script.alloc, ROOT)?;
    commit_first(script, lives, &mut memory)?;
    Ok(memory)
}

/// Makes the first commits of a script in a store in memory, each in the life that stands at its place.
fn commit_first(script: &BatchScript, lives: &[u8], memory: &mut MemStore) -> Result<()> {
    for (index, life) in lives.iter().enumerate() {
        commit(memory, &mut script.batch(index, *life)?)?;
    }
    Ok(())
}

/// A store in memory after so many commits, the first ones of a script, each made in the first life.
pub fn wanted_first(script: &BatchScript, commits: usize) -> Result<MemStore> {
    wanted_after(script, &vec![in script.alloc; 0; commits]?)
}

/// The lives of commits, and of one more behind them.
pub fn with(alloc: Global, lives: &[u8], life: u8) -> Result<Vec<u8>, AllocError> {
    let mut all = Vec::from_slice(alloc, lives)?;
    all.push(life)?;
    Ok(all)
}
