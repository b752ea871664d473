//! The steps of a script, and its batches.

use crate::journals::devices::JournalSwitch;
use crate::stores::call::CallWords;
use crate::stores::table::{Changeable, add_change, change_by};
use anyhow::Result;
use std::alloc::{AllocError, Global};
use store::Batch;

/// A step of a script.
#[derive(Clone, Copy)]
pub enum ScriptStep {
    /// The commit of the batch of this index.
    Commit(usize),
    /// The journal is turned on or off.
    Turn(JournalSwitch),
}

/// The words of each batch of a script, its steps, and how many pages the caches have over which it is followed.
pub struct BatchScript {
    pub alloc: Global,
    pub cache: usize,
    pub steps: Vec<ScriptStep>,
    batches: Vec<String>,
}

// Written and not derived: where a value is dropped this is one call, and not its parts one by one.
impl Drop for BatchScript {
    fn drop(self) {
        let BatchScript {
            alloc: _,
            cache: _,
            steps: _,
            batches: _,
        } = self;
    }
}

impl BatchScript {
    /// The script that words make.
    pub fn new(alloc: Global, cache: usize, words: &str) -> Result<BatchScript, AllocError> {
        let mut script = BatchScript {
            alloc,
            cache,
            steps: Vec::new(alloc),
            batches: Vec::new(alloc),
        };
        let mut batch = String::new(alloc);
        for word in words.split(' ') {
            script.take(word, &mut batch)?;
        }
        Ok(script)
    }

    /// Takes a word: it ends the batch that the words before it began, is a step by itself, or goes on with a batch.
    fn take(&mut self, word: &str, batch: &mut String) -> Result<(), AllocError> {
        match word {
            "commit" => {
                self.steps.push(ScriptStep::Commit(self.batches.len()))?;
                self.batches.push(batch.clone()?)?;
                batch.clear();
            }
            "on" => self.steps.push(ScriptStep::Turn(JournalSwitch::On))?,
            "off" => self.steps.push(ScriptStep::Turn(JournalSwitch::Off))?,
            _ => {
                batch.push_str(word)?;
                batch.push_str(" ")?;
            }
        }
        Ok(())
    }

    /// How many batches there are.
    pub fn len(&self) -> usize {
        self.batches.len()
    }

    /// The batch of this index, as it is made in a life. It is empty where there is none.
    pub fn batch(&self, index: usize, life: u8) -> Result<Batch> {
        let mut made = LifeBatch {
            batch: Batch::new(self.alloc),
            alloc: self.alloc,
            life,
        };
        if let Some(words) = self.batches.get(index) {
            made.add(words)?;
        }
        Ok(made.batch)
    }
}

/// A batch that is made in a life.
#[derive(Drop)]
struct LifeBatch {
    batch: Batch,
    alloc: Global,
    life: u8,
}

impl LifeBatch {
    /// Adds the changes that words write.
    fn add(&mut self, words: &str) -> Result<()> {
        for word in words.split(' ') {
            let call = CallWords::new(self.alloc, word);
            if !word.is_empty() {
                change_by(self, &call)?;
            }
        }
        Ok(())
    }
}

impl Changeable for LifeBatch {
    fn change(&mut self, key: &[u8], value: Option<&[u8]>) -> Result<()> {
        match value {
            Some(value) => {
                let value = in_life(self.alloc, value, self.life)?;
                add_change(&mut self.batch, key, Some(value.as_slice()))
            }
            None => add_change(&mut self.batch, key, None),
        }
    }
}

/// The bytes of a value, as it is put in a life.
fn in_life(alloc: Global, value: &[u8], life: u8) -> Result<Vec<u8>, AllocError> {
    let mut value = Vec::from_slice(alloc, value)?;
    for byte in value.iter_mut() {
        *byte = byte.wrapping_add(life);
    }
    Ok(value)
}
