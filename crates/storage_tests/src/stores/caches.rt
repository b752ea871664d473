//! Caches of pages.

use crate::stores::call::{CallWords, fill, number_in};
use crate::stores::callee::{Callee, make_calls};
use crate::transcript::Transcript;
use anyhow::{Result, bail};
use page_cache::PageCache;
use storage_sizes::PAGE_SIZE;

/// Makes calls of a cache of so many pages.
pub fn run_on_cache(first: &CallWords<'_>, calls: &str, out: &mut Transcript) -> Result<()> {
    let mut cache = PageCache::new(first.alloc, number_in(first.first) as usize)?;
    make_calls(first.alloc, &mut cache, calls, out)
}

impl Callee for PageCache {
    fn make(&mut self, call: &CallWords<'_>, out: &mut Transcript) -> Result<()> {
        let page = number_in(call.first);
        match call.name {
            "put" => {
                let mut bytes = [0; PAGE_SIZE];
                fill(call.alloc, call.second, &mut bytes)?;
                self.put(page, &bytes);
            }
            "forget" => self.invalidate(page),
            "get" => answer_held(self, call, out),
            _ => bail!("no call of a cache"),
        }
        Ok(())
    }
}

/// Tells the bytes that are held of a page.
fn answer_held(cache: &mut PageCache, call: &CallWords<'_>, out: &mut Transcript) {
    let held = match cache.find(number_in(call.first)) {
        Some(slot) => cache.lend(slot),
        None => None,
    };
    match held {
        Some(page) => call.answer_bytes(out, page.bytes()),
        None => call.answer(out, "none"),
    }
}
