//! How far a dump is read or written.

ghost use Rattle.std.specs.Prelude.{◌≡◌, ◌≤◌, ◌<◌, ◌+◌, ◌^◌, ◌++◌, ℕ, List};
ghost use Rattle.sha2.specs.Hashers.{Holds256};

use sha2::{Digest, Sha256};

/// How far a dump is read or written: up to this page, with so many lists, and with a hasher that was fed all bytes before.
#[derive(Drop)]
pub struct DumpPlace {
    pub(crate) page: u32,
    pub(crate) lists: u64,
    pub(crate) hasher: Sha256,
    ghost behind: { lists < page },
}

impl DumpPlace {
    /// The place behind the head, whose bytes these are.
    pub(crate) fn behind_head(head: &[u8]) -> DumpPlace
        ensures page { result.page ≡ 1 }
        ensures lists { result.lists ≡ 0 }
        ensures hashed { Holds256 result.hasher head.now }
    {
        let mut hasher = Sha256::new();
        hasher.update(head);
        DumpPlace {
            page: 1,
            lists: 0,
            hasher,
        }
    }

    /// Goes on behind the block of a list, which has so many pages.
    pub(crate) fn go_on(&mut self, block: &[u8], pages: u32)
        requires some { 1 ≤ pages }
        requires fits { self.old.page + pages < 2 ^ 32 }
        ensures page { self.new.page ≡ self.old.page + pages }
        ensures lists { self.new.lists ≡ self.old.lists + 1 }
        ensures hashed { (before : List ℕ) → Holds256 self.old.hasher before
            → Holds256 self.new.hasher (before ++ block.now) }
    {
        self.hasher.update(block);
        self.page += pages;
        self.lists += 1;
    }

    /// How many pages were read or written.
    pub fn pages(&self) -> u64
        ensures { result ≡ self.now.page }
    {
        u64::from(self.page)
    }
}
