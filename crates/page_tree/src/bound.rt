//! What bounds the keys of a leaf.
ghost use Rattle.std.specs.Prelude.{◌≡◌, ◌↔◌, List, ℕ, Option, IsTrue, OnOk, true};
ghost use Rattle.page_tree.specs.Forest.{IsUnder};

use page_nodes::is_less;
use std::alloc::AllocError;

/// A key that all keys of a tree come before, if there is one.
#[derive(Drop)]
pub struct KeyBound {
    pub(crate) is_set: bool,
    pub(crate) key: Vec<u8>,
}

impl KeyBound {
    ghost use Rattle.page_tree.specs.Bounds.{IsBound};

    /// Takes the bound away.
    pub(crate) fn clear(&mut self)
        ensures { IsBound self.new None }
    {
        self.is_set = false;
    }

    /// Sets the bound to a key. Err: an allocation failed, and nothing is known of the bound.
    pub(crate) fn set(&mut self, key: &[u8]) -> Result<(), AllocError>
        ensures { OnOk result (IsBound self.new (Some key.now)) }
    {
        self.key.clear();
        self.key.extend_from_slice(key)?;
        self.is_set = true;
        Ok(())
    }

    /// Whether a key comes before the bound.
    pub(crate) fn is_above(&self, key: &[u8]) -> bool
        ensures { (high : Option (List ℕ)) → IsBound self.now high
            → (IsTrue result ↔ IsUnder key.now high) }
    {
        !self.is_set || is_less(key, &self.key)
    }
}
