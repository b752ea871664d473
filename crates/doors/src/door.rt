//! Whom a place lets in.

ghost use Rattle.std.specs.Prelude.{◌≡◌, IfOk};
ghost use Rattle.doors.specs.Doors.{admits};

use sql_types::name::Name;
use sql_types::try_copy::TryCopy;
use std::alloc::{AllocError, Global};

/// Whom a place lets in.
#[derive(Drop)]
pub enum Door {
    /// Anyone, as any role.
    Anyone,
    /// Whoever may come there, as this role and as no other.
    Only(Name),
}

impl Door {
    /// Whether one may come in as the role that is named so, letter for letter.
    pub fn admits(&self, role: &str) -> bool
        ensures { result ≡ admits self.now role.now }
    {
        match self {
            Door::Anyone => true,
            Door::Only(name) => name.as_str() == role,
        }
    }
}

impl TryCopy for Door {
    fn try_copy(&self, alloc: Global) -> Result<Door, AllocError> {
        match self {
            Door::Anyone => Ok(Door::Anyone),
            Door::Only(name) => Ok(Door::Only(name.try_copy(alloc)?)),
        }
    }
}
