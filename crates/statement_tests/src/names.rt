//! Names of roles, tables and columns.

use anyhow::{Result, bail};
use sql_types::name::Name;
use std::alloc::Global;

/// The name that a text is.
pub fn name_of(alloc: Global, text: &str) -> Result<Name> {
    match Name::from_str(alloc, text)? {
        Some(name) => Ok(name),
        None => bail!("a text is no name"),
    }
}
