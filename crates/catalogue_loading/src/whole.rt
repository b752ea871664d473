//! The definitions of a whole database.

ghost use Rattle.std.specs.Prelude.{◌≡◌};
ghost use Rattle.store.specs.Store.{StoreState};
ghost use Rattle.store.specs.Readers.{HasRead};
ghost use Rattle.catalogue_loading.specs.Recorded.{LoadsCatalogue};

use crate::definitions::read_definitions;
use crate::validity::are_valid;
use catalogue::definitions::Catalogue;
use expr_parser::laws::one_answer;
use std::alloc::{AllocError, Global};
use store::{Fault, Map};

/// The definitions of the database that the records of a map stand for, with a number for each
/// table. Whether the records of rows are those of its tables is not looked at.
///
/// Device: the map answered it. Damaged: the records define nothing: one of them is none that a
/// database writes, or what they say together is the definitions of no whole database.
pub fn load<M: Map>(alloc: Global, map: &mut M) -> Result<Catalogue, Fault>
    ensures preserved { M.preserved map.old map.new }
    ensures read { HasRead result (M.state map.old) (M.state map.new) }
    ensures loaded { (M.state map.old).sound → LoadsCatalogue result (M.state map.old).map }
{
    // For the proof: a text has one reading.
    one_answer();
    let catalogue = match read_definitions(alloc, map) {
        Ok(catalogue) => catalogue,
        Err(fault) => return Err(fault),
    };
    match are_valid(alloc, &catalogue) {
        Ok(true) => Ok(catalogue),
        Ok(false) => Err(Fault::Damaged),
        Err(AllocError) => Err(Fault::Memory),
    }
}
