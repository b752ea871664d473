//! What is read of a source before its records are copied.

ghost use Rattle.std.specs.Prelude.{◌≡◌, IfErr, IfOk};
ghost use Rattle.store.specs.Readers.{HasRead};
ghost use Rattle.store.specs.Store.{stored};
ghost use Rattle.abstract_database.specs.Database.{Database};
ghost use Rattle.stored_database.specs.BothRecordFormats.{Stands};
ghost use Rattle.copies.specs.DatabaseCopies.{IsRead};

use recovery::{migration_lists, read_under};
use sql_types::items::Items;
use std::alloc::Global;
use store::{Batch, Fault, Store};

/// The lists of changes that spell the records of a store in record format 2, none where they have it. All definitions
/// and all rows are read and checked. The store is only read.
///
/// Device: the store answered it. Damaged: the contents stand for no database.
pub fn read_source<S: Store>(alloc: Global, store: &mut S) -> Result<Items<Batch>, Fault>
    ensures preserved { S.preserved store.old store.new }
    ensures read { HasRead result (S.state store.old) (S.state store.new) }
    ensures found { (S.state store.old).sound
        → IfOk result (λ lists. IsRead (stored (S.state store.old)) lists) }
    ensures damaged { (S.state store.old).sound → (db : Database)
        → Stands (stored (S.state store.old)) db → IfErr result (λ fault. fault ≡ Fault.Damaged → ⊥) }
{
    let lists = match migration_lists(alloc, store) {
        Ok(lists) => lists,
        Err(fault) => return Err(fault),
    };
    match read_under(alloc, store, lists.as_slice()) {
        Ok(_catalogue) => Ok(lists),
        Err(fault) => Err(fault),
    }
}
