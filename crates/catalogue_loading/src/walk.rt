//! Walks over the records of one kind.

ghost use Rattle.std.specs.Prelude.{◌≡◌, List};
ghost use Rattle.store.specs.Records.{Record};
ghost use Rattle.store.specs.Readers.{HasRead};
ghost use Rattle.store.specs.Store.{StoreState};
ghost use Rattle.catalogue_loading.specs.Decoding.{Decodes};
ghost use Rattle.catalogue_loading.specs.Walks.{LoadsItems, MovesOn};

use sql_types::items::Items;
use std::alloc::Global;
use store::{Cursor, Entry, Fault, Map};

/// A reader of the records of one kind, or of those of one kind for one table.
pub trait ItemReader {
    /// What the records spell.
    type Item: Drop;

    /// The item by itself is one that a database may have.
    ghost IsValid: { Self → Self.Item → Type 0 };

    /// The record of an item.
    ghost spell: { Self → Self.Item → Record };

    /// The item that this record spells. Damaged: it spells none.
    fn read(&self, alloc: Global, entry: &Entry) -> Result<Self::Item, Fault>
        ensures { Decodes (IsValid self.now) (spell self.now) entry.now result };
}

// The item of the next record, or `None` where no record is left.
fn next_item<M: Map, R: ItemReader>(
    alloc: Global,
    map: &mut M,
    cursor: &mut Cursor,
    reader: &R,
) -> Result<Option<R::Item>, Fault>
    ensures preserved { M.preserved map.old map.new }
    ensures read { HasRead result (M.state map.old) (M.state map.new) }
    ensures moved { (M.state map.old).sound
        → MovesOn (R.IsValid reader.now) (R.spell reader.now) result
        cursor.old cursor.new (M.state map.old).map }
{
    match cursor.advance(map) {
        Ok(true) => {}
        Ok(false) => return Ok(None),
        Err(fault) => return Err(Fault::from(fault)),
    }
    match reader.read(alloc, cursor.entry()) {
        Ok(item) => Ok(Some(item)),
        Err(fault) => Err(fault),
    }
}

/// The items of all records whose keys begin with this prefix, in the order of their keys. Device:
/// the map answered it. Damaged: one of the records spells no item.
pub fn load_items<M: Map, R: ItemReader>(
    alloc: Global,
    map: &mut M,
    prefix: &[u8],
    reader: &R,
) -> Result<Items<R::Item>, Fault>
    ensures preserved { M.preserved map.old map.new }
    ensures read { HasRead result (M.state map.old) (M.state map.new) }
    ensures loaded { (M.state map.old).sound
        → LoadsItems (R.IsValid reader.now) (R.spell reader.now) (M.state map.old).map
        prefix.now result }
{
    let mut cursor = Cursor::over(alloc, prefix)?;
    let mut items = Items::new(alloc);
    for _ in 0..u64::MAX {
        match next_item(alloc, map, &mut cursor, reader) {
            Ok(Some(item)) => items.push(item)?,
            Ok(None) => return Ok(items),
            Err(fault) => return Err(fault),
        }
    }
    Err(Fault::Memory)
}
