//! Items of which bytes hold several, one after the other.

ghost use Rattle.std.specs.Prelude.{◌≡◌, ℕ, List, flat_map};
ghost use Rattle.sql_types.specs.Name.{IsUtf8Name};
ghost use Rattle.catalogue_loading.specs.Decoding.{DecodesFront};
ghost use Rattle.catalogue_loading.specs.RecordParts.{AreParts};

use crate::bytes::name_at;
use sql_types::items::Items;
use sql_types::name::Name;
use std::alloc::Global;
use store::Fault;

/// What bytes hold several of, one after the other.
pub trait RecordPart {
    /// What the bytes spell.
    type Item: Drop;

    /// The item is one that a database may have.
    ghost IsValid: { Self.Item → Type 0 };

    /// The bytes of an item.
    ghost spell: { Self.Item → List ℕ };

    /// The item with whose bytes these begin, and the bytes after it. Damaged: they begin with no
    /// item.
    fn read<'a>(alloc: Global, bytes: &'a [u8]) -> Result<(Self::Item, &'a [u8]), Fault>
        ensures { DecodesFront IsValid spell bytes.now result };
}

/// Names, each before a zero byte.
#[derive(Drop)]
pub struct EndedName;

impl RecordPart for EndedName {
    type Item = Name;

    ghost use Rattle.sql_types.specs.Name.{IsUtf8Name};
    ghost use Rattle.stored_database.specs.RecordFormat.{ended};

    ghost IsValid = { IsUtf8Name };

    ghost spell = { ended };

    fn read<'a>(alloc: Global, bytes: &'a [u8]) -> Result<(Name, &'a [u8]), Fault> {
        name_at(alloc, bytes)
    }
}

/// So many items with which these bytes begin, and the bytes after them. Damaged: they do not begin
/// with so many items.
pub fn parts_at<'a, P: RecordPart>(
    alloc: Global,
    count: u8,
    bytes: &'a [u8],
) -> Result<(Items<P::Item>, &'a [u8]), Fault>
    ensures { DecodesFront (AreParts P.IsValid count) (flat_map P.spell) bytes.now result }
{
    let mut items = Items::new(alloc);
    let mut rest = bytes;
    for _ in 0..count {
        match P::read(alloc, rest) {
            Ok((item, after)) => {
                items.push(item)?;
                rest = after;
            }
            Err(fault) => return Err(fault),
        }
    }
    Ok((items, rest))
}
