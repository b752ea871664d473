//! The memory that a change of the privilege descriptors of a table needs.

ghost use Rattle.std.specs.Prelude.{◌≡◌, IfOk};
ghost use Rattle.catalogue.specs.Rooms.{HasRoomFor};
ghost use Rattle.catalogue.specs.Descriptors.{IsForTable, descriptors_after};
ghost use Rattle.catalogue.specs.Grants.{IsIndexOf};
ghost use Rattle.abstract_database.specs.Lists.{Rising};
ghost use Rattle.abstract_database.specs.Database.{descriptor_cmp};
ghost use Rattle.abstract_database.specs.Whole.{Each};

use crate::descriptor_change::DescriptorChange;
use crate::descriptor_edit::{add_each, move_kept, move_left, put_each};
use crate::grants::{GrantIndex, Granted, entries};
use sql_ast::privilege::Descriptor;
use sql_types::items::Items;
use std::alloc::{AllocError, Global};

/// Room for the privilege descriptors of a table after a change of them, and for what they give.
#[derive(Drop)]
pub(crate) struct Reservation {
    // Where the descriptors are to stand.
    descriptors: Vec<Descriptor>,
    // Where the entries of their index are to stand.
    granted: Vec<Granted>,
    // The entries of the descriptors that come.
    entries: Vec<Granted>,
}

impl Reservation {
    /// No room.
    pub(crate) fn none(alloc: Global) -> Reservation {
        Reservation {
            descriptors: Vec::new(alloc),
            granted: Vec::new(alloc),
            entries: Vec::new(alloc),
        }
    }

    /// Where its memory was taken from.
    pub(crate) fn allocator(&self) -> Global {
        *self.descriptors.allocator()
    }

    /// Room for a change of these descriptors.
    pub(crate) fn new(
        alloc: Global,
        descriptors: &[Descriptor],
        change: &DescriptorChange,
    ) -> Result<Reservation, AllocError>
        ensures { IfOk result (HasRoomFor change.now descriptors.now) }
    {
        let added = change.added();
        let entries = entries(alloc, added)?;
        let most = descriptors.len() + added.len();
        let descriptors = Vec::with_capacity(alloc, most)?;
        let granted = Vec::with_capacity(alloc, most)?;
        Ok(Reservation {
            descriptors,
            granted,
            entries,
        })
    }
}

/// Descriptors and the index of them after a change, in the memory that was taken for it.
pub(crate) fn changed(
    descriptors: Items<Descriptor>,
    index: GrantIndex,
    change: DescriptorChange,
    reservation: Reservation,
) -> (Items<Descriptor>, GrantIndex)
    requires order { Rising descriptor_cmp descriptors }
    requires index { IsIndexOf descriptors index }
    requires reservation { HasRoomFor change descriptors reservation }
    ensures descriptors { result.0 ≡ descriptors_after change descriptors }
    ensures order { Rising descriptor_cmp result.0 }
    ensures index { IsIndexOf result.0 result.1 }
    ensures own { Each (IsForTable change.table) change.added }
{
    let Reservation {
        descriptors: mut all,
        mut granted,
        entries,
    } = reservation;
    let (removed, added) = change.into_lists();
    move_kept(descriptors.into_vec(), removed.as_slice(), &mut all);
    move_left(
        index.into_vec(),
        removed.as_slice(),
        all.as_slice(),
        &mut granted,
    );
    put_each(&mut all, added.into_vec());
    add_each(&mut granted, entries);
    (Items::from_vec(all), GrantIndex::from_vec(granted))
}
