//! Changes of the privilege descriptors of a table, as data.

ghost use Rattle.std.specs.Prelude.{◌≡◌};
ghost use Rattle.abstract_database.specs.Whole.{Each};
ghost use Rattle.catalogue.specs.Descriptors.{IsForTable};

use sql_ast::privilege::Descriptor;
use sql_types::items::Items;
use sql_types::name::Name;
use std::marker::Model;

/// A change of the privilege descriptors of the table of a name: some go, whatever their grant options,
/// and others come for it after that, each in place of the one of its action, column, grantor and
/// grantee. Contracts see it as a `DescriptorsChanged`.
#[derive(Drop)]
pub struct DescriptorChange {
    table: Name,
    removed: Items<Descriptor>,
    added: Items<Descriptor>,
}

impl Model for DescriptorChange {
    ghost use Rattle.abstract_database.specs.Whole.{Each};
    ghost use Rattle.catalogue.specs.Descriptors.{DescriptorsChanged, IsForTable};

    ghost Value = { DescriptorsChanged };

    ghost view = { λ c. record { table = c.table; removed = c.removed; added = c.added } };

    ghost invariant = { λ c. Each (IsForTable c.table) c.added };
}

impl DescriptorChange {
    /// The change by which these go from the table of this name, and then those come.
    pub fn new(
        table: Name,
        removed: Items<Descriptor>,
        added: Items<Descriptor>,
    ) -> DescriptorChange
        requires { Each (IsForTable table) added }
        ensures { result ≡ record { table = table; removed = removed; added = added } }
    {
        DescriptorChange {
            table,
            removed,
            added,
        }
    }

    /// The name of the table, lent.
    pub fn table(&self) -> &Name
        ensures { result.now ≡ self.now.table }
    {
        &self.table
    }

    /// The privilege descriptors that go, lent.
    pub fn removed(&self) -> &[Descriptor]
        ensures { result.now ≡ self.now.removed }
    {
        self.removed.as_slice()
    }

    /// The privilege descriptors that come, lent.
    pub fn added(&self) -> &[Descriptor]
        ensures added { result.now ≡ self.now.added }
        ensures own { Each (IsForTable self.now.table) self.now.added }
    {
        self.added.as_slice()
    }

    /// The privilege descriptors that go and those that come, in their memory.
    pub(crate) fn into_lists(self) -> (Items<Descriptor>, Items<Descriptor>)
        ensures removed { result.0 ≡ self.removed }
        ensures added { result.1 ≡ self.added }
        ensures own { Each (IsForTable self.table) self.added }
    {
        let DescriptorChange {
            table: _,
            removed,
            added,
        } = self;
        (removed, added)
    }
}
