//! What descriptors have in common.
ghost use Rattle.std.specs.Prelude.{◌≡◌};
ghost use Rattle.std.specs.Option.{option_map};
ghost use Rattle.abstract_database.specs.Database.{action_number as number_of};
ghost use Rattle.grant_graph.specs.Keys.{grantor_role as role_of_grantor, grantee_role as role_of_grantee, key_of, lent_key, now_of};

use sql_ast::privilege::{Action, Descriptor, Grantee, Grantor};

/// A role, if any, with a table, the number of an action, and the index of a column or `None` for the whole table.
pub(crate) type Right<'a> = (Option<&'a str>, &'a str, u8, Option<usize>);

/// A descriptor, its grant option aside: its table, the number of its action, its column, and the names of its grantor and its
/// grantee. The system and PUBLIC have the empty name.
pub(crate) type Key<'a> = (&'a str, u8, Option<usize>, &'a str, &'a str);

/// The number of an action.
pub fn action_number(action: Action) -> u8
    ensures { result ≡ number_of action }
{
    match action {
        Action::Select => 1,
        Action::Insert => 2,
        Action::Update => 3,
        Action::Delete => 4,
    }
}

/// The role that granted, if it is one.
pub(crate) fn grantor_role(grantor: &Grantor) -> Option<&str>
    ensures { option_map now_of result ≡ role_of_grantor grantor.now }
{
    match grantor {
        Grantor::System => None,
        Grantor::Role(name) => Some(name.as_str()),
    }
}

/// The role that is granted to, if it is one.
pub(crate) fn grantee_role(grantee: &Grantee) -> Option<&str>
    ensures { option_map now_of result ≡ role_of_grantee grantee.now }
{
    match grantee {
        Grantee::Public => None,
        Grantee::Role(name) => Some(name.as_str()),
    }
}

/// The key of a descriptor.
pub(crate) fn key(descriptor: &Descriptor) -> Key<'_>
    ensures { lent_key result ≡ key_of descriptor.now }
{
    let by = match &descriptor.grantor {
        Grantor::System => "",
        Grantor::Role(name) => name.as_str(),
    };
    let to = match &descriptor.grantee {
        Grantee::Public => "",
        Grantee::Role(name) => name.as_str(),
    };
    (
        descriptor.table.as_str(),
        action_number(descriptor.action),
        descriptor.column,
        by,
        to,
    )
}
