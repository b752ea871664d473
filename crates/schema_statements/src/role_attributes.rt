//! The attributes of a new role (PostgreSQL manual, CREATE ROLE).

ghost use Rattle.std.specs.Prelude.{◌≡◌, fold};
ghost use Rattle.abstract_database.specs.Definitions.{with_attribute, no_attributes};

use sql_ast::role::{RoleAttribute, RoleAttributes};

/// The attributes that a role of these written ones has: none that is not written, and of two that
/// are contrary the last.
pub(crate) fn attributes_of(written: &[RoleAttribute]) -> RoleAttributes
    ensures { result ≡ fold with_attribute no_attributes written.now }
{
    let mut attributes = RoleAttributes {
        superuser: false,
        login: false,
        bypass_rls: false,
    };
    for attribute in written {
        set_attribute(&mut attributes, *attribute);
    }
    attributes
}

// Sets the attribute that is written, or clears it.
fn set_attribute(attributes: &mut RoleAttributes, written: RoleAttribute)
    ensures { attributes.new ≡ with_attribute attributes.old written }
{
    match written {
        RoleAttribute::Superuser => attributes.superuser = true,
        RoleAttribute::NoSuperuser => attributes.superuser = false,
        RoleAttribute::Login => attributes.login = true,
        RoleAttribute::NoLogin => attributes.login = false,
        RoleAttribute::BypassRls => attributes.bypass_rls = true,
        RoleAttribute::NoBypassRls => attributes.bypass_rls = false,
    }
}
