//! Who may open a session.

ghost use Rattle.std.specs.Prelude.{◌≡◌};
ghost use Rattle.served_machine.specs.Entries.{is_way_of};

use talks::want::Way;

/// Whether a way of entry admits the role of this name. No table of passwords is asked yet, so that way
/// admits none.
pub(crate) fn is_way_of(way: &Way, login: &str) -> bool
    ensures { result ≡ is_way_of way.now login.now }
{
    match way {
        Way::Anyone => true,
        Way::Only(name) => name.as_str() == login,
        Way::ByTable(_) => false,
    }
}
