//! Who holds the writer lock, and what a session sees of the definitions and the records.

ghost use Rattle.std.specs.Prelude.{◌≡◌};
ghost use Rattle.std.specs.Option.{option_copied};
ghost use Rattle.sessions.specs.Writers.{is_lock_of, is_lock_of_other, definitions_seen};
ghost use Rattle.sessions.specs.Visible.{lists_seen};

use catalogue::definitions::Catalogue;
use server::writer::Writer;
use store::Batch;

/// Whether the session of this number holds the writer lock.
pub fn holds_lock(writer: &Option<Writer>, number: u64) -> bool
    ensures { result ≡ is_lock_of number writer.now }
{
    match writer {
        Some(writer) => writer.session == number,
        None => false,
    }
}

/// Whether a session of another number holds it.
pub fn other_holds_lock(writer: &Option<Writer>, number: u64) -> bool
    ensures { result ≡ is_lock_of_other number writer.now }
{
    match writer {
        Some(writer) => writer.session != number,
        None => false,
    }
}

/// The definitions that a session sees, lent: those under its own changes if it holds the writer
/// lock, and else the committed ones.
pub fn seen_catalogue<'a>(
    writer: &'a Option<Writer>,
    committed: &'a Catalogue,
    number: u64,
) -> &'a Catalogue
    ensures { result.now ≡ definitions_seen number writer.now committed.now }
{
    match writer {
        Some(writer) if writer.session == number => match &writer.catalogue {
            Some(catalogue) => catalogue,
            None => committed,
        },
        _ => committed,
    }
}

/// The changes under which a session sees the records, lent, or `None` where it sees the committed
/// ones.
pub fn lists_seen<'a>(writer: &'a Option<Writer>, number: u64) -> Option<&'a [Batch]>
    ensures { option_copied result ≡ lists_seen number writer.now }
{
    match writer {
        Some(writer) if writer.session == number => Some(writer.lists.as_slice()),
        _ => None,
    }
}
