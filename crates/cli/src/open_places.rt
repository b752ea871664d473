//! What is told of places where no passwords are asked for.

ghost use Rattle.std.specs.Prelude.{◌≡◌, OnOk};
ghost use Rattle.std.specs.Io.KnownBytes.{Appends};
ghost use Rattle.cli.specs.OpenPlaces.{open_line, open_lines, open_port, port_of};

use crate::served_place::{NamedPlace, PlaceDoor, ServedPlace};
use std::io;
use std::io::Write;
use systems::ListenPlace;

/// Tells of each of these places that is a port which lets in anyone, and of which that is to be told, that
/// no passwords are asked for there, in their order.
pub(crate) fn tell_open<E: Write>(places: &[NamedPlace<'_>], err: &mut E) -> io::Result<()>
    ensures { OnOk result (Appends (E.contents err.old) (E.contents err.new) (open_lines places.now)) }
{
    let mut rest = places;
    while let [place, after @ ..] = rest {
        tell_if_open(place.served, err)?;
        rest = after;
    }
    Ok(())
}

// Tells it of one place, if it is such a port.
fn tell_if_open<E: Write>(served: ServedPlace<'_>, err: &mut E) -> io::Result<()>
    ensures { OnOk result (Appends (E.contents err.old) (E.contents err.new) (open_line served.entry)) }
{
    match open_port(served) {
        Some(port) => writeln!(
            err,
            "guarddb: no passwords are asked for at 127.0.0.1:{port}"
        ),
        None => Ok(()),
    }
}

// The number of a port that lets in anyone, where that is to be told.
fn open_port(served: ServedPlace<'_>) -> Option<u16>
    ensures { result ≡ open_port served.entry }
{
    if !served.tells_open {
        return None;
    }
    match served.door {
        PlaceDoor::Anyone => port_of(served.place),
        _ => None,
    }
}

fn port_of(place: ListenPlace<'_>) -> Option<u16>
    ensures { result ≡ port_of place.entry }
{
    match place {
        ListenPlace::Port(port) => Some(port),
        _ => None,
    }
}
