//! The places where a server listens, as they are bound.

ghost use Rattle.std.specs.Prelude.{◌≡◌, IfOk};
ghost use Rattle.cli.specs.OpenPlaces.{named_by_itself};
ghost use Rattle.cli.specs.Program.{bound_place, bound_places};

use crate::served_place::{NamedPlace, ServedPlace};
use std::alloc::{AllocError, Global};
use systems::{ListenPlace, OnePlace};

/// One place by itself.
pub(crate) fn by_itself(served: ServedPlace<'_>) -> NamedPlace<'_>
    ensures { result ≡ named_by_itself served.entry }
{
    NamedPlace {
        served,
        no_superuser: false,
    }
}

/// These places at once.
pub(crate) fn each_of<'a, 'b: 'a>(places: &'a [OnePlace<'b>]) -> ListenPlace<'a>
    ensures { result ≡ ListenPlace.Each places.entry }
{
    ListenPlace::Each(places)
}

/// The places that are to be bound, in their order.
pub(crate) fn bound_places<'a>(
    alloc: Global,
    places: &[NamedPlace<'a>],
) -> Result<Vec<OnePlace<'a>>, AllocError>
    ensures { IfOk result (λ bound. bound.items ≡ bound_places places.now) }
{
    let mut bound = Vec::new(alloc);
    for named in places {
        bound.push(bound_place(named.served))?;
    }
    Ok(bound)
}

// One of several places, as it is to be bound; several are not one of them.
fn bound_place(served: ServedPlace<'_>) -> OnePlace<'_>
    ensures { result ≡ bound_place served.entry }
{
    match served.place {
        ListenPlace::Port(port) => OnePlace::Port(port),
        ListenPlace::Socket(path) => OnePlace::Socket(path, served.access),
        ListenPlace::PostgresFolder(folder) => OnePlace::PostgresFolder(folder, served.access),
        ListenPlace::Each(_) => OnePlace::Port(0),
    }
}
