//! How a server over a file ended, and what that is about.

ghost use Rattle.std.specs.Prelude.{◌≡◌};
ghost use Rattle.cli.specs.Program.{IsAboutPlace, ending_of_server, outcome_of_clients, place_subject, server_subject};

use crate::ending::{Ending, Subject};
use crate::fault::CommandFault;
use systems::{ListenPlace, OnePlace};
use talks::clients::Finish;
use talks::serving::ServeEnd;
use wire::listener::Served;

/// How a server of many clients ended.
pub(crate) fn outcome_of_clients(
    outcome: Result<ServeEnd, CommandFault>,
) -> Result<Served, CommandFault>
    ensures { result ≡ outcome_of_clients outcome }
{
    match outcome {
        Ok(ServeEnd::Ended(Finish::Stopped)) => Ok(Served::Stopped),
        Ok(ServeEnd::Ended(Finish::Net)) => Ok(Served::Net),
        Ok(ServeEnd::Ended(Finish::Done | Finish::LookLimit) | ServeEnd::TurnLimit) => {
            Ok(Served::Done)
        }
        Err(fault) => Err(fault),
    }
}

/// How a server over a file ended.
pub(crate) fn end_of_server(outcome: Result<Served, CommandFault>) -> Ending
    ensures { result ≡ ending_of_server outcome }
{
    match outcome {
        Ok(served) => Ending::from(served),
        Err(fault) => Ending::Fault(fault),
    }
}

/// What the end of a server is about: the file, where it was not opened, else the place.
pub(crate) fn subject_of_server<'a>(
    outcome: Result<Served, CommandFault>,
    file: &'a str,
    place: ListenPlace<'a>,
) -> Subject<'a>
    ensures { result ≡ server_subject (Subject.Named file.entry) place.entry outcome }
{
    match outcome {
        Ok(_) | Err(CommandFault::Net(_)) => subject_of_place(place),
        Err(_) => Subject::Named(file),
    }
}

fn subject_of_place(place: ListenPlace<'_>) -> Subject<'_>
    ensures { result ≡ place_subject place.entry }
{
    match place {
        ListenPlace::Port(port) => Subject::Port(port),
        ListenPlace::Socket(path) => Subject::Named(path),
        ListenPlace::PostgresFolder(folder) => Subject::PostgresFolder(folder),
        // No message is about several places at once.
        ListenPlace::Each(_) => Subject::Port(0),
    }
}

/// The place that a message is about: of several one, which is that of this index, or the first.
pub(crate) fn place_told(place: ListenPlace<'_>, index: usize) -> ListenPlace<'_>
    ensures { IsAboutPlace place.entry result }
{
    match place {
        ListenPlace::Each(places) => match places.get(index) {
            Some(one) => (*one).alone(),
            None => first_of(place, places),
        },
        _ => place,
    }
}

// The first of several places, if there is one.
fn first_of<'a>(each: ListenPlace<'a>, places: &'a [OnePlace<'a>]) -> ListenPlace<'a>
    requires { each ≡ ListenPlace.Each places }
    ensures { IsAboutPlace each.entry result }
{
    match places.first() {
        Some(one) => (*one).alone(),
        None => each,
    }
}
