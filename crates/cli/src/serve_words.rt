//! The words after `serve`.

ghost use Rattle.std.specs.Prelude.{◌≡◌, Some, None, IfOk, IfErr, codes};
ghost use Rattle.clap.specs.Words.{first_of, found_of, rows_of};
ghost use Rattle.cli.specs.CommandLine.{AtPort, AtSocket, AreCountsGiven, GivesAs, HasNoClients, IsNoCount, IsNoNumber, IsOrdered, IsSomeNumber, IsUnfit, Serve, ServeClients, ServeSocket, given_counts, lent_word};

use crate::command::{Invocation, UsageFault, is_socket_path, read_number};
use crate::number::NumberOption;
use crate::place_words::read_at;
use crate::serve_clients::ManyClients;
use crate::served_place::{PlaceDoor, Protocol, ServedPlace};
use crate::several_places::{admits_no_superuser, read_each_at};
use clap::ArgMatches;
use std::alloc::Global;
use systems::{ListenPlace, SocketAccess};

/// The words for the numbers of a server of many clients.
#[derive(Clone, Copy)]
pub(crate) struct CountWords<'a> {
    pub(crate) clients: &'a str,
    pub(crate) connections: Option<&'a str>,
    pub(crate) wait: Option<&'a str>,
    pub(crate) idle: Option<&'a str>,
    pub(crate) block: Option<&'a str>,
}

/// After how many seconds one ends that holds the writer lock while another wants it, where that is not
/// said.
const BLOCK_SECONDS: u32 = 30;

/// The order that the words after `serve` give.
pub(crate) fn read_serve<'a>(
    alloc: Global,
    given: &ArgMatches<'a>,
) -> Result<Invocation<'a>, UsageFault<'a>>
    ensures asked { IfOk result (IsOrdered (GivesAs (codes "serve") (rows_of (found_of given.now)))) }
    ensures refused { IfErr result (IsUnfit (GivesAs (codes "serve") (rows_of (found_of given.now)))) }
{
    let Some(places) = given.get_strs("at") else {
        return read_there(given);
    };
    let [first, others @ ..] = places else {
        return read_there(given);
    };
    if others.is_empty() && !admits_no_superuser(*first) {
        return read_at(given, *first);
    }
    read_each_at(alloc, given, places)
}

// The order that the words after `serve` give without `--at`.
fn read_there<'a>(given: &ArgMatches<'a>) -> Result<Invocation<'a>, UsageFault<'a>>
    requires { first_of (codes "at") (rows_of (found_of given.now)) ≡ None }
    ensures asked { IfOk result (IsOrdered (GivesAs (codes "serve") (rows_of (found_of given.now)))) }
    ensures refused { IfErr result (IsUnfit (GivesAs (codes "serve") (rows_of (found_of given.now)))) }
{
    match given.get_str("clients") {
        Some(clients) => read_many(given, clients),
        None => read_sequential(given),
    }
}

// The order that the words after `serve` give without `--at` and `--clients`.
fn read_sequential<'a>(given: &ArgMatches<'a>) -> Result<Invocation<'a>, UsageFault<'a>>
    requires clients { first_of (codes "clients") (rows_of (found_of given.now)) ≡ None }
    requires at { first_of (codes "at") (rows_of (found_of given.now)) ≡ None }
    ensures asked { IfOk result (IsOrdered (GivesAs (codes "serve") (rows_of (found_of given.now)))) }
    ensures refused { IfErr result (IsUnfit (GivesAs (codes "serve") (rows_of (found_of given.now)))) }
{
    match given.get_str("wait") {
        Some(_) => Err(UsageFault::Serving),
        None => read_unblocked(given),
    }
}

// The order that the words after `serve` give with none of `--at`, `--clients` and `--wait`.
fn read_unblocked<'a>(given: &ArgMatches<'a>) -> Result<Invocation<'a>, UsageFault<'a>>
    requires clients { first_of (codes "clients") (rows_of (found_of given.now)) ≡ None }
    requires at { first_of (codes "at") (rows_of (found_of given.now)) ≡ None }
    requires wait { first_of (codes "wait") (rows_of (found_of given.now)) ≡ None }
    ensures asked { IfOk result (IsOrdered (GivesAs (codes "serve") (rows_of (found_of given.now)))) }
    ensures refused { IfErr result (IsUnfit (GivesAs (codes "serve") (rows_of (found_of given.now)))) }
{
    match given.get_str("block") {
        Some(_) => Err(UsageFault::Serving),
        None => read_each(given),
    }
}

// The order that the words after `serve` give with none of `--at`, `--clients`, `--wait` and `--block`.
fn read_each<'a>(given: &ArgMatches<'a>) -> Result<Invocation<'a>, UsageFault<'a>>
    requires { HasNoClients (rows_of (found_of given.now)) }
    ensures asked { IfOk result (IsOrdered (GivesAs (codes "serve") (rows_of (found_of given.now)))) }
    ensures refused { IfErr result (IsUnfit (GivesAs (codes "serve") (rows_of (found_of given.now)))) }
{
    let Some(file) = given.get_str("file") else {
        return Err(UsageFault::Serving);
    };
    let Some(count) = given.get_str("connections") else {
        return Err(UsageFault::Serving);
    };
    let limit = given.get_str("idle");
    let Some(port) = given.get_str("port") else {
        let Some(socket) = given.get_str("socket") else {
            return Err(UsageFault::Serving);
        };
        return serve_on_socket(file, socket, count, limit);
    };
    if given.get_str("socket").is_some() {
        return Err(UsageFault::Serving);
    }
    serve_on_port(file, port, count, limit)
}

// The order to serve so many connections on a port.
fn serve_on_port<'a>(
    file: &'a str,
    port_word: &'a str,
    count_word: &'a str,
    limit: Option<&'a str>,
) -> Result<Invocation<'a>, UsageFault<'a>>
    ensures asked { IfOk result (IsOrdered (λ given. given
        ≡ Serve file.now port_word.now count_word.now (lent_word limit.entry))) }
    ensures refused { IfErr result (IsUnfit (λ given. given
        ≡ Serve file.now port_word.now count_word.now (lent_word limit.entry))) }
{
    let port = read_number(NumberOption::Port, port_word)?;
    let connections = read_number(NumberOption::Connections, count_word)?;
    let idle = read_some(NumberOption::Idle, limit)?;
    Ok(Invocation::Serve {
        file,
        port: port as u16,
        connections,
        idle,
    })
}

// The order to serve so many connections on a socket.
fn serve_on_socket<'a>(
    file: &'a str,
    socket: &'a str,
    count_word: &'a str,
    limit: Option<&'a str>,
) -> Result<Invocation<'a>, UsageFault<'a>>
    ensures asked { IfOk result (IsOrdered (λ given. given
        ≡ ServeSocket file.now socket.now count_word.now (lent_word limit.entry))) }
    ensures refused { IfErr result (IsUnfit (λ given. given
        ≡ ServeSocket file.now socket.now count_word.now (lent_word limit.entry))) }
{
    if !is_socket_path(socket) {
        return Err(UsageFault::Path(socket));
    }
    let connections = read_number(NumberOption::Connections, count_word)?;
    let idle = read_some(NumberOption::Idle, limit)?;
    Ok(Invocation::ServeSocket {
        file,
        socket,
        connections,
        idle,
    })
}

// The order that the words after `serve` give with `--clients`, whose word this is, and without `--at`.
fn read_many<'a>(given: &ArgMatches<'a>, clients: &'a str) -> Result<Invocation<'a>, UsageFault<'a>>
    requires clients { first_of (codes "clients") (rows_of (found_of given.now)) ≡ Some clients.now }
    requires at { first_of (codes "at") (rows_of (found_of given.now)) ≡ None }
    ensures asked { IfOk result (IsOrdered (GivesAs (codes "serve") (rows_of (found_of given.now)))) }
    ensures refused { IfErr result (IsUnfit (GivesAs (codes "serve") (rows_of (found_of given.now)))) }
{
    let Some(file) = given.get_str("file") else {
        return Err(UsageFault::ServingClients);
    };
    let counts = CountWords {
        clients,
        connections: given.get_str("connections"),
        wait: given.get_str("wait"),
        idle: given.get_str("idle"),
        block: given.get_str("block"),
    };
    let Some(port) = given.get_str("port") else {
        let Some(socket) = given.get_str("socket") else {
            return Err(UsageFault::ServingClients);
        };
        return many_on_socket(file, socket, counts);
    };
    if given.get_str("socket").is_some() {
        return Err(UsageFault::ServingClients);
    }
    many_on_port(file, port, counts)
}

// The order to serve many clients on a port.
fn many_on_port<'a>(
    file: &'a str,
    port_word: &'a str,
    counts: CountWords<'a>,
) -> Result<Invocation<'a>, UsageFault<'a>>
    ensures asked { IfOk result (IsOrdered (λ given. given
        ≡ ServeClients file.now (AtPort port_word.now) (given_counts counts.entry))) }
    ensures refused { IfErr result (IsUnfit (λ given. given
        ≡ ServeClients file.now (AtPort port_word.now) (given_counts counts.entry))) }
{
    let port = read_number(NumberOption::Port, port_word)?;
    let many = read_counts(counts)?;
    Ok(Invocation::ServeClients {
        file,
        place: ServedPlace {
            place: ListenPlace::Port(port as u16),
            protocol: Protocol::Frames,
            door: PlaceDoor::Anyone,
            access: SocketAccess::Owner,
            tells_open: false,
        },
        many,
    })
}

// The order to serve many clients on a socket.
fn many_on_socket<'a>(
    file: &'a str,
    socket: &'a str,
    counts: CountWords<'a>,
) -> Result<Invocation<'a>, UsageFault<'a>>
    ensures asked { IfOk result (IsOrdered (λ given. given
        ≡ ServeClients file.now (AtSocket socket.now) (given_counts counts.entry))) }
    ensures refused { IfErr result (IsUnfit (λ given. given
        ≡ ServeClients file.now (AtSocket socket.now) (given_counts counts.entry))) }
{
    if !is_socket_path(socket) {
        return Err(UsageFault::Path(socket));
    }
    let many = read_counts(counts)?;
    Ok(Invocation::ServeClients {
        file,
        place: ServedPlace {
            place: ListenPlace::Socket(socket),
            protocol: Protocol::Frames,
            door: PlaceDoor::Anyone,
            access: SocketAccess::Owner,
            tells_open: false,
        },
        many,
    })
}

/// The numbers that these words give.
pub(crate) fn read_counts<'a>(counts: CountWords<'a>) -> Result<ManyClients, UsageFault<'a>>
    ensures read { IfOk result (AreCountsGiven (given_counts counts.entry)) }
    ensures refused { IfErr result (IsNoCount (given_counts counts.entry)) }
{
    let at_once = read_number(NumberOption::Clients, counts.clients)?;
    let connections = read_some(NumberOption::Connections, counts.connections)?;
    let wait = read_some(NumberOption::Wait, counts.wait)?;
    let idle = read_some(NumberOption::Idle, counts.idle)?;
    let block = read_some(NumberOption::Block, counts.block)?;
    Ok(ManyClients {
        at_once,
        connections,
        wait: wait.unwrap_or(0),
        idle,
        block: block.unwrap_or(BLOCK_SECONDS),
    })
}

// The number that the word of an option gives, where it is given.
fn read_some<'a>(option: NumberOption, word: Option<&'a str>) -> Result<Option<u32>, UsageFault<'a>>
    ensures read { IfOk result (IsSomeNumber option (lent_word word.entry)) }
    ensures refused { IfErr result (IsNoNumber option (lent_word word.entry)) }
{
    match word {
        None => Ok(None),
        Some(word) => Ok(Some(read_number(option, word)?)),
    }
}
