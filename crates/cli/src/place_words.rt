//! The word of `--at`, which names a place and a protocol.

ghost use Rattle.std.specs.Prelude.{◌≡◌, ◌≢◌, ◌++◌, ◌↔◌, IsTrue, List, [], ◌∷◌, ℕ, Some, IfOk, IfErr, MatchOption, codes};
ghost use Rattle.clap.specs.Words.{all_of, first_of, found_of, rows_of};
ghost use Rattle.cli.specs.CommandLine.{At, BarsSuperusers, GivesAs, IsNoFolder, IsNoNumber, IsNoPath, IsNoPlace, IsNoPlaceAs, IsOrdered, IsPlaceAs, IsUnfit, NamesPlace, ServeClients, given_counts, lent_word};
ghost use Rattle.cli.specs.PlaceWords.{HasNoComma, IsFolderServed, IsPortServed, IsSocketFolder, IsSocketServed, NoPlaceWord, place_word, with_options};

use crate::command::{Invocation, UsageFault, is_socket_path, read_number};
use crate::number::NumberOption;
use crate::place_options::{read_guard, split_at_comma};
use crate::serve_words::{CountWords, read_counts};
use crate::served_place::{PlaceDoor, Protocol, ServedPlace};
use clap::ArgMatches;
use systems::{ListenPlace, SocketAccess};

/// What the word of `--at` says before its colon.
#[derive(Clone, Copy, PartialEq, Eq)]
pub enum PlaceKind {
    /// `port:PORT`: a port, in frames.
    Port,
    /// `socket:PATH`: a Unix socket, in frames.
    Socket,
    /// `pgport:PORT`: a port, by PostgreSQL's protocol.
    PostgresPort,
    /// `pgsocket:FOLDER`: the Unix socket of a folder, by PostgreSQL's protocol.
    PostgresFolder,
}

/// The word of `--at`, taken apart.
#[derive(Clone, Copy)]
pub(crate) struct PlaceWord<'a> {
    kind: PlaceKind,
    // What stands behind the colon.
    rest: &'a str,
    // What stands behind the first comma.
    options: Option<&'a str>,
}

/// The order that the words after `serve` give with one `--at`, whose word this is: it does not say that no
/// superuser is admitted.
pub(crate) fn read_at<'a>(
    given: &ArgMatches<'a>,
    word: &'a str,
) -> Result<Invocation<'a>, UsageFault<'a>>
    requires at { first_of (codes "at") (rows_of (found_of given.now)) ≡ Some word.now }
    requires alone { all_of (codes "at") (rows_of (found_of given.now)) ≡ Some (word.now ∷ []) }
    requires plain { BarsSuperusers word.now → ⊥ }
    ensures asked { IfOk result (IsOrdered (GivesAs (codes "serve") (rows_of (found_of given.now)))) }
    ensures refused { IfErr result (IsUnfit (GivesAs (codes "serve") (rows_of (found_of given.now)))) }
{
    let Some(file) = given.get_str("file") else {
        return Err(UsageFault::ServingAt);
    };
    let Some(clients) = given.get_str("clients") else {
        return Err(UsageFault::ServingAt);
    };
    if given.get_str("port").is_some() {
        return Err(UsageFault::ServingAt);
    }
    if given.get_str("socket").is_some() {
        return Err(UsageFault::ServingAt);
    }
    let Some(place) = split_place(word) else {
        return Err(UsageFault::ServingAt);
    };
    let counts = CountWords {
        clients,
        connections: given.get_str("connections"),
        wait: given.get_str("wait"),
        idle: given.get_str("idle"),
        block: given.get_str("block"),
    };
    many_at(file, place, counts)
}

// The kind and the rest of a word for a place, and what stands behind its first comma. `None`: it has none of the kinds.
pub(crate) fn split_place(word: &str) -> Option<PlaceWord<'_>>
    ensures { MatchOption result (NoPlaceWord word.now) (λ place.
        (word.now ≡ with_options (place_word place.kind place.rest.now) (lent_word place.options))
        × HasNoComma (place_word place.kind place.rest.now)) }
{
    let (place, options) = split_at_comma(word);
    let (kind, rest) = split_kind(place)?;
    Some(PlaceWord {
        kind,
        rest,
        options,
    })
}

// The kind of a word for a place, and what stands behind its colon. `None`: it has none of the kinds.
fn split_kind(word: &str) -> Option<(PlaceKind, &str)>
    ensures { MatchOption result ((kind : PlaceKind) (rest : List ℕ) → word.now ≢ place_word kind rest)
        (λ it. word.now ≡ place_word it.0 it.1.now) }
{
    if let Some(rest) = rest_behind(word, "port:") {
        return Some((PlaceKind::Port, rest));
    }
    if let Some(rest) = rest_behind(word, "socket:") {
        return Some((PlaceKind::Socket, rest));
    }
    if let Some(rest) = rest_behind(word, "pgport:") {
        return Some((PlaceKind::PostgresPort, rest));
    }
    let rest = rest_behind(word, "pgsocket:")?;
    Some((PlaceKind::PostgresFolder, rest))
}

// What stands behind this beginning of a word, if it begins so.
fn rest_behind<'a>(word: &'a str, beginning: &'static str) -> Option<&'a str>
    ensures { MatchOption result ((rest : List ℕ) → word.now ≢ beginning.now ++ rest) (λ rest. word.now ≡ beginning.now ++ rest.now) }
{
    word.strip_prefix(beginning)
}

// The order to serve many clients at a place.
fn many_at<'a>(
    file: &'a str,
    place: PlaceWord<'a>,
    counts: CountWords<'a>,
) -> Result<Invocation<'a>, UsageFault<'a>>
    ensures asked { IfOk result (IsOrdered (λ given. given
        ≡ ServeClients file.now (At place.entry.kind place.entry.rest.now (lent_word place.entry.options)) (given_counts counts.entry))) }
    ensures refused { IfErr result (IsUnfit (λ given. given
        ≡ ServeClients file.now (At place.entry.kind place.entry.rest.now (lent_word place.entry.options)) (given_counts counts.entry))) }
{
    let place = read_place(place)?;
    let many = read_counts(counts)?;
    Ok(Invocation::ServeClients { file, place, many })
}

// The place that a word names, and whom it lets in.
pub(crate) fn read_place<'a>(word: PlaceWord<'a>) -> Result<ServedPlace<'a>, UsageFault<'a>>
    ensures read { IfOk result (IsPlaceAs word.entry.kind word.entry.rest.now (lent_word word.entry.options)) }
    ensures refused { IfErr result (IsNoPlaceAs word.entry.kind word.entry.rest.now (lent_word word.entry.options)) }
{
    let PlaceWord {
        kind,
        rest,
        options,
    } = word;
    let served = place_of(kind, rest)?;
    let guard = read_guard(kind, options)?;
    Ok(ServedPlace {
        place: served.place,
        protocol: served.protocol,
        door: guard.door,
        access: guard.access,
        tells_open: true,
    })
}

// The place of this kind that a word names.
fn place_of<'a>(kind: PlaceKind, rest: &'a str) -> Result<ServedPlace<'a>, UsageFault<'a>>
    ensures read { IfOk result (NamesPlace kind rest.now) }
    ensures refused { IfErr result (IsNoPlace kind rest.now) }
{
    match kind {
        PlaceKind::Port => at_port(Protocol::Frames, rest),
        PlaceKind::Socket => at_socket(rest),
        PlaceKind::PostgresPort => at_port(Protocol::Postgres, rest),
        PlaceKind::PostgresFolder => in_folder(rest),
    }
}

// A port of 127.0.0.1 whose number is this word.
fn at_port<'a>(protocol: Protocol, word: &'a str) -> Result<ServedPlace<'a>, UsageFault<'a>>
    ensures read { IfOk result (IsPortServed protocol word.now) }
    ensures refused { IfErr result (IsNoNumber NumberOption.Port (Some word.now)) }
{
    let port = read_number(NumberOption::Port, word)?;
    Ok(ServedPlace {
        place: ListenPlace::Port(port as u16),
        protocol,
        door: PlaceDoor::Anyone,
        access: SocketAccess::Owner,
        tells_open: true,
    })
}

// The socket of this path, in frames.
fn at_socket<'a>(path: &'a str) -> Result<ServedPlace<'a>, UsageFault<'a>>
    ensures read { IfOk result (IsSocketServed path.now) }
    ensures refused { IfErr result (IsNoPath path.now) }
{
    if !is_socket_path(path) {
        return Err(UsageFault::Path(path));
    }
    Ok(ServedPlace {
        place: ListenPlace::Socket(path),
        protocol: Protocol::Frames,
        door: PlaceDoor::Anyone,
        access: SocketAccess::Owner,
        tells_open: true,
    })
}

// The socket of this folder, by PostgreSQL's protocol.
fn in_folder<'a>(folder: &'a str) -> Result<ServedPlace<'a>, UsageFault<'a>>
    ensures read { IfOk result (IsFolderServed folder.now) }
    ensures refused { IfErr result (IsNoFolder folder.now) }
{
    if !is_socket_folder(folder) {
        return Err(UsageFault::Folder(folder));
    }
    Ok(ServedPlace {
        place: ListenPlace::PostgresFolder(folder),
        protocol: Protocol::Postgres,
        door: PlaceDoor::Anyone,
        access: SocketAccess::Owner,
        tells_open: true,
    })
}

/// How many bytes a folder has at most whose socket has a path that the system takes, of 107 bytes.
const MAX_SOCKET_FOLDER_LENGTH: usize = 93;

/// Whether the system takes the path of the socket that this folder has for PostgreSQL's clients: the
/// folder has 1 to 93 bytes.
pub fn is_socket_folder(folder: &str) -> bool
    ensures { IsTrue result ↔ IsSocketFolder folder.now }
{
    !folder.is_empty() && folder.len() <= MAX_SOCKET_FOLDER_LENGTH
}
