//! The words of `--at`, where it is given more than once or a place admits no superuser.

ghost use Rattle.std.specs.Prelude.{◌≡◌, ◌≢◌, ◌++◌, ◌↔◌, List, ℕ, IsTrue, IfOk, IfErr, MatchOption, Some, codes, true, false};
ghost use Rattle.clap.specs.Words.{all_of, found_of, rows_of};
ghost use Rattle.cli.specs.declared.served_place.ServedPlace.{ServedPlace};
ghost use Rattle.cli.specs.CommandLine.{ArePlacesNamed, BarsSuperusers, GivesAs, HasFixedPort, IsNoPlaceOf, IsOrdered, IsPlaceNamed, IsPlaceWord, IsSeveral, IsUnfit, NamesNoPlace, lent_words};

use crate::command::{Invocation, UsageFault};
use crate::place_words::{read_place, split_place};
use crate::serve_words::{CountWords, read_counts};
use crate::served_place::NamedPlace;
use clap::ArgMatches;
use std::alloc::Global;
use systems::ListenPlace;

/// How many places a server listens at, at most.
const MOST_PLACES: usize = 8;

/// What the word of a place ends with that admits no superuser.
const NO_SUPERUSER: &str = ",no-superuser";

/// Whether the word of a place says that it admits no superuser.
pub(crate) fn admits_no_superuser(word: &str) -> bool
    ensures { IsTrue result ↔ BarsSuperusers word.now }
{
    rest_before(word, NO_SUPERUSER).is_some()
}

// What stands before this ending of a word, if it ends so.
fn rest_before<'a>(word: &'a str, ending: &'static str) -> Option<&'a str>
    ensures { MatchOption result ((rest : List ℕ) → word.now ≢ rest ++ ending.now) (λ rest. word.now ≡ rest.now ++ ending.now) }
{
    word.strip_suffix(ending)
}

/// The order that the words after `serve` give with these words of `--at`.
pub(crate) fn read_each_at<'a>(
    alloc: Global,
    given: &ArgMatches<'a>,
    words: &[&'a str],
) -> Result<Invocation<'a>, UsageFault<'a>>
    requires given { all_of (codes "at") (rows_of (found_of given.now)) ≡ Some (lent_words words.now) }
    requires several { IsSeveral (lent_words words.now) }
    ensures asked { IfOk result (IsOrdered (GivesAs (codes "serve") (rows_of (found_of given.now)))) }
    ensures refused { IfErr result (IsUnfit (GivesAs (codes "serve") (rows_of (found_of given.now)))) }
{
    let Some(file) = given.get_str("file") else {
        return Err(UsageFault::ServingAt);
    };
    let Some(clients) = given.get_str("clients") else {
        return Err(UsageFault::ServingAt);
    };
    if given.get_str("port").is_some() {
        return Err(UsageFault::ServingAt);
    }
    if given.get_str("socket").is_some() {
        return Err(UsageFault::ServingAt);
    }
    if words.len() > MOST_PLACES {
        return Err(UsageFault::Places);
    }
    let counts = CountWords {
        clients,
        connections: given.get_str("connections"),
        wait: given.get_str("wait"),
        idle: given.get_str("idle"),
        block: given.get_str("block"),
    };
    let places = read_places(alloc, words)?;
    let many = read_counts(counts)?;
    Ok(Invocation::ServePlaces { file, places, many })
}

// The places that words name, in their order.
fn read_places<'a>(alloc: Global, words: &[&'a str]) -> Result<Vec<NamedPlace<'a>>, UsageFault<'a>>
    ensures read { IfOk result (λ places. ArePlacesNamed (lent_words words.now) places.items) }
    ensures refused { IfErr result (IsNoPlaceOf (lent_words words.now)) }
{
    let mut places = Vec::new(alloc);
    let mut rest = words;
    while let [word, after @ ..] = rest {
        let Some(place) = named_place(*word) else {
            return Err(UsageFault::Place(*word));
        };
        if places.push(place).is_err() {
            return Err(UsageFault::Memory);
        }
        rest = after;
    }
    Ok(places)
}

// The place that a word names, with whom it lets in. `None`: it names none.
fn named_place(word: &str) -> Option<NamedPlace<'_>>
    ensures { MatchOption result (NamesNoPlace word.now) (IsPlaceNamed word.now) }
{
    match rest_before(word, NO_SUPERUSER) {
        Some(rest) => placed(rest, true),
        None => placed(word, false),
    }
}

// The place that a word names which says nothing more at its end, and whether it admits no superuser.
fn placed(word: &str, no_superuser: bool) -> Option<NamedPlace<'_>>
    ensures { MatchOption result ((served : ServedPlace) → IsPlaceWord word.now served → ⊥)
        (λ named. (named.no_superuser ≡ no_superuser) × IsPlaceWord word.now named.served) }
{
    let Ok(served) = read_place(split_place(word)?) else {
        return None;
    };
    // Which port the system would choose nobody could be told.
    if is_chosen(served.place) {
        return None;
    }
    Some(NamedPlace {
        served,
        no_superuser,
    })
}

// Whether it is a port that the system would choose.
fn is_chosen(place: ListenPlace<'_>) -> bool
    ensures fixed { result ≡ false → HasFixedPort place.entry }
    ensures chosen { result ≡ true → HasFixedPort place.entry → ⊥ }
{
    match place {
        ListenPlace::Port(port) => port == 0,
        _ => false,
    }
}
