//! The words behind the comma of a place, which say whom it lets in.

ghost use Rattle.std.specs.Prelude.{◌≡◌, ◌≢◌, ◌↔◌, ◌++◌, IsTrue, List, ℕ, None, Some, IfOk, IfErr, MatchOption, codes};
ghost use Rattle.systems.specs.declared.place.SocketAccess.{SocketAccess};
ghost use Rattle.cli.specs.CommandLine.{IsNoOptions, lent_word};
ghost use Rattle.cli.specs.PlaceWords.{ArePasswordWords, AskForPasswords, HasNoComma, SaysGuard, IsModeWord, IsNameBefore, IsRoleWord, NoOptions, SayNothing, SaysModeBeside, SaysMore, SaysOne, SaysOptions, SaysRoleAndMode, SaysThree, SaysTwo, has_file, with_options};

use crate::command::{UsageFault, is_name};
use crate::place_words::PlaceKind;
use crate::served_place::PlaceDoor;
use systems::SocketAccess;

/// Whom a place lets in.
#[derive(Clone, Copy)]
pub(crate) struct PlaceGuard<'a> {
    /// As which role.
    pub(crate) door: PlaceDoor<'a>,
    /// Whom the file of a socket lets connect.
    pub(crate) access: SocketAccess,
}

/// Whom a place of this kind lets in, by what stands behind its comma, if there is one. `Options`: that does not say it.
pub(crate) fn read_guard<'a>(
    kind: PlaceKind,
    options: Option<&'a str>,
) -> Result<PlaceGuard<'a>, UsageFault<'a>>
    ensures read { IfOk result (λ guard. SaysGuard kind (lent_word options.entry) guard.door guard.access) }
    ensures refused { IfErr result (IsNoOptions kind (lent_word options.entry)) }
{
    let Some(words) = options else {
        return Ok(PlaceGuard {
            door: PlaceDoor::Anyone,
            access: SocketAccess::Owner,
        });
    };
    match read_options(kind, words) {
        Some(guard) => Ok(guard),
        None => Err(UsageFault::Options(words)),
    }
}

/// What stands before the first comma of a word, and what stands behind it, if there is one.
pub(crate) fn split_at_comma(word: &str) -> (&str, Option<&str>)
    ensures whole { word.now ≡ with_options result.0.now (lent_word result.1) }
    ensures first { HasNoComma result.0.now }
{
    match word.split_once(',') {
        Some((first, rest)) => (first, Some(rest)),
        None => (word, None),
    }
}

// What the words behind the comma of a place of this kind say. `None`: they say nothing of whom it lets in.
fn read_options(kind: PlaceKind, words: &str) -> Option<PlaceGuard<'_>>
    ensures { MatchOption result (NoOptions kind words.now)
        (λ guard. SaysOptions kind words.now guard.door guard.access) }
{
    let (first, rest) = split_at_comma(words);
    match rest {
        None => one_option(kind, first),
        Some(rest) => more_options(kind, first, rest),
    }
}

// What one word says.
fn one_option(kind: PlaceKind, word: &str) -> Option<PlaceGuard<'_>>
    ensures { MatchOption result (SayNothing (SaysOne kind word.now))
        (λ guard. SaysOne kind word.now guard.door guard.access) }
{
    if let Some(door) = role_door(word) {
        return Some(PlaceGuard {
            door,
            access: SocketAccess::Owner,
        });
    }
    let access = access_of(kind, word)?;
    Some(PlaceGuard {
        door: PlaceDoor::Anyone,
        access,
    })
}

// What a word says with those behind the comma after it.
fn more_options<'a>(kind: PlaceKind, first: &'a str, rest: &'a str) -> Option<PlaceGuard<'a>>
    ensures { MatchOption result (SayNothing (SaysMore kind first.now rest.now))
        (λ guard. SaysMore kind first.now rest.now guard.door guard.access) }
{
    let (second, rest) = split_at_comma(rest);
    match rest {
        None => two_options(kind, first, second),
        Some(third) => three_options(kind, first, second, third),
    }
}

// What two words say.
fn two_options<'a>(kind: PlaceKind, first: &'a str, second: &'a str) -> Option<PlaceGuard<'a>>
    ensures { MatchOption result (SayNothing (SaysTwo kind first.now second.now))
        (λ guard. SaysTwo kind first.now second.now guard.door guard.access) }
{
    if let Some(guard) = role_and_mode(kind, first, second) {
        return Some(guard);
    }
    if let Some(guard) = role_and_mode(kind, second, first) {
        return Some(guard);
    }
    let door = password_door(first, second)?;
    Some(PlaceGuard {
        door,
        access: SocketAccess::Owner,
    })
}

// What three words say.
fn three_options<'a>(
    kind: PlaceKind,
    first: &'a str,
    second: &'a str,
    third: &'a str,
) -> Option<PlaceGuard<'a>>
    ensures { MatchOption result (SayNothing (SaysThree kind first.now second.now third.now))
        (λ guard. SaysThree kind first.now second.now third.now guard.door guard.access) }
{
    if let Some(guard) = mode_beside(kind, first, second, third) {
        return Some(guard);
    }
    if let Some(guard) = mode_beside(kind, second, first, third) {
        return Some(guard);
    }
    mode_beside(kind, third, first, second)
}

// What a role and a mode say, in this order.
fn role_and_mode<'a>(kind: PlaceKind, first: &'a str, second: &'a str) -> Option<PlaceGuard<'a>>
    ensures { MatchOption result (SayNothing (SaysRoleAndMode kind first.now second.now))
        (λ guard. SaysRoleAndMode kind first.now second.now guard.door guard.access) }
{
    let door = role_door(first)?;
    let access = access_of(kind, second)?;
    Some(PlaceGuard { door, access })
}

// What a mode says, and two words that ask for passwords.
fn mode_beside<'a>(
    kind: PlaceKind,
    mode: &str,
    first: &'a str,
    second: &'a str,
) -> Option<PlaceGuard<'a>>
    ensures { MatchOption result (SayNothing (SaysModeBeside kind mode.now first.now second.now))
        (λ guard. SaysModeBeside kind mode.now first.now second.now guard.door guard.access) }
{
    let access = access_of(kind, mode)?;
    let door = password_door(first, second)?;
    Some(PlaceGuard { door, access })
}

// The door that the word `role=NAME` names. `None`: it is no such word.
fn role_door(word: &str) -> Option<PlaceDoor<'_>>
    ensures { MatchOption result ((door : PlaceDoor) → IsRoleWord word.now door → ⊥)
        (λ door. IsRoleWord word.now door) }
{
    let name = named_behind(word, "role=")?;
    Some(PlaceDoor::Only(name))
}

// The door that the words `passwords=TABLE` and `mock=ROLE` name, in either order. `None`: they are no such words.
fn password_door<'a>(first: &'a str, second: &'a str) -> Option<PlaceDoor<'a>>
    ensures { MatchOption result ((door : PlaceDoor) → AskForPasswords first.now second.now door → ⊥)
        (λ door. AskForPasswords first.now second.now door) }
{
    match table_and_mock(first, second) {
        Some(door) => Some(door),
        None => table_and_mock(second, first),
    }
}

// The door that they name in this order.
fn table_and_mock<'a>(first: &'a str, second: &'a str) -> Option<PlaceDoor<'a>>
    ensures { MatchOption result ((door : PlaceDoor) → ArePasswordWords first.now second.now door → ⊥)
        (λ door. ArePasswordWords first.now second.now door) }
{
    let table = named_behind(first, "passwords=")?;
    let mock = named_behind(second, "mock=")?;
    Some(PlaceDoor::Passwords { table, mock })
}

// The name that a word has behind this beginning. `None`: it does not begin so, or that is no name before a comma.
fn named_behind<'a>(word: &'a str, beginning: &'static str) -> Option<&'a str>
    ensures { MatchOption result ((name : List ℕ) → word.now ≡ beginning.now ++ name → IsNameBefore name → ⊥)
        (λ name. (word.now ≡ beginning.now ++ name.now) × IsNameBefore name.now) }
{
    let name = word.strip_prefix(beginning)?;
    if is_name_before(name) {
        Some(name)
    } else {
        None
    }
}

// Whether this is a name that can stand before a comma.
fn is_name_before(name: &str) -> bool
    ensures { IsTrue result ↔ IsNameBefore name.now }
{
    is_name(name) && !name.as_bytes().contains(&b',')
}

// Whom the word `mode=600` or `mode=660` lets connect. `None`: it is neither, or a place of this kind has no file.
fn access_of(kind: PlaceKind, word: &str) -> Option<SocketAccess>
    ensures { MatchOption result ((access : SocketAccess) → IsModeWord kind word.now access → ⊥)
        (λ access. IsModeWord kind word.now access) }
{
    if !has_file(kind) {
        return None;
    }
    match word {
        "mode=600" => Some(SocketAccess::Owner),
        "mode=660" => Some(SocketAccess::Group),
        _ => None,
    }
}

// Whether a place of this kind is a socket, which has a file.
fn has_file(kind: PlaceKind) -> bool
    ensures { result ≡ has_file kind }
{
    match kind {
        PlaceKind::Port | PlaceKind::PostgresPort => false,
        PlaceKind::Socket | PlaceKind::PostgresFolder => true,
    }
}
