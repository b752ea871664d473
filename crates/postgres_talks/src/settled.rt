//! Texts beside the language that are answered without the machine.

ghost use Rattle.std.specs.Prelude.{◌≡◌, map};
ghost use Rattle.std.specs.Option.{option_map};
ghost use Rattle.postgres_talks.specs.Settled.{lines, settled_in, settled_row, settled_tag, substitute_in, substitutes};

use crate::words::is_same_word;
use postgres_texts::settings::SessionSetting;

/// What a text beside the language is, which clients of PostgreSQL send when they start and when a pool takes them back
/// (PostgreSQL 15 manual, part VI). What is set is so already, or changes nothing that is done here.
#[derive(Clone, Copy, PartialEq, Eq)]
pub enum Settled {
    Set,
    Reset,
    CloseAll,
    DeallocateAll,
    UnlistenAll,
    AdvisoryUnlockAll,
    CurrentSchema,
    Version,
    Show(SessionSetting),
}

/// Lines, each the tokens of a text in small letters with a blank between two, and what each is.
const LINES: [(&str, Settled); 29] = [
    ("set client_encoding = 'utf8'", Settled::Set),
    ("set client_encoding to 'utf8'", Settled::Set),
    ("set names 'utf8'", Settled::Set),
    ("set standard_conforming_strings = on", Settled::Set),
    ("set standard_conforming_strings to on", Settled::Set),
    ("set extra_float_digits = 3", Settled::Set),
    ("set extra_float_digits to 3", Settled::Set),
    (
        "set application_name = 'postgresql jdbc driver'",
        Settled::Set,
    ),
    ("set datestyle = iso", Settled::Set),
    ("set datestyle to 'iso'", Settled::Set),
    ("set timezone = 'utc'", Settled::Set),
    ("set time zone 'utc'", Settled::Set),
    (
        "set session characteristics as transaction isolation level read committed",
        Settled::Set,
    ),
    ("reset all", Settled::Reset),
    ("close all", Settled::CloseAll),
    ("deallocate all", Settled::DeallocateAll),
    ("unlisten *", Settled::UnlistenAll),
    (
        "select pg_advisory_unlock_all ( )",
        Settled::AdvisoryUnlockAll,
    ),
    ("select current_schema ( )", Settled::CurrentSchema),
    ("select version ( )", Settled::Version),
    ("select pg_catalog . version ( )", Settled::Version),
    (
        "show transaction isolation level",
        Settled::Show(SessionSetting::TransactionIsolation),
    ),
    (
        "show transaction_isolation",
        Settled::Show(SessionSetting::TransactionIsolation),
    ),
    (
        "show standard_conforming_strings",
        Settled::Show(SessionSetting::StandardConformingStrings),
    ),
    (
        "show client_encoding",
        Settled::Show(SessionSetting::ClientEncoding),
    ),
    ("show datestyle", Settled::Show(SessionSetting::DateStyle)),
    (
        "show search_path",
        Settled::Show(SessionSetting::SearchPath),
    ),
    (
        "show server_version",
        Settled::Show(SessionSetting::ServerVersion),
    ),
    ("show timezone", Settled::Show(SessionSetting::TimeZone)),
];

/// What a line stands for that is no statement of the language.
#[derive(Clone, Copy, PartialEq, Eq)]
pub enum Substitute {
    Begin,
    BeginReadOnly,
    Commit,
    Rollback,
    DiscardAll,
}

/// Lines, and what each stands for.
const SUBSTITUTES: [(&str, Substitute); 14] = [
    ("end", Substitute::Commit),
    ("end transaction", Substitute::Commit),
    ("abort", Substitute::Rollback),
    ("abort transaction", Substitute::Rollback),
    ("begin isolation level read committed", Substitute::Begin),
    (
        "begin transaction isolation level read committed",
        Substitute::Begin,
    ),
    ("begin read write", Substitute::Begin),
    ("begin read only", Substitute::BeginReadOnly),
    ("begin transaction read only", Substitute::BeginReadOnly),
    ("start transaction read only", Substitute::BeginReadOnly),
    (
        "begin isolation level read committed read only",
        Substitute::BeginReadOnly,
    ),
    (
        "begin transaction isolation level read committed , read only",
        Substitute::BeginReadOnly,
    ),
    (
        "start transaction isolation level read committed , read only",
        Substitute::BeginReadOnly,
    ),
    ("discard all", Substitute::DiscardAll),
];

impl Settled {
    /// What a line is, in any case, if it is one of these.
    pub fn of_line(line: &str) -> Option<Settled>
        ensures { result ≡ settled_in lines line.now }
    {
        settled_in(&LINES, line)
    }

    /// The tag with which it is answered.
    pub fn tag(self) -> &'static str
        ensures { result.now ≡ settled_tag self }
    {
        match self {
            Settled::Set => "SET",
            Settled::Reset => "RESET",
            Settled::CloseAll => "CLOSE CURSOR ALL",
            Settled::DeallocateAll => "DEALLOCATE ALL",
            Settled::UnlistenAll => "UNLISTEN",
            Settled::Show(_) => "SHOW",
            Settled::AdvisoryUnlockAll | Settled::CurrentSchema | Settled::Version => "SELECT 1",
        }
    }
}

impl Settled {
    /// The name and the value of the one column of its one row, if it has one.
    pub fn row(self) -> Option<(&'static str, &'static str)>
        ensures { option_map (λ r. (r.0.now, r.1.now)) result ≡ settled_row self }
    {
        match self {
            Settled::Version => Some(("version", "PostgreSQL 15.0 (Guarddb)")),
            Settled::CurrentSchema => Some(("current_schema", "public")),
            Settled::AdvisoryUnlockAll => Some(("pg_advisory_unlock_all", "")),
            Settled::Show(setting) => Some((setting.name(), setting.initial_value())),
            _ => None,
        }
    }
}

// What a line is among these, in any case.
fn settled_in(mut lines: &[(&str, Settled)], line: &str) -> Option<Settled>
    ensures { result ≡ settled_in (map (λ l. (l.0.now, l.1)) lines.entry.now) line.now }
{
    while let [first, rest @ ..] = lines {
        if is_same_word(first.0.as_bytes(), line.as_bytes()) {
            return Some(first.1);
        }
        lines = rest;
    }
    None
}

/// What a line stands for, in any case, if it is one of these.
pub fn substitute_of(line: &str) -> Option<Substitute>
    ensures { result ≡ substitute_in substitutes line.now }
{
    substitute_in(&SUBSTITUTES, line)
}

fn substitute_in(mut lines: &[(&str, Substitute)], line: &str) -> Option<Substitute>
    ensures { result ≡ substitute_in (map (λ l. (l.0.now, l.1)) lines.entry.now) line.now }
{
    while let [first, rest @ ..] = lines {
        if is_same_word(first.0.as_bytes(), line.as_bytes()) {
            return Some(first.1);
        }
        lines = rest;
    }
    None
}
