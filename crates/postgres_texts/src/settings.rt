//! The settings of a session that clients of PostgreSQL set, show and reset.

ghost use Rattle.std.specs.Prelude.{◌≡◌, map};
ghost use Rattle.std.specs.Option.{option_map};
ghost use Rattle.postgres_texts.specs.Settings.{initial_value, is_free, is_level, is_told, name_of, named_in, refused, setting_named, spelled_in, value_of, values_of};
ghost use Rattle.postgres_texts.specs.SettingViews.{viewed};

use crate::words::{is_one_of, is_same};

/// A setting of a session (PostgreSQL 15 manual, chapter 20).
#[derive(Clone, Copy, Debug, PartialEq, Eq)]
pub enum SessionSetting {
    ApplicationName,
    ClientEncoding,
    ClientMinMessages,
    DateStyle,
    DefaultTransactionIsolation,
    DefaultTransactionReadOnly,
    ExtraFloatDigits,
    IntegerDatetimes,
    LockTimeout,
    SearchPath,
    ServerEncoding,
    ServerVersion,
    StandardConformingStrings,
    StatementTimeout,
    TimeZone,
    TransactionIsolation,
}

/// What a setting is when it is set to a text.
#[derive(Clone, Copy)]
pub enum SettingValue<'a> {
    /// The value.
    Kept(&'a str),
    /// PostgreSQL has the value, and this server does not: `0A000`.
    Unsupported,
    /// The text is no value of the setting: `22023`.
    Invalid,
}

const SETTINGS: [SessionSetting; 16] = [
    SessionSetting::ApplicationName,
    SessionSetting::ClientEncoding,
    SessionSetting::ClientMinMessages,
    SessionSetting::DateStyle,
    SessionSetting::DefaultTransactionIsolation,
    SessionSetting::DefaultTransactionReadOnly,
    SessionSetting::ExtraFloatDigits,
    SessionSetting::IntegerDatetimes,
    SessionSetting::LockTimeout,
    SessionSetting::SearchPath,
    SessionSetting::ServerEncoding,
    SessionSetting::ServerVersion,
    SessionSetting::StandardConformingStrings,
    SessionSetting::StatementTimeout,
    SessionSetting::TimeZone,
    SessionSetting::TransactionIsolation,
];

/// The most bytes of a value that may be any text.
const MAX_FREE: usize = 256;

// The isolation levels that are not given.
const LEVELS_ABOVE: [&[u8]; 2] = [b"repeatable read", b"serializable"];

const CLIENT_ENCODING: [(&[u8], &str); 6] = [
    (b"utf8", "UTF8"),
    (b"utf-8", "UTF8"),
    (b"utf_8", "UTF8"),
    (b"unicode", "UTF8"),
    (b"sql_ascii", "SQL_ASCII"),
    (b"sqlascii", "SQL_ASCII"),
];

const CLIENT_MIN_MESSAGES: [(&[u8], &str); 10] = [
    (b"debug5", "debug5"),
    (b"debug4", "debug4"),
    (b"debug3", "debug3"),
    (b"debug2", "debug2"),
    (b"debug1", "debug1"),
    (b"log", "log"),
    (b"notice", "notice"),
    (b"warning", "warning"),
    (b"error", "error"),
    (b"debug", "debug2"),
];

const DATE_STYLE: [(&[u8], &str); 4] = [
    (b"iso", "ISO, MDY"),
    (b"iso, mdy", "ISO, MDY"),
    (b"iso,mdy", "ISO, MDY"),
    (b"iso , mdy", "ISO, MDY"),
];

const LEVELS: [(&[u8], &str); 2] = [
    (b"read committed", "read committed"),
    (b"read uncommitted", "read uncommitted"),
];

const DEFAULT_TRANSACTION_READ_ONLY: [(&[u8], &str); 10] = [
    (b"off", "off"),
    (b"of", "off"),
    (b"false", "off"),
    (b"fals", "off"),
    (b"fal", "off"),
    (b"fa", "off"),
    (b"f", "off"),
    (b"no", "off"),
    (b"n", "off"),
    (b"0", "off"),
];

const EXTRA_FLOAT_DIGITS: [(&[u8], &str); 34] = [
    (b"3", "3"),
    (b"2", "2"),
    (b"1", "1"),
    (b"0", "0"),
    (b"-1", "-1"),
    (b"-2", "-2"),
    (b"-3", "-3"),
    (b"-4", "-4"),
    (b"-5", "-5"),
    (b"-6", "-6"),
    (b"-7", "-7"),
    (b"-8", "-8"),
    (b"-9", "-9"),
    (b"-10", "-10"),
    (b"-11", "-11"),
    (b"-12", "-12"),
    (b"-13", "-13"),
    (b"-14", "-14"),
    (b"-15", "-15"),
    (b"- 1", "-1"),
    (b"- 2", "-2"),
    (b"- 3", "-3"),
    (b"- 4", "-4"),
    (b"- 5", "-5"),
    (b"- 6", "-6"),
    (b"- 7", "-7"),
    (b"- 8", "-8"),
    (b"- 9", "-9"),
    (b"- 10", "-10"),
    (b"- 11", "-11"),
    (b"- 12", "-12"),
    (b"- 13", "-13"),
    (b"- 14", "-14"),
    (b"- 15", "-15"),
];

const TIMEOUTS: [(&[u8], &str); 1] = [(b"0", "0")];

const SEARCH_PATH: [(&[u8], &str); 4] = [
    (b"public", "public"),
    (b"\"$user\", public", "\"$user\", public"),
    (b"\"$user\",public", "\"$user\", public"),
    (b"\"$user\" , public", "\"$user\", public"),
];

const STANDARD_CONFORMING_STRINGS: [(&[u8], &str); 9] = [
    (b"on", "on"),
    (b"true", "on"),
    (b"tru", "on"),
    (b"tr", "on"),
    (b"t", "on"),
    (b"yes", "on"),
    (b"ye", "on"),
    (b"y", "on"),
    (b"1", "on"),
];

impl SessionSetting {
    /// Its name, as PostgreSQL writes it.
    pub fn name(self) -> &'static str
        ensures { result.now ≡ name_of self }
    {
        match self {
            SessionSetting::ApplicationName => "application_name",
            SessionSetting::ClientEncoding => "client_encoding",
            SessionSetting::ClientMinMessages => "client_min_messages",
            SessionSetting::DateStyle => "DateStyle",
            SessionSetting::DefaultTransactionIsolation => "default_transaction_isolation",
            SessionSetting::DefaultTransactionReadOnly => "default_transaction_read_only",
            SessionSetting::ExtraFloatDigits => "extra_float_digits",
            SessionSetting::IntegerDatetimes => "integer_datetimes",
            SessionSetting::LockTimeout => "lock_timeout",
            SessionSetting::SearchPath => "search_path",
            SessionSetting::ServerEncoding => "server_encoding",
            SessionSetting::ServerVersion => "server_version",
            SessionSetting::StandardConformingStrings => "standard_conforming_strings",
            SessionSetting::StatementTimeout => "statement_timeout",
            SessionSetting::TimeZone => "TimeZone",
            SessionSetting::TransactionIsolation => "transaction_isolation",
        }
    }

    /// The setting of a name, in any case.
    pub fn named(name: &str) -> Option<SessionSetting>
        ensures { result ≡ setting_named name.now }
    {
        named_in(&SETTINGS, name.as_bytes())
    }

    /// Its value at the start and after RESET.
    pub fn initial_value(self) -> &'static str
        ensures { result.now ≡ initial_value self }
    {
        match self {
            SessionSetting::ApplicationName => "",
            SessionSetting::ClientEncoding => "UTF8",
            SessionSetting::ClientMinMessages => "notice",
            SessionSetting::DateStyle => "ISO, MDY",
            SessionSetting::DefaultTransactionIsolation => "read committed",
            SessionSetting::DefaultTransactionReadOnly => "off",
            SessionSetting::ExtraFloatDigits => "1",
            SessionSetting::IntegerDatetimes => "on",
            SessionSetting::LockTimeout => "0",
            SessionSetting::SearchPath => "\"$user\", public",
            SessionSetting::ServerEncoding => "UTF8",
            SessionSetting::ServerVersion => "15.0 (Guarddb)",
            SessionSetting::StandardConformingStrings => "on",
            SessionSetting::StatementTimeout => "0",
            SessionSetting::TimeZone => "UTC",
            SessionSetting::TransactionIsolation => "read committed",
        }
    }

    /// Whether a client is told of it, by ParameterStatus.
    pub fn is_told(self) -> bool
        ensures { result ≡ is_told self }
    {
        match self {
            SessionSetting::ApplicationName => true,
            SessionSetting::ClientEncoding => true,
            SessionSetting::ClientMinMessages => false,
            SessionSetting::DateStyle => true,
            SessionSetting::DefaultTransactionIsolation => false,
            SessionSetting::DefaultTransactionReadOnly => true,
            SessionSetting::ExtraFloatDigits => false,
            SessionSetting::IntegerDatetimes => true,
            SessionSetting::LockTimeout => false,
            SessionSetting::SearchPath => false,
            SessionSetting::ServerEncoding => true,
            SessionSetting::ServerVersion => true,
            SessionSetting::StandardConformingStrings => true,
            SessionSetting::StatementTimeout => false,
            SessionSetting::TimeZone => true,
            SessionSetting::TransactionIsolation => false,
        }
    }

    /// What it is when it is set to a text, by SET or at the start.
    pub fn value_of(self, text: &str) -> SettingValue<'_>
        ensures { viewed result ≡ value_of self text.now }
    {
        if self.is_free() {
            if text.len() <= MAX_FREE {
                return SettingValue::Kept(text);
            }
            return SettingValue::Invalid;
        }
        match spelled_in(values_of(self), text.as_bytes()) {
            Some(value) => SettingValue::Kept(value),
            None => self.refused(text),
        }
    }

    // Whether any text may be its value.
    fn is_free(self) -> bool
        ensures { result ≡ is_free self }
    {
        matches!(
            self,
            SessionSetting::ApplicationName | SessionSetting::TimeZone
        )
    }

    fn is_level(self) -> bool
        ensures { result ≡ is_level self }
    {
        matches!(
            self,
            SessionSetting::DefaultTransactionIsolation | SessionSetting::TransactionIsolation
        )
    }

    // Why a text that spells no value is refused.
    fn refused(self, text: &str) -> SettingValue<'_>
        ensures { viewed result ≡ refused self text.now }
    {
        if self.is_level() && is_one_of(&LEVELS_ABOVE, text.as_bytes()) {
            SettingValue::Unsupported
        } else {
            SettingValue::Invalid
        }
    }
}

// The first of the settings that has the name in any case.
fn named_in(mut settings: &[SessionSetting], name: &[u8]) -> Option<SessionSetting>
    ensures { result ≡ named_in settings.entry.now name.now }
{
    while let [first, rest @ ..] = settings {
        if is_same(first.name().as_bytes(), name) {
            return Some(*first);
        }
        settings = rest;
    }
    None
}

// How each value of a setting may be spelled, and the value.
fn values_of(setting: SessionSetting) -> &'static [(&'static [u8], &'static str)]
    ensures { map (λ v. (v.0.now, v.1.now)) result.now ≡ values_of setting }
{
    match setting {
        SessionSetting::ClientEncoding => &CLIENT_ENCODING,
        SessionSetting::ClientMinMessages => &CLIENT_MIN_MESSAGES,
        SessionSetting::DateStyle => &DATE_STYLE,
        SessionSetting::DefaultTransactionIsolation => &LEVELS,
        SessionSetting::DefaultTransactionReadOnly => &DEFAULT_TRANSACTION_READ_ONLY,
        SessionSetting::ExtraFloatDigits => &EXTRA_FLOAT_DIGITS,
        SessionSetting::LockTimeout => &TIMEOUTS,
        SessionSetting::SearchPath => &SEARCH_PATH,
        SessionSetting::StandardConformingStrings => &STANDARD_CONFORMING_STRINGS,
        SessionSetting::StatementTimeout => &TIMEOUTS,
        SessionSetting::TransactionIsolation => &LEVELS,
        _ => &[],
    }
}

// The value that a text spells in any case.
fn spelled_in(mut values: &[(&[u8], &'static str)], text: &[u8]) -> Option<&'static str>
    ensures { option_map (λ value. value.now) result ≡ spelled_in (map (λ v. (v.0.now, v.1.now)) values.entry.now) text.now }
{
    while let [first, rest @ ..] = values {
        if is_same(first.0, text) {
            return Some(first.1);
        }
        values = rest;
    }
    None
}
