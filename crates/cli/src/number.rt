//! The numbers of a command line, each with its range.

ghost use Rattle.std.specs.Prelude.{◌≡◌, ◌↔◌, Some, MatchOption, IsTrue};
ghost use Rattle.cli.specs.Numbers.{IsNumberFor, NoNumberFor, least_of, most_of, number_rule};

use std::fmt;

/// A number that a command takes.
#[derive(Clone, Copy, PartialEq, Eq)]
pub enum NumberOption {
    /// `--pages N`: the pages of the file, 64 to 65,536.
    Pages,
    /// `--port P`: the port of 127.0.0.1, 1 to 65,535.
    Port,
    /// `--connections K`: how many connections are served, 1 to 65,535.
    Connections,
    /// `--idle SECONDS`: how long a connection may send nothing, in seconds, 1 to 86,400.
    Idle,
    /// `--clients N`: how many clients are served at once, 1 to 1,000.
    Clients,
    /// `--wait SECONDS`: how long a statement may wait for the writer lock, in seconds, 0 to 86,400.
    Wait,
    /// `--block SECONDS`: how long a session may hold the writer lock that another client wants, in
    /// seconds, 1 to 86,400.
    Block,
}

impl NumberOption {
    /// The least number of the range.
    pub fn least(self) -> u32
        ensures { result ≡ least_of self }
    {
        match self {
            NumberOption::Pages => 64,
            NumberOption::Port
            | NumberOption::Connections
            | NumberOption::Idle
            | NumberOption::Clients
            | NumberOption::Block => 1,
            NumberOption::Wait => 0,
        }
    }

    /// The greatest number of the range.
    pub fn most(self) -> u32
        ensures { result ≡ most_of self }
    {
        match self {
            NumberOption::Pages => 65_536,
            NumberOption::Port | NumberOption::Connections => 65_535,
            NumberOption::Idle | NumberOption::Wait | NumberOption::Block => 86_400,
            NumberOption::Clients => 1_000,
        }
    }

    /// The number that a word gives: decimal digits alone, with a value in the range of the option.
    /// `None` where the word gives none.
    pub fn read(self, word: &str) -> Option<u32>
        ensures { MatchOption result (NoNumberFor self word.now) (IsNumberFor self word.now) }
    {
        // `parse` takes a sign, and a number of the program has none.
        if word.starts_with('+') {
            return None;
        }
        match word.parse::<u32>() {
            Ok(number) if self.least() <= number && number <= self.most() => Some(number),
            _ => None,
        }
    }
}

impl fmt::Display for NumberOption {
    ghost output = { λ option. Some (number_rule option) };

    fn fmt<W: fmt::Write>(&self, f: &mut fmt::Formatter<W>) -> fmt::Result {
        match self {
            NumberOption::Pages => { write!(f, "--pages takes a decimal number from 64 to 65536") }
            NumberOption::Port => write!(f, "--port takes a decimal number from 1 to 65535"),
            NumberOption::Connections => {
                write!(f, "--connections takes a decimal number from 1 to 65535")
            }
            NumberOption::Idle => {
                write!(
                    f,
                    "--idle takes a decimal number of seconds from 1 to 86400"
                )
            }
            NumberOption::Clients => write!(f, "--clients takes a decimal number from 1 to 1000"),
            NumberOption::Wait => {
                write!(
                    f,
                    "--wait takes a decimal number of seconds from 0 to 86400"
                )
            }
            NumberOption::Block => {
                write!(
                    f,
                    "--block takes a decimal number of seconds from 1 to 86400"
                )
            }
        }
    }
}
