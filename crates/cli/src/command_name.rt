//! The commands by their names, and how each is called.

ghost use Rattle.std.specs.Prelude.{◌≡◌, ◌≢◌, MatchOption};
ghost use Rattle.cli.specs.CommandNames.{command_word, usage_for};
ghost use Rattle.cli.specs.declared.command_name.CommandName.{CommandName as TheCommand};

use crate::texts::{
    CHECK_USAGE, COPY_USAGE, DESCRIBE_USAGE, DUMP_USAGE, EXPLAIN_USAGE, FORMAT_USAGE,
    JOURNAL_USAGE, PASSWORD_USAGE, RESTORE_USAGE, RUN_USAGE, SERVE_USAGE, USAGE,
};

/// A command of the program.
#[derive(Clone, Copy)]
pub enum CommandName {
    Format,
    Copy,
    Dump,
    Restore,
    Journal,
    Password,
    Run,
    Serve,
    Check,
    Describe,
    Explain,
}

/// The command of this name. `None`: there is none.
pub fn command_named(name: &str) -> Option<CommandName>
    ensures { MatchOption result ((c : TheCommand) → name.now ≢ command_word c)
        (λ c. name.now ≡ command_word c) }
{
    match name {
        "format" => Some(CommandName::Format),
        "copy" => Some(CommandName::Copy),
        "dump" => Some(CommandName::Dump),
        "restore" => Some(CommandName::Restore),
        "journal" => Some(CommandName::Journal),
        "password" => Some(CommandName::Password),
        "run" => Some(CommandName::Run),
        "serve" => Some(CommandName::Serve),
        "check" => Some(CommandName::Check),
        "describe" => Some(CommandName::Describe),
        "explain" => Some(CommandName::Explain),
        _ => None,
    }
}

/// How a command is called; how the program is, where no command is named.
pub(crate) fn usage_of(command: Option<CommandName>) -> &'static str
    ensures { result.now ≡ usage_for command }
{
    match command {
        Some(CommandName::Format) => FORMAT_USAGE,
        Some(CommandName::Copy) => COPY_USAGE,
        Some(CommandName::Dump) => DUMP_USAGE,
        Some(CommandName::Restore) => RESTORE_USAGE,
        Some(CommandName::Journal) => JOURNAL_USAGE,
        Some(CommandName::Password) => PASSWORD_USAGE,
        Some(CommandName::Run) => RUN_USAGE,
        Some(CommandName::Serve) => SERVE_USAGE,
        Some(CommandName::Check) => CHECK_USAGE,
        Some(CommandName::Describe) => DESCRIBE_USAGE,
        Some(CommandName::Explain) => EXPLAIN_USAGE,
        None => USAGE,
    }
}
