//! What `run` does at a refusal.

ghost use Rattle.std.specs.Prelude.{◌≡◌};
ghost use Rattle.cli.specs.EndedRuns.{RefusalsEndRuns};
ghost use Rattle.cli.specs.Refusals.{at_refusal, ends_at, explained, explained_run};

use crate::command::Invocation;
use server::decide::EventHandler;
use sql_types::answer::Answer;
use sql_types::state::SqlState;
use std::io::Write;
use store::Store;
use wire::text_sink::TakesText;

/// What `run` does at an event that is refused.
#[derive(Clone, Copy, Debug, PartialEq, Eq)]
pub enum OnRefusal {
    /// It goes on, and says nothing.
    GoOn,
    /// `--explain`: it says on standard error where that was and what the code means, and goes on.
    Explain,
    /// `--stop`: it says so, too, and ends there, with the exit status 3.
    Stop,
}

/// What a script is run over.
#[derive(Clone, Copy)]
pub enum RunOver<'a> {
    /// The database in the file of this path.
    File(&'a str),
    /// A new database in memory whose one role is the superuser of this name.
    Memory(&'a str),
}

/// A run of a script whose refusals are told of.
#[derive(Clone, Copy)]
pub struct ExplainedRun<'a> {
    pub over: RunOver<'a>,
    /// The path of the script.
    pub script: &'a str,
    /// Whether it ends at the first refusal.
    pub stops: bool,
}

/// What the flags `--stop` and `--explain` ask for; with both it is what `--stop` asks for.
pub(crate) fn at_refusal(stop: bool, explain: bool) -> OnRefusal
    ensures { result ≡ at_refusal stop explain }
{
    if stop {
        OnRefusal::Stop
    } else if explain {
        OnRefusal::Explain
    } else {
        OnRefusal::GoOn
    }
}

/// The run that an order asks for, where its refusals are to be told of.
pub(crate) fn explained_run<'a>(order: &Invocation<'a>) -> Option<ExplainedRun<'a>>
    ensures { result ≡ explained_run order.now }
{
    match order {
        Invocation::Run {
            file,
            script,
            on_refusal,
        } => explained(RunOver::File(*file), *script, *on_refusal),
        Invocation::RunMemory {
            admin,
            script,
            on_refusal,
        } => explained(RunOver::Memory(*admin), *script, *on_refusal),
        _ => None,
    }
}

// A run of a script, where its refusals are to be told of.
fn explained<'a>(
    over: RunOver<'a>,
    script: &'a str,
    on_refusal: OnRefusal,
) -> Option<ExplainedRun<'a>>
    ensures { result ≡ explained over.entry script.entry on_refusal }
{
    let stops = match on_refusal {
        OnRefusal::GoOn => return None,
        OnRefusal::Explain => false,
        OnRefusal::Stop => true,
    };
    Some(ExplainedRun {
        over,
        script,
        stops,
    })
}

/// Whether a script that ends at the first refusal, or does not, ends at this answer. Where the server has
/// stopped it ends by itself.
pub(crate) fn ends_at(stops: bool, answer: &Answer) -> bool
    ensures { result ≡ ends_at stops answer.now }
{
    match answer {
        Answer::Refused(SqlState::IoError) => false,
        Answer::Refused(_) => stops,
        _ => false,
    }
}

/// A script that ended with status 3 was ended by its last answer: a refusal at which it was to end, where all
/// answers before it are none. For the sink says at the end that the script ended at a refusal only where
/// that was so.
pub fn refusals_end_runs<S: Store, X: EventHandler, K: TakesText, E: Write>()
    ensures { RefusalsEndRuns X S.state K.Sink E.contents X.Reads }
{}
