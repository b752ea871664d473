//! What a client has to do with the machine.

ghost use Rattle.std.specs.Prelude.{◌≡◌, true, false};
ghost use Rattle.talks.specs.Wants.{WantsStep, WantsQuestion, WantsEnd};
ghost use Rattle.talks.specs.declared.want.Want.{Want as TheWant};

use sql_types::event::Event;
use std::time::Duration;
use talks::clients::EndCause;
use talks::want::Want;

/// What a client has to do with the machine.
#[derive(Clone, Copy, PartialEq, Eq)]
pub enum Need {
    /// Nothing now.
    Nothing,
    /// It wants a step.
    Step,
    /// It has a question.
    Question,
    /// Its connection has ended.
    Left(EndCause),
}

/// What ends the connection of a client from outside: the machine has stopped, it was cut off, or it goes
/// since its role was dropped.
#[derive(Clone, Copy)]
pub struct EndOrder {
    pub stopped: bool,
    pub cut_off: bool,
    pub expelled: bool,
}

impl EndOrder {
    /// Nothing does.
    pub fn none() -> EndOrder {
        EndOrder {
            stopped: false,
            cut_off: false,
            expelled: false,
        }
    }
}

/// Whose turn it is, and whether its event is given out that has waited, by which moment.
#[derive(Clone, Copy)]
pub struct Pick {
    pub client: u32,
    pub offered: Option<Duration>,
}

impl Pick {
    /// The turn of a client.
    pub fn of(client: u32) -> Pick {
        Pick {
            client,
            offered: None,
        }
    }
}

/// Whether a step is wanted.
pub fn is_step(want: &Want) -> bool
    ensures { result ≡ true → WantsStep want.now }
{
    match want {
        Want::Event(event) => !opens(event),
        Want::Open {
            session: _,
            login: _,
            entry: _,
        } => true,
        _ => false,
    }
}

// Whether an event opens a session.
fn opens(event: &Event) -> bool
    ensures { result ≡ false → WantsStep (TheWant.Event event.now) }
{
    matches!(
        event,
        Event::Open {
            session: _,
            login: _
        }
    )
}

/// Whether a question is wanted.
pub fn is_question(want: &Want) -> bool
    ensures wanted { result ≡ true → WantsQuestion want.now }
    ensures none { result ≡ false → WantsQuestion want.now → ⊥ }
{
    matches!(
        want,
        Want::Standing { session: _ }
            | Want::Description {
                session: _,
                text: _
            }
            | Want::Verifier { table: _, role: _ }
    )
}

/// Whether a message is wanted.
pub fn is_message(want: &Want) -> bool
    ensures { result ≡ true → want.now ≡ TheWant.Message }
{
    matches!(want, Want::Message)
}

/// Whether no more than the end of the connection is wanted.
pub fn is_end(want: &Want) -> bool
    ensures { result ≡ true → WantsEnd want.now }
{
    matches!(want, Want::End { late: _ })
}

/// Whether no more than a late end is wanted.
pub fn is_late_end(want: &Want) -> bool {
    matches!(want, Want::End { late: true })
}

/// Whether an allocation has failed.
pub fn is_out_of_memory(want: &Want) -> bool
    ensures { result ≡ true → want.now ≡ TheWant.OutOfMemory }
{
    matches!(want, Want::OutOfMemory)
}
