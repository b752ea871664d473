//! The numbers of a script's sessions, and the events that its lines request of them.

ghost use Rattle.std.specs.Prelude.{◌≡◌, [], IfOk, OnOk};
ghost use Rattle.wire.specs.ScriptLine.{request_of};
ghost use Rattle.wire.specs.SessionNames.{number_of, with_name, names_of};
ghost use Rattle.wire.specs.SessionNames.{event_for, names_after};

use crate::script_line::Line;
use indexmap::IndexSet;
use sql_types::event::Event;
use sql_types::text::Text;
use std::alloc::{AllocError, Global};

/// The numbers of a script's sessions: 1, 2 and so on, in the order in which it first names them.
#[derive(Drop)]
pub(crate) struct SessionNumbers<'a> {
    names: IndexSet<&'a str>,
}

impl<'a> SessionNumbers<'a> {
    /// No session has a number yet.
    pub(crate) fn new(alloc: Global) -> SessionNumbers<'a>
        ensures { names_of result ≡ [] }
    {
        SessionNumbers {
            names: IndexSet::new(alloc),
        }
    }

    /// The number of the session of this name; a new name gets the next one.
    fn number(&mut self, name: &'a str) -> Result<u32, AllocError>
        ensures number { IfOk result (λ number. number ≡ number_of (names_of self.old) name.now) }
        ensures names { OnOk result (names_of self.new ≡ with_name (names_of self.old) name.now) }
    {
        let (index, _) = self.names.insert_full(name)?;
        let Ok(index) = u32::try_from(index) else {
            return Err(AllocError);
        };
        match index.checked_add(1) {
            Some(number) => Ok(number),
            None => Err(AllocError),
        }
    }
}

/// The event that a line requests, if it requests one.
pub(crate) fn event_of<'a>(
    alloc: Global,
    line: Line<'a>,
    numbers: &mut SessionNumbers<'a>,
) -> Result<Option<Event>, AllocError>
    ensures event { IfOk result (λ event. event
        ≡ event_for (names_of numbers.old) (request_of line.entry)) }
    ensures names { OnOk result (names_of numbers.new
        ≡ names_after (names_of numbers.old) (request_of line.entry)) }
{
    match line {
        Line::Skipped => Ok(None),
        Line::Open { name, login } => {
            let session = numbers.number(name)?;
            let login = Text::from_str(alloc, login)?;
            Ok(Some(Event::Open { session, login }))
        }
        Line::Statement { name, text } => {
            let session = numbers.number(name)?;
            let text = Text::from_str(alloc, text)?;
            Ok(Some(Event::Statement { session, text }))
        }
        Line::Close { name } => {
            let session = numbers.number(name)?;
            Ok(Some(Event::Close { session }))
        }
    }
}
