//! Texts that were read lately, with the statements that they are read as.

ghost use Rattle.std.specs.Prelude.{◌≤◌, length, IfOk, IfSome, OnErr, Ok};
ghost use Rattle.expr_parser.specs.Stages.{max_text_length};
ghost use Rattle.sessions.specs.Readings.{ReadsText};

use crate::kept_text::KeptText;
use crate::reading::read_text;
use sql_ast::statement::Statement;
use sql_types::state::SqlState;
use std::alloc::{AllocError, Global};
use std::cell::RefCell;

/// How many texts are kept at most, with their statements.
const MOST_KEPT: usize = 32;

/// The most bytes of a text that is kept.
const LONGEST_KEPT: usize = 2_048;

/// How many bytes at the end of a text tell its place.
const TELLING: usize = 16;

/// What reads texts: where it takes memory from, and the texts that were read lately.
#[derive(Clone, Copy)]
pub(crate) struct TextReader<'a> {
    pub(crate) alloc: Global,
    pub(crate) readings: &'a Readings,
}

impl<'a> TextReader<'a> {
    /// What a text is read as: its statement, or the code of the first stage of the parser that refuses
    /// it. The only error is that an allocation failed, and it comes only for a text of at most 65,536
    /// bytes. A statement that is kept of the text is taken out, and then nothing is allocated.
    pub(crate) fn read(&self, text: &str) -> Result<Result<Statement, SqlState>, AllocError>
        ensures reads { IfOk result (ReadsText text.now) }
        ensures memory { OnErr result (length text.now ≤ max_text_length) }
    {
        match self.readings.take(text) {
            Some(statement) => Ok(Ok(statement)),
            None => read_text(self.alloc, text),
        }
    }

    /// Keeps the statement of a text that is not too long, where there are places and memory for it.
    pub(crate) fn keep(&self, text: &str, statement: Statement)
        requires { ReadsText text.now (Ok statement) }
    {
        if text.len() <= LONGEST_KEPT {
            self.readings.keep(self.alloc, text, statement);
        }
    }

    /// Keeps the statement of a text that is to be run next, and is the first to make places.
    pub(crate) fn keep_for_run(&self, text: &str, statement: Statement)
        requires { ReadsText text.now (Ok statement) }
    {
        self.readings.make_places(self.alloc);
        self.keep(text, statement);
    }
}

/// The statements of texts that were read lately, so that a text which comes again is not read again.
/// No clause says what is kept: nothing that is answered depends on it.
#[derive(Drop)]
pub(crate) struct Readings {
    // The places, each with a text or without one; none before the first are made.
    places: RefCell<Option<Vec<Option<KeptText>>>>,
}

impl Readings {
    /// No places, and no memory taken.
    pub(crate) fn new() -> Readings {
        Readings {
            places: RefCell::new(None),
        }
    }

    // Makes the places where there are none and where there is memory for them.
    fn make_places(&self, alloc: Global) {
        let Ok(mut places) = self.places.try_borrow_mut() else {
            return;
        };
        if places.is_none() {
            *places = empty_places(alloc).ok();
        }
    }

    // The statement that is kept of a text, taken out.
    fn take(&self, text: &str) -> Option<Statement>
        ensures { IfSome result (λ s. ReadsText text.now (Ok s)) }
    {
        let mut places = self.places.try_borrow_mut().ok()?;
        let places = places.as_mut()?;
        let place = places.get_mut(place_of(text))?;
        take_from(place, text)
    }

    // Keeps the statement of a text, where there are places and memory for it. It takes the place of
    // another.
    fn keep(&self, alloc: Global, text: &str, statement: Statement)
        requires { ReadsText text.now (Ok statement) }
    {
        let Ok(mut places) = self.places.try_borrow_mut() else {
            return;
        };
        let Some(places) = places.as_mut() else {
            return;
        };
        if let Some(place) = places.get_mut(place_of(text)) {
            keep_in(place, alloc, text, statement);
        }
    }
}

// Places without texts.
fn empty_places(alloc: Global) -> Result<Vec<Option<KeptText>>, AllocError> {
    let mut places = Vec::with_capacity(alloc, MOST_KEPT)?;
    for _ in 0..MOST_KEPT {
        match places.push(None) {
            Ok(()) => {}
            Err(_) => return Err(AllocError),
        }
    }
    Ok(places)
}

// The place of a text, by its length and its last bytes: texts that differ in a number at their end are
// mostly apart.
fn place_of(text: &str) -> usize {
    let bytes = text.as_bytes();
    let mut sum = bytes.len();
    for byte in &bytes[bytes.len().saturating_sub(TELLING)..] {
        sum = sum.wrapping_add(usize::from(*byte));
    }
    sum % MOST_KEPT
}

// The statement in a place, taken out, if it is that of this text.
fn take_from(place: &mut Option<KeptText>, text: &str) -> Option<Statement>
    ensures { IfSome result (λ s. ReadsText text.now (Ok s)) }
{
    match place {
        Some(kept) if kept.is_of(text) => kept.take(),
        _ => None,
    }
}

// Puts the statement of a text into a place, unless memory for the text is refused.
fn keep_in(place: &mut Option<KeptText>, alloc: Global, text: &str, statement: Statement)
    requires { ReadsText text.now (Ok statement) }
{
    match place {
        Some(kept) if kept.is_of(text) => kept.put(statement),
        _ => *place = KeptText::new(alloc, text, statement).ok(),
    }
}
