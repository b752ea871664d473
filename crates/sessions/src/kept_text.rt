//! A text that is kept with the statement that it is read as.

ghost use Rattle.std.specs.Prelude.{◌≡◌, IfOk, IfSome, Ok, true};
ghost use Rattle.sessions.specs.Readings.{ReadsText};

use sql_ast::statement::Statement;
use sql_types::text::Text;
use std::alloc::{AllocError, Global};
use std::marker::Model;

/// A text, with the statement that it is read as while nobody has taken that out. Contracts see it as
/// the text.
#[derive(Drop)]
pub(crate) struct KeptText {
    text: Text,
    statement: Option<Statement>,
}

impl Model for KeptText {
    ghost use Rattle.std.specs.Prelude.{List, ℕ, Ok, IfSome};
    ghost use Rattle.sessions.specs.Readings.{ReadsText};

    ghost Value = { List ℕ };

    ghost view = { λ k. k.text };

    ghost invariant = { λ k. IfSome k.statement (λ s. ReadsText k.text (Ok s)) };
}

impl KeptText {
    /// A copy of a text, with its statement.
    pub(crate) fn new(
        alloc: Global,
        text: &str,
        statement: Statement,
    ) -> Result<KeptText, AllocError>
        requires { ReadsText text.now (Ok statement) }
        ensures { IfOk result (λ kept. kept ≡ text.now) }
    {
        let text = Text::from_str(alloc, text)?;
        Ok(KeptText {
            text,
            statement: Some(statement),
        })
    }

    /// Whether it is this text, letter for letter.
    pub(crate) fn is_of(&self, text: &str) -> bool
        ensures { result ≡ true → self.now ≡ text.now }
    {
        self.text.as_str() == text
    }

    /// The statement, taken out.
    pub(crate) fn take(&mut self) -> Option<Statement>
        ensures kept { self.new ≡ self.old }
        ensures reads { IfSome result (λ s. ReadsText self.old (Ok s)) }
    {
        self.statement.take()
    }

    /// Puts its statement in.
    pub(crate) fn put(&mut self, statement: Statement)
        requires { ReadsText self.old (Ok statement) }
        ensures { self.new ≡ self.old }
    {
        self.statement = Some(statement);
    }
}
