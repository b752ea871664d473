//! What decides every event.

ghost use Rattle.std.specs.Prelude.{◌≡◌};

use crate::blocks::close;
use crate::opening::open;
use crate::readings::{Readings, TextReader};
use crate::texts::{asks_for_lock, decide_read, decide_text, describe, is_locked_out};
use server::decide::{Context, EventHandler};
use server::decision::Decision;
use server::execute::Execute;
use server::numbers::number_in;
use sql_ast::description::StatementDescription;
use sql_ast::statement::Statement;
use sql_types::event::Event;
use std::alloc::{AllocError, Global};
use store::{Fault, Map};

/// What decides every event over any map. A statement is what its text is read as; one over the
/// database is carried out by `X`.
#[derive(Drop)]
pub struct SessionHandler<X> {
    executor: X,
    // Texts that were read lately: what it decides does not depend on them.
    readings: Readings,
}

impl<X> SessionHandler<X> {
    /// What decides events, with this to carry out the statements over the database.
    pub fn new(executor: X) -> SessionHandler<X>
        ensures { result.executor ≡ executor }
    {
        SessionHandler {
            executor,
            readings: Readings::new(),
        }
    }

    // What reads texts, with this to take memory from.
    fn reader(&self, alloc: Global) -> TextReader<'_> {
        TextReader {
            alloc,
            readings: &self.readings,
        }
    }
}

impl<X: Execute> EventHandler for SessionHandler<X> {
    ghost use Rattle.sessions.specs.Readings.{ReadsText};
    ghost use Rattle.sessions.specs.RefusedText.{refused_text};

    ghost Reads = { ReadsText };

    ghost refuses_a_text = { refused_text };

    fn decide<M: Map>(
        &self,
        alloc: Global,
        map: &mut M,
        context: Context<'_>,
        client: u32,
        event: &Event,
    ) -> Result<Decision, Fault> {
        match event {
            Event::Open { session, login } => {
                let number = number_in(client, *session);
                match open(
                    alloc,
                    context.catalogue,
                    context.sessions,
                    number,
                    login.as_str(),
                ) {
                    Ok(decision) => Ok(decision),
                    Err(_) => Err(Fault::Memory),
                }
            }
            Event::Statement { session, text } => {
                let number = number_in(client, *session);
                let reader = self.reader(alloc);
                decide_text(&self.executor, reader, map, context, number, text.as_str())
            }
            Event::Close { session } => {
                let number = number_in(client, *session);
                Ok(close(context.writer, context.sessions, number))
            }
        }
    }

    fn decide_read<M: Map>(
        &self,
        alloc: Global,
        map: &mut M,
        context: Context<'_>,
        client: u32,
        session: u32,
        statement: &Statement,
    ) -> Result<Decision, Fault> {
        let number = number_in(client, session);
        decide_read(&self.executor, alloc, map, context, number, statement)
    }

    fn is_locked_out(
        &self,
        alloc: Global,
        context: Context<'_>,
        client: u32,
        event: &Event,
    ) -> Result<bool, AllocError> {
        match event {
            Event::Statement { session, text } => {
                let number = number_in(client, *session);
                is_locked_out(self.reader(alloc), context, number, text.as_str())
            }
            Event::Open { .. } | Event::Close { .. } => Ok(false),
        }
    }

    fn asks_for_lock(
        &self,
        alloc: Global,
        context: Context<'_>,
        client: u32,
        event: &Event,
    ) -> Result<bool, AllocError> {
        match event {
            Event::Statement { session, text } => {
                let number = number_in(client, *session);
                asks_for_lock(self.reader(alloc), context, number, text.as_str())
            }
            Event::Close { .. } | Event::Open { .. } => Ok(false),
        }
    }

    fn describe(
        &self,
        alloc: Global,
        context: Context<'_>,
        client: u32,
        session: u32,
        text: &str,
    ) -> StatementDescription {
        describe(
            &self.executor,
            self.reader(alloc),
            context,
            number_in(client, session),
            text,
        )
    }
}
