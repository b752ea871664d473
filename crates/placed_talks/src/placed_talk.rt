//! A conversation of one of four kinds.

ghost use Rattle.placed_talks.specs.Kinds.{bad_more_of, comes_as_of, front_more_of, front_of, hears_as, learns_as, rejects_as, starts_as, wants_of};

use std::alloc::AllocError;
use talks::talk::{MessageFront, Talk};
use talks::want::{Reply, Want};

/// A conversation at one of the places of a server: of the kind of that place, by its protocol and by
/// whether it asks for a password. It is of one kind from its beginning on, and hears, learns and says
/// what a conversation of that kind does.
#[derive(Drop)]
pub enum PlacedTalk<F, P, V, W> {
    /// In frames, at a place that asks for no password.
    Frames(F),
    /// By PostgreSQL's protocol, at a place that asks for no password.
    Postgres(P),
    /// In frames, at a place that asks for one.
    FramesWithPassword(V),
    /// By PostgreSQL's protocol, at a place that asks for one.
    PostgresWithPassword(W),
}

impl<F: Talk, P: Talk, V: Talk, W: Talk> Talk for PlacedTalk<F, P, V, W> {
    ghost starts = { λ t. starts_as F.Talk P.Talk V.Talk W.Talk t };

    ghost wants = { λ t. wants_of F.Talk P.Talk V.Talk W.Talk t };

    ghost front = { λ t bytes. front_of F.Talk P.Talk V.Talk W.Talk t bytes };

    ghost hears = { λ t message said u. hears_as F.Talk P.Talk V.Talk W.Talk t message said u };

    ghost rejects = { λ t said u. rejects_as F.Talk P.Talk V.Talk W.Talk t said u };

    ghost learns = { λ t reply said u. learns_as F.Talk P.Talk V.Talk W.Talk t reply said u };

    ghost comes_as = { λ t. comes_as_of F.Talk P.Talk V.Talk W.Talk t };

    ghost front_more = { λ t bytes more n is. front_more_of F.front_more P.front_more V.front_more W.front_more t bytes more n is };

    ghost bad_more = { λ t bytes more is. bad_more_of F.bad_more P.bad_more V.bad_more W.bad_more t bytes more is };

    fn want(&self) -> &Want {
        match self {
            PlacedTalk::Frames(talk) => talk.want(),
            PlacedTalk::Postgres(talk) => talk.want(),
            PlacedTalk::FramesWithPassword(talk) => talk.want(),
            PlacedTalk::PostgresWithPassword(talk) => talk.want(),
        }
    }

    fn comes_as(&self) -> Option<&str> {
        match self {
            PlacedTalk::Frames(talk) => talk.comes_as(),
            PlacedTalk::Postgres(talk) => talk.comes_as(),
            PlacedTalk::FramesWithPassword(talk) => talk.comes_as(),
            PlacedTalk::PostgresWithPassword(talk) => talk.comes_as(),
        }
    }

    fn front(&self, bytes: &[u8]) -> MessageFront {
        match self {
            PlacedTalk::Frames(talk) => talk.front(bytes),
            PlacedTalk::Postgres(talk) => talk.front(bytes),
            PlacedTalk::FramesWithPassword(talk) => talk.front(bytes),
            PlacedTalk::PostgresWithPassword(talk) => talk.front(bytes),
        }
    }

    fn hear(&mut self, message: &[u8], out: &mut Vec<u8>) -> Result<(), AllocError> {
        match self {
            PlacedTalk::Frames(talk) => talk.hear(message, out),
            PlacedTalk::Postgres(talk) => talk.hear(message, out),
            PlacedTalk::FramesWithPassword(talk) => talk.hear(message, out),
            PlacedTalk::PostgresWithPassword(talk) => talk.hear(message, out),
        }
    }

    fn reject(&mut self, out: &mut Vec<u8>) -> Result<(), AllocError> {
        match self {
            PlacedTalk::Frames(talk) => talk.reject(out),
            PlacedTalk::Postgres(talk) => talk.reject(out),
            PlacedTalk::FramesWithPassword(talk) => talk.reject(out),
            PlacedTalk::PostgresWithPassword(talk) => talk.reject(out),
        }
    }

    fn learn(&mut self, reply: Reply, out: &mut Vec<u8>) -> Result<(), AllocError> {
        match self {
            PlacedTalk::Frames(talk) => talk.learn(reply, out),
            PlacedTalk::Postgres(talk) => talk.learn(reply, out),
            PlacedTalk::FramesWithPassword(talk) => talk.learn(reply, out),
            PlacedTalk::PostgresWithPassword(talk) => talk.learn(reply, out),
        }
    }

    fn give_up(&mut self) {
        match self {
            PlacedTalk::Frames(talk) => talk.give_up(),
            PlacedTalk::Postgres(talk) => talk.give_up(),
            PlacedTalk::FramesWithPassword(talk) => talk.give_up(),
            PlacedTalk::PostgresWithPassword(talk) => talk.give_up(),
        }
    }
}
