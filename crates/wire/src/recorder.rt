//! A sink in memory, which keeps the number of the store's last commit at each answer.

ghost use Rattle.std.specs.Prelude.{◌≡◌, ◌∷◌, ◌++◌, ⊤, [], refl, None};
ghost use Rattle.sql_types.specs.declared.event.Event.{Event};
ghost use Rattle.wire.specs.AnswerFrames.{answer_frames};
ghost use Rattle.wire.specs.AnswerText.{answer_text};
ghost use Rattle.wire.specs.Telling.{Told, Tells, TellsSome};
ghost use Rattle.wire.specs.Numbers.{AddsNumber};

use crate::frame_sink::TakesFrames;
use crate::sink::Sink;
use server::decide::EventHandler;
use server::server::Server;
use sql_types::answer::Answer;
use std::alloc::Global;
use std::io;
use std::io::ErrorKind;
use store::Store;

/// The number of the store's last commit at each answer that was told.
#[derive(Drop)]
pub struct Recorder {
    pub numbers: Vec<u64>,
    pub failures: u64,
}

impl Recorder {
    /// No answer was told yet.
    pub fn new(alloc: Global) -> Recorder
        ensures { result.numbers.items ≡ [] }
    {
        Recorder {
            numbers: Vec::new(alloc),
            failures: 0,
        }
    }
}

impl Sink for Recorder {
    ghost tells = { λ k s session answer l. AddsNumber k.numbers.items s.number l.numbers.items };

    ghost breaks = { λ k s session answer l. l.numbers.items ≡ k.numbers.items };

    ghost held = { λ k. None };

    ghost spelled = { λ session answer. answer_frames session (answer_text answer) };

    ghost failures = { λ k. k.failures };

    ghost stays = { λ k l. l.numbers.items ≡ k.numbers.items };

    ghost fails = { λ k l. l.numbers.items ≡ k.numbers.items };

    fn tell<S: Store>(&mut self, store: &S, _session: u32, _answer: &Answer) -> io::Result<()> {
        match self.numbers.push(store.number()) {
            Ok(()) => Ok(()),
            Err(_) => {
                self.failures = self.failures.saturating_add(1);
                Err(io::Error::from(ErrorKind::OutOfMemory))
            }
        }
    }
}

// It keeps nothing back.
impl TakesFrames for Recorder {
    ghost finished = { λ k. ⊤ };

    fn is_ready(&self) -> bool {
        true
    }

    fn tell_last<S: Store>(&mut self, store: &S, session: u32, answer: &Answer) -> io::Result<()> {
        self.tell(store, session, answer)
    }

    ghost takes_frames = { λ session answer. refl };
}

/// A recorder that was told of an event before the event was carried out has kept the number from
/// before: it was told after the event only where nothing was committed. Where the telling of the
/// first answer failed, it has kept no number at all.
pub fn told_too_early_is_seen<S: Store, X: EventHandler>(
    old: &Server<S, X>,
    new: &Server<S, X>,
    first: &Recorder,
    last: &Recorder,
)
    ensures told { (e : Event) (t : Told)
        → Tells X.Reads S.state ⟦<Recorder as Sink>⟧ old.now first.now e t new.now last.now
        → last.now.numbers.items ≡ first.now.numbers.items ++ (S.state old.now.store).number ∷ []
        → (S.state new.now.store).number ≡ (S.state old.now.store).number }
    ensures broken { (e : Event)
        → TellsSome X.Reads S.state ⟦<Recorder as Sink>⟧ old.now first.now (e ∷ []) new.now last.now
        → last.now.numbers.items ≡ first.now.numbers.items }
{}
