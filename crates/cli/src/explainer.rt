//! A sink of a script's answers that also tells of each refusal.

ghost use Rattle.std.specs.Prelude.{◌≡◌, ◌+◌, drop, true, false};
ghost use Rattle.wire.specs.Counts.{Rose};
ghost use Rattle.wire.specs.SessionNames.{texts_of};
ghost use Rattle.cli.specs.Explaining.{BreaksOff, EndsByOut, Explains, IsSameButEnded, IsStatementOf, SaysOf, Stays, is_skipped, lent_text, line_at, through_event};

use crate::refusals::ends_at;
use diagnostics::events::{EventLine, tell_event};
use sql_types::answer::Answer;
use std::alloc::Global;
use std::io;
use std::io::{ErrorKind, Write};
use store::Store;
use wire::script_line::{Line, one_request, read_line};
use wire::sink::Sink;
use wire::text_sink::TakesText;

/// Hands the answers of a script on, and after each tells on `err` what there is to say of its event. If
/// the script is to end at the first refusal, no answer is taken after that.
#[derive(Drop)]
pub struct Explainer<'a, K, E> {
    pub(crate) out: K,
    pub(crate) err: E,
    /// What messages call the script.
    pub(crate) script: &'a str,
    /// Its lines.
    pub(crate) lines: &'a [&'a str],
    /// Whether it ends at the first refusal.
    pub(crate) stops: bool,
    pub(crate) alloc: Global,
    /// How many lines were read: the last of them is that of the event that was answered last.
    pub(crate) read: usize,
    /// Whether all was told that there was to tell.
    pub(crate) told: bool,
    /// Whether the script ended at a refusal, and `out` took all before it.
    pub(crate) refused: bool,
    pub(crate) failures: u64,
}

impl<K: TakesText, E: Write> Explainer<'_, K, E> {
    // Tells what there is to say of the event of the line that was read last.
    fn explain(&mut self, answer: &Answer)
        ensures { SaysOf E.contents self.old answer.now self.new }
    {
        let event = EventLine {
            script: self.script,
            number: self.read,
            statement: statement_of(line_at(self.lines, self.read)),
        };
        let told = tell_event(self.alloc, event, answer, &mut self.err);
        self.told = self.told && told;
    }

    // Takes no further answer: at a refusal, or since `out` has failed.
    fn end(&mut self, refused: bool)
        ensures refused { self.new.refused ≡ refused }
        ensures counts { Rose self.old.failures self.new.failures }
        ensures same { IsSameButEnded self.old self.new }
    {
        self.refused = refused;
        self.failures = self.failures.saturating_add(1);
    }
}

impl<K: TakesText, E: Write> Sink for Explainer<'_, K, E> {
    ghost tells = { λ k s session answer l. Explains K.Sink E.contents k s session answer l };

    ghost breaks = { λ k s session answer l. BreaksOff K.Sink E.contents k s session answer l };

    ghost held = { λ k. K.held k.out };

    ghost spelled = { λ session answer. K.spelled session answer };

    ghost failures = { λ k. k.failures };

    ghost stays = { λ k l. Stays K.Sink E.contents k l };

    ghost fails = { λ k l. EndsByOut K.Sink E.contents k l };

    fn tell<S: Store>(&mut self, store: &S, session: u32, answer: &Answer) -> io::Result<()> {
        if let Err(error) = self.out.tell(store, session, answer) {
            self.end(false);
            return Err(error);
        }
        self.read = read_event(self.lines, self.read);
        self.explain(answer);
        if ends_at(self.stops, answer) {
            self.end(true);
            return Err(io::Error::from(ErrorKind::Other));
        }
        Ok(())
    }
}

impl<K: TakesText, E: Write> TakesText for Explainer<'_, K, E> {
    ghost finished = { λ k. K.finished k.out };

    fn print(&mut self, text: &str) -> io::Result<()> {
        let printed = self.out.print(text);
        if printed.is_err() {
            self.end(false);
        }
        printed
    }

    fn finish(&mut self) -> io::Result<()> {
        let finished = self.out.finish();
        if finished.is_err() {
            self.end(false);
        }
        finished
    }

    ghost takes_text = { λ session answer. K.takes_text session answer };
}

// The number of lines that were read once the next event was, of which so many were before.
fn read_event(lines: &[&str], read: usize) -> usize
    ensures { result ≡ read + through_event (drop read (texts_of lines.now)) }
{
    let mut at = read;
    while at < lines.len() {
        let line = lines[at];
        at += 1;
        if !is_skipped(line) {
            return at;
        }
    }
    at
}

// Whether a line requests nothing.
fn is_skipped(line: &str) -> bool
    ensures { result ≡ is_skipped line.now }
{
    line.is_empty() || line.as_bytes().starts_with(b"#")
}

// The line that was read last, of so many; an empty one where none was.
fn line_at<'a>(lines: &[&'a str], read: usize) -> &'a str
    ensures { result.now ≡ line_at read (texts_of lines.now) }
{
    if read == 0 || read > lines.len() {
        return "";
    }
    lines[read - 1]
}

// The statement that a line has.
fn statement_of(line: &str) -> Option<&str>
    ensures { IsStatementOf line.now (lent_text result) }
{
    // For the proof: a line spells one request.
    one_request();
    match read_line(line) {
        Some(Line::Statement { name: _, text }) => Some(text),
        Some(Line::Skipped) => None,
        Some(Line::Open { name: _, login: _ }) => None,
        Some(Line::Close { name: _ }) => None,
        None => None,
    }
}
